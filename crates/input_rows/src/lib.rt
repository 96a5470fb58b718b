//! What comes in and goes out: tables, words of the command line and scripts that are made, each as rows of an input
//! and what it gives; and files, sinks and gates, of the system and in memory. Tests alone.
#![tactic(auto)]

#[cfg(test)]
mod adapters;
#[cfg(test)]
mod drawing_words;
#[cfg(test)]
mod made_scripts;
#[cfg(test)]
mod stand_ins;
#[cfg(test)]
mod tables;
#[cfg(test)]
mod words;
