//! Scripts and their pictures in the language of Graphviz, and words and scripts of which none is drawn. Tests alone.
#![tactic(auto)]

#[cfg(test)]
mod graphs;
