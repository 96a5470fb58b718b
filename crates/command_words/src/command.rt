// What the words say.

use thiserror::Error;

/// The workers of a run where the words say nothing.
pub const WORKERS_UNSAID: u32 = 4;

/// The most digits of a number in a word.
pub const MOST_DIGITS: usize = 20;

/// A command that was accepted.
#[derive(Debug, Drop)]
pub enum Command {
    /// The script of a file, with the table of another one where one is named.
    Run {
        /// 1 to [`job_base::limits::MOST_WORKERS`], and [`WORKERS_UNSAID`] where the words say nothing.
        workers: u32,
        /// The name of the script's file.
        script: String,
        /// The name of the table's file.
        table: Option<String>,
        /// The frame is only planned, and its depth reported.
        depth: bool,
    },
    /// A script that is made from two numbers.
    Gen {
        /// As for a file.
        workers: u32,
        /// 0 to [`job_base::limits::MOST_SEED`].
        number: u32,
        /// 1 to [`job_base::limits::MOST_GENERATED_JOBS`].
        jobs: u32,
        /// As for a file.
        depth: bool,
    },
}

/// Why there is no command.
#[derive(Clone, Copy, Debug, PartialEq, Eq, Error)]
pub enum WordsFault {
    /// The words are not of the command. It comes exactly where that is so.
    #[error("the words are not of the command")]
    Usage,
    /// It comes only for accepted words.
    #[error("out of memory")]
    NoMemory,
}
