//! The edge to the system that programs share: files of the disk, what standard output and standard error take, and the
//! words of the command line.
//!
//! What the system gives and takes is under no contract, so each file here says what it is trusted for. What the
//! adapters do with it is proved: a read that fails is counted and its name kept, a limit is kept, and of a reader
//! whose bytes are known all are read, as a writer of which it is known what it took is given the bytes once.
#![tactic(auto)]

mod disk;
mod output;
mod words;

pub use disk::DiskFiles;
pub use output::WriterSink;
pub use words::program_words;
