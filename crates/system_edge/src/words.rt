//! The words of a program's command line.
//!
//! TRUSTED: that they are the words that the program was called with; no contract can say what these are.
use std::alloc::Global;
use std::env;
use std::io::ErrorKind;
use std::rt::Env;

/// The words after the program's name, or none where memory was not found. A word that isn't UTF-8 makes a command line
/// that asks for nothing, as no words do.
pub fn program_words<R: Env + AllocGlobal>(rt: &R) -> Option<Vec<String>> {
    let mut words = Vec::new(rt.alloc());
    let args = match env::args(rt) {
        Ok(args) => args,
        Err(fault) if fault.kind() == ErrorKind::OutOfMemory => return None,
        Err(_) => return Some(words),
    };
    for word in args.skip(1) {
        if words.push(word).is_err() {
            return None;
        }
    }
    Some(words)
}
