//! Kernels as code: what instructions are and what code means, the compiler, and the laws that code does what the tree
//! does.
//!
//! An instruction has eight bytes at most and works on 256 slots of whole numbers, which a byte names: first the
//! locals, then temporaries, the index, the parameters that are `int`s, and constants. A leaf that has a slot is an
//! operand where it stands. Jumps go forward alone; a loop is one instruction that names blocks of a table, its test
//! and its body. So what code means (`specs/Running`) is a recursion on the list of its instructions, over any way to
//! keep arguments and over the same states and actions as the meaning of kernels.
//!
//! `specs/Compiling` has the code of an expression, `specs/Statements` that of statements and blocks. Three laws tie
//! them to the meaning of kernels: `expressions_are_compiled` (the value in its slot, or the same trap; nothing else
//! changes but temporaries), `bodies_are_compiled` (the same end: steps, begun indexes and store, or the same trap with
//! the same store) and `executions_are_compiled`, which says the last of a whole Execute.
//!
//! `compile` makes the code of a checked kernel (`specs/Codes`), in a time in its nodes and the constants; out of
//! memory is its only error. An enemy gets at most three instructions for each node. Two laws are for a machine that
//! runs it: `kernels_are_compiled` (the trap and the store of an Execute) and `code_is_safe` (`specs/Safe`: what each
//! instruction names is there, may be used so, and a stream is written only where an index of it was begun).
//! `proofs/Places` has what a machine that keeps its place in the code goes by.
//!
//! The numbers that get a slot are the first ones that the text has. `kernel_machine` runs code over a memory.
#![tactic(auto)]

mod code;
mod constants;
mod expressions;
mod instruction;
mod laws;
mod statements;

pub use code::{Code, compile};
pub use expressions::lay;
pub use instruction::{CONSTANTS, INDEX, INTS, Instruction, MOST_CONSTANTS, TEMPORARIES};
pub use laws::{
    bodies_are_compiled, code_is_safe, executions_are_compiled, expressions_are_compiled,
    kernels_are_compiled,
};
