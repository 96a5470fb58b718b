//! What kernels mean: their names are looked up, and their static faults found.
//!
//! `check_kernel` makes the kernel that a raw kernel is, or reports its first static fault: the first in the order of
//! the tokens, and of the faults of one token that of the lowest number. It takes memory for the nodes that are kept
//! and for the tree. Texts and raw forms are of `kernel_text` and `kernel_raw`, whose public names stand here too, so
//! that who reads kernels uses this crate alone.
#![tactic(auto)]

mod check;

pub use check::check_kernel;
pub use frame_ast::kernel::{Body, FaultKind, Kernel, Param, ParamKind};
pub use frame_grammar::{TokenAt, TokenKind};
pub use kernel_raw::{
    KernelFault, RawForm, RawKernel, RawNode, RawParam, StaticFault, are_shallow, parse_kernel,
    raw_kernel,
};
pub use kernel_text::{Mark, Token, lex, line_at, lines_in};
