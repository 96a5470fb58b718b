//! What files, and kernels from outside, are made of.

use crate::TokenKind as K;
use crate::symbols::Symbol::{self, Action, Nonterminal, Terminal};
use crate::symbols::{Action as A, Nonterminal as N};

/// File: Items End
pub const FILE: [Symbol; 2] = [Nonterminal(N::Items), Terminal(K::End)];

/// Items: nothing
pub const ITEMS_END: [Symbol; 0] = [];

/// Items: Line Items
pub const ITEMS_LINE: [Symbol; 2] = [Terminal(K::Line), Nonterminal(N::Items)];

/// Items: Kernel AfterItem
pub const ITEMS_KERNEL: [Symbol; 2] = [Nonterminal(N::Kernel), Nonterminal(N::AfterItem)];

/// Items: Statement AfterItem
pub const ITEMS_STATEMENT: [Symbol; 3] = [
    Action(A::StartStatement),
    Nonterminal(N::Statement),
    Nonterminal(N::AfterItem),
];

/// AfterItem: nothing
pub const AFTER_ITEM_END: [Symbol; 0] = [];

/// AfterItem: Line Items
pub const AFTER_ITEM_LINE: [Symbol; 2] = [Terminal(K::Line), Nonterminal(N::Items)];

/// Kernel: OpenKernel '}'
pub const KERNEL: [Symbol; 2] = [Nonterminal(N::OpenKernel), Terminal(K::CloseBrace)];

/// Lines: nothing
pub const LINES_END: [Symbol; 0] = [];

/// Lines: Line Lines
pub const LINES_MORE: [Symbol; 2] = [Terminal(K::Line), Nonterminal(N::Lines)];
