//! Worked sentences of the grammar, by computation of the definitions in `frame_grammar` and `kernel_code`.
//!
//! There is no code here. The productions are constants that `frame_grammar` is proved to parse by, and the spellings
//! are those that `kernel_code` is proved to lex by; whether they are those of the language is said here. Each row is
//! a theorem that holds by computing both sides, and was written from the grammar of `docs/LANGUAGE.md`:
//!
//! - `proofs/RowsWords.antt`: each symbol and each reserved word by its spelling, and what is no token.
//! - `proofs/RowsKernels.antt`, `RowsExpressions`, `RowsStatements`, `RowsFiles`: sentences, with the actions that are
//!   noted among their tokens. Each production stands in one at least. A kernel is read with the end of a line after
//!   each token too, and a statement in a block too.
//! - `proofs/RowsFollowing.antt`, `RowsFollowingStatements`: the tokens so far, and all of those that may come next.
//!
//! So a production that takes another token, notes another action, or takes too little or too much there is refused by
//! the check. Read `proofs/Marks.antt` first, which says how rows are written; `proofs/Walk.antt` shows that what the
//! table finds along some tokens is so of all derivations.
#![tactic(auto)]
