//! The phrases of a line of `array` with values: their tokens, and what is noted of them.
//!
//! What is noted before the token behind a phrase, whatever that token is, belongs to the phrase. The first value and
//! one behind another are the same tokens, of which the same is noted.

use frame_grammar::{Action as A, TokenKind as K};

/// `array a 5 =`
pub const HEAD: [K; 4] = [K::Array, K::Name, K::Number, K::Assign];

pub const HEAD_NOTES: [(A, u32); 5] = [
    (A::StartStatement, 0),
    (A::Name, 1),
    (A::Number, 2),
    (A::LifeNone, 3),
    (A::OpenValues, 4),
];

/// `5`, a value
pub const PLAIN: [K; 1] = [K::Number];

pub const PLAIN_NOTES: [(A, u32); 2] = [(A::Number, 0), (A::PlainNumber, 1)];

/// `-5`, a value
pub const NEGATIVE: [K; 2] = [K::Minus, K::Number];

pub const NEGATIVE_NOTES: [(A, u32); 3] = [(A::Operator, 0), (A::Number, 1), (A::MinusNumber, 2)];

/// The end of the line behind the values
pub const END: [K; 1] = [K::Line];

pub const END_NOTES: [(A, u32); 2] = [(A::CloseValues, 0), (A::ArrayStatement, 0)];
