//! The phrases of a line of `schedule`: their tokens, and what is noted of them.
//!
//! What is noted before the token behind a phrase, whatever that token is, belongs to the phrase.

use frame_grammar::{Action as A, TokenKind as K};

/// `schedule h kernel(`
pub const HEAD: [K; 4] = [K::Schedule, K::Name, K::Name, K::OpenParen];

pub const HEAD_NOTES: [(A, u32); 5] = [
    (A::StartStatement, 0),
    (A::NotAuto, 1),
    (A::Name, 1),
    (A::Name, 2),
    (A::OpenArguments, 4),
];

/// `schedule auto h kernel(`
pub const AUTO_HEAD: [K; 5] = [K::Schedule, K::Auto, K::Name, K::Name, K::OpenParen];

pub const AUTO_HEAD_NOTES: [(A, u32); 5] = [
    (A::StartStatement, 0),
    (A::Auto, 2),
    (A::Name, 2),
    (A::Name, 3),
    (A::OpenArguments, 5),
];

/// `a`, the first argument
pub const NAMED: [K; 1] = [K::Name];

pub const NAMED_NOTES: [(A, u32); 2] = [(A::Name, 0), (A::NameArgument, 1)];

/// `5`, the first argument
pub const NUMBERED: [K; 1] = [K::Number];

pub const NUMBERED_NOTES: [(A, u32); 3] = [
    (A::Number, 0),
    (A::PlainNumber, 1),
    (A::NumberArgument, 1),
];

/// `, a`, an argument behind another
pub const NEXT_NAMED: [K; 2] = [K::Comma, K::Name];

pub const NEXT_NAMED_NOTES: [(A, u32); 2] = [(A::Name, 1), (A::NameArgument, 2)];

/// `, 5`, an argument behind another
pub const NEXT_NUMBERED: [K; 2] = [K::Comma, K::Number];

pub const NEXT_NUMBERED_NOTES: [(A, u32); 3] = [
    (A::Number, 1),
    (A::PlainNumber, 2),
    (A::NumberArgument, 2),
];

/// `)`, behind the arguments
pub const CLOSE: [K; 1] = [K::CloseParen];

pub const CLOSE_NOTES: [(A, u32); 1] = [(A::CloseArguments, 0)];

/// The end of the line behind the arguments
pub const END: [K; 1] = [K::Line];

pub const END_NOTES: [(A, u32); 4] = [
    (A::SizesNone, 0),
    (A::WaivedNone, 0),
    (A::AfterNone, 0),
    (A::ScheduleStatement, 0),
];

/// `64 8` behind the arguments, and the end of the line
pub const SIZES_END: [K; 3] = [K::Number, K::Number, K::Line];

pub const SIZES_END_NOTES: [(A, u32); 6] = [
    (A::Number, 0),
    (A::Number, 1),
    (A::SizesLength, 2),
    (A::WaivedNone, 2),
    (A::AfterNone, 2),
    (A::ScheduleStatement, 2),
];

/// `after g` behind the arguments
pub const AFTER: [K; 2] = [K::After, K::Name];

pub const AFTER_NOTES: [(A, u32); 4] = [
    (A::SizesNone, 0),
    (A::WaivedNone, 0),
    (A::OpenNames, 1),
    (A::Name, 1),
];

/// `64 8 after g` behind the arguments
pub const SIZES_AFTER: [K; 4] = [K::Number, K::Number, K::After, K::Name];

pub const SIZES_AFTER_NOTES: [(A, u32); 6] = [
    (A::Number, 0),
    (A::Number, 1),
    (A::SizesLength, 2),
    (A::WaivedNone, 2),
    (A::OpenNames, 3),
    (A::Name, 3),
];

/// `g`, another job to wait for
pub const NEXT_NAME: [K; 1] = [K::Name];

pub const NEXT_NAME_NOTES: [(A, u32); 1] = [(A::Name, 0)];

/// The end of the line behind the jobs to wait for
pub const NAMES_END: [K; 1] = [K::Line];

pub const NAMES_END_NOTES: [(A, u32); 2] = [(A::After, 0), (A::ScheduleStatement, 0)];
