//! The lines of statements that are known whole: their tokens, and what is noted of them.

use frame_grammar::{Action as A, TokenKind as K};

/// `array a 5`
pub const ARRAY: [K; 4] = [K::Array, K::Name, K::Number, K::Line];

pub const ARRAY_NOTES: [(A, u32); 6] = [
    (A::StartStatement, 0),
    (A::Name, 1),
    (A::Number, 2),
    (A::LifeNone, 3),
    (A::NoValues, 3),
    (A::ArrayStatement, 3),
];

/// `list a 5`
pub const LIST: [K; 4] = [K::List, K::Name, K::Number, K::Line];

pub const LIST_NOTES: [(A, u32); 5] = [
    (A::StartStatement, 0),
    (A::Name, 1),
    (A::Number, 2),
    (A::LifeNone, 3),
    (A::ListStatement, 3),
];

/// `map a 5`
pub const MAP: [K; 4] = [K::Map, K::Name, K::Number, K::Line];

pub const MAP_NOTES: [(A, u32); 5] = [
    (A::StartStatement, 0),
    (A::Name, 1),
    (A::Number, 2),
    (A::LifeNone, 3),
    (A::MapStatement, 3),
];

/// `reference a`
pub const REFERENCE: [K; 3] = [K::Reference, K::Name, K::Line];

pub const REFERENCE_NOTES: [(A, u32); 5] = [
    (A::StartStatement, 0),
    (A::Name, 1),
    (A::LifeNone, 2),
    (A::NoNumber, 2),
    (A::ReferenceStatement, 2),
];

/// `reference a = 5`
pub const REFERENCE_VALUE: [K; 5] = [K::Reference, K::Name, K::Assign, K::Number, K::Line];

pub const REFERENCE_VALUE_NOTES: [(A, u32); 6] = [
    (A::StartStatement, 0),
    (A::Name, 1),
    (A::LifeNone, 2),
    (A::Number, 3),
    (A::PlainNumber, 4),
    (A::ReferenceStatement, 4),
];

/// `stream a 5 6`
pub const STREAM: [K; 5] = [K::Stream, K::Name, K::Number, K::Number, K::Line];

pub const STREAM_NOTES: [(A, u32); 6] = [
    (A::StartStatement, 0),
    (A::Name, 1),
    (A::Number, 2),
    (A::Number, 3),
    (A::LifeNone, 4),
    (A::StreamStatement, 4),
];

/// `slice a b 5 6`
pub const SLICE: [K; 6] = [K::Slice, K::Name, K::Name, K::Number, K::Number, K::Line];

pub const SLICE_NOTES: [(A, u32); 6] = [
    (A::StartStatement, 0),
    (A::Name, 1),
    (A::Name, 2),
    (A::Number, 3),
    (A::Number, 4),
    (A::SliceStatement, 5),
];

/// `view a b`
pub const VIEW: [K; 4] = [K::View, K::Name, K::Name, K::Line];

pub const VIEW_NOTES: [(A, u32); 4] = [
    (A::StartStatement, 0),
    (A::Name, 1),
    (A::Name, 2),
    (A::ViewStatement, 3),
];

/// `copy a b`
pub const COPY: [K; 4] = [K::Copy, K::Name, K::Name, K::Line];

pub const COPY_NOTES: [(A, u32); 4] = [
    (A::StartStatement, 0),
    (A::Name, 1),
    (A::Name, 2),
    (A::CopyStatement, 3),
];

/// `set a 5 = 6`
pub const SET_AT: [K; 6] = [K::Set, K::Name, K::Number, K::Assign, K::Number, K::Line];

pub const SET_AT_NOTES: [(A, u32); 7] = [
    (A::StartStatement, 0),
    (A::Name, 1),
    (A::Number, 2),
    (A::PlainNumber, 3),
    (A::Number, 4),
    (A::PlainNumber, 5),
    (A::SetStatement, 5),
];

/// `set a = 6`
pub const SET: [K; 5] = [K::Set, K::Name, K::Assign, K::Number, K::Line];

pub const SET_NOTES: [(A, u32); 6] = [
    (A::StartStatement, 0),
    (A::Name, 1),
    (A::NoNumber, 2),
    (A::Number, 3),
    (A::PlainNumber, 4),
    (A::SetStatement, 4),
];

/// `add a 5`
pub const ADD: [K; 4] = [K::Add, K::Name, K::Number, K::Line];

pub const ADD_NOTES: [(A, u32); 6] = [
    (A::StartStatement, 0),
    (A::Name, 1),
    (A::Number, 2),
    (A::PlainNumber, 3),
    (A::NoNumber, 3),
    (A::AddToStatement, 3),
];

/// `add a 5 6`
pub const ADD_PAIR: [K; 5] = [K::Add, K::Name, K::Number, K::Number, K::Line];

pub const ADD_PAIR_NOTES: [(A, u32); 7] = [
    (A::StartStatement, 0),
    (A::Name, 1),
    (A::Number, 2),
    (A::PlainNumber, 3),
    (A::Number, 3),
    (A::PlainNumber, 4),
    (A::AddToStatement, 4),
];

/// `put a 5 6`
pub const PUT: [K; 5] = [K::Put, K::Name, K::Number, K::Number, K::Line];

pub const PUT_NOTES: [(A, u32); 7] = [
    (A::StartStatement, 0),
    (A::Name, 1),
    (A::Number, 2),
    (A::PlainNumber, 3),
    (A::Number, 3),
    (A::PlainNumber, 4),
    (A::PutStatement, 4),
];

/// `remove a 5`
pub const REMOVE: [K; 4] = [K::Remove, K::Name, K::Number, K::Line];

pub const REMOVE_NOTES: [(A, u32); 5] = [
    (A::StartStatement, 0),
    (A::Name, 1),
    (A::Number, 2),
    (A::PlainNumber, 3),
    (A::RemoveFromStatement, 3),
];

/// `clear a`
pub const CLEAR: [K; 3] = [K::Clear, K::Name, K::Line];

pub const CLEAR_NOTES: [(A, u32); 3] = [
    (A::StartStatement, 0),
    (A::Name, 1),
    (A::ClearOutStatement, 2),
];

/// `setcapacity a 5`
pub const SET_CAPACITY: [K; 4] = [K::SetCapacity, K::Name, K::Number, K::Line];

pub const SET_CAPACITY_NOTES: [(A, u32); 4] = [
    (A::StartStatement, 0),
    (A::Name, 1),
    (A::Number, 2),
    (A::SetCapacityStatement, 3),
];

/// `complete a`
pub const COMPLETE: [K; 3] = [K::Complete, K::Name, K::Line];

pub const COMPLETE_NOTES: [(A, u32); 4] = [
    (A::StartStatement, 0),
    (A::NotAuto, 1),
    (A::Name, 1),
    (A::CompleteStatement, 2),
];

/// `dispose a`
pub const DISPOSE: [K; 3] = [K::Dispose, K::Name, K::Line];

pub const DISPOSE_NOTES: [(A, u32); 3] = [
    (A::StartStatement, 0),
    (A::Name, 1),
    (A::DisposeStatement, 2),
];

/// `print a`
pub const PRINT: [K; 3] = [K::Print, K::Name, K::Line];

pub const PRINT_NOTES: [(A, u32); 3] = [
    (A::StartStatement, 0),
    (A::Name, 1),
    (A::PrintStatement, 2),
];

/// `flush`
pub const FLUSH: [K; 2] = [K::Flush, K::Line];

pub const FLUSH_NOTES: [(A, u32); 2] = [(A::StartStatement, 0), (A::FlushStatement, 1)];

/// `frame`
pub const FRAME: [K; 2] = [K::Frame, K::Line];

pub const FRAME_NOTES: [(A, u32); 2] = [(A::StartStatement, 0), (A::FrameStatement, 1)];

/// An empty line, or one with a comment alone
pub const EMPTY: [K; 1] = [K::Line];

pub const EMPTY_NOTES: [(A, u32); 0] = [];
