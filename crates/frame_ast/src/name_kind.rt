//! What the names of a script stand for, and which of these kinds a statement takes.

/// What a name stands for, in the whole file.
#[derive(Clone, Copy, Debug, PartialEq, Eq)]
pub enum NameKind {
    Array,
    /// Some elements of an array, one after another.
    Slice,
    /// The elements of a list, until a statement breaks its views.
    View,
    List,
    Reference,
    Map,
    Stream,
    /// The handle of a job, or of several.
    Handle,
}

/// What can be sliced.
pub const SLICEABLE: [NameKind; 2] = [NameKind::Array, NameKind::Slice];

/// What an `array` parameter takes.
pub const ARRAY_ARGUMENTS: [NameKind; 3] = [NameKind::Array, NameKind::Slice, NameKind::View];

/// What has elements; under `defer` an `array` parameter takes these.
pub const HAS_ELEMENTS: [NameKind; 4] = [
    NameKind::Array,
    NameKind::Slice,
    NameKind::View,
    NameKind::List,
];

/// What `remove` takes.
pub const REMOVABLE: [NameKind; 2] = [NameKind::List, NameKind::Map];

/// What `clear` takes.
pub const CLEARABLE: [NameKind; 3] = [NameKind::List, NameKind::Map, NameKind::Stream];

/// What `dispose` takes.
pub const DISPOSABLE: [NameKind; 5] = [
    NameKind::Array,
    NameKind::List,
    NameKind::Reference,
    NameKind::Map,
    NameKind::Stream,
];

/// What stands for a container or for a part of one.
pub const CONTAINERS: [NameKind; 7] = [
    NameKind::Slice,
    NameKind::View,
    NameKind::Array,
    NameKind::List,
    NameKind::Reference,
    NameKind::Map,
    NameKind::Stream,
];
