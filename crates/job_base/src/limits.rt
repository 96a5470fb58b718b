//! The limits of the language, one constant a row of its table. Every crate cites them, in code and in clauses.

/// The most bytes of a script's file.
pub const MOST_SCRIPT_BYTES: u32 = 16_777_216;

/// The most bytes of a table's file.
pub const MOST_TABLE_BYTES: u32 = 67_108_864;

/// The most statements of a script, with its repeats written out.
pub const MOST_STATEMENTS: u32 = 65_536;

/// The greatest count of a `repeat`.
pub const MOST_REPEATS: u32 = 65_536;

/// The most blocks of `repeat` and `when` that are open at once.
pub const MOST_BLOCKS: u32 = 8;

/// The most `when` of a script, with its repeats written out.
pub const MOST_TESTS: u32 = 1_024;

/// The most jobs of a script: accepted schedules, or written-out ones where it has a `when`.
pub const MOST_JOBS: u32 = 4_096;

/// The most pieces that a job is cut into.
pub const MOST_PIECES: u32 = 64;

/// The most kernels of a file.
pub const MOST_KERNELS: u32 = 256;

/// The most parameters of a kernel.
pub const MOST_PARAMS: u32 = 16;

/// The most `var` and `for` of a kernel.
pub const MOST_LOCALS: u32 = 64;

/// The most nodes of a kernel: its statements, operators and atoms.
pub const MOST_NODES: u32 = 4_096;

/// The greatest depth of a node, which is one more than the number of nodes that contain it.
pub const MOST_DEPTH: u32 = 64;

/// How many parameters the guard of a deferred job, `if index < length[0] { .. }`, adds to its kernel.
pub const GUARD_PARAMS: u32 = 1;

/// How many nodes the guard of a deferred job adds: its `if`, `<`, `index`, element and place.
pub const GUARD_NODES: u32 = 5;

/// How much deeper the guard of a deferred job makes the statements of its kernel.
pub const GUARD_DEPTH: u32 = 1;

/// The most bytes of a name that a script or a kernel makes.
pub const MOST_NAME_BYTES: u32 = 64;

/// The most bytes of the name of a table's column.
pub const MOST_COLUMN_BYTES: u32 = 256;

/// The greatest length of an array, capacity of a list, and start and length of a slice.
pub const MOST_ELEMENTS: u32 = 1_048_576;

/// The greatest length and the greatest batch of a parallel job.
pub const MOST_INDEXES: u32 = 1_048_576;

/// The greatest capacity of a map.
pub const MOST_PAIRS: u32 = 4_096;

/// The most indexes of a stream.
pub const MOST_STREAM_INDEXES: u32 = 65_536;

/// The most items that one index of a stream has room for.
pub const MOST_STREAM_ITEMS: u32 = 1_024;

/// The most elements that one index of a parallel job owns.
pub const MOST_WIDTH: u32 = 1_024;

/// The most words that are live at once.
pub const MOST_LIVE_WORDS: u32 = 1_048_576;

/// The most words that a script takes in all.
pub const MOST_CREATED_WORDS: u32 = 8_388_608;

/// The steps that one run of a kernel has; one under `defer` has one fewer.
pub const MOST_STEPS: u32 = 1_000_000;

/// The most workers of a run, the script's thread among them.
pub const MOST_WORKERS: u32 = 64;

/// The most mixing jobs of a generated script.
pub const MOST_GENERATED_JOBS: u32 = 4_000;

/// The greatest number that a script is generated from.
pub const MOST_SEED: u32 = 2_147_483_647;
