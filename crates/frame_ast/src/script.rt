//! A script's tree: each name is its place among the names, each kernel its place among the kernels.

ghost use Rattle.std.specs.Prelude.{◌≡◌};
ghost use Rattle.frame_ast.specs.Accepted.{is_when};
ghost use Rattle.frame_ast.specs.Orders.{compares};

use crate::kernel::Kernel;
use crate::name_texts::NameTexts;

/// How long a container may live.
#[derive(Clone, Copy, Debug, PartialEq, Eq)]
pub enum Life {
    /// To the end of its frame; no job may use it.
    Temp,
    /// Reported once where it lives for four frames.
    TempJob,
    /// As long as the script; what no word means.
    Persistent,
}

/// The comparison of a `when`: of the value of a reference, on the left, with a number.
#[derive(Clone, Copy, Debug, PartialEq, Eq)]
pub enum Sign {
    Eq,
    Ne,
    Lt,
    Le,
    Gt,
    Ge,
}

impl Sign {
    /// Whether the comparison holds of a number, on the left, with a bound.
    pub fn holds(self, number: i64, bound: i64) -> bool
        ensures { result ≡ compares self number bound }
    {
        match self {
            Sign::Eq => number == bound,
            Sign::Ne => number != bound,
            Sign::Lt => number < bound,
            Sign::Le => number <= bound,
            Sign::Gt => number > bound,
            Sign::Ge => number >= bound,
        }
    }
}

/// An argument of a schedule.
#[derive(Clone, Copy, Debug, PartialEq, Eq)]
pub enum Arg {
    Name(u32),
    /// That of an `int` parameter.
    Number(i64),
}

/// What a schedule says of the job that it makes.
#[derive(Drop)]
pub struct NewJob {
    /// Whether the job depends on everything that it has to.
    pub auto: bool,
    /// The name of the handle that it makes.
    pub handle: u32,
    pub kernel: u32,
    pub args: Vec<Arg>,
    /// The length and the batch.
    pub cut: Option<(u32, u32)>,
    /// The list that gives the length, and the batch.
    pub defer: Option<(u32, u32)>,
    /// Places among the kernel's parameters.
    pub waive: Vec<u32>,
    pub after: Vec<u32>,
}

/// A statement. Its text holds what the fields say, in their order; `name` is the name that it makes, or else the one
/// that it is of.
#[derive(Drop)]
pub enum Order {
    /// `array a N [life] [= n n ..]`
    Array {
        name: u32,
        len: u32,
        life: Life,
        /// A place in the script's literals.
        values: Option<u32>,
    },
    /// `column a "NAME" [life]`: an array of a column of the table, without elements where the table has no such column
    Column {
        name: u32,
        /// The bytes of the column's name.
        column: Vec<u8>,
        life: Life,
    },
    /// `list l CAP [life]`
    List {
        name: u32,
        cap: u32,
        life: Life,
    },
    /// `reference r [life] [= n]`
    Reference {
        name: u32,
        life: Life,
        value: Option<i64>,
    },
    /// `map m CAP [life]`
    Map {
        name: u32,
        cap: u32,
        life: Life,
    },
    /// `stream s COUNT ROOM [life]`
    Stream {
        name: u32,
        /// The number of its indexes.
        count: u32,
        /// How many items each index has room for.
        room: u32,
        life: Life,
    },
    /// `slice v a START LEN`
    Slice {
        name: u32,
        of: u32,
        start: u32,
        len: u32,
    },
    /// `view v l`
    View {
        name: u32,
        of: u32,
    },
    /// `copy b a`
    Copy {
        name: u32,
        of: u32,
    },
    /// `set x i = n`, and `set r = n` of a reference
    Set {
        name: u32,
        /// None for a reference.
        at: Option<i64>,
        value: i64,
    },
    /// `add l n`, and `add m k n` of a map
    Add {
        name: u32,
        /// The item of a list, or the key of a map.
        first: i64,
        /// The value of a map's new pair.
        second: Option<i64>,
    },
    /// `put m k n`
    Put {
        name: u32,
        key: i64,
        value: i64,
    },
    /// `remove l i`, and `remove m k` of a map
    Remove {
        name: u32,
        /// The place in a list, or the key of a map.
        at: i64,
    },
    /// `clear x`
    Clear {
        name: u32,
    },
    /// `setcapacity l CAP`
    SetCapacity {
        name: u32,
        cap: u32,
    },
    /// `schedule [auto] h kernel(args) [N BATCH | defer l BATCH] [waive p ..] [after h ..]`
    // In a box, since it is by far the longest: a statement then has 48 bytes, and would have 120.
    Schedule(Box<NewJob>),
    /// `combine h g ..`
    Combine {
        name: u32,
        of: Vec<u32>,
    },
    /// `complete h`
    Complete {
        name: u32,
    },
    /// `complete auto x`
    CompleteAuto {
        name: u32,
    },
    /// `dispose x [after h .. as d]`: the handle is given exactly where the text has `after`
    Dispose {
        name: u32,
        after: Vec<u32>,
        handle: Option<u32>,
    },
    /// `dispose auto x as d`
    DisposeAuto {
        name: u32,
        handle: u32,
    },
    /// `print x`
    Print {
        name: u32,
    },
    /// `flush`, which does nothing
    Flush,
    /// `frame`
    Frame,
    /// `when r < n {`: the statements of its block, `count` in number, follow it
    When {
        name: u32,
        sign: Sign,
        value: i64,
        count: u32,
    },
}

impl Order {
    /// Whether it is a `when`.
    pub fn is_when(&self) -> bool
        ensures { result ≡ is_when self.now }
    {
        matches!(self, Order::When { .. })
    }
}

/// A statement of a script.
#[derive(Drop)]
pub struct Statement {
    /// Where it stands in the file, from 1 on.
    pub line: u32,
    pub act: Order,
}

/// A script with its repeats written out.
#[derive(Drop)]
pub struct Script {
    pub kernels: Vec<Kernel>,
    /// In the order in which statements make them first.
    pub names: NameTexts,
    /// The values of arrays that are made with some.
    pub literals: Vec<Vec<i64>>,
    pub statements: Vec<Statement>,
}
