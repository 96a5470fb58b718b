// Which statements of a script a section is of.

/// From which place among a script's statements to which a section goes.
#[derive(Clone, Copy)]
pub struct Extent {
    /// The first statement: at a later section the `when` at which the one before it ended.
    pub from: usize,
    /// The statement at which it ends: a `when` that acts, or the script's end.
    pub to: usize,
    /// Whether the test holds at which the section before it ended. The first section has none before it.
    pub held: Option<bool>,
}
