// Where a plan stands in its script.

/// Where the plan of a section stands among those of its script.
#[derive(Clone, Copy)]
pub struct Place {
    /// The section's number, from 1.
    pub number: u32,
    /// How many jobs earlier sections have.
    pub before: u32,
}
