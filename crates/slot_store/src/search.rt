// Where a number lies among holes.
ghost use Rattle.std.specs.Prelude.{◌≡◌, ℕ};
ghost use Rattle.slot_store.specs.Spaces.{AreHoles, IsPlace};

use job_base::Span;

/// How many holes begin before a number.
pub(crate) fn holes_before(holes: &[Span], at: u32) -> usize
    requires { (top : ℕ) × AreHoles 0 holes.now top }
    ensures { IsPlace holes.now at result }
{
    let mut low = 0;
    let mut high = holes.len();
    while low < high {
        let middle = low + (high - low) / 2;
        if holes[middle].start < at {
            low = middle + 1;
        } else {
            high = middle;
        }
    }
    low
}
