//! The course of an arrow.
ghost use Rattle.std.specs.Prelude.{◌≡◌, ◌+◌, ◌-◌, ◌/◌, ◌^◌, min};
ghost use Rattle.view_text.specs.Layouts.{middle, bottom, halfway, curve_of};

use crate::layout::Spot;

/// Where an arrow begins and ends, and halfway between.
#[derive(Clone, Copy, Debug, PartialEq, Eq)]
pub struct Curve {
    pub x: u32,
    pub y: u32,
    pub end_x: u32,
    pub end_y: u32,
    pub half_x: u32,
    pub half_y: u32,
}

/// The middle of a box, from the left.
pub(crate) fn middle(spot: &Spot) -> u32
    ensures { result ≡ middle spot.now }
{
    spot.x.saturating_add(spot.width / 2)
}

fn bottom(spot: &Spot) -> u32
    ensures { result ≡ bottom spot.now }
{
    spot.y.saturating_add(spot.height)
}

fn halfway(a: u32, b: u32) -> u32
    ensures { result ≡ halfway a b }
{
    a / 2 + b / 2
}

/// From the middle of a box's lower edge to the middle of another box's upper edge.
pub(crate) fn curve_between(from: &Spot, to: &Spot) -> Curve
    ensures { result ≡ curve_of from.now to.now }
{
    let x = middle(from);
    let y = bottom(from);
    let end_x = middle(to);
    let end_y = to.y;
    let half_x = halfway(x, end_x);
    let half_y = halfway(y, end_y);
    Curve {
        x,
        y,
        end_x,
        end_y,
        half_x,
        half_y,
    }
}
