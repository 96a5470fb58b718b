//! Late nodes: those that come after as many others as a kernel keeps.
//!
//! Nothing is kept of them but what they say of kept nodes, and that is little: a late node is above
//! a kept one only where it is an operator whose left side begins with that node or before it.
ghost use Rattle.std.specs.Prelude.{◌≡◌};
ghost use Rattle.kernel_raw.specs.Keeping.{first_at, joint_below, joint_with, first_left};

use crate::part::Part;
use crate::raw::MOST_KEPT;

/// The first node of a late one that began with this node, after this part of it.
pub fn first_left(part: Part, first: u32) -> u32
    ensures { result ≡ first_left part first }
{
    match part {
        Part::Ends(_) => MOST_KEPT,
        Part::Nothing
        | Part::Access(_)
        | Part::Container(_)
        | Part::Stream
        | Part::Width
        | Part::Parameter
        | Part::Statement
        | Part::Atom
        | Part::Operator
        | Part::Number
        | Part::Name
        | Part::Joins
        | Part::Closes(_)
        | Part::Heads
        | Part::Block
        | Part::Nests(_)
        | Part::Branches => first,
    }
}

/// An open node that isn't kept, an operator whose left side begins with a kept node.
#[derive(Clone, Copy)]
pub struct Joint {
    /// Its height among the open nodes that aren't kept, counted from 1.
    pub height: u32,
    /// The first node of its left side.
    pub first: u32,
}

/// The kept node with which the open late node at this height begins, else MOST_KEPT.
pub fn first_at(joint: Option<Joint>, height: u32) -> u32
    ensures { result ≡ first_at joint height }
{
    match joint {
        Some(joint) => {
            if joint.height == height {
                joint.first
            } else {
                MOST_KEPT
            }
        }
        None => MOST_KEPT,
    }
}

/// The joint that is left when the open late node at this height is closed.
pub fn joint_below(joint: Option<Joint>, height: u32) -> Option<Joint>
    ensures { result ≡ joint_below joint height }
{
    match joint {
        Some(joint) => {
            if joint.height == height {
                None
            } else {
                Some(joint)
            }
        }
        None => None,
    }
}

/// The joint when a late node begins at this height, and its left side with this node.
pub fn joint_with(joint: Option<Joint>, height: u32, first: u32) -> Option<Joint>
    ensures { result ≡ joint_with joint height first }
{
    if first < MOST_KEPT {
        Some(Joint { height, first })
    } else {
        joint
    }
}
