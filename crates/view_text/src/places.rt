//! The boxes that an arrow joins, found by their numbers.
ghost use Rattle.std.specs.Prelude.{◌≡◌, ℕ, List, nat_eq, IfOk};
ghost use Rattle.std.specs.HashMap.{get};
ghost use Rattle.view_text.specs.declared.picture.Node.{Node as PictureNode};
ghost use Rattle.view_text.specs.Places.{is_of, place_of, source_of, target_of, ArePlacesOf};

use crate::picture::{Kind, Link, Node};
use std::alloc::{AllocError, Global};
use std::collections::HashMap;

/// Where the boxes of jobs and of refused schedules stand in a picture.
#[derive(Drop)]
pub(crate) struct Places {
    jobs: HashMap<u32, usize>,
    refused: HashMap<u32, usize>,
}

fn is_of(kind: Kind, refused: bool) -> bool
    ensures { result ≡ is_of refused kind }
{
    match kind {
        Kind::Job | Kind::Chain => !refused,
        Kind::Refused => refused,
    }
}

// The place of each number. It goes from the last box to the first, so that the first one of a number stays.
fn places_by_number(
    alloc: Global,
    nodes: &[Node],
    refused: bool,
) -> Result<HashMap<u32, usize>, AllocError>
    ensures { IfOk result (λ m. (number : ℕ) → get nat_eq m number ≡ place_of refused number nodes.now) }
{
    let mut places = HashMap::new(alloc);
    let mut at = nodes.len();
    while at > 0 {
        at -= 1;
        let node = &nodes[at];
        if is_of(node.kind, refused) {
            places.insert(node.number, at)?;
        }
    }
    Ok(places)
}

impl Places {
    pub(crate) fn of(alloc: Global, nodes: &[Node]) -> Result<Places, AllocError>
        ensures { IfOk result (ArePlacesOf nodes.now) }
    {
        let jobs = places_by_number(alloc, nodes, false)?;
        let refused = places_by_number(alloc, nodes, true)?;
        Ok(Places { jobs, refused })
    }

    /// The place of the box from which an arrow comes.
    pub(crate) fn source_of(&self, link: &Link) -> Option<usize>
        ensures { (nodes : List PictureNode) → ArePlacesOf nodes self.now → result ≡ source_of nodes link.now }
    {
        self.jobs.get(&link.from).copied()
    }

    /// The place of the box to which it leads.
    pub(crate) fn target_of(&self, link: &Link) -> Option<usize>
        ensures { (nodes : List PictureNode) → ArePlacesOf nodes self.now → result ≡ target_of nodes link.now }
    {
        if link.tie.is_block() {
            self.refused.get(&link.to).copied()
        } else {
            self.jobs.get(&link.to).copied()
        }
    }
}
