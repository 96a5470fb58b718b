//! Puts the events of a kernel together into its raw form.

ghost use Rattle.std.specs.Prelude.{◌≡◌, ◌+◌, ◌-◌, ◌<◌, ◌^◌, nat_lt, ℕ, length, slice_index, None, IfOk};
ghost use Rattle.kernel_raw.specs.declared.raw.TheConstants.{MOST_KEPT};
ghost use Rattle.kernel_raw.specs.declared.part.Part.TheVariants as part;
ghost use Rattle.kernel_raw.specs.Reading.{reading_of, left, top, changed_in};
ghost use Rattle.kernel_raw.specs.Keeping.{kept_of, nothing_kept, showing, closed_late, begun_late, begun_kept, kept_begun, kept_change, is_outside, kept_part, kept_step, begun_named, with_leaf};

use crate::changes::{change_node, fresh, is_last, is_whole, last_after, param_with};
use crate::depths::count_one;
use crate::late::{Joint, first_at, first_left, joint_below, joint_with};
use crate::part::{Part, part_of};
use crate::raw::MOST_KEPT;
use crate::{RawForm, RawNode, RawParam};
use frame_grammar::{Event, TokenAt};
use std::alloc::{AllocError, Global};

/// What has been read of a kernel. The open nodes stand on a list, so that deep text needs no deep
/// stack.
///
/// Of a node that comes after MOST_KEPT others nothing is kept. Such late nodes are counted, and so
/// are the open ones of them: those stand within all open nodes that are kept. A late node is above
/// a kept one only where it is an operator whose left side begins with that node or before it.
#[derive(Drop)]
pub struct Reader {
    pub params: Vec<RawParam>,
    /// The parameter that is being read.
    param: RawParam,
    /// The first nodes, no more than MOST_KEPT.
    pub nodes: Vec<RawNode>,
    /// The open ones of them, the innermost last.
    opened: Vec<u32>,
    /// The first node of the expression that was whole last, or of an operator that has begun since:
    /// where an operator between two sides comes, that is the first node of its left side.
    /// MOST_KEPT stands for every node that isn't kept.
    last: u32,
    /// How many nodes have begun.
    count: usize,
    /// How many late nodes are open.
    late: u32,
    /// The one of those whose left side begins with a kept node. There is at most one, as it takes
    /// the first node over from `last`, which gets it back when the operator is whole.
    joint: Option<Joint>,
    /// How many late operators have a left side that begins with each kept node. Empty until a late
    /// node begins.
    pub joined: Vec<usize>,
}

impl Reader {
    /// A reader with room for so many nodes.
    pub fn new(alloc: Global, room: usize) -> Result<Self, AllocError>
        ensures { IfOk result (λ r. kept_of r ≡ nothing_kept) }
    {
        Ok(Reader {
            params: Vec::new(alloc),
            param: fresh(TokenAt::of(0)),
            nodes: Vec::with_capacity(alloc, room)?,
            opened: Vec::new(alloc),
            last: 0,
            count: 0,
            late: 0,
            joint: None,
            joined: Vec::new(alloc),
        })
    }

    /// Begins a node that is kept.
    fn begin_kept(&mut self, at: TokenAt, owner: Option<u32>, before: u32) -> Result<(), AllocError>
        requires few { self.old.count < 2 ^ 32 }
        requires nodes { length self.old.nodes.items < 2 ^ 32 }
        ensures { IfOk result (λ _. kept_of self.new ≡ begun_kept at owner before (kept_of self.old)) }
    {
        self.opened.push(self.nodes.len() as u32)?;
        self.nodes.push(RawNode {
            form: RawForm::Number,
            at,
            name: at,
            owner,
            before,
            after: 0,
            heads: 0,
            inside: 0,
        })?;
        self.count += 1;
        Ok(())
    }

    /// Begins a node that is kept and has this name.
    #[inline(always)]
    pub fn begin_named(
        &mut self,
        at: TokenAt,
        owner: Option<u32>,
        name: TokenAt,
    ) -> Result<(), AllocError>
        requires few { self.old.count < 2 ^ 32 }
        requires nodes { length self.old.nodes.items < 2 ^ 32 }
        ensures { IfOk result (λ _. kept_of self.new ≡ begun_named at owner name (kept_of self.old)) }
    {
        self.opened.push(self.nodes.len() as u32)?;
        self.nodes.push(RawNode {
            form: RawForm::Number,
            at,
            name,
            owner,
            before: 0,
            after: 0,
            heads: 0,
            inside: 0,
        })?;
        self.count += 1;
        Ok(())
    }

    /// Adds an atom with nothing under it, which is kept and whole at once.
    #[inline(always)]
    pub fn add_leaf(&mut self, form: RawForm, at: TokenAt, name: TokenAt) -> Result<(), AllocError>
        requires few { self.old.count < 2 ^ 32 }
        requires nodes { length self.old.nodes.items < 2 ^ 32 }
        ensures { IfOk result (λ _. kept_of self.new ≡ with_leaf form at name (kept_of self.old)) }
    {
        self.last = self.nodes.len() as u32;
        self.nodes.push(RawNode {
            form,
            at,
            name,
            owner: None,
            before: 0,
            after: 0,
            heads: 0,
            inside: 0,
        })?;
        self.count += 1;
        Ok(())
    }

    /// Whether the next node is kept.
    pub fn has_room(&self) -> bool
        ensures { result ≡ nat_lt self.now.count MOST_KEPT }
    {
        self.count < MOST_KEPT as usize
    }

    /// Begins a late node, whose left side begins with this node.
    fn begin_late(&mut self, first: u32) -> Result<(), AllocError>
        requires few { self.old.count < 2 ^ 32 }
        requires late { self.old.late + 1 < 2 ^ 32 }
        ensures { IfOk result (λ _. kept_of self.new ≡ begun_late first (kept_of self.old)) }
    {
        self.joined.resize(MOST_KEPT as usize, 0)?;
        self.count += 1;
        self.late += 1;
        self.joint = joint_with(self.joint, self.late, first);
        Ok(())
    }

    /// Begins a node at this token.
    // In line: four kinds of nodes begin so, and a call costs as much as what it does.
    #[inline(always)]
    fn begin(&mut self, at: TokenAt, owner: Option<u32>, before: u32) -> Result<(), AllocError>
        requires few { self.old.count < 2 ^ 32 }
        requires nodes { length self.old.nodes.items < 2 ^ 32 }
        requires late { self.old.late + 1 < 2 ^ 32 }
        ensures { IfOk result (λ _. kept_of self.new ≡ kept_begun at owner before (kept_of self.old)) }
    {
        if self.count < MOST_KEPT as usize {
            self.begin_kept(at, owner, before)
        } else {
            self.begin_late(self.count.saturating_sub(before as usize) as u32)
        }
    }

    /// Begins an operator. It takes over the first node of what was whole last, which is its left
    /// side if it stands between two.
    fn begin_operator(&mut self, at: TokenAt) -> Result<(), AllocError>
        requires few { self.old.count < 2 ^ 32 }
        requires nodes { length self.old.nodes.items < 2 ^ 32 }
        requires late { self.old.late + 1 < 2 ^ 32 }
        ensures { IfOk result (λ _. kept_of self.new ≡ kept_part part.Operator at (kept_of self.old)) }
    {
        let own = (MOST_KEPT as usize).min(self.count) as u32;
        let before = self.count.saturating_sub(self.last as usize) as u32;
        self.begin(at, None, before)?;
        self.last = own;
        Ok(())
    }

    /// The innermost open node that is kept.
    pub fn innermost(&self) -> Option<u32>
        ensures { result ≡ top (reading_of self.now).opened }
    {
        self.opened.last().copied()
    }

    /// Leaves the innermost open node, if this part is its last.
    fn leave(&mut self, part: Part)
        ensures { kept_of self.new ≡ showing (left part (reading_of self.old)) (kept_of self.old) }
    {
        if is_last(part) {
            self.opened.pop();
        }
    }

    /// Changes the innermost open node that is kept by what was read of it.
    #[inline(always)]
    fn change_kept(&mut self, part: Part, place: TokenAt)
        requires few { self.old.count < 2 ^ 32 }
        ensures { kept_of self.new ≡ showing
            (changed_in part place self.old.count (top (reading_of self.old).opened) (reading_of self.old))
            (kept_of self.old) }
    {
        let Some(at) = self.innermost() else {
            return;
        };
        if let Some(node) = self.nodes.get_mut(at as usize) {
            let behind = self.count.saturating_sub(1).saturating_sub(at as usize) as u32;
            change_node(part, place, behind, node);
            self.last = last_after(part, at, node.before, self.last);
            self.leave(part);
        }
    }

    /// Closes the innermost late node.
    fn close_late(&mut self, part: Part)
        requires open { 0 < self.old.late }
        requires joined { (k : ℕ) → slice_index self.old.joined.items k < 2 ^ 64 - 1 }
        ensures { kept_of self.new ≡ closed_late part (kept_of self.old) }
    {
        let first = first_left(part, first_at(self.joint, self.late));
        if is_whole(part) {
            self.last = first;
        }
        self.joint = joint_below(self.joint, self.late);
        self.late -= 1;
        count_one(&mut self.joined, first as usize);
    }

    /// Changes the innermost open node by what was read of it.
    // In line, as `change_kept` is, so that a part that is known where it is called is looked at once.
    #[inline(always)]
    fn change(&mut self, part: Part, place: TokenAt)
        requires few { self.old.count < 2 ^ 32 }
        requires joined { (k : ℕ) → slice_index self.old.joined.items k < 2 ^ 64 - 1 }
        ensures { kept_of self.new ≡ kept_change part place (kept_of self.old) }
    {
        if self.late == 0 {
            self.change_kept(part, place);
        } else if is_last(part) {
            self.close_late(part);
        }
    }

    /// Whether no node is open.
    pub fn is_outside(&self) -> bool
        ensures { result ≡ is_outside (kept_of self.now) }
    {
        self.innermost().is_none() && self.late == 0
    }

    fn name(&mut self, place: TokenAt)
        requires few { self.old.count < 2 ^ 32 }
        requires joined { (k : ℕ) → slice_index self.old.joined.items k < 2 ^ 64 - 1 }
        ensures { kept_of self.new ≡ kept_part part.Name place (kept_of self.old) }
    {
        if self.is_outside() {
            self.param = fresh(place);
        } else {
            self.change(Part::Name, place);
        }
    }

    fn number(&mut self, place: TokenAt) -> Result<(), AllocError>
        requires few { self.old.count < 2 ^ 32 }
        requires nodes { length self.old.nodes.items < 2 ^ 32 }
        requires late { self.old.late + 1 < 2 ^ 32 }
        ensures { IfOk result (λ _. kept_of self.new ≡ kept_part part.Number place (kept_of self.old)) }
    {
        if self.is_outside() {
            self.param.width = Some(place);
            Ok(())
        } else {
            self.begin(place, None, 0)
        }
    }

    /// Takes the next event of a kernel.
    // In line, so that it only looks for the actions that are left where it is called.
    #[inline(always)]
    pub fn take(&mut self, event: Event) -> Result<(), AllocError>
        requires few { self.old.count < 2 ^ 32 }
        requires nodes { length self.old.nodes.items < 2 ^ 32 }
        requires late { self.old.late + 1 < 2 ^ 32 }
        requires joined { (k : ℕ) → slice_index self.old.joined.items k < 2 ^ 64 - 1 }
        ensures { IfOk result (λ _. kept_of self.new ≡ kept_step (kept_of self.old) event) }
    {
        let place = event.place;
        let part = part_of(event.action);
        match part {
            Part::Nothing => {}
            Part::Access(_) | Part::Container(_) | Part::Stream | Part::Width => {
                self.param = param_with(part, place, self.param);
            }
            Part::Parameter => self.params.push(self.param)?,
            Part::Statement => {
                let owner = self.innermost();
                self.begin(place, owner, 0)?;
            }
            Part::Atom => self.begin(place, None, 0)?,
            Part::Operator => self.begin_operator(place)?,
            Part::Number => self.number(place)?,
            Part::Name => self.name(place),
            // Each by itself, so that `change` knows the part.
            Part::Ends(form) => self.change(Part::Ends(form), place),
            Part::Joins => self.change(Part::Joins, place),
            Part::Closes(form) => self.change(Part::Closes(form), place),
            Part::Heads => self.change(Part::Heads, place),
            Part::Block => self.change(Part::Block, place),
            Part::Nests(form) => self.change(Part::Nests(form), place),
            Part::Branches => self.change(Part::Branches, place),
        }
        Ok(())
    }
}
