//! Footprints: what a piece touches, as a list, and whether it reads or writes a word.
ghost use Rattle.std.specs.Prelude.{All, IfOk, ◌≡◌, ◌+◌, ◌*◌, ◌^◌, ◌<◌, ◌++◌, ◌∷◌, [], ℕ, if◌then◌else◌, length, Some, slice_get};
ghost use Rattle.kernel_exec.specs.Binds.{end_of};
ghost use Rattle.kernel_exec.specs.declared.binds.Bind.{Bind};
ghost use Rattle.frame_core.specs.declared.plan.Plan.{Plan};
ghost use Rattle.frame_core.specs.declared.piece.Piece.TheVariants.{OfScript, OfJob};
ghost use Rattle.frame_core.specs.Touches.{hits, binds_touch, ops_touch};
ghost use Rattle.frame_core.specs.Spans.{listed};
ghost use Rattle.frame_core.specs.Ordered.{OpFits, IsWellOrderedPlan};
ghost use Rattle.frame_core.specs.Pieces.{piece_numbered, IsPieceOf};
ghost use Rattle.frame_core.specs.Effects.{is_last, all_own_words, touches};
ghost use Rattle.frame_core.specs.Know.{piece_count, reads, writes};

use crate::piece::Piece;
use crate::plan::{Op, Plan};
use crate::spans::{act_touches, bind_touches};
use crate::touch::{AtMostTwo, Touch};
use frame_ast::kernel::Param;
use job_base::{NoMemory, PieceId, Span, Word};
use kernel_exec::Bind;
use std::alloc::Global;

/// What a piece touches.
pub fn touches(alloc: Global, plan: &Plan, p: PieceId) -> Result<Vec<Touch>, NoMemory>
    requires well { IsWellOrderedPlan plan.now }
    requires piece { p.0 < piece_count plan.now }
    ensures { IfOk result (λ ts. ts.items ≡ touches plan.now (piece_numbered plan.now p.0)) }
{
    let mut out = Vec::new(alloc);
    match plan.piece(p) {
        Piece::OfScript(k) => plan.list_segment(&mut out, k)?,
        Piece::OfJob(j, i) => plan.list_part(&mut out, j, i)?,
    }
    Ok(out)
}

// Whether some operations touch a word: with `written_only`, whether they write it.
fn is_of_ops(written_only: bool, ops: &[Op], w: u32) -> bool
    requires fits { (plan : Plan) × All (OpFits plan) ops.now × (plan.cells < 2 ^ 32) }
    ensures { result ≡ hits written_only (ops_touch ops.now) w }
{
    for i in 0..ops.len() {
        if act_touches(&ops[i].act).is_hit(written_only, w) {
            return true;
        }
    }
    false
}

// Adds what some operations touch.
fn list_ops(out: &mut Vec<Touch>, ops: &[Op]) -> Result<(), NoMemory>
    requires fits { (plan : Plan) × All (OpFits plan) ops.now × (plan.cells < 2 ^ 32) }
    ensures { IfOk result (λ _. out.new.items ≡ out.old.items ++ ops_touch ops.now) }
{
    for i in 0..ops.len() {
        act_touches(&ops[i].act).push_to(out)?;
    }
    Ok(())
}

// A piece of a job: its own word, and what its indexes touch words through.
#[derive(Drop)]
struct Part<'a> {
    own: Touch,
    parallel: bool,
    params: &'a [Param],
    binds: &'a [Bind],
    span: Span,
}

// Whether some indexes touch a word through some binds: with `written_only`, whether they write it.
fn is_of_binds(
    written_only: bool,
    parallel: bool,
    params: &[Param],
    binds: &[Bind],
    span: &Span,
    w: u32,
) -> bool
    requires count { length binds.now ≡ length params.now }
    requires fits { (x : ℕ) (b : Bind) → slice_get binds.now x ≡ Some b → end_of b < 2 ^ 32 }
    requires few { span.now.start + span.now.len < 2 ^ 32 }
    ensures { result
        ≡ hits written_only
        (binds_touch parallel params.now binds.now span.now.start (span.now.start + span.now.len)) w }
{
    for i in 0..binds.len() {
        let touches = bind_touches(
            parallel,
            &params[i],
            &binds[i],
            span.start,
            span.start + span.len,
        );
        if touches.is_hit(written_only, w) {
            return true;
        }
    }
    false
}

// Adds what some indexes touch through some binds.
fn list_binds(
    out: &mut Vec<Touch>,
    parallel: bool,
    params: &[Param],
    binds: &[Bind],
    span: &Span,
) -> Result<(), NoMemory>
    requires count { length binds.now ≡ length params.now }
    requires fits { (x : ℕ) (b : Bind) → slice_get binds.now x ≡ Some b → end_of b < 2 ^ 32 }
    requires few { span.now.start + span.now.len < 2 ^ 32 }
    ensures { IfOk result (λ _. out.new.items
        ≡ out.old.items ++ binds_touch parallel params.now binds.now span.now.start (span.now.start + span.now.len)) }
{
    for i in 0..binds.len() {
        let touches = bind_touches(
            parallel,
            &params[i],
            &binds[i],
            span.start,
            span.start + span.len,
        );
        touches.push_to(out)?;
    }
    Ok(())
}

impl Plan {
    /// Whether a piece reads a word.
    pub fn reads(&self, p: PieceId, w: Word) -> bool
        requires well { IsWellOrderedPlan self.now }
        requires piece { p.0 < piece_count self.now }
        ensures { result ≡ reads self.now p.0 w.0 }
    {
        self.touch(false, p, w)
    }

    /// Whether a piece writes a word.
    pub fn writes(&self, p: PieceId, w: Word) -> bool
        requires well { IsWellOrderedPlan self.now }
        requires piece { p.0 < piece_count self.now }
        ensures { result ≡ writes self.now p.0 w.0 }
    {
        self.touch(true, p, w)
    }

    fn touch(&self, written_only: bool, p: PieceId, w: Word) -> bool
        requires well { IsWellOrderedPlan self.now }
        requires piece { p.0 < piece_count self.now }
        ensures { result ≡ hits written_only (touches self.now (piece_numbered self.now p.0)) w.0 }
    {
        match self.piece(p) {
            Piece::OfScript(k) => self.touch_of_segment(written_only, k, w.0),
            Piece::OfJob(j, i) => self.touch_of_part(written_only, j, i, w.0),
        }
    }

    fn touch_of_segment(&self, written_only: bool, k: u32, w: u32) -> bool
        requires well { IsWellOrderedPlan self.now }
        requires segment { k < length self.now.segments.items }
        ensures { result ≡ hits written_only (touches self.now (OfScript k)) w }
    {
        is_of_ops(written_only, &self.segments[k as usize].ops, w)
            || self.notes_read(k).is_hit(written_only, w)
    }

    fn list_segment(&self, out: &mut Vec<Touch>, k: u32) -> Result<(), NoMemory>
        requires well { IsWellOrderedPlan self.now }
        requires segment { k < length self.now.segments.items }
        ensures { IfOk result (λ _. out.new.items ≡ out.old.items ++ touches self.now (OfScript k)) }
    {
        list_ops(out, &self.segments[k as usize].ops)?;
        self.notes_read(k).push_to(out)
    }

    // The last segment reads the own words of all pieces.
    fn notes_read(&self, k: u32) -> AtMostTwo
        ensures { listed result ≡ (if is_last self.now k then all_own_words self.now ∷ [] else []) }
    {
        if k as usize + 1 == self.segments.len() {
            AtMostTwo::One(Touch {
                from: self.cells,
                end: self.words,
                written: false,
            })
        } else {
            AtMostTwo::Zero
        }
    }

    fn touch_of_part(&self, written_only: bool, j: u32, i: u32, w: u32) -> bool
        requires well { IsWellOrderedPlan self.now }
        requires piece { IsPieceOf self.now (OfJob j i) }
        ensures { result ≡ hits written_only (touches self.now (OfJob j i)) w }
    {
        let part = self.part(j, i);
        part.own.is_hit(written_only, w)
            || is_of_binds(
                written_only,
                part.parallel,
                part.params,
                part.binds,
                &part.span,
                w,
            )
    }

    fn list_part(&self, out: &mut Vec<Touch>, j: u32, i: u32) -> Result<(), NoMemory>
        requires well { IsWellOrderedPlan self.now }
        requires piece { IsPieceOf self.now (OfJob j i) }
        ensures { IfOk result (λ _. out.new.items ≡ out.old.items ++ touches self.now (OfJob j i)) }
    {
        let part = self.part(j, i);
        out.push(part.own)?;
        list_binds(out, part.parallel, part.params, part.binds, &part.span)
    }

    fn part(&self, j: u32, i: u32) -> Part<'_>
        requires well { IsWellOrderedPlan self.now }
        requires piece { IsPieceOf self.now (OfJob j i) }
        ensures count { length result.binds.now ≡ length result.params.now }
        ensures fits { (x : ℕ) (b : Bind) → slice_get result.binds.now x ≡ Some b → end_of b < 2 ^ 32 }
        ensures few { result.span.start + result.span.len < 2 ^ 32 }
        ensures touches { touches self.now (OfJob j i)
            ≡ result.own ∷ binds_touch result.parallel result.params.now result.binds.now result.span.start
            (result.span.start + result.span.len) }
    {
        let job = &self.jobs[j as usize];
        let own = self.cells + (job.first.0 + i);
        let kernel = &self.kernels[job.kernel as usize];
        let span = job.indexes(i);
        Part {
            own: Touch {
                from: own,
                end: own + 1,
                written: true,
            },
            parallel: job.parallel,
            params: &kernel.params,
            binds: &job.binds,
            span,
        }
    }
}
