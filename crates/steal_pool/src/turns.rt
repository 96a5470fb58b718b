// A run by turns: each call does a little and returns, so that the caller's own threads are the workers.
ghost use Rattle.std.specs.Prelude.{◌≡◌, ◌<◌, ◌≤◌, ◌+◌, ◌↔◌, ◌⊎◌, ℕ, List, [], true, IsTrue, length};
ghost use Rattle.frame_core.specs.Names.{has_job, segment_at, waits_in, IsJobOf};
ghost use Rattle.frame_core.specs.Output.{plan_lines};
ghost use Rattle.frame_core.specs.Know.{Know};
ghost use Rattle.plan_run.specs.Runs.{IsReport, RunsBetween, is_fault, report_of};
ghost use Rattle.plan_run.specs.Says.{SaysTo};
ghost use Rattle.steal_pool.specs.Crews.{IsCrewOf};
ghost use Rattle.steal_pool.specs.Seats.{IsFirst, IsIdle, IsOn, IsOpenAt, IsReady};
ghost use Rattle.steal_pool.specs.Turns.{HasSaid, IfOver, IsStanding, StandsAt, is_over};

use crate::crew::{Crew, Shared};
use crate::held::{Said, SegmentRun};
use crate::idling::NoSleepers;
use crate::pieces::{Turn, help};
use crate::place::{Place, Tools};
use crate::script::run_begun;
use crate::standing::Standing;
use frame_core::{Board, Plan};
use frame_print::Outgoing;
use job_base::{Gate, JobId, PieceId, Sink};
use plan_run::{RunEnd, flush_lines, with_refused};

/// What all turns of a run share: a plan, a board of it, and what the workers of its room share.
#[derive(Drop)]
pub struct Turns<'a, B, G> {
    pub plan: &'a Plan,
    pub board: &'a B,
    pub gate: &'a G,
    pub shared: &'a Shared,
}

/// What a turn of the script's thread answers.
#[derive(Clone, Copy, Debug, PartialEq, Eq)]
pub enum ScriptTurn {
    /// There is more to run.
    Again,
    /// All segments are run, and the run ended so.
    Over(RunEnd),
}

/// What a turn of any other thread answers.
#[derive(Clone, Copy, Debug, PartialEq, Eq)]
pub enum HelperTurn {
    /// It ran a piece.
    Ran,
    /// It found none. There may be one later.
    Idle,
    /// It found none, and the script is through: there will be none.
    Over,
}

// A seat, and whether a job is finished.
struct Look<S> {
    seat: S,
    finished: bool,
}

impl<'a, B: Board, G: Gate> Turns<'a, B, G>
where
    B::Seat: Drop,
{
    /// How far a run is before its first turn, on the first place of a room, and with what waits for this sink.
    pub fn begin<S: Sink>(&self, _place: &Place<B::Seat>, _out: &Outgoing, _sink: &S) -> Standing
        requires crew { IsCrewOf self.now.plan.now (B.plan self.now.board.now) self.now.shared.now }
        requires first { IsFirst B.home B.know (B.name self.now.board.now) 0 _place.now }
        ensures stands { IsStanding B.home B.know (B.name self.now.board.now) self.now.plan.now result _place.now }
        ensures said { HasSaid S.taken S.faults self.now.plan.now _sink.now _out.now _sink.now _out.now result }
    {
        Standing::first()
    }

    // Runs a piece, if one is found.
    fn help_once(&self, tools: &mut Tools, seat: B::Seat) -> Turn<B::Seat>
        requires crew { IsCrewOf self.now.plan.now (B.plan self.now.board.now) self.now.shared.now }
        requires home { B.home seat ≡ B.name self.now.board.now }
        requires idle { IsIdle (B.know seat) }
        ensures home { B.home result.seat ≡ B.home seat }
        ensures idle { IsIdle (B.know result.seat) }
        ensures on { IsOn (B.know seat) (B.know result.seat) }
    {
        let crew = Crew {
            rt: &(),
            plan: self.plan,
            board: self.board,
            gate: self.gate,
            shared: self.shared,
        };
        help::<NoSleepers, (), B, G>(&crew, tools, seat)
    }

    // Looks whether a job is finished. Where it isn't, the lines that wait are written, and a piece is run meanwhile.
    fn look<S: Sink>(
        &self,
        tools: &mut Tools,
        seat: B::Seat,
        job: JobId,
        out: &mut Outgoing,
        sink: &mut S,
        failed: &mut bool,
    ) -> Look<B::Seat>
        requires crew { IsCrewOf self.now.plan.now (B.plan self.now.board.now) self.now.shared.now }
        requires home { B.home seat ≡ B.name self.now.board.now }
        requires idle { IsIdle (B.know seat) }
        requires job { IsJobOf self.now.plan.now job }
        ensures home { B.home result.seat ≡ B.home seat }
        ensures idle { IsIdle (B.know result.seat) }
        ensures on { IsOn (B.know seat) (B.know result.seat) }
        ensures seen { IsTrue result.finished → (B.know result.seat).seen job.0 ≡ true }
        ensures text { SaysTo S.taken S.faults sink.old out.old failed.old sink.new out.new failed.new [] }
        ensures later { S.faults sink.old ≤ S.faults sink.new }
    {
        let mut own = seat;
        if self.board.finished(&mut own, job) {
            return Look {
                seat: own,
                finished: true,
            };
        }
        flush_lines(out, sink, failed);
        let Turn { seat: own, ran: _ } = self.help_once(tools, own);
        Look {
            seat: own,
            finished: false,
        }
    }

    // Opens the next segment, where it isn't open.
    fn open_next(&self, seat: B::Seat, at: &Standing) -> B::Seat
        requires crew { IsCrewOf self.now.plan.now (B.plan self.now.board.now) self.now.shared.now }
        requires home { B.home seat ≡ B.name self.now.board.now }
        requires stands { StandsAt self.now.plan.now at.now (B.know seat) }
        requires index { at.now.segment < length self.now.plan.now.segments.items }
        requires seen { (j : ℕ) → has_job (waits_in (segment_at self.now.plan.now at.now.segment)) j ≡ true
            → (B.know seat).seen j ≡ true }
        ensures home { B.home result ≡ B.home seat }
        ensures opened { IsOpenAt at.now.segment (B.know result) }
        ensures seen { (j : ℕ) → (B.know seat).seen j ≡ true → (B.know result).seen j ≡ true }
    {
        if at.opened {
            return seat;
        }
        let mut own = seat;
        let piece = PieceId(self.plan.job_pieces() + at.segment);
        self.board.open_piece(&mut own, piece);
        own
    }

    // Opens the next segment, and runs it, if the board lets it begin.
    fn open_and_run<S: Sink>(
        &self,
        tools: &mut Tools,
        seat: B::Seat,
        at: &mut Standing,
        out: &mut Outgoing,
        sink: &mut S,
    ) -> B::Seat
        requires crew { IsCrewOf self.now.plan.now (B.plan self.now.board.now) self.now.shared.now }
        requires home { B.home seat ≡ B.name self.now.board.now }
        requires stands { StandsAt self.now.plan.now at.old (B.know seat) }
        requires index { at.old.segment < length self.now.plan.now.segments.items }
        requires seen { (j : ℕ) → has_job (waits_in (segment_at self.now.plan.now at.old.segment)) j ≡ true
            → (B.know seat).seen j ≡ true }
        ensures home { B.home result ≡ B.home seat }
        ensures stands { StandsAt self.now.plan.now at.new (B.know result) }
        ensures next { (at.new.segment ≡ at.old.segment) ⊎ (at.new.segment ≡ at.old.segment + 1) }
        ensures said { (first : S) (waited : List ℕ)
            → HasSaid S.taken S.faults self.now.plan.now first waited sink.old out.old at.old
            → HasSaid S.taken S.faults self.now.plan.now first waited sink.new out.new at.new }
        ensures later { S.faults sink.old ≤ S.faults sink.new }
    {
        let i = at.segment;
        let mut own = self.open_next(seat, at);
        at.opened = true;
        let piece = PieceId(self.plan.job_pieces() + i);
        if !self.board.begin(&mut own, piece) {
            return own;
        }
        let crew = Crew {
            rt: &(),
            plan: self.plan,
            board: self.board,
            gate: self.gate,
            shared: self.shared,
        };
        let mut said = Said {
            failed: at.failed,
            refused: at.refused,
        };
        let SegmentRun { seat: own, traps } = run_begun(&crew, tools, own, out, sink, &mut said, i);
        at.failed = said.failed;
        at.refused = said.refused;
        at.segment = i + 1;
        at.waited = 0;
        at.opened = false;
        at.last = traps;
        own
    }

    // One step of the script's thread.
    fn step<S: Sink>(
        &self,
        tools: &mut Tools,
        seat: B::Seat,
        at: &mut Standing,
        out: &mut Outgoing,
        sink: &mut S,
    ) -> B::Seat
        requires crew { IsCrewOf self.now.plan.now (B.plan self.now.board.now) self.now.shared.now }
        requires home { B.home seat ≡ B.name self.now.board.now }
        requires stands { StandsAt self.now.plan.now at.old (B.know seat) }
        requires index { at.old.segment < length self.now.plan.now.segments.items }
        ensures home { B.home result ≡ B.home seat }
        ensures stands { StandsAt self.now.plan.now at.new (B.know result) }
        ensures next { (at.new.segment ≡ at.old.segment) ⊎ (at.new.segment ≡ at.old.segment + 1) }
        ensures said { (first : S) (waited : List ℕ)
            → HasSaid S.taken S.faults self.now.plan.now first waited sink.old out.old at.old
            → HasSaid S.taken S.faults self.now.plan.now first waited sink.new out.new at.new }
        ensures later { S.faults sink.old ≤ S.faults sink.new }
    {
        let segment = &self.plan.segments[at.segment as usize];
        if at.waited >= segment.waits.len() {
            return self.open_and_run(tools, seat, at, out, sink);
        }
        let job = segment.waits[at.waited];
        let Look { seat, finished } = self.look(tools, seat, job, out, sink, &mut at.failed);
        if finished {
            at.waited += 1;
        }
        seat
    }

    // What a turn answers: whether all segments are run, and if so how the run ended. Then the helpers are let go.
    fn answer(&self, at: &Standing) -> ScriptTurn
        requires crew { IsCrewOf self.now.plan.now (B.plan self.now.board.now) self.now.shared.now }
        requires stands { (k : Know) × StandsAt self.now.plan.now at.now k }
        ensures over { IsTrue (is_over result) ↔ at.now.segment ≡ length self.now.plan.now.segments.items }
        ensures fault { IfOver result (λ end. is_fault end ≡ at.now.failed) }
        ensures report { IfOver result (λ end. IsReport self.now.plan.now (report_of end)) }
    {
        if (at.segment as usize) < self.plan.segments.len() {
            return ScriptTurn::Again;
        }
        self.shared.over.store(true);
        ScriptTurn::Over(RunEnd::of(at.failed, with_refused(&at.last, at.refused)))
    }

    /// A turn of the script's thread, which has the first place. It looks whether the next job that the next segment
    /// waits for is finished, and if it isn't it writes the lines that wait, and runs a piece, if one is found. Where
    /// the segment waits for no job any more it runs the segment. After the last one it says how the run ended, and
    /// says so again whenever it is called again.
    ///
    /// It says the lines of the run in script order, whoever calls which turn when. It doesn't wait, and wakes nobody.
    pub fn script_turn<S: Sink>(
        &self,
        place: &mut Place<B::Seat>,
        at: &mut Standing,
        out: &mut Outgoing,
        sink: &mut S,
    ) -> ScriptTurn
        requires crew { IsCrewOf self.now.plan.now (B.plan self.now.board.now) self.now.shared.now }
        requires stands { IsStanding B.home B.know (B.name self.now.board.now) self.now.plan.now at.old place.old }

        ensures over { IsTrue (is_over result) ↔ at.new.segment ≡ length self.now.plan.now.segments.items }
        ensures run { IfOver result (λ end. (first : S) (waited : List ℕ)
            → HasSaid S.taken S.faults self.now.plan.now first waited sink.old out.old at.old
            → RunsBetween S.taken S.faults self.now.plan.now (plan_lines self.now.plan.now)
            first waited sink.new out.new end) }
        // what it leaves to the next turn, or to the end of the board
        ensures stands { IsStanding B.home B.know (B.name self.now.board.now) self.now.plan.now at.new place.new }
        ensures next { (at.new.segment ≡ at.old.segment) ⊎ (at.new.segment ≡ at.old.segment + 1) }
        ensures said { (first : S) (waited : List ℕ)
            → HasSaid S.taken S.faults self.now.plan.now first waited sink.old out.old at.old
            → HasSaid S.taken S.faults self.now.plan.now first waited sink.new out.new at.new }
        ensures first { IfOver result (λ _. IsFirst B.home B.know (B.name self.now.board.now)
            (length self.now.plan.now.segments.items) place.new) }
        ensures later { S.faults sink.old ≤ S.faults sink.new }
    {
        if at.segment as usize >= self.plan.segments.len() {
            return self.answer(at);
        }
        let Some(seat) = place.seat.take() else {
            unreachable!()
        };
        let own = self.step(&mut place.tools, seat, at, out, sink);
        place.seat = Some(own);
        self.answer(at)
    }

    /// A turn of any other thread, which has another place of the room: it runs a piece, if one is found. It doesn't
    /// wait, and wakes nobody.
    pub fn helper_turn(&self, place: &mut Place<B::Seat>) -> HelperTurn
        requires crew { IsCrewOf self.now.plan.now (B.plan self.now.board.now) self.now.shared.now }
        requires ready { IsReady B.home B.know (B.name self.now.board.now) place.old }
        ensures ready { IsReady B.home B.know (B.name self.now.board.now) place.new }
    {
        let Some(seat) = place.seat.take() else {
            unreachable!()
        };
        let Turn { seat: own, ran } = self.help_once(&mut place.tools, seat);
        place.seat = Some(own);
        if ran {
            HelperTurn::Ran
        } else if self.shared.over.load() {
            HelperTurn::Over
        } else {
            HelperTurn::Idle
        }
    }
}
