// Runs of a plan, event by event.
//
// The plan is that of `TOTAL`. Its job 1 has the pieces 0 and 1, and its job 2 the piece 2. Segment 3 fills and starts
// job 1, 4 starts job 2, 5 comes before the completion, 6 prints after it, and 7 is the last one.
ghost use Rattle.frame_core.specs.Ordered.{IsWellOrderedPlan};

use frame_core::{CoreFault, Event, Plan};
use frame_replay::replay;
use frame_rows::section_of;
use frame_rows::texts::TOTAL;
use job_base::{PieceId, Word};
use std::alloc::Global;
use std::test::Fail;

fn number(word: &str) -> Result<u32, Fail> {
    Ok(word.parse::<u32>().ok().ok_or("no number")?)
}

// An event as rows write it, by its seat, the seat that it steals from, and its piece: `take 0 3`, `steal 1 0 2`.
fn event_of(alloc: Global, text: &str) -> Result<Event, Fail> {
    let words: Vec<&str> = text.split_whitespace().collect(alloc)?;
    match *words {
        ["take", seat, piece] => Ok(Event::Take {
            seat: number(seat)?,
            piece: PieceId(number(piece)?),
        }),
        ["steal", seat, victim, piece] => Ok(Event::Steal {
            seat: number(seat)?,
            victim: number(victim)?,
            piece: PieceId(number(piece)?),
        }),
        ["finish", seat, piece] => Ok(Event::Finish {
            seat: number(seat)?,
            piece: PieceId(number(piece)?),
        }),
        _ => Err(Fail::new("no such event")),
    }
}

// A seat takes each piece in turn and finishes it: `0 3, 1 0`.
fn in_turn(alloc: Global, turns: &str) -> Result<Vec<Event>, Fail> {
    let mut events = Vec::new(alloc);
    for turn in turns.split(',') {
        let (seat, piece) = turn.trim().split_once(' ').ok_or("no turn")?;
        let seat = number(seat)?;
        let piece = PieceId(number(piece)?);
        events.push(Event::Take { seat, piece })?;
        events.push(Event::Finish { seat, piece })?;
    }
    Ok(events)
}

// Whether each event is legal where it stands.
fn is_legal(alloc: Global, plan: &Plan, events: &[Event]) -> Result<bool, Fail>
    requires { IsWellOrderedPlan plan.now }
{
    match replay(alloc, plan, events) {
        Ok(_) => Ok(true),
        Err(CoreFault::Illegal) => Ok(false),
        Err(CoreFault::NoMemory) => Err(Fail::new("no memory")),
    }
}

const RISING: &str = "0 3, 1 0, 2 1, 0 4, 1 2, 0 5, 0 6, 0 7";

const SWAPPED: &str = "0 3, 1 1, 2 0, 0 4, 0 2, 0 5, 0 6, 0 7";

#[test]
fn whole_runs(rt: HostRuntime) -> Result<(), Fail> {
    let alloc = rt.alloc();
    let section = section_of(alloc, TOTAL)?;
    for turns in [RISING, SWAPPED] {
        let events = in_turn(alloc, turns)?;
        let state = replay(alloc, &section.plan, &events)?;
        assert!(rt; state.is_ended());
        assert_eq!(rt; state.cell(Word(8)), 30);
    }
    Ok(())
}

// Of each row the last event alone is illegal, after the first segment.
const ILLEGAL: &str = "a piece that is ended: take 0 3
a piece that is leased: take 0 0, take 1 0
a piece that is stolen: steal 1 0 0, steal 2 1 0
a seat that has a lease: take 1 0, take 1 1
a segment by another seat: take 1 4
a piece of a job that isn't started: take 1 2
a piece before one that it waits for: take 0 0, finish 0 0, take 1 1, take 0 4, finish 0 4, take 0 2
a piece of another seat: take 1 0, finish 2 0
another piece than the seat's: take 1 0, finish 1 1
a piece that isn't there: take 0 8
a seat that isn't there: take 64 0
";

// Whether of some events after the first segment the last one alone is illegal.
fn last_is_illegal(alloc: Global, plan: &Plan, events: &str) -> Result<bool, Fail>
    requires { IsWellOrderedPlan plan.now }
{
    let mut all = in_turn(alloc, "0 3")?;
    for event in events.split(',') {
        if !is_legal(alloc, plan, &all)? {
            return Ok(false);
        }
        all.push(event_of(alloc, event)?)?;
    }
    Ok(!is_legal(alloc, plan, &all)?)
}

#[test]
fn illegal_events(rt: HostRuntime) -> Result<(), Fail> {
    let alloc = rt.alloc();
    let section = section_of(alloc, TOTAL)?;
    for row in ILLEGAL.lines() {
        let (_why, events) = row.split_once(": ").ok_or("no row")?;
        assert!(rt; last_is_illegal(alloc, &section.plan, events)?, "{row}");
    }
    Ok(())
}
