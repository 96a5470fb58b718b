// Frames whose pieces are watched.

use crate::frames::{Given, WORKERS, sink_of, status_of, status_of_cut, with_kernels};
use job_base::{Gate, NoMemory, PieceId};
use std::alloc::Global;
use std::sync::atomic::{AtomicBool, Ordering};
use std::test::Fail;

// Two jobs of 64 pieces, one after the other. Nothing is printed: what is run is seen at the gate alone.
const WIDE: &str = "array x 64
array y 64
array z 64
schedule h1 scale(x, y) 64 1
schedule h2 scale(y, z) 64 1 after h1
";

// Notes which of the first pieces it has let in, and whether one of them came twice.
#[derive(Drop)]
struct NotingGate {
    entered: Vec<AtomicBool>,
    twice: AtomicBool,
}

impl NotingGate {
    fn new(alloc: Global, pieces: usize) -> Result<NotingGate, NoMemory> {
        let mut entered = Vec::with_capacity(alloc, pieces)?;
        for _ in 0..pieces {
            entered.push(AtomicBool::new(false))?;
        }
        Ok(NotingGate {
            entered,
            twice: AtomicBool::new(false),
        })
    }

    // Whether each of the pieces came once.
    fn saw_each_once(&self) -> bool {
        !self.twice.load(Ordering::SeqCst)
            && self
                .entered
                .iter()
                .all(|piece| piece.load(Ordering::SeqCst))
    }

    // Whether a piece came.
    fn saw(&self, piece: usize) -> bool {
        match self.entered.get(piece) {
            Some(entered) => entered.load(Ordering::SeqCst),
            None => false,
        }
    }
}

impl Gate for NotingGate {
    fn enter(&self, _worker: u32, piece: PieceId) {
        let Some(entered) = self.entered.get(piece.0 as usize) else {
            return;
        };
        if entered.swap(true, Ordering::SeqCst) {
            self.twice.store(true, Ordering::SeqCst);
        }
    }

    fn leave(&self, _worker: u32, _piece: PieceId) {}
}

// Each piece of a job is run once, by whichever worker it is given to. No clause says that a job is offered, and all of
// its pieces given out: one that is left out is never run, and this test then doesn't end.
#[test]
fn each_piece_is_run_once(rt: HostRuntime) -> Result<(), Fail> {
    let alloc = rt.alloc();
    let script = with_kernels(alloc, WIDE)?;
    let given = Given::script(&script);
    for workers in WORKERS {
        let gate = NotingGate::new(alloc, 128)?;
        let mut sink = sink_of(&rt)?;
        assert_eq!(rt;
            status_of_cut(&rt, workers, &["s"], &given, &mut sink, &gate)?,
            0
        );
        assert_eq!(rt; sink.bytes(), b"".as_slice());
        assert!(rt; gate.saw_each_once());
    }
    Ok(())
}

// The two jobs are little work, so each is one piece where nobody asks for the pieces as they are scheduled. With the
// four pieces of the script's own thread there are six, and no more.
#[test]
fn little_work_is_one_piece(rt: HostRuntime) -> Result<(), Fail> {
    let alloc = rt.alloc();
    let script = with_kernels(alloc, WIDE)?;
    let given = Given::script(&script);
    for workers in WORKERS {
        let gate = NotingGate::new(alloc, 128)?;
        let mut sink = sink_of(&rt)?;
        assert_eq!(rt;
            status_of(&rt, workers, &["s"], &given, &mut sink, &gate)?,
            0
        );
        assert!(rt; gate.saw(0) && gate.saw(5) && !gate.saw(6));
    }
    Ok(())
}
