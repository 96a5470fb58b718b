// A section that is run by turns.
ghost use Rattle.std.specs.Prelude.{◌≡◌, ◌+◌, ◌↔◌, ◌⊎◌, false, IfErr, IfOk, IsErrOf, IsSome, None};
ghost use Rattle.frame_stage.specs.Stages.{IsHelper, IsShared, stage_of_part};
ghost use Rattle.frame_host.specs.Frames.{EndsAs, IsAllRun, IsUnderway, KeepsRun, columns_in, places_in, segments_run};
ghost use Rattle.frame_host.specs.Frames.{stage_in, tree_in};

use crate::answer::FrameEnd;
use crate::frame::Frame;
use crate::taking::take_section;
use frame_stage::{FrameHelper, Hold};
use job_base::{FlatMem, OpenGate};
use plan_run::RunEnd;
use std::alloc::Global;
use steal_pool::{Place, ScriptTurn, Standing};
use word_board::WordSeat;

/// A section of a frame that is run by turns. The thread that owns it is the script's.
#[derive(Drop)]
pub struct FrameSection {
    pub(crate) frame: Frame,
    pub(crate) stage: Hold,
    pub(crate) place: Place<WordSeat>,
    // the places that no helper has
    pub(crate) others: Vec<Place<WordSeat>>,
    pub(crate) at: Standing,
    // room for the cells that the section leaves
    pub(crate) left: FlatMem,
    // how the run ended, once all segments are run
    pub(crate) ended: Option<RunEnd>,
}

/// Why no helper is given.
#[derive(Clone, Copy, Debug, PartialEq, Eq)]
pub enum NoHelper {
    /// All places are given out.
    NoPlace,
    /// Memory wasn't found for it. Its place is left.
    NoMemory,
}

impl FrameSection {
    /// How many helpers of the section can still be had.
    pub fn places(&self) -> usize
        ensures { result ≡ places_in self.now }
    {
        self.others.len()
    }

    /// A helper of the section, while there is a place that none has. A place is given out once: a helper that is given
    /// up leaves none.
    pub fn helper(self, alloc: Global) -> (FrameSection, Result<FrameHelper, NoHelper>)
        requires sound { IsUnderway self }
        ensures helper { IfOk result.1 IsHelper }
        ensures stage { IfOk result.1 (λ helper. stage_of_part helper.stage ≡ stage_in self) }
        ensures no_place { IsErrOf result.1 NoHelper.NoPlace ↔ places_in self ≡ 0 }

        ensures given { IfOk result.1 (λ _. places_in self ≡ places_in result.0 + 1) }
        ensures left { IfErr result.1 (λ _. places_in result.0 ≡ places_in self) }
        ensures same { IsErrOf result.1 NoHelper.NoPlace → result.0 ≡ self }
        ensures kept { KeepsRun self result.0 }
        ensures sound { IsUnderway result.0 }
    {
        let mut section = self;
        if section.places() == 0 {
            return (section, Err(NoHelper::NoPlace));
        }
        let (stage, part) = section.stage.share(alloc);
        section.stage = stage;
        let Some(stage) = part else {
            return (section, Err(NoHelper::NoMemory));
        };
        let Some(place) = section.others.pop() else {
            unreachable!()
        };
        let helper = FrameHelper {
            stage,
            place,
            over: false,
        };
        (section, Ok(helper))
    }

    /// A turn of the script's thread. It runs the next segment, or it looks for a job that the segment waits for, and
    /// runs a piece meanwhile, if one is found. The answer is whether there is more to run: false exactly where all
    /// segments are run, and from then on always.
    pub fn turn(&mut self) -> bool
        requires sound { IsUnderway self.old }
        ensures over { result ≡ false ↔ IsAllRun self.new }
        ensures ended { result ≡ false ↔ IsSome self.new.ended }
        ensures always { IsAllRun self.old → IsAllRun self.new }

        ensures next { (segments_run self.new ≡ segments_run self.old)
            ⊎ (segments_run self.new ≡ segments_run self.old + 1) }
        ensures stage { self.new.stage ≡ self.old.stage }
        ensures places { places_in self.new ≡ places_in self.old }
        ensures script { tree_in self.new.frame ≡ tree_in self.old.frame }
        ensures table { columns_in self.new.frame ≡ columns_in self.old.frame }
        ensures sound { IsUnderway self.new }
    {
        let turns = self.stage.stage().turns(&OpenGate);
        let out = &mut self.frame.progress.out;
        match turns.script_turn(&mut self.place, &mut self.at, out, &mut self.frame.text) {
            ScriptTurn::Again => {
                self.ended = None;
                true
            }
            ScriptTurn::Over(end) => {
                self.ended = Some(end);
                false
            }
        }
    }

    /// Ends the section, once a turn said that all segments are run and all helpers were given back; else it gives the
    /// section back as it is. One of which no helper was given out ends as soon as it is run.
    pub fn end(self, alloc: Global) -> Result<FrameEnd, FrameSection>
        requires sound { IsUnderway self }
        ensures end { IfOk result (EndsAs (tree_in self.frame) (columns_in self.frame)) }
        ensures run { IfOk result (λ _. IsSome self.ended) }
        ensures not_yet { IfErr result (λ _. (self.ended ≡ None) ⊎ IsShared self.stage) }
        ensures same { IfErr result (λ section. section ≡ self) }
    {
        let Some(end) = self.ended else {
            return Err(self);
        };
        let FrameSection {
            frame,
            stage,
            place,
            others,
            at,
            left,
            ended,
        } = self;
        match stage.take() {
            Ok(stage) => Ok(take_section(alloc, frame, stage, place, left, end)),
            Err(stage) => Err(FrameSection {
                frame,
                stage,
                place,
                others,
                at,
                left,
                ended,
            }),
        }
    }
}
