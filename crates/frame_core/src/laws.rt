//! Laws over the definitions. A function here does nothing: its contract is the law.
ghost use Rattle.frame_core.specs.Laws.{ContentsAreRead, PartsAreApart, PiecesAreNamed, PiecesStayWithin, PlansMeetTheLaws, PredecessorsAreOfFourKinds, ReadsStayWithin, TrapNumbersAreThese, TrapsAreTold, TrapsComeByNumber};
ghost use Rattle.frame_core.specs.Framed.{PartsKeepToTouches, PiecesKeepToTouches};
ghost use Rattle.frame_core.specs.Touched.{TouchedWordsAreUsed};
ghost use Rattle.frame_core.specs.Tallies.{RefusalsAreFew, ReportsTally, TrapsRise};

/// A well ordered plan meets all that the laws of the merge, and those of boards, ask of a plan.
pub fn plans_meet_the_laws()
    ensures { PlansMeetTheLaws }
{}

/// The predecessors of a piece are exactly those of the four kinds.
pub fn predecessors_are_of_four_kinds()
    ensures { PredecessorsAreOfFourKinds }
{}

/// The number, the kind and the place of a piece of a well ordered plan give one another.
pub fn pieces_are_named()
    ensures { PiecesAreNamed }
{}

/// The contents that the words of a container stand for are those that are read from them.
pub fn contents_are_read()
    ensures { ContentsAreRead }
{}

/// A piece touches words of its plan alone, and writes words of containers and its own word.
pub fn pieces_stay_within()
    ensures { PiecesStayWithin }
{}

/// The same by the numbers of pieces.
pub fn reads_stay_within()
    ensures { ReadsStayWithin }
{}

/// A piece changes only what its touches write, and what they read decides what it makes.
pub fn pieces_keep_to_touches()
    ensures { PiecesKeepToTouches }
{}

/// The same of a piece of one job that fits its kernel, whatever the rest of the plan.
pub fn parts_keep_to_touches()
    ensures { PartsKeepToTouches }
{}

/// A piece of a job touches no more than what its indexes use.
pub fn touched_words_are_used()
    ensures { TouchedWordsAreUsed }
{}

/// Where jobs fit their kernels, no piece of a job writes a word that another piece of it reads or writes.
pub fn parts_are_apart()
    ensures { PartsAreApart }
{}

/// Words keep traps by these numbers.
pub fn trap_numbers_are_these()
    ensures { TrapNumbersAreThese }
{}

/// In the run in script order the own word of each piece notes its traps, before the last segment and after all pieces.
pub fn traps_are_told()
    ensures { TrapsAreTold }
{}

/// The traps of a plan are those of its pieces in the order of their numbers.
pub fn traps_come_by_number()
    ensures { TrapsComeByNumber }
{}

/// The traps of a plan rise, by job and by index: the first of them is the least.
pub fn traps_rise()
    ensures { TrapsRise }
{}

/// The own words of all pieces say how many traps a plan has, and the first of them by job and index. A count of 64
/// bits holds them.
pub fn reports_tally()
    ensures { ReportsTally }
{}

/// A count of 32 bits holds the refused statements of a plan.
pub fn refusals_are_few()
    ensures { RefusalsAreFew }
{}
