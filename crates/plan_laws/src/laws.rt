//! Laws over the definitions. A function here does nothing: its contract is the law.
ghost use Rattle.plan_laws.specs.Accepting.{PlainKernelsStandIn, SchedulesArePlanned};
ghost use Rattle.plan_laws.specs.Accessing.{AcceptedNamesAreWritable, AddsArePlanned, ClearsArePlanned};
ghost use Rattle.plan_laws.specs.Accessing.{NamesAreWritable, PutsArePlanned, RemovesArePlanned, SetsArePlanned};
ghost use Rattle.plan_laws.specs.Apart.{PartsAreApart};
ghost use Rattle.plan_laws.specs.AtStart.{NothingIsPlanned};
ghost use Rattle.plan_laws.specs.Changing.{ChangesArePlanned};
ghost use Rattle.plan_laws.specs.Completing.{CompletesArePlanned};
ghost use Rattle.plan_laws.specs.Disposing.{DisposalsArePlanned, EndsArePlanned, OthersArePlanned};
ghost use Rattle.plan_laws.specs.Ending.{LinesAreReported, PiecesAreMade};
ghost use Rattle.plan_laws.specs.Enrolling.{EnrolledJobsAreInOrder};
ghost use Rattle.plan_laws.specs.Finishing.{DraftsBecomePlans, FinishedPlansAreOrdered};
ghost use Rattle.plan_laws.specs.Frames.{FramesArePlanned};
ghost use Rattle.plan_laws.specs.Leaving.{ArgumentsStand, LeftContentsAreHeld};
ghost use Rattle.plan_laws.specs.LeftWords.{JobsLeave};
ghost use Rattle.plan_laws.specs.Making.{ContainersArePlanned, LiteralsFill, ZerosFill};
ghost use Rattle.plan_laws.specs.Moving.{MovesArePlanned};
ghost use Rattle.plan_laws.specs.Operations.{OperationsArePlanned};
ghost use Rattle.plan_laws.specs.Printing.{NamesAreUsable, PrintsArePlanned};
ghost use Rattle.plan_laws.specs.Refusing.{RefusalsArePlanned};
ghost use Rattle.plan_laws.specs.Running.{AllIndexesRun, PiecesRunAsOne, WordsRunAsContents};
ghost use Rattle.plan_laws.specs.ScheduleTexts.{SchedulesAreAccepted};
ghost use Rattle.plan_laws.specs.Scheduling.{StartedJobsArePlanned};
ghost use Rattle.plan_laws.specs.Sections.{SectionsBegin};
ghost use Rattle.plan_laws.specs.WholePlans.{ListsOrderPlans};

// THE RELATION BEGINS

/// A script begins with nothing planned, whatever the whole plan becomes.
pub fn nothing_is_planned()
    ensures { NothingIsPlanned }
{}

/// A section begins with the words so far filled in.
pub fn sections_begin()
    ensures { SectionsBegin }
{}

// STATEMENTS KEEP IT

/// The segment at hand does one operation more.
pub fn operations_are_planned()
    ensures { OperationsArePlanned }
{}

/// A statement that is refused whatever the cells are gives its line, and the rest stays.
pub fn refusals_are_planned()
    ensures { RefusalsArePlanned }
{}

/// Zeros stand for a new container without elements, of each kind.
pub fn zeros_fill()
    ensures { ZerosFill }
{}

/// A literal stands for a new array, or for the value of a new reference.
pub fn literals_fill()
    ensures { LiteralsFill }
{}

/// A new container gets the first fit, and its words stand for what it holds.
pub fn containers_are_planned()
    ensures { ContainersArePlanned }
{}

/// An operation on one container, refused when it is run or not.
pub fn changes_are_planned()
    ensures { ChangesArePlanned }
{}

/// A name whose container is alive is usable.
pub fn names_are_usable()
    ensures { NamesAreUsable }
{}

/// A container is printed as its contents are.
pub fn prints_are_planned()
    ensures { PrintsArePlanned }
{}

/// The script may write through a name of the right kind that nothing blocks.
pub fn names_are_writable()
    ensures { NamesAreWritable }
{}

/// So it is before each statement of an accepted script that writes through a name.
pub fn accepted_names_are_writable()
    ensures { AcceptedNamesAreWritable }
{}

/// `set` of an element or of a reference, refused or not.
pub fn sets_are_planned()
    ensures { SetsArePlanned }
{}

/// `add` to a list or a map.
pub fn adds_are_planned()
    ensures { AddsArePlanned }
{}

/// `put` into a map.
pub fn puts_are_planned()
    ensures { PutsArePlanned }
{}

/// `remove` from a list or a map.
pub fn removes_are_planned()
    ensures { RemovesArePlanned }
{}

/// `clear` of a list, a map or a stream.
pub fn clears_are_planned()
    ensures { ClearsArePlanned }
{}

/// `setcapacity` moves a list to the first fit while its old range is live.
pub fn moves_are_planned()
    ensures { MovesArePlanned }
{}

/// Containers that end add nothing: words come back at once, or once all their users are completed.
pub fn ends_are_planned()
    ensures { EndsArePlanned }
{}

/// So a disposal adds nothing, with `after` or without.
pub fn disposals_are_planned()
    ensures { DisposalsArePlanned }
{}

/// A statement that changes nothing of what the plan knows adds nothing.
pub fn others_are_planned()
    ensures { OthersArePlanned }
{}

/// `frame` reports each container that is overdue, and ends temp containers.
pub fn frames_are_planned()
    ensures { FramesArePlanned }
{}

/// A new segment waits for the jobs that `complete` newly completes.
pub fn completes_are_planned()
    ensures { CompletesArePlanned }
{}

/// What an accepted script says of a schedule that isn't refused, read from its text.
pub fn schedules_are_accepted()
    ensures { SchedulesAreAccepted }
{}

/// The kernel of a schedule that isn't deferred stands in for itself: its job fits it.
pub fn plain_kernels_stand_in()
    ensures { PlainKernelsStandIn }
{}

/// A schedule starts a job of a kernel that stands in for its own. It runs in pieces as the language runs that whole.
pub fn schedules_are_planned()
    ensures { SchedulesArePlanned }
{}

// THE END

/// A finished draft becomes a well ordered plan, whose run in script order says and leaves what the script does.
pub fn drafts_become_plans()
    ensures { DraftsBecomePlans }
{}

/// A finished plan's conflicts lead.
pub fn finished_plans_are_ordered()
    ensures { FinishedPlansAreOrdered }
{}

/// The pieces of the whole plan are those of the draft.
pub fn pieces_are_made()
    ensures { PiecesAreMade }
{}

/// The lines and refused statements of the whole plan are those of the draft.
pub fn lines_are_reported()
    ensures { LinesAreReported }
{}

/// Where the list of a plan's pieces is well ordered, the plan's conflicts lead.
pub fn lists_order_plans()
    ensures { ListsOrderPlans }
{}

// STEPS TO SCHEDULES

/// The words that a job is given stand for the contents of its arguments.
pub fn arguments_stand()
    ensures { ArgumentsStand }
{}

/// A job's words afterwards stand for its contents afterwards, with the same traps.
pub fn words_run_as_contents()
    ensures { WordsRunAsContents }
{}

/// The pieces of a job, one after another, do what its indexes do.
pub fn pieces_run_as_one()
    ensures { PiecesRunAsOne }
{}

/// All pieces are all indexes.
pub fn all_indexes_run()
    ensures { AllIndexesRun }
{}

/// What a job's words are afterwards, and what of them stays.
pub fn jobs_leave()
    ensures { JobsLeave }
{}

/// The words that a job leaves stand for the contents of the containers.
pub fn left_contents_are_held()
    ensures { LeftContentsAreHeld }
{}

/// The pieces of a job are apart.
pub fn parts_are_apart()
    ensures { PartsAreApart }
{}

/// The pieces of a new job are in order.
pub fn enrolled_jobs_are_in_order()
    ensures { EnrolledJobsAreInOrder }
{}

/// The segment at hand starts a job, whatever its kernel and its arguments are.
pub fn started_jobs_are_planned()
    ensures { StartedJobsArePlanned }
{}
