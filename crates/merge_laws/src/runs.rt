//! Runs of a plan, as lists of events.

ghost use Rattle.merge_laws.specs.Runs.{EndedRunsAgree, EndedRunsAreInScriptOrder, RunsCanGoOn, RunsKeepTheMerge};

/// In each state that a legal list of events reaches the merge holds, each lease sees on its footprint the cells of
/// script order, and each piece was ended once at most.
pub fn runs_keep_the_merge()
    ensures { RunsKeepTheMerge }
{}

/// Where a run has ended, its cells are those after the run in script order.
pub fn ended_runs_are_in_script_order()
    ensures { EndedRunsAreInScriptOrder }
{}

/// Any two runs that ended have the same cells.
pub fn ended_runs_agree()
    ensures { EndedRunsAgree }
{}

/// A run can always go on until it has ended.
pub fn runs_can_go_on()
    ensures { RunsCanGoOn }
{}
