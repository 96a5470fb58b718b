//! Two scripts whose trees differ only in where their parts lie in memory mean the same.
//!
//! A tree keeps its children in boxes, its blocks in vectors and its names in strings, so two trees that were read from
//! one text are not equal: their pointers and capacities differ. `specs/Same` says when two kernels or two scripts are
//! the same but for that. A function here does nothing: its contract is a law, as `specs/Laws` states it. Kernels that
//! are the same run alike, and where one is checked so is the other; scripts that are the same have the same output,
//! the same status and the same traps.
#![tactic(auto)]

ghost use Rattle.tree_laws.specs.Laws.{KernelsAreThemselves, SameKernelsAreChecked, SameKernelsRunAlike, SameScriptsHaveNoTrap, SameScriptsRunAlike, ScriptsAreThemselves};

/// Each kernel is the same as itself.
pub fn kernels_are_themselves()
    ensures { KernelsAreThemselves }
{}

/// Each script is the same as itself.
pub fn scripts_are_themselves()
    ensures { ScriptsAreThemselves }
{}

/// A job of a kernel does what a job of the same kernel does.
pub fn same_kernels_run_alike()
    ensures { SameKernelsRunAlike }
{}

/// Where a kernel is checked, so is the same kernel.
pub fn same_kernels_are_checked()
    ensures { SameKernelsAreChecked }
{}

/// Scripts that are the same have the same output, the same status and the same traps.
pub fn same_scripts_run_alike()
    ensures { SameScriptsRunAlike }
{}

/// Where no job of a script traps, none of the same script does.
pub fn same_scripts_have_no_trap()
    ensures { SameScriptsHaveNoTrap }
{}
