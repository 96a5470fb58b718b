//! What the code of kernels promises, as laws.

ghost use Rattle.std.specs.Prelude.{List, ℕ, ℤ};
ghost use Rattle.frame_ast.specs.Contents.{Contents};
ghost use Rattle.kernel_bytecode.specs.BlockLaws.{BodiesAreCompiled, ExecutionsAreCompiled};
ghost use Rattle.kernel_bytecode.specs.CodeLaws.{CodeIsSafe, KernelsAreCompiled};
ghost use Rattle.kernel_bytecode.specs.Laws.{ExpressionsAreCompiled};

/// The code of an expression gives its value, or its trap: of arguments that are kept as contents, and as cells.
pub fn expressions_are_compiled()
    ensures of_contents { ExpressionsAreCompiled (List Contents) }
    ensures of_cells { ExpressionsAreCompiled (ℕ → ℤ) }
{}

/// The code of a body ends as the body does: with the same steps left, the same trap and the same store.
pub fn bodies_are_compiled()
    ensures of_contents { BodiesAreCompiled (List Contents) }
    ensures of_cells { BodiesAreCompiled (ℕ → ℤ) }
{}

/// The code of a body has the trap of an Execute of it, or none where that has none, and leaves the same store.
pub fn executions_are_compiled()
    ensures of_contents { ExecutionsAreCompiled (List Contents) }
    ensures of_cells { ExecutionsAreCompiled (ℕ → ℤ) }
{}

/// The code of a checked kernel names what it may: a machine that runs it needs no test of its own.
pub fn code_is_safe()
    ensures { CodeIsSafe }
{}

/// The code of a checked kernel has the trap of an Execute of it, or none where that has none, and leaves the same
/// store.
pub fn kernels_are_compiled()
    ensures of_contents { KernelsAreCompiled (List Contents) }
    ensures of_cells { KernelsAreCompiled (ℕ → ℤ) }
{}
