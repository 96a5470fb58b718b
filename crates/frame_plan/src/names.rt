// The names of a script, which its plans say in their lines.
ghost use Rattle.std.specs.Prelude.{IfOk};
ghost use Rattle.frame_plan.specs.Names.{AreNamesOf};

use frame_ast::NameTexts;
use frame_ast::script::Script;
use job_base::NoMemory;

/// A copy of a script's names.
pub(crate) fn names_of(script: &Script) -> Result<NameTexts, NoMemory>
    ensures { IfOk result (λ names. AreNamesOf script.now names) }
{
    Ok(script.names.try_clone()?)
}
