//! Names and numbers of a script, as texts.
ghost use Rattle.std.specs.Prelude.{◌≡◌, IfOk, string_bytes};
ghost use Rattle.schedule_text.specs.Boxes.{name_text, arg_text};

use frame_ast::script::{Arg, Script};
use std::alloc::{AllocError, Global};

/// A name of a script, which is empty where there is none.
pub fn name_of(script: &Script, name: u32) -> &str
    ensures { result.now ≡ name_text script.now name }
{
    script.names.get(name as usize).unwrap_or("")
}

/// An argument, as the script has it.
pub(crate) fn arg_text(alloc: Global, script: &Script, arg: Arg) -> Result<String, AllocError>
    ensures { IfOk result (λ s. string_bytes s ≡ arg_text script.now arg) }
{
    match arg {
        Arg::Name(name) => String::from_str(alloc, name_of(script, name)),
        Arg::Number(number) => format!(in alloc; "{number}"),
    }
}
