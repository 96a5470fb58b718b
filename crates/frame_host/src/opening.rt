// How a script is read.
ghost use Rattle.std.specs.Prelude.{◌≡◌, ◌<◌, ◌≤◌, ◌↔◌, ℕ, length, IfOk, IsErrOf, Err};
ghost use Rattle.job_base.specs.declared.limits.TheConstants.{MOST_SCRIPT_BYTES};
ghost use Rattle.frame_ast.specs.Accepted.{IsAccepted};
ghost use Rattle.frame_script.specs.Loading.{IsRefused};
ghost use Rattle.frame_top.specs.Inputs.{Accepts};
ghost use Rattle.frame_host.specs.Scripts.{tree_of};

use crate::script::FrameScript;
use frame_ast::kernel::FaultKind;
use frame_script::{LoadFault, parse_script};
use job_base::NoMemory;
use job_base::limits::MOST_SCRIPT_BYTES;
use std::alloc::Global;
use std::sync::Arc;

/// Why bytes give no script.
#[derive(Clone, Copy, Debug, PartialEq, Eq)]
pub enum OpenFault {
    /// There are more than a script may have.
    TooLong,
    /// They are refused for a token of this line, counted from 1.
    Refused { line: u32, kind: FaultKind },
    NoMemory,
}

impl FrameScript {
    /// The script of these bytes.
    pub fn open(alloc: Global, source: &[u8]) -> Result<FrameScript, OpenFault>
        ensures script { IfOk result (λ script. Accepts source.now (tree_of script)) }
        ensures accepted { IfOk result (λ script. IsAccepted (tree_of script)) }
        ensures too_long { IsErrOf result OpenFault.TooLong ↔ MOST_SCRIPT_BYTES < length source.now }
        ensures refused { (line : ℕ) (kind : FaultKind) → result ≡ Err (OpenFault.Refused line kind)
            → (length source.now ≤ MOST_SCRIPT_BYTES) × IsRefused source.now line kind }
    {
        if source.len() > MOST_SCRIPT_BYTES as usize {
            return Err(OpenFault::TooLong);
        }
        let tree = match parse_script(alloc, source) {
            Ok(tree) => tree,
            Err(LoadFault::Refused { line, kind }) => return Err(OpenFault::Refused { line, kind }),
            Err(LoadFault::NoMemory) => return Err(OpenFault::NoMemory),
        };
        match Arc::new(alloc, tree) {
            Ok(tree) => Ok(FrameScript { tree }),
            Err(_) => Err(OpenFault::NoMemory),
        }
    }

    /// The same script once more, for another owner.
    pub fn share(&self) -> Result<FrameScript, NoMemory>
        ensures { IfOk result (λ other. tree_of other ≡ tree_of self.now) }
    {
        match Arc::try_clone(&self.tree) {
            Ok(tree) => Ok(FrameScript { tree }),
            Err(_) => Err(NoMemory),
        }
    }
}
