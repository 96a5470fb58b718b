//! Why a text gives no kernel.

use frame_ast::kernel::FaultKind;
use frame_grammar::TokenAt;
use job_base::NoMemory;
use std::alloc::{AllocError, AllocFailed};

/// A static fault, at the token of that place among those of the kernel.
#[derive(Clone, Copy, Debug, PartialEq, Eq)]
pub struct StaticFault {
    pub at: TokenAt,
    pub kind: FaultKind,
}

/// Why a text gives no kernel.
#[derive(Clone, Copy, Debug, PartialEq, Eq)]
pub enum KernelFault {
    /// The text is refused for a token of this line, counted from 1.
    Refused { line: u32, kind: FaultKind },
    NoMemory,
}

impl From<NoMemory> for KernelFault {
    ghost use Rattle.std.specs.Prelude.{◌≡◌};
    ghost use Rattle.kernel_raw.specs.declared.fault.KernelFault.TheVariants as fault;

    ghost from_gives = { λ _ f. f ≡ fault.NoMemory };

    fn from(_: NoMemory) -> Self {
        KernelFault::NoMemory
    }
}

impl From<AllocError> for KernelFault {
    ghost use Rattle.std.specs.Prelude.{◌≡◌};
    ghost use Rattle.kernel_raw.specs.declared.fault.KernelFault.TheVariants as fault;

    ghost from_gives = { λ _ f. f ≡ fault.NoMemory };

    fn from(_: AllocError) -> Self {
        KernelFault::NoMemory
    }
}

impl<T: Drop> From<AllocFailed<T>> for KernelFault {
    ghost use Rattle.std.specs.Prelude.{◌≡◌};
    ghost use Rattle.kernel_raw.specs.declared.fault.KernelFault.TheVariants as fault;

    ghost from_gives = { λ _ f. f ≡ fault.NoMemory };

    fn from(_: AllocFailed<T>) -> Self {
        KernelFault::NoMemory
    }
}
