//! Worked kernels and scripts, by computation of the definitions in `frame_ast`: what they print, and their statuses.
//!
//! There is no code here. `proofs/Kernels.antt` has the kernels and the files `proofs/Rows*.antt` the scripts, each
//! written nearly as its text reads; `proofs/Kernel.antt` and `proofs/Script.antt` make trees of them. Each row is a
//! theorem that holds by computing both sides, so a row whose expected output or status is wrong in one place is
//! refused by the check. Beside them stand worked cases of the other definitions: checked kernels with their nodes and
//! depths, accepted scripts, steps, limits, and where words lie.
#![tactic(auto)]
