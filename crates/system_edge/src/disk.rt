//! Files of the disk.
//!
//! TRUSTED: that the bytes that it answers are those of the file of that name; no contract can say what a file holds.
ghost use Rattle.std.specs.Prelude.{◌≡◌, ◌<◌, ◌≤◌, ℕ, List, Option, None, option_map, string_bytes, length, vec_len, IfOk, IfSome, IsErrOf};

use job_base::{FileFault, Files};
use std::alloc::Global;
use std::io::Read;
use std::{fs, rt};

// As many bytes are asked of a file at once.
const PART_BYTES: usize = 4_096;

/// Real files, by their paths. Their bytes are the system's, so nothing is said of them.
#[derive(Drop)]
pub struct DiskFiles<'a, R: rt::Files> {
    system: &'a R,
    faults: u64,
    last_failed: Option<String>,
}

impl<'a, R: rt::Files> DiskFiles<'a, R> {
    /// No read has failed yet.
    pub fn new(system: &'a R) -> DiskFiles<'a, R>
        ensures faults { ⟦<DiskFiles<'a, R> as Files>⟧.faults result ≡ 0 }
        ensures last_failed { ⟦<DiskFiles<'a, R> as Files>⟧.last_failed result ≡ None }
    {
        DiskFiles {
            system,
            faults: 0,
            last_failed: None,
        }
    }
}

impl<R: rt::Files> Files for DiskFiles<'_, R> {
    ghost bytes = { λ f name. None };

    ghost faults = { λ f. f.faults };

    ghost last_failed = { λ f. option_map (λ name. string_bytes name) f.last_failed };

    fn read(&mut self, alloc: Global, name: &str, limit: u64) -> Result<Vec<u8>, FileFault> {
        let Ok(copy) = String::from_str(alloc, name) else {
            return Err(FileFault::NoMemory);
        };
        match read_all(self.system, alloc, name, limit) {
            Err(FileFault::Failed) => {
                self.last_failed = Some(copy);
                self.faults = self.faults.saturating_add(1);
                Err(FileFault::Failed)
            }
            answer => answer,
        }
    }
}

// The bytes of a file.
fn read_all<R: rt::Files>(
    system: &R,
    alloc: Global,
    name: &str,
    limit: u64,
) -> Result<Vec<u8>, FileFault>
    ensures { IfOk result (λ v. vec_len v ≤ limit) }
{
    match fs::open(system, name) {
        Ok(mut file) => read_parts(alloc, &mut file, limit),
        Err(_) => Err(FileFault::Failed),
    }
}

// All the bytes that a reader has left, read part by part until there are none. The contract speaks of readers
// whose bytes are known, as those of a file of the disk aren't.
fn read_parts<F: Read>(alloc: Global, file: &mut F, limit: u64) -> Result<Vec<u8>, FileFault>
    ensures bytes { IfOk result (λ v. IfSome (F.remaining file.old) (λ bytes. v.items ≡ bytes)) }
    ensures within { IfOk result (λ v. vec_len v ≤ limit) }
    ensures too_long { IsErrOf result FileFault.TooLong
        → IfSome (F.remaining file.old) (λ bytes. limit < length bytes) }
{
    let mut bytes = Vec::new(alloc);
    let mut part = [0u8; PART_BYTES];
    for _ in 0..u64::MAX {
        let Ok(count) = file.read(&mut part) else {
            return Err(FileFault::Failed);
        };
        if count == 0 {
            return Ok(bytes);
        }
        if bytes.len() as u64 + count as u64 > limit {
            return Err(FileFault::TooLong);
        }
        if bytes.extend_from_slice(&part[..count]).is_err() {
            return Err(FileFault::NoMemory);
        }
    }
    Err(FileFault::Failed)
}
