// What the safety book keeps of a new job.
ghost use Rattle.std.specs.Prelude.{◌≡◌, ℕ, ◌<◌, ◌≤◌};
ghost use Rattle.job_base.specs.declared.limits.TheConstants.{MOST_JOBS};
ghost use Rattle.safety_handle.specs.Entries.{state_of};
ghost use Rattle.plan_schedules.specs.Noting.{MayNote, MayNoteAll, noted, noted_all};

use crate::uses::NamedUse;
use frame_ast::kernel::writes_to;
use job_base::JobId;
use plan_state::World;
use safety_handle::SafetyBook;

/// A new job has these uses. The views of the lists that it may write are broken.
pub(crate) fn note_all(world: &mut World, uses: &[NamedUse], job: JobId)
    requires job { (0 < job.0) × (job.0 ≤ MOST_JOBS) }
    requires may { MayNoteAll uses.now (state_of world.old.safety) }
    ensures noted { (k : ℕ) → state_of world.new.safety k
        ≡ noted_all job.0 uses.now (state_of world.old.safety) k }
    ensures rest { world.new ≡ record world.old { safety = world.new.safety } }
{
    for i in 0..uses.len() {
        note(&mut world.safety, &uses[i], job);
    }
}

/// The job has this use.
fn note(book: &mut SafetyBook, one: &NamedUse, job: JobId)
    requires job { (0 < job.0) × (job.0 ≤ MOST_JOBS) }
    requires may { MayNote one.now (state_of book.old) }
    ensures { (k : ℕ) → state_of book.new k ≡ noted job.0 one.now (state_of book.old) k }
{
    let Some(tag) = one.tag else {
        return;
    };
    if writes_to(one.access) {
        book.note_write(tag.slot, job);
        if one.kind.is_list() {
            book.bump_view(tag.slot);
        }
    } else {
        book.note_read(tag.slot, job);
    }
}
