// What a name stands for, and the jobs that names of handles stand for.
ghost use Rattle.std.specs.Prelude.{◌≡◌, ◌<◌, ◌≤◌, ◌*◌, ◌^◌, ◌||◌, ℕ, All, OnOk, vec_len};
ghost use Rattle.job_base.specs.declared.limits.TheConstants.{MOST_JOBS};
ghost use Rattle.frame_ast.specs.Jobs.{nobody, only};
ghost use Rattle.job_handle.specs.Sets.{jobs_of};
ghost use Rattle.plan_state.specs.Stands.{IsThere};
ghost use Rattle.plan_state.specs.Accesses.{AreThere, HasHandle, IsRenamed, jobs_by, jobs_of_value};

use crate::state::{Value, World};
use job_base::{JobId, NoMemory};
use job_handle::Handle;

impl World {
    /// A name stands for another value.
    pub fn set_value(&mut self, name: u32, value: Value)
        requires { name < vec_len self.old.values }
        ensures { IsRenamed self.old self.new name value }
    {
        self.values[name as usize] = value;
    }

    /// A name of a handle stands for these jobs.
    pub fn set_handle(&mut self, name: u32, jobs: &Handle) -> Result<(), NoMemory>
        requires name { name < vec_len self.old.values }
        requires there { AreThere (vec_len self.old.containers) (vec_len self.old.handles) self.old.values.items }
        requires few { vec_len self.old.handles < 2 ^ 32 }
        ensures { OnOk result (HasHandle self.old self.new name (jobs_of jobs.now)) }
    {
        match self.values[name as usize] {
            Value::Jobs(place) => self.handles[place as usize].set_to(jobs),
            Value::Dead | Value::Whole(_) | Value::Slice { .. } | Value::View { .. } => {
                let place = self.handles.len() as u32;
                self.handles.push(*jobs)?;
                self.values[name as usize] = Value::Jobs(place);
            }
        }
        Ok(())
    }

    /// A name of a handle stands for one job.
    pub fn set_handle_to_job(&mut self, name: u32, job: JobId) -> Result<(), NoMemory>
        requires name { name < vec_len self.old.values }
        requires there { AreThere (vec_len self.old.containers) (vec_len self.old.handles) self.old.values.items }
        requires few { vec_len self.old.handles < 2 ^ 32 }
        requires job { (0 < job.0) × (job.0 ≤ MOST_JOBS) }
        ensures { OnOk result (HasHandle self.old self.new name (only job.0)) }
    {
        match self.values[name as usize] {
            Value::Jobs(place) => {
                self.handles[place as usize].set_to_job(job);
                Ok(())
            }
            Value::Dead | Value::Whole(_) | Value::Slice { .. } | Value::View { .. } => {
                self.set_handle(name, &Handle::of(job))
            }
        }
    }

    /// A name of a handle stands for no job.
    pub fn clear_handle(&mut self, name: u32) -> Result<(), NoMemory>
        requires name { name < vec_len self.old.values }
        requires there { AreThere (vec_len self.old.containers) (vec_len self.old.handles) self.old.values.items }
        requires few { vec_len self.old.handles < 2 ^ 32 }
        ensures { OnOk result (HasHandle self.old self.new name nobody) }
    {
        match self.values[name as usize] {
            Value::Jobs(place) => {
                self.handles[place as usize].clear();
                Ok(())
            }
            Value::Dead | Value::Whole(_) | Value::Slice { .. } | Value::View { .. } => {
                self.set_handle(name, &Handle::empty())
            }
        }
    }

    /// The jobs of a value that stands for some.
    pub fn jobs_of(&self, value: Value) -> Handle
        requires there { IsThere (vec_len self.now.containers) (vec_len self.now.handles) value }
        ensures { jobs_of result ≡ jobs_of_value self.now.handles.items value }
    {
        match value {
            Value::Jobs(place) => self.handles[place as usize],
            Value::Dead | Value::Whole(_) | Value::Slice { .. } | Value::View { .. } =>
                Handle::empty(),
        }
    }

    /// A set of jobs becomes that of some names of handles together.
    pub fn set_to_jobs_of(&self, all: &mut Handle, names: &[u32])
        requires names { All (λ n. n < vec_len self.now.values) names.now }
        requires there { AreThere (vec_len self.now.containers) (vec_len self.now.handles) self.now.values.items }
        ensures { (j : ℕ) → jobs_of all.new j ≡ jobs_by self.now.handles.items self.now.values.items names.now j }
    {
        all.clear();
        for name in names {
            self.add_jobs_of(self.values[*name as usize], all);
        }
    }

    /// The jobs of a value that stands for some are added to others, in place: a set of jobs is 520 bytes.
    fn add_jobs_of(&self, value: Value, all: &mut Handle)
        requires there { IsThere (vec_len self.now.containers) (vec_len self.now.handles) value }
        ensures { (j : ℕ) → jobs_of all.new j ≡ (jobs_of all.old j || jobs_of_value self.now.handles.items value j) }
    {
        match value {
            Value::Jobs(place) => all.add_all(&self.handles[place as usize]),
            Value::Dead | Value::Whole(_) | Value::Slice { .. } | Value::View { .. } => {}
        }
    }
}
