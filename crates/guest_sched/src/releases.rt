ghost use Rattle.std.specs.Prelude.{◌≡◌, ℕ, ◌<◌, ◌^◌, length, IfOk};
ghost use Rattle.guest_sched.specs.inner.Releases.{release_of, release_at, AreReleases};

use slot_model::Job;
use std::alloc::{AllocError, Global};

/// The release of a job, in slots, and its place in the list of jobs.
#[derive(Clone, Copy)]
pub struct Release {
    pub release: u64,
    pub place: u32,
}

/// The releases of all jobs, by release.
pub fn releases(alloc: Global, jobs: &[Job]) -> Result<Vec<Release>, AllocError>
    requires few { length jobs.now < 2 ^ 32 }
    ensures { IfOk result (λ v. AreReleases jobs.now v.items) }
{
    let mut releases = listed(alloc, jobs)?;
    releases.sort_by_key(|one| one.release)?;
    Ok(releases)
}

/// The releases of all jobs, in the order of their list.
fn listed(alloc: Global, jobs: &[Job]) -> Result<Vec<Release>, AllocError>
    requires few { length jobs.now < 2 ^ 32 }
    ensures long { IfOk result (λ v. length v.items ≡ length jobs.now) }
    ensures each { IfOk result (λ v. (j : ℕ) → j < length jobs.now →
        release_at v.items j ≡ release_of jobs.now j) }
{
    let mut releases = Vec::with_capacity(alloc, jobs.len())?;
    for (place, job) in jobs.iter().enumerate() {
        releases.push(Release {
            release: job.release,
            place: place as u32,
        })?;
    }
    Ok(releases)
}
