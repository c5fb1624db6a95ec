ghost use Rattle.std.specs.Prelude.{◌≡◌, ◌⊎◌, List, ℕ, ◌^◌, ◌<◌, length, map, IfOk};
ghost use Rattle.tree_model.specs.Plans.{IsPlan};
ghost use Rattle.tree_model.specs.System.{IsSystem};
ghost use Rattle.tree_model.specs.Releases.{AreReleases, jobs_at};
ghost use Rattle.trace_commands.specs.Simulate.{kept_status, IsSimulated, Simulates};

use crate::slots::Slots;
use command_frame::{Answer, Ending, JudgeTwo, Status, assigned, spelled};
use release_file::read_releases;
use rt_report::counts_text;
use server_sched::{Pattern, core_supplies, count_tree};
use slot_model::Job;
use std::alloc::{AllocError, Global};
use tree_model::{Plan, System};

/// `simulate FILE RELEASES PATTERN SLOTS`: whether a job misses in the first run of the tree over
/// the slots of the pattern, and what is counted of each node.
#[derive(Clone, Copy)]
pub struct Simulate {
    pub pattern: Pattern,
    pub slots: Slots,
}

impl JudgeTwo for Simulate {
    ghost says = { λ s. Simulates s.pattern s.slots.count };

    fn judge(&self, alloc: Global, sys: &System, bytes: &[u8]) -> Result<Answer, Ending> {
        let jobs = spelled(alloc, read_releases(alloc, sys, bytes))?;
        let plan = assigned(alloc, sys)?;
        Ok(simulated(alloc, sys, &plan, &jobs, self.pattern, self.slots)?)
    }
}

// The first run of the tree, counted and told.
fn simulated(
    alloc: Global,
    sys: &System,
    plan: &Plan,
    jobs: &[Vec<Job>],
    pattern: Pattern,
    slots: Slots,
) -> Result<Answer, AllocError>
    requires system { IsSystem sys.now }
    requires plan { IsPlan sys.now plan.now }
    requires jobs { AreReleases sys.now (map (λ j. j.items) jobs.now) }
    requires few { (q : ℕ) → q < length sys.now.parts →
        length (jobs_at (map (λ j. j.items) jobs.now) q) < 2 ^ 32 }
    ensures answer { IfOk result (λ a. IsSimulated pattern slots.count sys.now
        (map (λ j. j.items) jobs.now) plan.now a.status a.text.items) }
    ensures status { IfOk result (λ a. (a.status ≡ Status.Yes) ⊎ (a.status ≡ Status.No)) }
{
    let given = core_supplies(alloc, sys, pattern, slots.count)?;
    let counts = count_tree(alloc, sys, plan, jobs, &given, slots.count)?;
    Ok(Answer {
        status: kept_status(counts.is_kept()),
        text: counts_text(alloc, sys, &counts)?,
    })
}

fn kept_status(is_kept: bool) -> Status
    ensures { result ≡ kept_status is_kept }
{
    if is_kept { Status::Yes } else { Status::No }
}
