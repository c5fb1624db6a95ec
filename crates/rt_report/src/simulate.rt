ghost use Rattle.std.specs.Prelude.{◌≡◌, ◌++◌, ◌<◌, ◌≤◌, ◌^◌, ℕ, length, map, IfOk, OnOk, string_bytes};
ghost use Rattle.tree_model.specs.declared.place.Place.TheVariants.{Core as core_place, Part as part_place};
ghost use Rattle.tree_model.specs.Tree.{IsNode};
ghost use Rattle.tree_model.specs.Plans.{IsPlan};
ghost use Rattle.tree_model.specs.Releases.{AreReleases, jobs_at};
ghost use Rattle.server_sched.specs.Shapes.{TreeHolds};
ghost use Rattle.rt_report.specs.Simulate.{first_line, counts_line, counts_lines, verdict_line, simulate_text, slots_told, IsTextOfRun};

use crate::missed::push_missed;
use crate::names;
use server_sched::{TreeCounts, count_run};
use slot_model::{Job, Miss};
use span_counts::Counts;
use std::alloc::{AllocError, Global};
use tree_model::{Place, Plan, System, TreeRun};

/// The text of a simulation: the verdict, then what is counted of each core and of each part, and
/// below a node with a miss its first one.
pub fn counts_text(alloc: Global, sys: &System, counts: &TreeCounts) -> Result<Vec<u8>, AllocError>
    requires each_core { length counts.now.cores ≡ length sys.now.cores }
    requires each_part { length counts.now.parts ≡ length sys.now.parts }
    ensures { IfOk result (λ text. text.items ≡ simulate_text sys.now counts.now) }
{
    let mut text = String::from_str(alloc, verdict(counts.is_kept()))?;
    push_cores(&mut text, sys, counts.cores())?;
    push_parts(&mut text, sys, counts.parts())?;
    Ok(text.into_bytes())
}

/// The same of a run of a tree that stands slot by slot, over these jobs and these lists of slots,
/// one a core. It may be any run of that shape that holds jobs which are released, as `run_tree`
/// answers one.
pub fn simulate_text(
    alloc: Global,
    sys: &System,
    plan: &Plan,
    jobs: &[Vec<Job>],
    given: &[Vec<bool>],
    run: &TreeRun,
) -> Result<Vec<u8>, AllocError>
    requires plan { IsPlan sys.now plan.now }
    requires jobs { AreReleases sys.now (map (λ j. j.items) jobs.now) }
    requires one_each { length given.now ≡ length sys.now.cores }
    requires short { slots_told (map (λ g. g.items) given.now) ≤ 1000000 }
    requires few { (q : ℕ) → q < length sys.now.parts →
        length (jobs_at (map (λ j. j.items) jobs.now) q) < 2 ^ 32 }
    requires holds { let supplies = map (λ g. g.items) given.now in
        TreeHolds sys.now plan.now (slots_told supplies) supplies
        (map (λ j. j.items) jobs.now) run.now.cores run.now.parts }
    ensures { IfOk result (λ text. IsTextOfRun sys.now plan.now (map (λ g. g.items) given.now)
        (map (λ j. j.items) jobs.now) run.now.cores run.now.parts text.items) }
{
    let counts = count_run(alloc, sys, plan, jobs, given, run, slots_told(given))?;
    counts_text(alloc, sys, &counts)
}

fn slots_told(given: &[Vec<bool>]) -> u64
    ensures { result ≡ slots_told (map (λ g. g.items) given.now) }
{
    if given.is_empty() {
        return 0;
    }
    given[0].len() as u64
}

/// The first line: yes where it is kept.
pub fn verdict(is_kept: bool) -> &'static str
    ensures { result.now ≡ verdict_line is_kept }
{
    if is_kept {
        "verdict=yes\n"
    } else {
        "verdict=no\n"
    }
}

fn push_cores(text: &mut String, sys: &System, counts: &[Counts]) -> Result<(), AllocError>
    requires { length counts.now ≡ length sys.now.cores }
    ensures { OnOk result (string_bytes text.new ≡
        string_bytes text.old ++ counts_lines sys.now core_place 0 counts.now) }
{
    for c in 0..sys.cores().len() as u32 {
        push_counts(text, sys, Place::Core(c), &counts[c as usize])?;
    }
    Ok(())
}

fn push_parts(text: &mut String, sys: &System, counts: &[Counts]) -> Result<(), AllocError>
    requires { length counts.now ≡ length sys.now.parts }
    ensures { OnOk result (string_bytes text.new ≡
        string_bytes text.old ++ counts_lines sys.now part_place 0 counts.now) }
{
    for q in 0..sys.parts().len() as u32 {
        push_counts(text, sys, Place::Part(q), &counts[q as usize])?;
    }
    Ok(())
}

fn push_counts(
    text: &mut String,
    sys: &System,
    node: Place,
    counts: &Counts,
) -> Result<(), AllocError>
    requires { IsNode sys.now node }
    ensures { OnOk result (
        string_bytes text.new ≡ string_bytes text.old ++ counts_line sys.now node counts.now) }
{
    names::push_node(text, sys, node)?;
    write!(
        text,
        " given={} jobs={} missed={}\n",
        counts.given, counts.released, counts.missed
    )?;
    push_first(text, sys, node, counts.first)
}

fn push_first(
    text: &mut String,
    sys: &System,
    node: Place,
    first: Option<Miss>,
) -> Result<(), AllocError>
    requires { IsNode sys.now node }
    ensures { OnOk result (
        string_bytes text.new ≡ string_bytes text.old ++ first_line sys.now node first) }
{
    match first {
        Some(miss) => {
            text.push_str("first ")?;
            push_missed(text, names::served(sys, node, miss.task), miss)
        }
        None => Ok(()),
    }
}
