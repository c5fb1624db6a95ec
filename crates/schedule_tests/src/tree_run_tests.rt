//! The runs of whole trees, of `server_sched`.

ghost use Rattle.std.specs.Prelude.{ℕ, ◌^◌, ◌<◌, ◌≤◌, length, map};
ghost use Rattle.tree_model.specs.Plans.{IsPlan};
ghost use Rattle.tree_model.specs.Releases.{AreReleases, jobs_at};
ghost use Rattle.tree_model.specs.System.{IsSystem};

use crate::helpers::{MEMORY, planned, system_of};
use guest_sched::{Span, Window};
use release_file::read_releases;
use server_sched::{
    NodeSpans, Pattern, TreeCounts, TreeSpans, core_supplies, count_run, count_tree, run_tree,
    span_tree,
};
use slot_model::{Job, Miss};
use span_counts::Counts;
use std::alloc::{AllocError, Global};
use std::process::Abort;
use tree_model::{Plan, System, TreeRun};

/// No jobs of any leaf.
fn no_jobs(rt: &impl Abort, alloc: Global, sys: &System) -> Vec<Vec<Job>>
    ensures system { IsSystem sys.now }
    ensures legal { AreReleases sys.now (map (λ j. j.items) result.items) }
    ensures few { (q : ℕ) → q < length sys.now.parts →
        length (jobs_at (map (λ j. j.items) result.items) q) < 2 ^ 32 }
{
    match read_releases(alloc, sys, b"at,part,task,work\n") {
        Ok(jobs) => {
            assert!(rt; jobs.len() == sys.parts().len());
            jobs
        }
        Err(_) => panic!(rt; "no releases"),
    }
}

/// The tree over full cores, whose leaves have no jobs, and its counts of a run that is not kept.
fn idle_tree(
    rt: &impl Abort,
    alloc: Global,
    sys: &System,
    plan: &Plan,
    slots: u64,
) -> Result<(TreeSpans, TreeCounts), AllocError>
    requires plan { IsPlan sys.now plan.now }
    requires short { slots ≤ 1000000 }
{
    let jobs = no_jobs(rt, alloc, sys);
    let given = core_supplies(alloc, sys, Pattern::Early, slots)?;
    let tree = span_tree(alloc, sys, plan, &jobs, &given, slots)?;
    let counts = count_tree(alloc, sys, plan, &jobs, &given, slots)?;
    Ok((tree, counts))
}

/// The same slot by slot, over 10 slots that the core of a system of one core has, and its counts.
fn idle_run(
    rt: &impl Abort,
    alloc: Global,
    sys: &System,
    plan: &Plan,
) -> Result<(TreeRun, TreeCounts), AllocError>
    requires plan { IsPlan sys.now plan.now }
{
    assert!(rt; sys.cores().len() == 1);
    let jobs = no_jobs(rt, alloc, sys);
    let given = Vec::from_array(alloc, [vec![in alloc; true; 10]?])?;
    let run = run_tree(alloc, sys, plan, &jobs, &given, 10)?;
    let counts = count_run(alloc, sys, plan, &jobs, &given, &run, 10)?;
    Ok((run, counts))
}

/// What is counted of a leaf without jobs.
fn idle(given: u64) -> Counts {
    Counts {
        given,
        released: 0,
        missed: 0,
        first: None,
    }
}

fn assert_counts(rt: &impl Abort, counts: &TreeCounts, core: Counts, parts: &[Counts]) {
    assert!(rt; counts.cores() == [core].as_slice());
    assert!(rt; counts.parts() == parts);
}

/// On a full core.
const TWO_SERVERS: &str = "format = 1
core = [{name = 'cpu0', sched = 'edf'}]
[[part]]
name = 'A'
parent = 'cpu0'
sched = 'edf'
period = 10
budget = 6
task = [{name = 't', period = 100, work = 6}]
[[part]]
name = 'B'
parent = 'cpu0'
sched = 'edf'
period = 10
budget = 6
task = [{name = 't', period = 100, work = 6}]
";

/// Two servers of 6 slots in 10 need 12: the second, of equal deadline, lacks two.
fn two_servers() -> Counts {
    let miss = Miss {
        task: 1,
        release: 0,
        deadline: 10,
        got: 4,
        work: 6,
    };
    Counts {
        given: 10,
        released: 2,
        missed: 1,
        first: Some(miss),
    }
}

#[test]
fn the_second_of_two_servers_misses(rt: HostRuntime) {
    let alloc = rt.alloc();
    let sys = system_of(&rt, alloc, TWO_SERVERS);
    let plan = planned(&rt, alloc, &sys);
    let (tree, counted) = idle_tree(&rt, alloc, &sys, &plan, 10).expect(&rt, MEMORY);
    let counts = tree.counts(alloc).expect(&rt, MEMORY);
    assert!(rt; !counts.is_kept());
    let parts = [idle(6), idle(4)];
    assert_counts(&rt, &counts, two_servers(), &parts);
    assert_counts(&rt, &counted, two_servers(), &parts);
}

#[test]
fn it_misses_slot_by_slot(rt: HostRuntime) {
    let alloc = rt.alloc();
    let sys = system_of(&rt, alloc, TWO_SERVERS);
    let plan = planned(&rt, alloc, &sys);
    let (run, counts) = idle_run(&rt, alloc, &sys, &plan).expect(&rt, MEMORY);
    assert_counts(&rt, &counts, two_servers(), &[idle(6), idle(4)]);
    let (a, b) = (Some(0), Some(1));
    let held = [a, a, a, a, a, a, b, b, b, b];
    assert!(rt; run.cores.len() == 1);
    assert!(rt; run.cores[0].as_slice() == held.as_slice());
}

/// On a full core.
const GROUP: &str = "format = 1
core = [{name = 'cpu0', sched = 'edf'}]
[[part]]
name = 'group'
parent = 'cpu0'
sched = 'edf'
period = 10
budget = 5
[[part]]
name = 'alone'
parent = 'cpu0'
sched = 'edf'
period = 10
budget = 3
task = [{name = 't', period = 100, work = 6}]
[[part]]
name = 'web'
parent = 'group'
sched = 'edf'
period = 10
budget = 2
task = [{name = 't', period = 100, work = 6}]
[[part]]
name = 'db'
parent = 'group'
sched = 'edf'
period = 10
budget = 2
task = [{name = 't', period = 100, work = 6}]
";

/// A group of 5 slots in 10 gives its children 2 and 2 of them, and one is spent on nothing.
#[test]
fn a_group_gives_to_its_children(rt: HostRuntime) {
    let alloc = rt.alloc();
    let sys = system_of(&rt, alloc, GROUP);
    let plan = planned(&rt, alloc, &sys);
    let (tree, counted) = idle_tree(&rt, alloc, &sys, &plan, 20).expect(&rt, MEMORY);
    let group = Counts {
        given: 10,
        released: 4,
        missed: 0,
        first: None,
    };
    let counts = tree.counts(alloc).expect(&rt, MEMORY);
    assert!(rt; counts.is_kept());
    let parts = [group, idle(6), idle(4), idle(4)];
    assert!(rt; counts.parts() == parts.as_slice());
    assert!(rt; counted.parts() == parts.as_slice());
    assert!(rt; tree.parts().len() == 4);
    assert_shares(&rt, &tree.parts()[0]);
}

const fn span(from: u64, until: u64, job: Option<u32>) -> Span {
    Span { from, until, job }
}

/// The group has 0 to 5 and 10 to 15, of which its first two slots go to `web` and the next to
/// `db`.
fn assert_shares(rt: &impl Abort, group: &NodeSpans) {
    let shares = [
        span(0, 2, Some(0)),
        span(2, 4, Some(1)),
        span(4, 10, None),
        span(10, 12, Some(2)),
    ];
    let spans = group.spans();
    assert!(rt; spans.len() >= 4);
    assert!(rt; &spans[..4] == shares.as_slice());
}

/// On a core of 4 slots in 10.
const SUPPLIED: &str = "format = 1
core = [{name = 'cpu0', sched = 'edf', supply_period = 10, supply_budget = 4}]
[[part]]
name = 'A'
parent = 'cpu0'
sched = 'edf'
period = 10
task = [{name = 't', period = 100, work = 6}]
";

const fn window(from: u64, until: u64) -> Window {
    Window { from, until }
}

/// The windows of a system's one core in 25 slots.
fn assert_given(rt: &impl Abort, alloc: Global, sys: &System, pattern: Pattern, wanted: &[Window]) {
    let given = core_supplies(alloc, sys, pattern, 25).expect(rt, MEMORY);
    assert!(rt; given.len() == 1);
    assert!(rt; given[0].as_slice() == wanted);
}

/// A core of 4 slots in 10 has them at the begin or at the end of each period.
#[test]
fn a_core_has_its_slots_by_the_pattern(rt: HostRuntime) {
    let alloc = rt.alloc();
    let sys = system_of(&rt, alloc, SUPPLIED);
    let early = [window(0, 4), window(10, 14), window(20, 24)];
    let late = [window(6, 10), window(16, 20)];
    let worst = [window(0, 4), window(16, 20)];
    assert_given(&rt, alloc, &sys, Pattern::Early, &early);
    assert_given(&rt, alloc, &sys, Pattern::Late, &late);
    assert_given(&rt, alloc, &sys, Pattern::Worst, &worst);
}
