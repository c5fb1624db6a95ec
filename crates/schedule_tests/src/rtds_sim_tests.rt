ghost use Rattle.std.specs.Prelude.{◌≤◌, IfOk};
ghost use Rattle.release_file.specs.Workload.{IsWorkload};
ghost use Rattle.trace_file.specs.Rules.{Kept};

use crate::helpers::{HOST, MEMORY, planned, system_of};
use release_file::{Wake, read_workload};
use rtds_sim::{RtdsFault, print_rtds, run_rtds};
use std::alloc::{AllocError, Global};
use std::fmt::Write;
use std::process::Abort;
use trace_file::{Trace, check_events, read_trace};
use trace_printer::print_trace;
use tree_model::System;

/// The workload of a text.
fn workload(rt: &impl Abort, alloc: Global, sys: &System, rows: &str) -> Vec<Wake>
    ensures { IsWorkload sys.now result.items }
{
    match read_workload(alloc, sys, rows.as_bytes()) {
        Ok(wakes) => wakes,
        Err(_) => panic!(rt; "no workload"),
    }
}

/// The trace and its text, or the fault of both.
fn ran(
    rt: &impl Abort,
    alloc: Global,
    sys: &System,
    rows: &str,
    slots: u64,
) -> Result<(Trace, Vec<u8>), RtdsFault>
    requires some { 1 ≤ slots }
    requires short { slots ≤ 1000000 }
    ensures { IfOk result (λ both. Kept sys.now both.0) }
{
    let plan = planned(rt, alloc, sys);
    let wakes = workload(rt, alloc, sys, rows);
    let run = run_rtds(alloc, sys, &plan, &wakes, slots);
    let text = print_rtds(alloc, sys, &plan, &wakes, slots);
    match (run, text) {
        (Ok(trace), Ok(text)) => Ok((trace, text)),
        (Err(fault), Err(other)) => {
            assert!(rt; fault == other);
            Err(fault)
        }
        _ => panic!(rt; "one of them is refused"),
    }
}

/// The trace is of these rows, and so is its text.
fn expect_trace(rt: &impl Abort, alloc: Global, rows: &str, slots: u64, wanted: &str)
    requires some { 1 ≤ slots }
    requires short { slots ≤ 1000000 }
{
    let sys = system_of(rt, alloc, HOST);
    let (trace, text) = ran(rt, alloc, &sys, rows, slots).expect(rt, "a trace");
    assert!(rt; text.as_slice() == wanted.as_bytes());
    assert!(rt; text == print_trace(alloc, &sys, &trace).expect(rt, MEMORY));
    assert!(rt; check_events(alloc, &sys, trace.events()).is_ok());
    let read = read_trace(alloc, &sys, wanted.as_bytes()).ok();
    assert!(rt; trace.events() == read.expect(rt, "a trace").events());
}

const EXTRA: &str = "at,core,what,vcpu
0,cpu0,start,A
0,cpu0,start,B
0,cpu0,run,A
3,cpu0,run,B
7,cpu0,run,A
10,,end,
";

/// More runs stand in `tests/cases/`.
#[test]
fn extra_time_comes_after_budgets(rt: HostRuntime) {
    let rows = "at,vcpu,what\n0,A,start\n0,B,start\n";
    expect_trace(&rt, rt.alloc(), rows, 10, EXTRA);
}

/// C runs in the first slot of each of its periods.
fn many_periods(alloc: Global) -> Result<String, AllocError> {
    let mut text = String::from_str(alloc, "at,core,what,vcpu\n0,cpu1,start,C\n")?;
    for period in 0..1_025u64 {
        let begin = 4 * period;
        write!(text, "{begin},cpu1,run,C\n{},cpu1,stop,\n", begin + 1)?;
    }
    text.push_str("4100,,end,\n")?;
    Ok(text)
}

#[test]
fn cores_go_on_past_a_stretch(rt: HostRuntime) {
    let wanted = many_periods(rt.alloc()).expect(&rt, MEMORY);
    let rows = "at,vcpu,what\n0,C,start\n";
    expect_trace(&rt, rt.alloc(), rows, 4_100, wanted.as_str());
}

/// On a core by rate.
const BY_RATE: &str = "format = 1
core = [{name = 'cpu0', sched = 'edf'}, {name = 'cpu1', sched = 'rm'}]
[[part]]
name = 'A'
parent = 'cpu0'
sched = 'edf'
period = 10
budget = 3
task = [{name = 't', period = 100, work = 1}]
";

#[test]
fn other_schedulers_are_refused(rt: HostRuntime) {
    let sys = system_of(&rt, rt.alloc(), BY_RATE);
    let refused = ran(&rt, rt.alloc(), &sys, "at,vcpu,what\n0,A,start\n", 5);
    assert!(rt; refused.err() == Some(RtdsFault::NotRtds(1)));
}
