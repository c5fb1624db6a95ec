use crate::helpers::{MEMORY, system_of};
use std::alloc::Global;
use std::process::Abort;
use trace_file::{Event, TraceFault, What, check_events, read_trace};
use trace_printer::print_trace;
use tree_model::System;

const A: u32 = 0;

const B: u32 = 1;

/// A and B on one full core, with 3 and 4 slots in every 10.
const HOST: &str = "format = 1
core = [{name = 'cpu0', sched = 'edf'}]
[[part]]
name = 'A'
parent = 'cpu0'
sched = 'edf'
period = 10
budget = 3
task = [{name = 't', period = 100, work = 3}]
[[part]]
name = 'B'
parent = 'cpu0'
sched = 'edf'
period = 10
budget = 4
task = [{name = 't', period = 100, work = 4}]
";

fn event(at: u64, what: What) -> Event {
    Event { at, core: 0, what }
}

const MICROSECONDS: &str = "at,core,what,vcpu\n0,cpu0,start,A\n0,cpu0,start,B\n0,cpu0,run,A\n\
3,cpu0,run,B\n7,cpu0,run,A\n10,,end,\n";

const NANOSECONDS: &str = "at_ns,core,what,vcpu\n0,cpu0,start,A\n0,cpu0,start,B\n0,cpu0,run,A\n\
3000,cpu0,run,B\n7000,cpu0,run,A\n10000,,end,\n";

const ODD: &str = "at_ns,core,what,vcpu\n0,cpu0,start,A\n1,cpu0,block,A\n2,cpu0,wake,A\n\
3,cpu0,run,A\n4,cpu0,stop,\n1000000000000,,end,\n";

fn shared() -> [Event; 6] {
    [
        event(0, What::Start(A)),
        event(0, What::Start(B)),
        event(0, What::Run(A)),
        event(3000, What::Run(B)),
        event(7000, What::Run(A)),
        event(10_000, What::End),
    ]
}

/// The trace of a text, as it is printed.
fn printed(rt: &impl Abort, alloc: Global, sys: &System, text: &str) -> Vec<u8> {
    let trace = read_trace(alloc, sys, text.as_bytes())
        .ok()
        .expect(rt, "a trace");
    print_trace(alloc, sys, &trace).expect(rt, MEMORY)
}

#[test]
fn traces_are_printed(rt: HostRuntime) {
    let sys = system_of(&rt, rt.alloc(), HOST);
    for (text, wanted) in [
        (MICROSECONDS, MICROSECONDS),
        (NANOSECONDS, MICROSECONDS),
        (ODD, ODD),
    ] {
        let printed = printed(&rt, rt.alloc(), &sys, text);
        assert!(rt; printed.as_slice() == wanted.as_bytes());
    }
}

#[test]
fn both_versions_tell_the_same(rt: HostRuntime) {
    let alloc = rt.alloc();
    let sys = system_of(&rt, alloc, HOST);
    for text in [MICROSECONDS, NANOSECONDS] {
        let trace = read_trace(alloc, &sys, text.as_bytes())
            .ok()
            .expect(&rt, "a trace");
        assert!(rt; trace.events() == shared().as_slice());
        assert!(rt; check_events(alloc, &sys, trace.events()) == Ok(()));
    }
}

/// Each fault stands in a table of `tests/cases/`.
#[test]
fn the_first_fault_is_told(rt: HostRuntime) {
    let sys = system_of(&rt, rt.alloc(), HOST);
    let refused = read_trace(rt.alloc(), &sys, b"at,core,what\n").err();
    assert!(rt; refused == Some(TraceFault::BadHeader));
    let early = b"at,core,what,vcpu\n0,cpu0,run,A\n1,,end,\n";
    let refused = read_trace(rt.alloc(), &sys, early).err();
    assert!(rt; refused == Some(TraceFault::NotStarted(2)));
}
