ghost use Rattle.std.specs.Prelude.{◌≤◌, length};
ghost use Rattle.tree_model.specs.Plans.{IsPlan};

use crate::helpers::{HOST, MEMORY, planned, system_of};
use auditor::{Audit, Counted, Finding, Tallied, Tally, audit};
use std::alloc::{AllocError, Global};
use std::process::Abort;
use trace_file::{TraceCheck, TraceFault, read_trace};
use tree_model::{Plan, System};

/// B has 3 of its 4 slots.
const SHORT: Finding = Finding::Short {
    vcpu: 1,
    from: 0,
    got: 3000,
};

const SHARED: &str = "at,core,what,vcpu\n0,cpu0,start,A\n0,cpu0,start,B\n0,cpu0,run,A\n\
3,cpu0,run,B\n7,cpu0,run,A\n10,,end,\n";

const TOO_FEW: &str = "at_ns,core,what,vcpu\n0,cpu0,start,A\n0,cpu0,start,B\n\
0,cpu0,run,A\n7000,cpu0,run,B\n10000,,end,\n";

/// B has too little in a period that ends before the text does, in which no end comes.
const WITHOUT_END: &str = "at,core,what,vcpu\n0,cpu0,start,A\n0,cpu0,start,B\n\
0,cpu0,run,A\n20,cpu0,run,B\n";

/// What is found of the events of a text.
fn found_of_events(
    alloc: Global,
    sys: &System,
    plan: &Plan,
    text: &str,
) -> Result<Finding, TraceFault>
    requires { IsPlan sys.now plan.now }
{
    match read_trace(alloc, sys, text.as_bytes()) {
        Ok(trace) => Ok(audit(sys, plan, &trace)),
        Err(fault) => Err(fault),
    }
}

/// Each other finding and fault stands in a table of `tests/cases/`.
const CASES: [(&str, Result<Finding, TraceFault>); 3] = [
    (SHARED, Ok(Finding::Yes { periods: 2 })),
    (TOO_FEW, Ok(SHORT)),
    (WITHOUT_END, Err(TraceFault::NoEnd(6))),
];

/// What is found of a text that is taken in two pieces.
fn found_in_two(
    alloc: Global,
    sys: &System,
    plan: &Plan,
    text: &[u8],
    at: usize,
) -> Result<Result<Finding, TraceFault>, AllocError>
    requires plan { IsPlan sys.now plan.now }
    requires within { at ≤ length text.now }
{
    let mut audit = Audit::new(alloc, sys, plan, Counted::Core)?;
    for piece in [&text[..at], &text[at..]] {
        audit.take(piece)?;
    }
    Ok(audit.finish())
}

/// Whether a text that is taken in two pieces is a trace.
fn checked_in_two(
    alloc: Global,
    sys: &System,
    text: &[u8],
    at: usize,
) -> Result<Result<(), TraceFault>, AllocError>
    requires { at ≤ length text.now }
{
    let mut check = TraceCheck::new(alloc, sys)?;
    for piece in [&text[..at], &text[at..]] {
        check.take(piece)?;
    }
    Ok(check.finish())
}

#[test]
fn a_text_is_audited_as_its_events_in_any_pieces(rt: HostRuntime) {
    let sys = system_of(&rt, rt.alloc(), HOST);
    let plan = planned(&rt, rt.alloc(), &sys);
    for (text, found) in &CASES {
        assert!(rt; found_of_events(rt.alloc(), &sys, &plan, text) == *found);
        let text = text.as_bytes();
        let checked = match found {
            Ok(_) => Ok(()),
            Err(fault) => Err(*fault),
        };
        for at in 0..text.len() {
            let told = found_in_two(rt.alloc(), &sys, &plan, text, at).expect(&rt, MEMORY);
            assert!(rt; told == *found);
            let told = checked_in_two(rt.alloc(), &sys, text, at).expect(&rt, MEMORY);
            assert!(rt; told == checked);
        }
    }
}

/// The tally of C, which never starts.
const UNSTARTED: Tally = Tally {
    begun: 0,
    judged: 0,
    short: 0,
    over: 0,
    least: None,
    most: None,
};

/// The tally of one judged period, in which the VCPU got this time.
const fn counted(short: u64, time: u64) -> Tally {
    Tally {
        begun: 1,
        judged: 1,
        short,
        over: 0,
        least: Some(time),
        most: Some(time),
    }
}

/// What is found and counted of a text.
fn tallied(
    alloc: Global,
    sys: &System,
    plan: &Plan,
    text: &[u8],
) -> Result<Result<Tallied, TraceFault>, AllocError>
    requires { IsPlan sys.now plan.now }
{
    let mut audit = Audit::new(alloc, sys, plan, Counted::Core)?;
    audit.take(text)?;
    Ok(audit.finish_tallied(alloc))
}

#[test]
fn what_is_counted_of_a_text(rt: HostRuntime) {
    let sys = system_of(&rt, rt.alloc(), HOST);
    let plan = planned(&rt, rt.alloc(), &sys);
    let told = tallied(rt.alloc(), &sys, &plan, TOO_FEW.as_bytes()).expect(&rt, MEMORY);
    let tallied = told.ok().expect(&rt, "a trace");
    assert!(rt; tallied.finding == SHORT);
    let wanted = [counted(0, 7000), counted(1, 3000), UNSTARTED];
    assert!(rt; tallied.vcpus.as_slice() == wanted.as_slice());
}
