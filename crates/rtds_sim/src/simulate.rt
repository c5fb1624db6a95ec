ghost use Rattle.std.specs.Prelude.{◌≡◌, ℕ, ◌≤◌, ◌<◌, ◌&&◌, List, Option, length, IfOk, IfErr, OnOk, MatchOption};
ghost use Rattle.tree_model.specs.System.{IsSystem, is_edf};
ghost use Rattle.trace_file.specs.declared.event.Event.{Event as EventView};
ghost use Rattle.trace_file.specs.Taker.{Took};
ghost use Rattle.tree_model.specs.Plans.{IsPlan};
ghost use Rattle.release_file.specs.Workload.{IsWorkload};
ghost use Rattle.rtds_model.specs.Rtds.{is_full};
ghost use Rattle.rtds_trace.specs.Printed.{IsRtdsTrace};
ghost use Rattle.rtds_trace.specs.RunTrace.{IsRunTrace};
ghost use Rattle.rtds_trace.specs.RunText.{IsRunText};
ghost use Rattle.rtds_sim.specs.Fault.{AllRtds, IsFirstOther, IsRtdsFault};
ghost use Rattle.rtds_model.specs.Giving.{RunsGive};

use crate::RtdsFault;
use crate::host::Host;
use crate::moment::moment_of_slot;
use crate::rows::print_rows;
use crate::switches::Switches;
use release_file::Wake;
use slot_model::Sched;
use std::alloc::{AllocError, Global};
use trace_file::{Event, EventTaker, Trace, Unit, What};
use trace_printer::TracePrinter;
use tree_model::{Core, Plan, System};

/// The trace of a workload under RTDS over some slots. The run goes from one change to the next: a
/// row, the end of a period, and the end of a budget. Only full cores under earliest deadline first
/// are taken.
pub fn run_rtds(
    alloc: Global,
    sys: &System,
    plan: &Plan,
    wakes: &[Wake],
    slots: u64,
) -> Result<Trace, RtdsFault>
    requires plan { IsPlan sys.now plan.now }
    requires workload { IsWorkload sys.now wakes.now }
    requires some { 1 ≤ slots }
    requires short { slots ≤ 1000000 }
    ensures trace { IfOk result
        (λ trace. IsRunTrace sys.now plan.now wakes.now slots trace) }
    ensures rtds { IfOk result (λ trace. AllRtds sys.now (length sys.now.cores)) }
    ensures fault { IfErr result (IsRtdsFault sys.now) }
    ensures gives { RunsGive sys.now plan.now wakes.now slots }
{
    if let Some(core) = other_core(sys) {
        return Err(RtdsFault::NotRtds(core));
    }
    match simulated(alloc, sys, plan, wakes, slots) {
        Ok(events) => Ok(Trace { events }),
        Err(_) => Err(RtdsFault::NoMemory),
    }
}

/// The text of that trace, as `print_trace` makes it. No list of all its events is kept.
pub fn print_rtds(
    alloc: Global,
    sys: &System,
    plan: &Plan,
    wakes: &[Wake],
    slots: u64,
) -> Result<Vec<u8>, RtdsFault>
    requires plan { IsPlan sys.now plan.now }
    requires workload { IsWorkload sys.now wakes.now }
    requires some { 1 ≤ slots }
    requires short { slots ≤ 1000000 }
    ensures text { IfOk result (λ text. IsRunText sys.now plan.now wakes.now slots text.items) }
    ensures rtds { IfOk result (λ text. AllRtds sys.now (length sys.now.cores)) }
    ensures fault { IfErr result (IsRtdsFault sys.now) }
    ensures gives { RunsGive sys.now plan.now wakes.now slots }
{
    if let Some(core) = other_core(sys) {
        return Err(RtdsFault::NotRtds(core));
    }
    match printed(alloc, sys, plan, wakes, slots) {
        Ok(text) => Ok(text),
        Err(_) => Err(RtdsFault::NoMemory),
    }
}

/// The first core that is not full or not under earliest deadline first.
pub fn other_core(sys: &System) -> Option<u32>
    ensures { MatchOption result (AllRtds sys.now (length sys.now.cores)) (IsFirstOther sys.now) }
{
    let cores = sys.cores();
    for c in 0..cores.len() {
        if !is_rtds(&cores[c]) {
            return Some(c as u32);
        }
    }
    None
}

/// Whether a core is full and under earliest deadline first.
fn is_rtds(core: &Core) -> bool
    ensures { result ≡ (is_full core.now.supply && is_edf core.now.sched) }
{
    core.supply.is_none() && core.sched == Sched::Edf
}

/// The events of a workload over some slots.
fn simulated(
    alloc: Global,
    sys: &System,
    plan: &Plan,
    wakes: &[Wake],
    slots: u64,
) -> Result<Vec<Event>, AllocError>
    requires plan { IsPlan sys.now plan.now }
    requires workload { IsWorkload sys.now wakes.now }
    requires short { slots ≤ 1000000 }
    ensures trace { IfOk result
        (λ events. IsRunTrace sys.now plan.now wakes.now slots events.items) }
{
    let mut events = Vec::new(alloc);
    tell_run(alloc, sys, plan, wakes, slots, &mut events)?;
    Ok(events)
}

/// The text of them.
fn printed(
    alloc: Global,
    sys: &System,
    plan: &Plan,
    wakes: &[Wake],
    slots: u64,
) -> Result<Vec<u8>, AllocError>
    requires plan { IsPlan sys.now plan.now }
    requires workload { IsWorkload sys.now wakes.now }
    requires short { slots ≤ 1000000 }
    ensures text { IfOk result
        (λ text. IsRunText sys.now plan.now wakes.now slots text.items) }
{
    let mut rows = TracePrinter::new(alloc, sys, Unit::Microseconds)?;
    tell_run(alloc, sys, plan, wakes, slots, &mut rows)?;
    Ok(rows.finish())
}

/// Tells the events of a workload over some slots, one by one.
fn tell_run<T: EventTaker>(
    alloc: Global,
    sys: &System,
    plan: &Plan,
    wakes: &[Wake],
    slots: u64,
    events: &mut T,
) -> Result<(), AllocError>
    requires plan { IsPlan sys.now plan.now }
    requires workload { IsWorkload sys.now wakes.now }
    requires short { slots ≤ 1000000 }
    ensures trace { OnOk result
        ((told : List EventView) × IsRtdsTrace sys.now plan.now wakes.now slots told
        × Took T.has_taken events.old events.new told) }
    ensures system { IsSystem sys.now }
{
    let mut host = Host::new(alloc, sys, plan)?;
    let mut switches = Switches::new(alloc, sys)?;
    while host.time < slots {
        let first = host.taken;
        host.take_rows(sys, wakes);
        host.stop_blocked(first, events)?;
        print_rows(sys, wakes, first, host.taken, events)?;
        let next = host.next_row(wakes, slots);
        host.run_on(next, &mut switches)?;
        switches.tell(events)?;
    }
    events.take(Event {
        at: moment_of_slot(slots),
        core: 0,
        what: What::End,
    })?;
    Ok(())
}
