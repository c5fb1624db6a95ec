ghost use Rattle.std.specs.Prelude.{◌≡◌, ℕ, ◌≤◌, ◌<◌, length, OnOk};
ghost use Rattle.slot_model.specs.declared.task.TheConstants.{LIMIT};
ghost use Rattle.tree_model.specs.System.{part_at};
ghost use Rattle.trace_file.specs.Taker.{Took};
ghost use Rattle.release_file.specs.Workload.{row_at};
ghost use Rattle.rtds_trace.specs.Printed.{core_of, event_of, gathered, row_event_at};

use crate::moment::moment_of_slot;
use release_file::{Wake, WakeKind};
use slot_model::LIMIT;
use std::alloc::AllocError;
use trace_file::{Event, EventTaker, What};
use tree_model::{Parent, System};

/// Row `i` of a workload.
pub fn row_at(rows: &[Wake], i: usize) -> Wake
    requires { i < length rows.now }
    ensures { result ≡ row_at rows.now i }
{
    rows[i]
}

/// The core on which a part stands.
pub fn core_of(sys: &System, v: u32) -> u32
    requires { v < length sys.now.parts }
    ensures is { result ≡ core_of (part_at sys.now v).parent }
    ensures within { result < length sys.now.cores }
{
    match sys.parts()[v as usize].parent() {
        Parent::Core(c) => c,
        Parent::Part(_) => 0,
    }
}

/// The event of a row.
fn event_of(sys: &System, row: Wake) -> Event
    requires is_part { row.vcpu < length sys.now.parts }
    requires in_limit { row.at ≤ LIMIT }
    ensures { result ≡ event_of sys.now row }
{
    Event {
        at: moment_of_slot(row.at),
        core: core_of(sys, row.vcpu),
        what: match row.what {
            WakeKind::Start => What::Start(row.vcpu),
            WakeKind::Wake => What::Wake(row.vcpu),
            WakeKind::Block => What::Block(row.vcpu),
        },
    }
}

/// Hands on the events of some rows, which are those at one slot.
pub fn print_rows<T: EventTaker>(
    sys: &System,
    rows: &[Wake],
    from: usize,
    until: usize,
    events: &mut T,
) -> Result<(), AllocError>
    requires in_rows { until ≤ length rows.now }
    requires in_turn { from ≤ until }
    requires known { (i : ℕ) → i < length rows.now
        → (row_at rows.now i).vcpu < length sys.now.parts }
    requires in_limit { (i : ℕ) → i < length rows.now → (row_at rows.now i).at ≤ LIMIT }
    ensures { (x : ℕ) → ((i : ℕ) → i < from → (row_at rows.now i).at < x) →
        ((i : ℕ) → from ≤ i → i < until → (row_at rows.now i).at ≡ x) →
        ((i : ℕ) → until ≤ i → i < length rows.now → x < (row_at rows.now i).at) →
        OnOk result (Took T.has_taken events.old events.new
        (gathered (row_event_at sys.now rows.now x) (length rows.now))) }
{
    for i in from..until {
        events.take(event_of(sys, row_at(rows, i)))?;
    }
    Ok(())
}
