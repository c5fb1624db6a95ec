ghost use Rattle.std.specs.Prelude.{◌≡◌, ◌<◌, ◌≤◌, ◌^◌, Bool, List, length, IfOk};
ghost use Rattle.guest_sched.specs.Spans.{AreWindows, slots_of};
ghost use Rattle.slot_model.specs.declared.sched.Sched.{Sched as AnySched};
ghost use Rattle.slot_model.specs.Miss.{is_missed};
ghost use Rattle.slot_model.specs.Release.{synchronous};
ghost use Rattle.slot_model.specs.Task.{sporadic_tasks};
ghost use Rattle.server_sched.specs.inner.Serving.{AreServerTasks, Tallies, IsUnderway, IsServed, told_of};

use crate::counted_tree::Kept;
use crate::level::Level;
use crate::tally::{Late, Tally, close};
use guest_sched::Window;
use slot_model::{Miss, Sched, Task};
use span_counts::{Counts, slots_given};
use std::alloc::{AllocError, Global};

/// What is kept of the first run of a level of servers over the slots of windows: the windows of
/// each child, and the counts. It makes no list of its jobs or of its spans: its memory is for its
/// servers and for the windows of its children.
pub fn serve_level(
    alloc: Global,
    sched: Sched,
    tasks: &[Task],
    given: &[Window],
    slots: u64,
) -> Result<Kept, AllocError>
    requires tasks { AreServerTasks (sporadic_tasks tasks.now) }
    requires few_tasks { length tasks.now < 2 ^ 32 }
    requires few { length (synchronous (sporadic_tasks tasks.now) 0 slots) < 2 ^ 32 }
    requires short { slots < 2 ^ 63 }
    requires windows { AreWindows given.now slots }
    ensures { IfOk result (λ kept. IsServed sched (sporadic_tasks tasks.now) given.now slots kept) }
{
    let mut level = Level::new(alloc, tasks, given.len(), slots)?;
    for at in 0..given.len() {
        level.pass_to(sched, tasks, given, at);
        level.serve(sched, tasks, given, at)?;
    }
    level.pass_to(sched, tasks, given, given.len());
    Ok(kept_of_level(level, tasks, given))
}

/// What is kept of a level at its end.
fn kept_of_level(level: Level, tasks: &[Task], given: &[Window]) -> Kept
    requires tasks { AreServerTasks (sporadic_tasks tasks.now) }
    requires few_tasks { length tasks.now < 2 ^ 32 }
    requires one_each { length level.servers.items ≡ length tasks.now }
    requires missed { level.tally.missed < 2 ^ 32 }
    requires windows { AreWindows given.now level.slots }
    ensures { let T = sporadic_tasks tasks.now in
        (sched : AnySched) → IsUnderway sched T (slots_of given.now level.slots) level →
        level.time ≡ level.slots → level.slots ≤ level.come.next →
        IsServed sched T given.now level.slots result }
{
    let tally = whole_tally(&level, tasks);
    Kept {
        counts: Counts {
            given: slots_given(given),
            released: level.come.released,
            missed: tally.missed,
            first: told_of(tally.first),
        },
        shares: level.shares,
    }
}

/// The late jobs of a level at its end, with those that are due then.
fn whole_tally(level: &Level, tasks: &[Task]) -> Tally
    requires tasks { AreServerTasks (sporadic_tasks tasks.now) }
    requires few_tasks { length tasks.now < 2 ^ 32 }
    requires one_each { length level.now.servers.items ≡ length tasks.now }
    requires missed { level.now.tally.missed < 2 ^ 32 }
    ensures { let T = sporadic_tasks tasks.now in
        (sched : AnySched) (slots : List Bool) → (h : IsUnderway sched T slots level.now) →
        level.now.time ≡ level.now.slots → level.now.slots ≤ level.now.come.next →
        Tallies T (synchronous T 0 level.now.slots) h.run
        (is_missed T (synchronous T 0 level.now.slots) h.run) result.missed result.first }
{
    if level.come.next == level.slots {
        let mut tally = level.tally;
        close(&mut tally, level.best, &level.servers, tasks, level.slots);
        tally
    } else {
        level.tally
    }
}

fn told_of(first: Option<Late>) -> Option<Miss>
    ensures { result ≡ told_of first }
{
    match first {
        Some(late) => Some(late.miss),
        None => None,
    }
}
