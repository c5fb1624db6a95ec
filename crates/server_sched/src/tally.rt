ghost use Rattle.std.specs.Prelude.{◌≡◌, ◌⊎◌, ℕ, ◌-◌, ◌^◌, ◌<◌, ◌≤◌, ◌==◌, ◌&&◌, ◌||◌, nat_lt, nat_le, List, length, Option, MatchOption};
ghost use Rattle.slot_model.specs.declared.sched.Sched.{Sched as AnySched};
ghost use Rattle.slot_model.specs.Task.{sporadic_tasks};
ghost use Rattle.slot_model.specs.Release.{synchronous};
ghost use Rattle.server_sched.specs.inner.Serving.{AreServerTasks, IsChosen, AtRest, is_late, Tallies};

use crate::serving::Server;
use slot_model::{Miss, Task};

/// A job that missed: its place among all jobs, and what is told of it.
#[derive(Clone, Copy, Debug, PartialEq, Eq)]
pub struct Late {
    pub place: u64,
    pub miss: Miss,
}

/// The jobs that missed so far: how many they are, and the first of them.
#[derive(Clone, Copy, Debug)]
pub struct Tally {
    pub missed: u64,
    pub first: Option<Late>,
}

/// The earlier of two late jobs, where there are two.
pub fn earlier(first: Option<Late>, late: Late) -> Late
    ensures { MatchOption first (result ≡ late) (λ old.
        ((old.miss.deadline < late.miss.deadline)
        ⊎ ((old.miss.deadline ≡ late.miss.deadline) × (old.place ≤ late.place))
        → result ≡ old)
        × ((late.miss.deadline < old.miss.deadline)
        ⊎ ((late.miss.deadline ≡ old.miss.deadline) × (late.place < old.place))
        → result ≡ late)) }
{
    match first {
        Some(old) if goes_before(old, late) => old,
        _ => late,
    }
}

fn goes_before(old: Late, late: Late) -> bool
    ensures { result ≡ (nat_lt old.miss.deadline late.miss.deadline
        || (old.miss.deadline == late.miss.deadline && nat_le old.place late.place)) }
{
    old.miss.deadline < late.miss.deadline
        || (old.miss.deadline == late.miss.deadline && old.place <= late.place)
}

/// Adds the jobs that are late at a moment: those that are due then, and lack slots. There are none
/// where no server goes first, since then no job lacks any.
pub fn close(
    tally: &mut Tally,
    best: Option<usize>,
    servers: &[Server],
    tasks: &[Task],
    moment: u64,
)
    requires tasks { AreServerTasks (sporadic_tasks tasks.now) }
    requires one_each { length servers.now ≡ length tasks.now }
    requires few_tasks { length tasks.now < 2 ^ 32 }
    requires few { tally.old.missed < 2 ^ 32 }
    ensures { let T = sporadic_tasks tasks.now in
        (sched : AnySched) (n : ℕ) (run : List (Option ℕ)) (released : ℕ) → moment ≤ n →
        IsChosen servers.now best → AtRest sched T n run moment released moment servers.now →
        Tallies T (synchronous T 0 n) run (is_late T (synchronous T 0 n) run moment 0)
        tally.old.missed tally.old.first →
        Tallies T (synchronous T 0 n) run (is_late T (synchronous T 0 n) run moment (length T))
        tally.new.missed tally.new.first }
{
    if best.is_none() {
        return;
    }
    for i in 0..servers.len() {
        let server = servers[i];
        if server.next == moment && server.left > 0 {
            let late = late_of(tasks[i], i as u32, server);
            tally.first = Some(earlier(tally.first, late));
            tally.missed += 1;
        }
    }
}

/// What is told of the job of a server where it is late.
fn late_of(task: Task, i: u32, server: Server) -> Late
    ensures place { result.place ≡ server.place }
    ensures miss { result.miss ≡ record {
      task = i;
      release = server.next - task.period;
      deadline = server.next;
      got = task.work - server.left;
      work = task.work;
    } }
{
    Late {
        place: server.place,
        miss: Miss {
            task: i,
            release: server.next.saturating_sub(task.period),
            deadline: server.next,
            got: task.work.saturating_sub(server.left),
            work: task.work,
        },
    }
}
