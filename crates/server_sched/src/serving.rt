ghost use Rattle.std.specs.Prelude.{◌≡◌, ℕ, ◌+◌, ◌-◌, ◌<◌, ◌≤◌, ◌^◌, true, false, List, Option, length, Some, None, IfSome};
ghost use Rattle.slot_model.specs.Task.{sporadic_tasks, sporadic_task};
ghost use Rattle.slot_model.specs.Release.{synchronous};
ghost use Rattle.slot_model.specs.Miss.{HoldsReleased};
ghost use Rattle.server_sched.specs.inner.Serving.{AreServerTasks, server_at, IsKeyed, goes_first, IsChosen, AtMoment, AtRest};

use slot_model::{Sched, Task};

/// A server between two events.
#[derive(Clone, Copy, Debug)]
pub struct Server {
    /// The slots that its job lacks.
    pub left: u64,
    /// When its job is due, and it releases the next.
    pub next: u64,
    /// The place of its job among all jobs.
    pub place: u64,
    /// The server with the smaller key goes first, and of equal keys that with the smaller tie.
    pub key: u64,
    pub tie: u64,
}

/// The server whose job goes first.
pub fn choose(servers: &[Server]) -> Option<usize>
    ensures { IsChosen servers.now result }
{
    let mut best: Option<usize> = None;
    for i in 0..servers.len() {
        if servers[i].left > 0 && !stays_first(servers, best, i) {
            best = Some(i);
        }
    }
    best
}

/// The server whose job goes first, once the one that went first has had slots.
pub fn first_after(servers: &[Server], best: usize) -> Option<usize>
    requires inside { best < length servers.now }
    requires first { (i : ℕ) → i < length servers.now → 0 < (server_at servers.now i).left →
        goes_first (server_at servers.now best) (server_at servers.now i) }
    ensures { IsChosen servers.now result }
{
    if servers[best].left > 0 {
        return Some(best);
    }
    choose(servers)
}

/// Whether the best server so far goes before another.
fn stays_first(servers: &[Server], best: Option<usize>, i: usize) -> bool
    requires best { IfSome best (λ b. b < length servers.now) }
    requires inside { i < length servers.now }
    ensures none { best ≡ None → result ≡ false }
    ensures stays { IfSome best (λ b. result ≡ true →
        goes_first (server_at servers.now b) (server_at servers.now i)) }
    ensures goes { IfSome best (λ b. result ≡ false →
        goes_first (server_at servers.now i) (server_at servers.now b)) }
{
    match best {
        None => false,
        Some(b) => {
            let old = servers[b];
            let new = servers[i];
            old.key < new.key || (old.key == new.key && old.tie <= new.tie)
        }
    }
}

/// The server with the job that its task releases at a moment.
pub fn renewed(sched: Sched, task: Task, i: usize, moment: u64, place: u64) -> Server
    requires in_time { moment < 2 ^ 63 }
    ensures left { result.left ≡ task.work }
    ensures next { result.next ≡ moment + task.period }
    ensures place { result.place ≡ place }
    ensures keyed { IsKeyed sched (sporadic_task task) i result }
{
    let next = moment + task.period;
    let (key, tie) = match sched {
        Sched::Edf => (next, place),
        Sched::Rm => (task.period, i as u64),
        Sched::Dm => (task.deadline, i as u64),
        Sched::Listed => (0, i as u64),
    };
    Server {
        left: task.work,
        next,
        place,
        key,
        tie,
    }
}

/// What is released at a moment: how many jobs have come then, and no server releases its next
/// before `next`.
#[derive(Clone, Copy)]
pub struct Come {
    pub released: u64,
    pub next: u64,
}

/// Lets the servers that are due at a moment release their next jobs.
pub fn renew(
    servers: &mut [Server],
    tasks: &[Task],
    sched: Sched,
    moment: u64,
    released: u64,
) -> Come
    requires tasks { AreServerTasks (sporadic_tasks tasks.now) }
    requires one_each { length servers.old ≡ length tasks.now }
    requires in_time { moment < 2 ^ 63 }
    requires few { released < 2 ^ 32 }
    ensures few { result.released ≤ released + length tasks.now }
    ensures rest { let T = sporadic_tasks tasks.now in
        (n : ℕ) (run : List (Option ℕ)) → moment < n →
        HoldsReleased (synchronous T 0 n) run →
        AtMoment sched T (synchronous T 0 n) run moment 0 released servers.old →
        AtRest sched T n run moment result.released result.next servers.new
        × (moment < result.next) }
{
    let mut come = Come {
        released,
        next: u64::MAX,
    };
    for i in 0..servers.len() {
        if servers[i].next == moment {
            servers[i] = renewed(sched, tasks[i], i, moment, come.released);
            come.released += 1;
        }
        come.next = come.next.min(servers[i].next);
    }
    come
}
