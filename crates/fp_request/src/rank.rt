ghost use Rattle.std.specs.Prelude.{◌≡◌, ◌≢◌, ◌<◌, ◌≤◌, ◌==◌, ◌&&◌, ◌||◌, nat_lt, length};
ghost use Rattle.slot_model.specs.declared.task.TheConstants.{LIMIT};
ghost use Rattle.slot_model.specs.Task.{room_of, sporadic_tasks, task_at};
ghost use Rattle.slot_model.specs.Order.{ranks_above};
ghost use Rattle.fp_request.specs.Keys.{rank_of};

use slot_model::{Sched, Task};
use window_terms::room_of;

/// Whether task `i` ranks above task `j`: by the smaller period (`Rm`), the smaller deadline (`Dm`)
/// or the earlier place (`Listed`), and by the earlier place where two are equal.
pub fn higher(sched: Sched, tasks: &[Task], i: u32, j: u32) -> bool
    requires fixed { sched ≢ Sched.Edf }
    requires i_named { i < length tasks.now }
    requires j_named { j < length tasks.now }
    ensures { result ≡ ranks_above sched (sporadic_tasks tasks.now) i j }
{
    ranks(sched, tasks, i as usize, j as usize)
}

/// The same for places of any size.
pub(crate) fn ranks(sched: Sched, tasks: &[Task], i: usize, j: usize) -> bool
    requires fixed { sched ≢ Sched.Edf }
    requires i_named { i < length tasks.now }
    requires j_named { j < length tasks.now }
    ensures { result ≡ ranks_above sched (sporadic_tasks tasks.now) i j }
{
    smaller(rank_of(sched, tasks, i), i, rank_of(sched, tasks, j), j)
}

/// Whether task `i` of rank `a` ranks above task `j` of rank `b`.
fn smaller(a: u64, i: usize, b: u64, j: usize) -> bool
    ensures { result ≡ (nat_lt a b || (a == b && nat_lt i j)) }
{
    a < b || (a == b && i < j)
}

/// What a task ranks by, before its place: the smaller above.
pub(crate) fn rank_of(sched: Sched, tasks: &[Task], place: usize) -> u64
    requires named { place < length tasks.now }
    ensures exact { result ≡ rank_of sched (task_at (sporadic_tasks tasks.now) place) }
    ensures fits { result ≤ LIMIT }
{
    match sched {
        Sched::Rm => tasks[place].period,
        Sched::Dm => tasks[place].deadline,
        Sched::Listed | Sched::Edf => 0,
    }
}

/// What the deadline of task `i` leaves past its jitter: its longest response that is in time.
pub fn room_at(tasks: &[Task], i: u32) -> u64
    requires { i < length tasks.now }
    ensures exact { result ≡ room_of (task_at (sporadic_tasks tasks.now) i) }
    ensures fits { result ≤ LIMIT }
{
    room_of(&tasks[i as usize])
}
