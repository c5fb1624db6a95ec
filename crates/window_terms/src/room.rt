ghost use Rattle.std.specs.Prelude.{◌≡◌, ◌≤◌};
ghost use Rattle.slot_model.specs.declared.task.TheConstants.{LIMIT};
ghost use Rattle.slot_model.specs.Task.{room_of, sporadic_task};

use slot_model::Task;

/// What the deadline of a task leaves past its jitter, in slots: its longest response that is in
/// time.
pub fn room_of(task: &Task) -> u64
    ensures exact { result ≡ room_of (sporadic_task task.now) }
    ensures some { 1 ≤ result }
    ensures fits { result ≤ LIMIT }
{
    task.deadline - task.jitter
}
