ghost use Rattle.std.specs.Prelude.{◌≡◌, ◌<◌, ◌≤◌, length};
ghost use Rattle.slot_model.specs.Task.{sporadic_tasks, task_at};

use crate::helpers::{OUT, expect, expect_at, job, late_task, task, two_late_tasks, two_tasks};
use fp_request::{Fixed, RankedLevel, higher, request};
use slot_model::{Job, Order, Sched, Task};
use window_terms::Term;

// A caller that knows an order by its trait alone.
fn goes_first<O: Order>(order: &O, tasks: &[Task], a: &Job, b: &Job) -> bool
    requires a_named { a.now.task < length tasks.now }
    requires b_named { b.now.task < length tasks.now }
    requires a_in_jitter { a.now.early ≤ (task_at (sporadic_tasks tasks.now) a.now.task).jitter }
    requires b_in_jitter { b.now.early ≤ (task_at (sporadic_tasks tasks.now) b.now.task).jitter }
    ensures { result ≡ O.goes order.now (sporadic_tasks tasks.now) a.now b.now }
{
    order.before(tasks, a, b)
}

#[test]
fn requests_of_two_tasks(rt: HostRuntime) {
    let tasks = two_tasks(&rt);
    for (sched, i, t, want) in [
        (Sched::Rm, 1, 0, 9),
        (Sched::Rm, 1, 1, 16),
        (Sched::Rm, 1, 50, 16),
        (Sched::Rm, 1, 51, 23),
        (Sched::Rm, 0, 1_000_000, 7),
        (Sched::Dm, 1, 100, 23),
        (Sched::Listed, 1, 101, 30),
    ] {
        expect_at(&rt, (i, t), request(sched, &tasks, i, t), Some(want));
    }
}

#[test]
fn requests_with_jitter(rt: HostRuntime) {
    let tasks = two_late_tasks(&rt);
    expect(&rt, request(Sched::Rm, &tasks, 1, 45), Some(16));
    expect(&rt, request(Sched::Rm, &tasks, 1, 46), Some(23));
    // The window and the jitter together pass 2^128 slots.
    let long = [
        late_task(&rt, 1_000_000_000, 1_000_000_000, 1, 999_999_999),
        task(&rt, 1_000_000_000, 1_000_000_000, 1),
    ];
    let most = u128::MAX / 1_000_000_000 + 3;
    expect(&rt, request(Sched::Listed, &long, 1, u128::MAX), Some(most));
}

#[test]
fn requests_by_terms(rt: HostRuntime) {
    let tasks = [
        task(&rt, 50, 50, 7),
        late_task(&rt, 75, 75, 9, 5),
        task(&rt, 200, 200, 20),
    ];
    let mut room = [Term::none(); 3];
    let level = RankedLevel::gather(Sched::Rm, &tasks, &mut room);
    let last = level.task(2);
    for (t, want) in [
        (0, 29),
        (1, 36),
        (50, 36),
        (51, 43),
        (70, 43),
        (71, 52),
        (10_000_000_000, 2_600_000_026),
    ] {
        expect_at(&rt, t, last.request(t), Some(want));
    }
}

#[test]
fn requests_past_128_bits(rt: HostRuntime) {
    let each_slot = task(&rt, 1, 1, 1);
    let tasks = [each_slot, each_slot];
    expect(
        &rt,
        request(Sched::Rm, &tasks, 1, u128::MAX - 1),
        Some(u128::MAX),
    );
    expect(&rt, request(Sched::Rm, &tasks, 1, u128::MAX), None);
    expect(&rt, request(Sched::Rm, &tasks, 0, u128::MAX), Some(1));
}

#[test]
fn ranks_and_their_ties(rt: HostRuntime) {
    let tasks = [
        task(&rt, 20, 20, 1),
        task(&rt, 20, 10, 1),
        task(&rt, 10, 10, 1),
    ];
    for (sched, i, j, want) in [
        (Sched::Rm, 2, 0, true),
        (Sched::Rm, 0, 1, true),
        (Sched::Rm, 1, 0, false),
        (Sched::Dm, 1, 0, true),
        (Sched::Dm, 1, 2, true),
        (Sched::Dm, 2, 1, false),
        (Sched::Listed, 0, 2, true),
        (Sched::Listed, 2, 1, false),
        (Sched::Listed, 1, 1, false),
    ] {
        expect_at(&rt, (i, j), higher(sched, &tasks, i, j), want);
    }
}

#[test]
fn fixed_orders(rt: HostRuntime) {
    expect(&rt, Fixed::new(Sched::Edf), None);
    let order = Fixed::new(Sched::Rm).expect(&rt, OUT);
    let tasks = [task(&rt, 75, 75, 9), task(&rt, 50, 50, 7)];
    let early = job(0, 0, 9, 0);
    let late = job(0, 75, 9, 0);
    let above = job(1, 100, 7, 0);
    expect(&rt, goes_first(&order, &tasks, &above, &early), true);
    expect(&rt, goes_first(&order, &tasks, &early, &above), false);
    expect(&rt, goes_first(&order, &tasks, &early, &late), true);
    expect(&rt, order.before(&tasks, &late, &early), false);
    expect(&rt, order.before(&tasks, &late, &late), false);
}
