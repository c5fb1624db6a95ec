use crate::helpers::{MEMORY, OUT, expect, expect_at, job, late_task, task};
use slot_model::{
    Edf, Job, LIMIT, Miss, Name, Order, Task, deadline_moment, first_miss, is_legal, misses,
};
use std::alloc::Global;
use std::process::Abort;

fn is_name(rt: &impl Abort, alloc: Global, bytes: &[u8]) -> bool {
    Name::new(alloc, bytes).expect(rt, MEMORY).is_some()
}

#[test]
fn names_have_32_bytes_and_begin_with_a_letter(rt: HostRuntime) {
    let long = [b'a'; 33];
    let cases: [(&[u8], bool); 6] = [
        (b"vm-1_b", true),
        (b"9x", false),
        (b"", false),
        (b"a.b", false),
        (&long[..32], true),
        (&long, false),
    ];
    for (bytes, want) in cases {
        expect_at(&rt, bytes, is_name(&rt, rt.alloc(), bytes), want);
    }
    let made = Name::new(rt.alloc(), b"dom0").expect(&rt, MEMORY);
    let name = made.expect(&rt, OUT);
    let copy = name.copy().expect(&rt, MEMORY);
    expect(&rt, copy.as_str(), "dom0");
    expect(&rt, name.as_str(), "dom0");
}

#[test]
fn tasks_keep_their_range(rt: HostRuntime) {
    let cases = [
        (1, 1, 1, true),
        (LIMIT, LIMIT, LIMIT, true),
        (LIMIT + 1, LIMIT, 1, false),
        (10, 4, 3, true),
        (10, 4, 4, true),
        (10, 4, 0, false),
        (10, 4, 5, false),
        (10, 11, 3, false),
    ];
    for (period, deadline, work, want) in cases {
        let made = Task::new(period, deadline, work);
        expect_at(&rt, (period, deadline, work), made.is_some(), want);
    }
}

#[test]
fn legal_releases_keep_the_period(rt: HostRuntime) {
    let tasks = [task(&rt, 10, 4, 3), task(&rt, 2, 2, 1)];
    let far = u64::MAX - 9;
    let first = job(0, 5, 3, 0);
    let cases: [(&[Job], bool); 9] = [
        (&[], true),
        (
            &[first, job(1, 9, 1, 0), job(0, 15, 2, 0), job(1, 11, 1, 0)],
            true,
        ),
        (&[first, job(1, 9, 1, 0), job(0, 14, 2, 0)], false),
        (&[job(0, 15, 3, 0), first], false),
        (&[job(0, 5, 0, 0)], false),
        (&[job(0, 5, 4, 0)], false),
        (&[job(2, 5, 1, 0)], false),
        (&[job(0, far, 1, 0), job(0, u64::MAX, 1, 0)], false),
        (&[job(0, far - 1, 1, 0), job(0, u64::MAX, 1, 0)], true),
    ];
    for (jobs, want) in cases {
        expect_at(&rt, jobs, is_legal(&tasks, jobs), want);
    }
}

#[test]
fn jitter_leaves_room_for_the_work(rt: HostRuntime) {
    let cases = [
        (50, 50, 7, 5, true),
        (50, 50, 45, 5, true),
        (50, 50, 46, 5, false),
        (50, 50, 1, u64::MAX, false),
        (50, 51, 1, 0, false),
    ];
    for (period, deadline, work, jitter, want) in cases {
        let made = Task::with_jitter(period, deadline, work, jitter);
        expect_at(&rt, (period, deadline, work, jitter), made.is_some(), want);
    }
}

#[test]
fn legal_releases_go_by_arrivals(rt: HostRuntime) {
    let tasks = [late_task(&rt, 50, 40, 7, 5)];
    let far = u64::MAX - 45;
    let cases: [(&[Job], bool); 4] = [
        (&[job(0, 0, 7, 5), job(0, 45, 7, 0)], true),
        (&[job(0, 0, 7, 5), job(0, 44, 7, 0)], false),
        (&[job(0, 0, 7, 6)], false),
        (&[job(0, far, 7, 5), job(0, u64::MAX, 7, 0)], true),
    ];
    for (jobs, want) in cases {
        expect_at(&rt, jobs, is_legal(&tasks, jobs), want);
    }
}

#[test]
fn the_earlier_deadline_goes_first(rt: HostRuntime) {
    let tasks = [task(&rt, 10, 4, 3), task(&rt, 20, 9, 1)];
    let last = deadline_moment(&tasks, &job(1, u64::MAX, 1, 0));
    expect(&rt, last, 18_446_744_073_709_551_624);
    let later = job(1, 0, 1, 0);
    expect(&rt, Edf.before(&tasks, &job(0, 3, 1, 0), &later), true);
    expect(&rt, Edf.before(&tasks, &later, &job(0, 3, 1, 0)), false);
    expect(&rt, Edf.before(&tasks, &job(0, 5, 1, 0), &later), false);
}

#[test]
fn misses_are_counted_and_the_first_is_told(rt: HostRuntime) {
    let tasks = [task(&rt, 9, 5, 2), task(&rt, 9, 3, 1), task(&rt, 9, 3, 2)];
    let jobs = [
        job(0, 0, 2, 0),
        job(1, 0, 1, 0),
        job(2, 0, 2, 0),
        job(0, 9, 2, 0),
    ];
    let run = [None, Some(2), None, None, Some(0)];
    expect(&rt, misses(&jobs, &tasks, &run), 3);
    let first = Miss {
        task: 1,
        release: 0,
        deadline: 3,
        got: 0,
        work: 1,
    };
    expect(&rt, first_miss(&jobs, &tasks, &run), Some(first));
}

#[test]
fn a_run_in_time_has_no_miss(rt: HostRuntime) {
    let tasks = [task(&rt, 9, 5, 2)];
    let jobs = [job(0, 1, 2, 0), job(0, 10, 2, 0)];
    let run = [None, None, Some(0), None, None, Some(0), None];
    expect(&rt, misses(&jobs, &tasks, &run), 0);
    expect(&rt, first_miss(&jobs, &tasks, &run), None);
}

#[test]
fn an_arrival_before_moment_0_counts_for_the_deadline(rt: HostRuntime) {
    let tasks = [late_task(&rt, 10, 10, 4, 5)];
    // It arrived at -5, so it is due at 5 and gets 3 of its 4 slots before.
    let jobs = [job(0, 0, 4, 5)];
    let run = [None, None, Some(0), Some(0), Some(0), Some(0)];
    let miss = Miss {
        task: 0,
        release: 0,
        deadline: 5,
        got: 3,
        work: 4,
    };
    expect(&rt, is_legal(&tasks, &jobs), true);
    expect(&rt, misses(&jobs, &tasks, &run), 1);
    expect(&rt, first_miss(&jobs, &tasks, &run), Some(miss));
    expect(&rt, first_miss(&[job(0, 0, 4, 0)], &tasks, &run), None);
}
