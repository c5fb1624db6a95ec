use crate::helpers::{expect, jobs_of, tasks_of, told_run, windows_of};
use guest_sched::{
    Keep, ReleasedLevel, Span, pattern_windows, run_level, run_over, run_spans, spans_by,
};
use slot_model::{Edf, Sched, is_legal};
use std::alloc::{AllocError, Global};
use std::fmt::Write;
use std::process::Abort;
use std::test::Fail;
use supply_bound::Periodic;

/// Tasks, jobs as (task, release, work), the slots, of which those of a `#` are given, and their
/// schedule as a text.
struct Case {
    tasks: [(u64, u64); 2],
    jobs: [(u32, u64, u64); 3],
    slots: &'static str,
    schedule: &'static str,
}

const CASES: [Case; 4] = [
    // Equal deadline moments: the first in the list, though the other has begun.
    Case {
        tasks: [(10, 3), (13, 3)],
        jobs: [(0, 3, 2), (1, 0, 3), (0, 13, 1)],
        slots: "#.############",
        schedule: "1.1001.......2",
    },
    // The first job is late from the start, and goes on before those with later deadlines.
    Case {
        tasks: [(4, 2), (9, 3)],
        jobs: [(0, 0, 2), (1, 0, 3), (0, 4, 2)],
        slots: "...########.",
        schedule: "...0022111..",
    },
    // Before the first release, and with gaps in a job.
    Case {
        tasks: [(20, 3), (30, 2)],
        jobs: [(0, 2, 3), (1, 3, 1), (1, 33, 2)],
        slots: "##.#.#.#..##",
        schedule: "...0.0.0..1.",
    },
    Case {
        tasks: [(5, 1), (6, 1)],
        jobs: [(1, 0, 1), (0, 0, 1), (1, 6, 1)],
        slots: "",
        schedule: "",
    },
];

/// Of each slot of a text whether it is given.
fn given_in(alloc: Global, slots: &str) -> Result<Vec<bool>, AllocError> {
    let mut given = Vec::new(alloc);
    for byte in slots.as_bytes() {
        given.push(*byte == b'#')?;
    }
    Ok(given)
}

fn schedule_of(rt: &impl Abort, alloc: Global, case: &Case) -> Result<String, AllocError> {
    let tasks = tasks_of(alloc, &case.tasks)?;
    let jobs = jobs_of(alloc, &case.jobs)?;
    let given = given_in(alloc, case.slots)?;
    assert!(rt; is_legal(&tasks, &jobs) && jobs.len() < 1000 && given.len() < 1000);
    let run = run_over(alloc, &tasks, &jobs, &Edf, &given)?;
    told_run(alloc, &run)
}

#[test]
fn schedules_with_ties_late_jobs_and_gaps(rt: HostRuntime) -> Result<(), Fail> {
    for case in &CASES {
        expect(&rt, schedule_of(&rt, rt.alloc(), case)?, case.schedule);
    }
    Ok(())
}

/// Two slots in every ten, at 0, 18, 28 and so on. The first job has its 7 by slot 49, the second
/// 5 of its 9 by its deadline moment, 77, and the third, of a later one, none.
#[test]
fn worst_pattern_of_a_periodic_resource(rt: HostRuntime) -> Result<(), Fail> {
    let alloc = rt.alloc();
    let tasks = tasks_of(alloc, &[(50, 7), (75, 9)])?;
    let jobs = jobs_of(alloc, &[(0, 2, 7), (1, 2, 9), (0, 52, 7)])?;
    let supply = Periodic::new(10, 2).ok_or("out of range")?;
    assert!(rt; is_legal(&tasks, &jobs) && jobs.len() < 1000);
    let run = run_level(alloc, &tasks, &jobs, &Edf, &supply, 77)?;
    let wanted = "..................00........00........00........01........11........11.......";
    expect(&rt, told_run(alloc, &run)?, wanted);
    Ok(())
}

/// What a level is given, and its spans as texts at a guest and at a level of servers.
struct SpanCase {
    tasks: &'static [(u64, u64)],
    jobs: &'static [(u32, u64, u64)],
    windows: &'static [(u64, u64)],
    slots: u64,
    guest: &'static str,
    servers: &'static str,
}

const LAST: u64 = u64::MAX;

const SPANS: [SpanCase; 7] = [
    // A late job: at a guest it goes on, and a server is given up at its deadline moment. The last
    // window ends with the last slot of all.
    SpanCase {
        tasks: &[(10, 3)],
        jobs: &[(0, 0, 3), (0, 12, 3), (0, LAST - 2, 3)],
        windows: &[(0, 1), (9, 14), (14, 15), (20, LAST)],
        slots: LAST,
        guest: "0:0 1:- 9:0 11:- 12:1 15:- 18446744073709551613:2 ",
        servers: "0:0 1:- 9:0 10:- 12:1 15:- 18446744073709551613:2 ",
    },
    // A server whose job is given up gives way to one that it went before.
    SpanCase {
        tasks: &[(4, 3), (9, 5)],
        jobs: &[(1, 0, 5), (0, 1, 3)],
        windows: &[(0, 1), (3, 12)],
        slots: 12,
        guest: "0:0 1:- 3:1 6:0 10:- ",
        servers: "0:0 1:- 3:1 5:0 9:- ",
    },
    SpanCase {
        tasks: &[(4, 3), (9, 5)],
        jobs: &[(1, 0, 5), (0, 1, 3)],
        windows: &[],
        slots: 0,
        guest: "",
        servers: "",
    },
    SpanCase {
        tasks: &[(50, 7), (75, 9)],
        jobs: &[(0, 0, 7), (1, 0, 9)],
        windows: &[(0, 20)],
        slots: 20,
        guest: "0:0 7:1 16:- ",
        servers: "0:0 7:1 16:- ",
    },
    // Over very many slots.
    SpanCase {
        tasks: &[(50, 7), (75, 9)],
        jobs: &[(0, 0, 7), (1, 0, 9), (0, 500_000_000_000, 7)],
        windows: &[(10, 1_000_000_000_000)],
        slots: 1_000_000_000_000,
        guest: "0:- 10:0 17:1 26:- 500000000000:2 500000000007:- ",
        servers: "0:- 10:0 17:1 26:- 500000000000:2 500000000007:- ",
    },
    SpanCase {
        tasks: &[(50, 7), (75, 9)],
        jobs: &[(0, 0, 7)],
        windows: &[],
        slots: 5,
        guest: "0:- ",
        servers: "0:- ",
    },
    SpanCase {
        tasks: &[(50, 7), (75, 9)],
        jobs: &[],
        windows: &[(1, 2), (2, 5)],
        slots: 5,
        guest: "0:- ",
        servers: "0:- ",
    },
];

/// Spans as a text: each its first slot and then its job, `-` where it has none.
fn told(alloc: Global, spans: &[Span]) -> Result<String, AllocError> {
    let mut text = String::new(alloc);
    for span in spans {
        match span.job {
            Some(place) => write!(text, "{}:{place} ", span.from)?,
            None => write!(text, "{}:- ", span.from)?,
        }
    }
    Ok(text)
}

/// The spans of a case, as a text.
fn told_of(
    rt: &impl Abort,
    alloc: Global,
    case: &SpanCase,
    keep: Keep,
) -> Result<String, AllocError> {
    let tasks = tasks_of(alloc, case.tasks)?;
    let jobs = jobs_of(alloc, case.jobs)?;
    let given = windows_of(rt, alloc, case.windows, case.slots)?;
    assert!(rt; is_legal(&tasks, &jobs) && jobs.len() < 1000);
    let level = ReleasedLevel {
        keep,
        tasks: &tasks,
        jobs: &jobs,
        given: &given,
        slots: case.slots,
    };
    told(alloc, &run_spans(alloc, &level, &Edf)?)
}

#[test]
fn spans_of_guests_and_of_servers(rt: HostRuntime) -> Result<(), Fail> {
    for case in &SPANS {
        expect(
            &rt,
            told_of(&rt, rt.alloc(), case, Keep::UntilDone)?,
            case.guest,
        );
        expect(
            &rt,
            told_of(&rt, rt.alloc(), case, Keep::UntilDeadline)?,
            case.servers,
        );
    }
    Ok(())
}

/// The windows of the worst pattern of a budget in ten slots, each as its begin and its end.
fn worst_of(rt: &impl Abort, alloc: Global, budget: u64, slots: u64) -> Result<String, AllocError> {
    let supply = Periodic::new(10, budget).expect(rt, "a supply");
    let mut text = String::new(alloc);
    for window in &pattern_windows(alloc, &supply, slots)? {
        write!(text, "{}-{} ", window.from, window.until)?;
    }
    Ok(text)
}

#[test]
fn windows_of_the_worst_pattern(rt: HostRuntime) -> Result<(), Fail> {
    let alloc = rt.alloc();
    expect(&rt, worst_of(&rt, alloc, 3, 28)?, "0-3 17-20 27-28 ");
    let whole = worst_of(&rt, alloc, 10, u64::MAX)?;
    expect(&rt, whole, "0-18446744073709551615 ");
    Ok(())
}

/// The spans of one level by its scheduler.
fn told_by(rt: &impl Abort, alloc: Global, sched: Sched, keep: Keep) -> Result<String, AllocError> {
    let tasks = tasks_of(alloc, &[(9, 5), (4, 3)])?;
    let jobs = jobs_of(alloc, &[(0, 0, 5), (1, 1, 3)])?;
    let given = windows_of(rt, alloc, &[(0, 12)], 12)?;
    assert!(rt; is_legal(&tasks, &jobs) && jobs.len() < 1000);
    let level = ReleasedLevel {
        keep,
        tasks: &tasks,
        jobs: &jobs,
        given: &given,
        slots: 12,
    };
    told(alloc, &spans_by(alloc, &level, sched)?)
}

#[test]
fn levels_by_their_scheduler(rt: HostRuntime) -> Result<(), Fail> {
    let alloc = rt.alloc();
    expect(
        &rt,
        told_by(&rt, alloc, Sched::Rm, Keep::UntilDone)?,
        "0:0 1:1 4:0 8:- ",
    );
    expect(
        &rt,
        told_by(&rt, alloc, Sched::Listed, Keep::UntilDone)?,
        "0:0 5:1 8:- ",
    );
    expect(
        &rt,
        told_by(&rt, alloc, Sched::Listed, Keep::UntilDeadline)?,
        "0:0 5:- ",
    );
    Ok(())
}
