use crate::helpers::MEMORY;
use bulk_host::{bulk_jobs, make_bulk};
use slot_model::{Job, Sched};
use std::process::Abort;
use tree_model::Parent;

/// The lists have so many jobs.
fn expect_lengths(rt: &impl Abort, jobs: &[Vec<Job>], lengths: &[usize]) {
    assert!(rt; jobs.len() == lengths.len());
    for (list, wanted) in jobs.iter().zip(lengths) {
        assert!(rt; list.len() == *wanted);
    }
}

/// A guest of a period of 1000 slots releases ten and five jobs in 100,000 slots; one of 2000 five
/// and three, one of 3000 four and two, one of 4000 three and two.
#[test]
fn nine_guests_stand_on_two_cores(rt: HostRuntime) {
    let alloc = rt.alloc();
    let sys = make_bulk(alloc, 9).expect(&rt, MEMORY);
    assert!(rt; sys.cores().len() == 2 && sys.parts().len() == 9);
    let last = &sys.parts()[8];
    assert!(rt; last.name().as_str() == "g8");
    assert!(rt; last.parent() == Parent::Core(1) && last.sched() == Sched::Edf);
    let jobs = bulk_jobs(alloc, &sys, 100_000).expect(&rt, MEMORY);
    expect_lengths(&rt, &jobs, &[15, 8, 6, 5, 15, 8, 6, 5, 15]);
}
