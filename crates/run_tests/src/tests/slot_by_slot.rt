// The text of a run slot by slot is that of its counts.
use super::texts::*;
use compose_tree::assign;
use release_file::read_releases;
use rt_report::simulate_text;
use server_sched::run_tree;
use std::alloc::{AllocError, Global};
use std::test::Fail;
use system_file::read_system;

// What is told of the first run of a system of one full core, slot by slot. None where a file is
// refused or a budget is not assigned.
fn told_slot_by_slot(
    alloc: Global,
    system: &str,
    releases: &str,
    slots: usize,
) -> Result<Option<Vec<u8>>, AllocError> {
    let Ok(sys) = read_system(alloc, system.as_bytes()) else {
        return Ok(None);
    };
    let Ok(jobs) = read_releases(alloc, &sys, releases.as_bytes()) else {
        return Ok(None);
    };
    let Ok(plan) = assign(alloc, &sys) else {
        return Ok(None);
    };
    if sys.cores().len() != 1 || slots > 1_000_000 || releases.len() > 1_000_000 {
        return Ok(None);
    }
    let given = Vec::from_array(alloc, [vec![in alloc; true; slots]?])?;
    let run = run_tree(alloc, &sys, &plan, &jobs, &given, slots as u64)?;
    Ok(Some(simulate_text(alloc, &sys, &plan, &jobs, &given, &run)?))
}

#[test]
fn a_run_slot_by_slot_is_told_alike(rt: HostRuntime) -> Result<(), Fail> {
    for (system, releases, slots, counts) in [
        (LEAF, LEAF_RELEASES, 100, LEAF_COUNTS),
        (SIXES, "at,part,task,work\n", 10, SIXES_COUNTS),
    ] {
        let told = told_slot_by_slot(rt.alloc(), system, releases, slots)?.ok_or("refused")?;
        assert_eq!(rt; told.as_slice(), counts.as_bytes());
    }
    Ok(())
}
