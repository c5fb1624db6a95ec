//! What the tests of several crates make.

use slot_model::{Name, Sched, Task};
use std::alloc::Global;
use std::process::Abort;
use system_file::read_system;
use tree_model::{Named, Parent, Part, System};

pub const OUT: &str = "out of range";

pub const MEMORY: &str = "out of memory";

pub fn name(rt: &impl Abort, alloc: Global, text: &str) -> Name {
    match Name::new(alloc, text.as_bytes()) {
        Ok(Some(name)) => name,
        _ => panic!(rt; "no name"),
    }
}

pub fn task(rt: &impl Abort, period: u64, deadline: u64, work: u64) -> Task {
    Task::new(period, deadline, work).expect(rt, OUT)
}

/// A part without tasks.
pub fn inner(
    rt: &impl Abort,
    alloc: Global,
    text: &str,
    parent: Parent,
    sched: Sched,
    period: u64,
) -> Part {
    Part {
        name: name(rt, alloc, text),
        parent,
        sched,
        period,
        budget: None,
        extra: false,
        tasks: Vec::new(alloc),
    }
}

/// Gives a part one more task.
pub fn add_task(rt: &impl Abort, alloc: Global, part: &mut Part, text: &str, task: Task) {
    let named = Named {
        name: name(rt, alloc, text),
        task,
    };
    part.tasks.push(named).expect(rt, MEMORY);
}

/// The system of a file.
pub fn system_of(rt: &impl Abort, alloc: Global, text: &str) -> System {
    read_system(alloc, text.as_bytes()).expect(rt, "a system file")
}
