use crate::helpers::{MEMORY, add_task, inner, name, system_of, task};
use admission_session::{Answer, EditFault, Leaf, Op, Row, Session};
use slot_model::{Name, Sched};
use std::alloc::Global;
use std::process::Abort;
use tree_model::Parent;

/// On a full core: a leaf, and a middle server with two leaves.
const HOST: &str = "format = 1
core = [{name = 'cpu0', sched = 'edf'}]
[[part]]
name = 'w'
parent = 'cpu0'
sched = 'edf'
period = 100
task = [{name = 't', period = 1000, work = 10}]
[[part]]
name = 'mid'
parent = 'cpu0'
sched = 'edf'
period = 50
[[part]]
name = 'x'
parent = 'mid'
sched = 'edf'
period = 100
task = [{name = 't', period = 500, work = 70}]
[[part]]
name = 'y'
parent = 'mid'
sched = 'edf'
period = 200
task = [{name = 't', period = 400, work = 40}]
";

fn open(rt: &impl Abort, alloc: Global) -> Session {
    let sys = system_of(rt, alloc, HOST);
    Session::open(alloc, sys).ok().expect(rt, "admitted")
}

/// A leaf with an open budget, whose one task asks for `work` slots of 400.
fn leaf(rt: &impl Abort, alloc: Global, text: &str, work: u64) -> Leaf {
    let mut part = inner(rt, alloc, text, Parent::Core(0), Sched::Edf, 100);
    add_task(rt, alloc, &mut part, "t", task(rt, 400, 400, work));
    Leaf {
        name: part.name,
        sched: Sched::Edf,
        period: 100,
        budget: None,
        tasks: part.tasks,
    }
}

/// The row of an operation on such a leaf.
fn row(op: Op, leaf: Leaf, parent: Option<Name>) -> Row {
    Row {
        op,
        name: leaf.name,
        parent,
        sched: leaf.sched,
        period: leaf.period,
        budget: leaf.budget,
        tasks: leaf.tasks,
    }
}

#[test]
fn a_row_is_answered_as_its_edit(rt: HostRuntime) {
    let alloc = rt.alloc();
    let mut session = open(&rt, alloc);
    let removal = row(Op::Remove, leaf(&rt, alloc, "w", 1), None);
    let answer = session.edit(removal).expect(&rt, MEMORY);
    assert!(rt; matches!(answer, Answer::Done));
    let core = Some(name(&rt, alloc, "cpu0"));
    let addition = row(Op::Add, leaf(&rt, alloc, "z", 1), core);
    let answer = session.edit(addition).expect(&rt, MEMORY);
    assert!(rt; matches!(answer, Answer::Done));
    let change = row(Op::Change, leaf(&rt, alloc, "nothing", 1), None);
    let answer = session.edit(change).expect(&rt, MEMORY);
    assert!(rt; matches!(answer, Answer::Refused(EditFault::NoSuchLeaf)));
    assert!(rt; session.system().parts().len() == 4);
}
