use admission_session::Op;
use script_file::{ScriptFault, read_script};
use slot_model::Sched;

const SCRIPT: &str = "op,part,parent,sched,period,budget,tasks
remove,B,,,,,
add,C,cpu0,rm,20,,t:100:90:5:11;u:50:50:0:1
";

#[test]
fn a_script_is_read(rt: HostRuntime) {
    let alloc = rt.alloc();
    let rows = read_script(alloc, SCRIPT.as_bytes())
        .ok()
        .expect(&rt, "a script");
    assert!(rt; rows.len() == 2 && rows[0].op == Op::Remove);
    let row = &rows[1];
    assert!(rt; row.name.as_str() == "C" && row.sched == Sched::Rm);
    assert!(rt; row.period == 20 && row.budget == None);
    assert!(rt; row.tasks.len() == 2 && row.tasks[0].task().jitter == 5);
    let missing = read_script(alloc, b"op,part\n").err();
    assert!(rt; missing == Some(ScriptFault::BadHeader));
}
