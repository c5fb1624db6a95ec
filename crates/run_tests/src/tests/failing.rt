// Each call of the store and each write fails in turn, and then none.
ghost use Rattle.std.specs.Prelude.{◌≤◌};

use super::texts::*;
use outside::{MemorySink, MemoryStore, Store};
use rt_top::{Status, run};
use slot_model::Name;
use std::alloc::Global;
use std::process::Abort;
use std::test::Fail;

// A store of these texts under the names `first` and `second`.
pub fn store_of(
    alloc: Global,
    texts: &[&str],
    bite: usize,
    fails: Vec<u64>,
) -> Result<MemoryStore, Fail>
    requires { 1 ≤ bite }
{
    let mut files = Vec::new(alloc);
    for (name, text) in ["first", "second"].iter().zip(texts) {
        let name = Name::new(alloc, name.as_bytes())?.ok_or("no name")?;
        files.push((name, text.as_bytes().to_vec(alloc)?))?;
    }
    Ok(MemoryStore::new(files, bite, fails))
}

// The status of these words and what was written, at most `bite` bytes a write, where the writes of
// `fails` fail.
pub fn answered<S: Store>(
    alloc: Global,
    words: &[&str],
    store: &mut S,
    bite: usize,
    fails: Vec<u64>,
) -> Result<(Status, Vec<u8>), Fail>
    requires { 1 ≤ bite }
{
    let mut owned = Vec::new(alloc);
    for word in words {
        owned.push(String::from_str(alloc, word)?)?;
    }
    let mut out = MemorySink::new(alloc, 4096, bite, fails)?;
    let status = run(alloc, &owned, store, &mut out);
    Ok((status, out.written().to_vec(alloc)?))
}

// How often the store is called: each file is opened, read, and read to its end.
pub fn calls_over(texts: &[&str], bite: usize) -> u64
    requires { 1 ≤ bite }
{
    let mut calls = 0u64;
    for text in texts {
        calls = calls.saturating_add(2 + text.len().div_ceil(bite) as u64);
    }
    calls
}

// A call that fails is a read fault, and nothing is written.
fn each_call_fails(
    rt: &impl Abort,
    alloc: Global,
    words: &[&str],
    texts: &[&str],
    answer: &str,
    bite: usize,
) -> Result<(), Fail>
    requires { 1 ≤ bite }
{
    let calls = calls_over(texts, bite);
    for k in 0..calls.saturating_add(1) {
        let mut store = store_of(alloc, texts, bite, vec![in alloc; k]?)?;
        let (status, written) = answered(alloc, words, &mut store, 4096, Vec::new(alloc))?;
        let (want, text) = if k < calls {
            (Status::ReadFault, "")
        } else {
            (Status::Yes, answer)
        };
        assert_eq!(rt; status, want, "{words:?}, bite {bite}, call {k}");
        assert_eq!(rt;
            written.as_slice(),
            text.as_bytes(),
            "{words:?}, bite {bite}, call {k}"
        );
    }
    Ok(())
}

// A write that fails is a write fault, and leaves the front of the answer.
fn each_write_fails(
    rt: &impl Abort,
    alloc: Global,
    words: &[&str],
    texts: &[&str],
    answer: &str,
    bite: usize,
) -> Result<(), Fail>
    requires { 1 ≤ bite }
{
    let writes = answer.len().div_ceil(bite) as u64;
    for k in 0..writes.saturating_add(1) {
        let mut store = store_of(alloc, texts, bite, Vec::new(alloc))?;
        let (status, written) = answered(alloc, words, &mut store, bite, vec![in alloc; k]?)?;
        let want = if k < writes {
            Status::WriteFault
        } else {
            Status::Yes
        };
        let end = bite.saturating_mul(k as usize).min(answer.len());
        assert_eq!(rt; status, want, "{words:?}, bite {bite}, write {k}");
        assert_eq!(rt;
            written.as_slice(),
            &answer.as_bytes()[..end],
            "{words:?}, bite {bite}, write {k}"
        );
    }
    Ok(())
}

// Both, over reads and writes of several lengths.
fn all_fail(
    rt: &impl Abort,
    alloc: Global,
    words: &[&str],
    texts: &[&str],
    answer: &str,
) -> Result<(), Fail> {
    for bite in [1, 7, 8, 4096] {
        each_call_fails(rt, alloc, words, texts, answer, bite)?;
        each_write_fails(rt, alloc, words, texts, answer, bite)?;
    }
    Ok(())
}

#[test]
fn of_admit(rt: HostRuntime) -> Result<(), Fail> {
    all_fail(&rt, rt.alloc(), &["admit", "first"], &[LEAF], LEAF_ANSWER)
}

#[test]
fn of_certify(rt: HostRuntime) -> Result<(), Fail> {
    all_fail(
        &rt,
        rt.alloc(),
        &["certify", "first"],
        &[LEAF],
        LEAF_CERTIFICATE,
    )
}

#[test]
fn of_check(rt: HostRuntime) -> Result<(), Fail> {
    let words = ["check", "first", "second"];
    all_fail(
        &rt,
        rt.alloc(),
        &words,
        &[LEAF, LEAF_CERTIFICATE],
        "verdict=yes\n",
    )
}

#[test]
fn of_interface(rt: HostRuntime) -> Result<(), Fail> {
    let words = ["interface", "first", "leaf", "10"];
    let answer = "verdict=yes\ninterface leaf period=10 deadline=10 budget=3\n";
    all_fail(&rt, rt.alloc(), &words, &[LEAF], answer)
}

#[test]
fn of_choose(rt: HostRuntime) -> Result<(), Fail> {
    let words = ["choose", "first", "leaf", "5", "14"];
    let answer = "verdict=yes\nchoose leaf period=7 budget=2\n";
    all_fail(&rt, rt.alloc(), &words, &[LEAF], answer)
}

#[test]
fn of_simulate(rt: HostRuntime) -> Result<(), Fail> {
    let words = ["simulate", "first", "second", "early", "100"];
    all_fail(&rt, rt.alloc(), &words, &[LEAF, LEAF_RELEASES], LEAF_COUNTS)
}

#[test]
fn of_rtds(rt: HostRuntime) -> Result<(), Fail> {
    let words = ["rtds", "first", "second", "10"];
    all_fail(
        &rt,
        rt.alloc(),
        &words,
        &[SHARED, SHARED_WORKLOAD],
        SHARED_TRACE,
    )
}

#[test]
fn of_audit(rt: HostRuntime) -> Result<(), Fail> {
    let words = ["audit", "first", "second"];
    all_fail(
        &rt,
        rt.alloc(),
        &words,
        &[SHARED, SHARED_TRACE],
        SHARED_AUDIT,
    )
}

#[test]
fn of_tally(rt: HostRuntime) -> Result<(), Fail> {
    let words = ["tally", "first", "second"];
    all_fail(
        &rt,
        rt.alloc(),
        &words,
        &[SHARED, SHARED_TRACE],
        SHARED_TALLY,
    )
}

#[test]
fn of_steal(rt: HostRuntime) -> Result<(), Fail> {
    let words = ["steal", "first", "second"];
    all_fail(
        &rt,
        rt.alloc(),
        &words,
        &[SHARED, SHARED_TRACE],
        SHARED_STEAL,
    )
}

#[test]
fn of_isolate(rt: HostRuntime) -> Result<(), Fail> {
    let words = ["isolate", "first"];
    let answer = "verdict=yes\nisolated A last=7 of=10\nisolated B last=7 of=10\n\
        core cpu0 budgets=7 shortest=10\n";
    all_fail(&rt, rt.alloc(), &words, &[SHARED], answer)
}

#[test]
fn of_version(rt: HostRuntime) -> Result<(), Fail> {
    all_fail(&rt, rt.alloc(), &["version"], &[], "rtadmit 1.1.0\n")
}

#[test]
fn of_bulk(rt: HostRuntime) -> Result<(), Fail> {
    all_fail(&rt, rt.alloc(), &["bulk", "1"], &[], HOST_COUNTS)
}

#[test]
fn of_responses(rt: HostRuntime) -> Result<(), Fail> {
    let words = ["responses", "first"];
    all_fail(&rt, rt.alloc(), &words, &[RATED], RATED_RESPONSES)
}

#[test]
fn of_session(rt: HostRuntime) -> Result<(), Fail> {
    let words = ["session", "first", "second"];
    let script = "op,part,parent,sched,period,budget,tasks\nremove,leaf,,,,,\n";
    all_fail(
        &rt,
        rt.alloc(),
        &words,
        &[LEAF, script],
        "verdict=yes\n1 yes\n",
    )
}

#[test]
fn of_place(rt: HostRuntime) -> Result<(), Fail> {
    let words = ["place", "first", "second"];
    let guests = "op,part,parent,sched,period,budget,tasks\n";
    let host = "format = 1\n\n[[core]]\nname = \"cpu0\"\nsched = \"edf\"\n";
    all_fail(&rt, rt.alloc(), &words, &[host, guests], host)
}

#[test]
fn of_slack(rt: HostRuntime) -> Result<(), Fail> {
    let words = ["slack", "first", "leaf"];
    let answer = "verdict=yes\nslack leaf t1 work=7 most=44\nslack leaf t2 work=9 most=64\n";
    all_fail(&rt, rt.alloc(), &words, &[LEAF], answer)
}
