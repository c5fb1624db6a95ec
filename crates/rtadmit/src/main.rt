//! The program: passes its words to `run` over real files and standard output, and ends with the
//! status.
#![tactic(auto)]

use outside::{DiskStore, StdoutSink};
use rt_top::{Status, run};
use std::alloc::Global;
use std::env::{self, Env};
use std::io;
use std::process::ExitCode;

fn main(rt: HostRuntime) -> ExitCode {
    let alloc = rt.alloc();
    let status = match words_of(&rt, alloc) {
        Ok(words) => {
            let mut out = StdoutSink::new(io::writer(&rt));
            let mut store = DiskStore::new(rt);
            run(alloc, &words, &mut store, &mut out)
        }
        Err(status) => status,
    };
    ExitCode::from(status.number())
}

// The words without the program's own name, or the status where std refuses them.
fn words_of<R: Env + Alloc<A = Global>>(rt: &R, alloc: Global) -> Result<Vec<String>, Status> {
    let args = match env::args(rt) {
        Ok(args) => args,
        Err(error) => {
            return Err(match error.kind() {
                io::ErrorKind::OutOfMemory => Status::NoMemory,
                _ => Status::Usage,
            });
        }
    };
    args.skip(1).collect(alloc).map_err(|_| Status::NoMemory)
}
