ghost use Rattle.std.specs.Prelude.{◌≤◌, None};

use crate::helpers::{MEMORY, name};
use outside::{
    DiskStore, MemorySink, MemoryStore, ReadFault, Sink, SinkFault, StdoutSink, Store, StoreFault,
    WriteFault, read_all, write_all,
};
use std::alloc::Global;
use std::io::BufWriter;
use std::process::Abort;
use std::{fs, io};

const TEXT: &[u8] = b"format = 1";

// A store of the file `sys` of ten bytes and the file `empty`.
fn two_files(rt: &impl Abort, alloc: Global, bite: usize, fails: Vec<u64>) -> MemoryStore
    requires { 1 ≤ bite }
{
    let text = TEXT.to_vec(alloc).expect(rt, MEMORY);
    let files = [
        (name(rt, alloc, "sys"), text),
        (name(rt, alloc, "empty"), Vec::new(alloc)),
    ];
    let files = Vec::from_array(alloc, files).expect(rt, MEMORY);
    MemoryStore::new(files, bite, fails)
}

#[test]
fn a_file_is_read_whole_or_past_its_limit(rt: HostRuntime) {
    let alloc = rt.alloc();
    for bite in [1, 7, 4096] {
        let mut store = two_files(&rt, alloc, bite, Vec::new(alloc));
        for limit in [10, 11, 100_000] {
            let bytes = read_all(alloc, &mut store, "sys", limit).expect(&rt, "read");
            assert!(rt; bytes.as_slice() == TEXT);
        }
        let bytes = read_all(alloc, &mut store, "empty", 0).expect(&rt, "read");
        assert!(rt; bytes.is_empty());
        for (name, limit, want) in [
            ("sys", 9, ReadFault::TooLong),
            ("sys", 0, ReadFault::TooLong),
            ("other", 9, ReadFault::Absent),
        ] {
            let fault = read_all(alloc, &mut store, name, limit).err();
            assert!(rt; fault == Some(want));
        }
    }
}

// With bite 5 the calls are: 0 opens, 1 and 2 read five bytes each, 3 reads the end.
#[test]
fn each_failing_call_of_a_store_is_told(rt: HostRuntime) {
    let alloc = rt.alloc();
    for k in 0..5 {
        let fails = vec![in alloc; k].expect(&rt, MEMORY);
        let mut store = two_files(&rt, alloc, 5, fails);
        let want = if k < 4 { Some(ReadFault::Failed) } else { None };
        let fault = read_all(alloc, &mut store, "sys", 100).err();
        assert!(rt; fault == want);
    }
}

#[test]
fn a_sink_keeps_what_was_written_before_it_failed(rt: HostRuntime) {
    let alloc = rt.alloc();
    for (room, bite, fails, want) in [
        (12, 1, 99, "verdict=yes\n"),
        (12, 7, 99, "verdict=yes\n"),
        (4096, 4096, 99, "verdict=yes\n"),
        (100, 8, 0, ""),
        (100, 8, 1, "verdict="),
        (11, 8, 99, "verdict=yes"),
        (0, 1, 99, ""),
    ] {
        let fails = vec![in alloc; fails].expect(&rt, MEMORY);
        let mut sink = MemorySink::new(alloc, room, bite, fails).expect(&rt, MEMORY);
        let written = write_all(&mut sink, b"verdict=yes\n").is_ok();
        assert!(rt; written == (want.len() == 12));
        assert!(rt; sink.written() == want.as_bytes());
    }
}

// One file of zeros, which takes no memory. It tells nothing.
#[derive(Drop)]
struct Zeros {
    left: usize,
    is_open: bool,
    taken: u64,
}

impl Store for Zeros {
    ghost files = { λ s. None };

    ghost rest = { λ s. None };

    ghost is_open = { λ s. s.is_open };

    ghost faults = { λ s. 0 };

    ghost absences = { λ s. 0 };

    ghost taken = { λ s. s.taken };

    fn open_file(&mut self, _name: &str) -> Result<(), StoreFault> {
        self.is_open = true;
        Ok(())
    }

    fn read(&mut self, buf: &mut [u8]) -> Result<usize, StoreFault> {
        let count = buf.len().min(self.left);
        self.left -= count;
        self.taken = self.taken.saturating_add(count as u64);
        Ok(count)
    }
}

#[test]
fn the_largest_file_is_read(rt: HostRuntime) {
    let alloc = rt.alloc();
    for (size, want) in [
        (67_108_864, Ok(67_108_864)),
        (67_108_865, Err(ReadFault::TooLong)),
    ] {
        let mut store = Zeros {
            left: size,
            is_open: false,
            taken: 0,
        };
        let read = read_all(alloc, &mut store, "zeros", 67_108_864).map(|bytes| bytes.len());
        assert!(rt; read == want);
        assert!(rt; store.taken == size as u64);
    }
}

#[test]
fn a_disk_names_its_causes(rt: HostRuntime) {
    let alloc = rt.alloc();
    let mut store = DiskStore::new(rt);
    let bytes = read_all(alloc, &mut store, "/proc/sys/kernel/ostype", 100).expect(&rt, "read");
    assert!(rt; bytes.as_slice() == b"Linux\n".as_slice());
    for (name, want) in [
        ("/dev/null", None),
        ("/no such file", Some(ReadFault::Absent)),
        ("/dev/null/below", Some(ReadFault::Failed)),
        ("/dev", Some(ReadFault::Failed)),
        ("/dev/zero", Some(ReadFault::TooLong)),
    ] {
        let fault = read_all(alloc, &mut store, name, 100_000).err();
        assert!(rt; fault == want);
    }
}

#[test]
fn an_output_writes_or_fails(rt: HostRuntime) {
    let mut out = StdoutSink::new(io::writer(&rt));
    assert!(rt; out.write(b"") == Ok(0));
    for (name, want) in [
        ("/dev/null", Ok(())),
        ("/dev/full", Err(WriteFault::Failed)),
    ] {
        let mut sink = StdoutSink::new(fs::create(&rt, name).expect(&rt, "open"));
        assert!(rt; write_all(&mut sink, b"verdict=yes\n") == want);
    }
    // a writer that keeps what it takes till it is flushed
    let full = fs::create(&rt, "/dev/full").expect(&rt, "open");
    let kept = BufWriter::new(rt.alloc(), full).expect(&rt, MEMORY);
    let written = StdoutSink::new(kept).write(b"verdict=yes\n");
    assert!(rt; written == Err(SinkFault::Failed));
    // a writer that takes nothing
    let mut room = [0u8; 7];
    let mut sink = StdoutSink::new(room.as_mut_slice());
    assert!(rt; write_all(&mut sink, b"verdict=yes\n") == Err(WriteFault::Failed));
}
