// A trace with a bad row is read to its end before that is told.
ghost use Rattle.std.specs.Prelude.{None};

use super::failing::{answered, calls_over, store_of};
use super::texts::SHARED;
use outside::{Store, StoreFault};
use rt_top::Status;
use std::alloc::Global;
use std::test::Fail;

/// Its first row has a moment with a leading zero.
const BAD_TRACE: &str = "at,core,what,vcpu\n01,cpu0,start,A\n0,cpu0,start,B\n10,,end,\n";

const BAD_ROW: &str = "fault=BadRow row=2 file=2\n";

// A read that fails behind the bad row is a read fault all the same.
#[test]
fn a_read_that_fails_goes_before_a_bad_row(rt: HostRuntime) -> Result<(), Fail> {
    let alloc = rt.alloc();
    let texts = [SHARED, BAD_TRACE];
    for command in ["audit", "tally", "steal"] {
        let words = [command, "first", "second"];
        for bite in [7, 4096] {
            let calls = calls_over(&texts, bite);
            for k in 0..calls.saturating_add(1) {
                let mut store = store_of(alloc, &texts, bite, vec![in alloc; k]?)?;
                let (status, written) = answered(alloc, &words, &mut store, 4096, Vec::new(alloc))?;
                let want = if k < calls {
                    (Status::ReadFault, "")
                } else {
                    (Status::BadFile, BAD_ROW)
                };
                assert_eq!(rt; status, want.0, "{words:?}, bite {bite}, call {k}");
                assert_eq!(rt;
                    written.as_slice(),
                    want.1.as_bytes(),
                    "{words:?}, bite {bite}, call {k}"
                );
            }
        }
    }
    Ok(())
}

// A system file, and a trace that is filled up with empty lines to a number of bytes.
#[derive(Drop)]
struct Filled<'t> {
    first: &'t [u8],
    second: &'t [u8],
    bytes: usize,
    is_second: bool,
    is_open: bool,
    at: usize,
    taken: u64,
}

impl<'t> Filled<'t> {
    fn new(first: &'t str, second: &'t str, bytes: usize) -> Filled<'t> {
        Filled {
            first: first.as_bytes(),
            second: second.as_bytes(),
            bytes,
            is_second: false,
            is_open: false,
            at: 0,
            taken: 0,
        }
    }
}

impl<'t> Store for Filled<'t> {
    ghost files = { λ s. None };

    ghost rest = { λ s. None };

    ghost is_open = { λ s. s.is_open };

    ghost faults = { λ s. 0 };

    ghost absences = { λ s. 0 };

    ghost taken = { λ s. s.taken };

    fn open_file(&mut self, name: &str) -> Result<(), StoreFault> {
        self.is_second = name == "second";
        self.is_open = true;
        self.at = 0;
        Ok(())
    }

    fn read(&mut self, buf: &mut [u8]) -> Result<usize, StoreFault> {
        let (text, bytes) = if self.is_second {
            (self.second, self.bytes)
        } else {
            (self.first, self.first.len())
        };
        let count = buf.len().min(bytes.saturating_sub(self.at));
        buf[..count].fill(b'\n');
        let front = text.len().saturating_sub(self.at).min(count);
        if front > 0 {
            buf[..front].copy_from_slice(&text[self.at..self.at + front]);
        }
        self.at += count;
        self.taken = self.taken.saturating_add(count as u64);
        Ok(count)
    }
}

// What a command answers to a bad trace of that many bytes.
fn answered_to(alloc: Global, command: &str, bytes: usize) -> Result<(Status, Vec<u8>), Fail> {
    let mut store = Filled::new(SHARED, BAD_TRACE, bytes);
    let words = [command, "first", "second"];
    answered(alloc, &words, &mut store, 4096, Vec::new(alloc))
}

#[test]
fn a_trace_as_long_as_it_may_be_is_refused_for_its_bad_row(rt: HostRuntime) -> Result<(), Fail> {
    let (status, written) = answered_to(rt.alloc(), "tally", 67_108_864)?;
    assert_eq!(rt; status, Status::BadFile);
    assert_eq!(rt; written.as_slice(), BAD_ROW.as_bytes());
    Ok(())
}

#[test]
fn too_many_bytes_go_before_a_bad_row(rt: HostRuntime) -> Result<(), Fail> {
    let (status, written) = answered_to(rt.alloc(), "audit", 67_108_865)?;
    assert_eq!(rt; status, Status::TooLong);
    assert_eq!(rt; written.as_slice(), "toolong file=2\n".as_bytes());
    Ok(())
}
