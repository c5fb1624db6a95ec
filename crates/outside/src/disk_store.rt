ghost use Rattle.std.specs.Prelude.{◌≡◌, ◌≢◌, ◌≤◌, None, false};
ghost use Rattle.outside.specs.inner.Real.{after_refusal};

use crate::{Store, StoreFault};
use std::io::{ErrorKind, Read};
use std::marker::Model;
use std::rt::Files;

/// The files of the system. Nothing is told of them but what the handle itself tells of an open
/// one.
#[derive(Drop)]
pub struct DiskStore<R: Files> {
    rt: R,
    file: Option<R::File>,
    faults: u64,
    absences: u64,
    taken: u64,
}

impl<R: Files> Model for DiskStore<R> {
    ghost use Rattle.std.specs.Prelude.{is_some, option_and_then};
    ghost use Rattle.outside.specs.Real.{DiskCounts};

    ghost Value = { DiskCounts };

    ghost view = { λ s. record {
      is_open = is_some s.file;
      rest = option_and_then R.File.remaining s.file;
      faults = s.faults;
      absences = s.absences;
      taken = s.taken;
    } };
}

impl<R: Files> DiskStore<R> {
    /// A store of the files that `rt` reaches.
    pub fn new(rt: R) -> DiskStore<R>
        ensures { result
            ≡ record { is_open = false; rest = None; faults = 0; absences = 0; taken = 0 } }
    {
        DiskStore {
            rt,
            file: None,
            faults: 0,
            absences: 0,
            taken: 0,
        }
    }

    // Closes the file and counts the refusal.
    fn refuse(&mut self, fault: StoreFault)
        ensures counted { self.new ≡ after_refusal self.old fault }
        ensures faults_last { self.old.faults ≤ self.new.faults }
        ensures absences_last { self.old.absences ≤ self.new.absences }
    {
        self.file = None;
        match fault {
            StoreFault::Failed => self.faults = self.faults.saturating_add(1),
            StoreFault::Missing => self.absences = self.absences.saturating_add(1),
            StoreFault::NoMemory => {}
        }
    }
}

// What an error at opening says of the file.
fn fault_of(kind: ErrorKind) -> StoreFault
    ensures not_found { kind ≡ ErrorKind.NotFound → result ≡ StoreFault.Missing }
    ensures no_memory { kind ≡ ErrorKind.OutOfMemory → result ≡ StoreFault.NoMemory }
    ensures any_other { kind ≢ ErrorKind.NotFound → kind ≢ ErrorKind.OutOfMemory
        → result ≡ StoreFault.Failed }
{
    match kind {
        ErrorKind::NotFound => StoreFault::Missing,
        ErrorKind::OutOfMemory => StoreFault::NoMemory,
        _ => StoreFault::Failed,
    }
}

impl<R: Files> Store for DiskStore<R> {
    ghost files = { λ s. None };

    ghost rest = { λ s. s.rest };

    ghost is_open = { λ s. s.is_open };

    ghost faults = { λ s. s.faults };

    ghost absences = { λ s. s.absences };

    ghost taken = { λ s. s.taken };

    fn open_file(&mut self, name: &str) -> Result<(), StoreFault> {
        match std::fs::open(&self.rt, name) {
            Ok(file) => {
                self.file = Some(file);
                Ok(())
            }
            Err(error) => {
                let fault = fault_of(error.kind());
                self.refuse(fault);
                Err(fault)
            }
        }
    }

    fn read(&mut self, buf: &mut [u8]) -> Result<usize, StoreFault> {
        let Some(file) = &mut self.file else {
            unreachable!()
        };
        match file.read(buf) {
            Ok(count) => {
                self.taken = self.taken.saturating_add(count as u64);
                Ok(count)
            }
            Err(_) => {
                self.refuse(StoreFault::Failed);
                Err(StoreFault::Failed)
            }
        }
    }
}
