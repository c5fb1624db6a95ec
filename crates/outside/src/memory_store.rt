ghost use Rattle.std.specs.Prelude.{◌≡◌, ◌≢◌, ◌≤◌, ◌<◌, ◌↔◌, length, MatchOption, Some, None, is_some, true, min, take, drop, [], IfOk, OnOk, OnErr, IfSome, IsErr, IsErrOf, Contains, option_map};
ghost use Rattle.outside.specs.Memory.{MemoryFiles, bytes_at, named_files};
ghost use Rattle.outside.specs.Counts.{raised};
ghost use Rattle.outside.specs.Files.{file_named};

use crate::{Store, StoreFault};
use slot_model::Name;
use std::marker::Model;

/// Files in memory, for tests. Of several files of one name the first counts.
#[derive(Drop)]
pub struct MemoryStore {
    files: Vec<(Name, Vec<u8>)>,
    bite: usize,
    fails: Vec<u64>,
    calls: u64,
    current: Option<usize>,
    at: usize,
    faults: u64,
    absences: u64,
    taken: u64,
}

impl Model for MemoryStore {
    ghost use Rattle.outside.specs.Memory.{MemoryFiles, StoreIsSound, named_files, rest_of};

    ghost Value = { MemoryFiles };

    ghost view = { λ s. record {
      files = named_files s.files.items;
      bite = s.bite;
      fails = s.fails.items;
      calls = s.calls;
      rest = rest_of s.files.items s.current s.at;
      faults = s.faults;
      absences = s.absences;
      taken = s.taken;
    } };

    ghost invariant = { λ s. StoreIsSound s.bite s.files.items s.current s.at };
}

impl MemoryStore {
    /// A store that gives at most `bite` bytes a read, and fails at the calls of `open_file` and
    /// `read` whose numbers stand in `fails`, where the first call is 0.
    pub fn new(files: Vec<(Name, Vec<u8>)>, bite: usize, fails: Vec<u64>) -> MemoryStore
        requires { 1 ≤ bite }
        ensures files { result.files ≡ named_files files.items }
        ensures bite { result.bite ≡ bite }
        ensures fails { result.fails ≡ fails.items }
        ensures calls { result.calls ≡ 0 }
        ensures closed { result.rest ≡ None }
        ensures faults { result.faults ≡ 0 }
        ensures absences { result.absences ≡ 0 }
        ensures taken { result.taken ≡ 0 }
    {
        MemoryStore {
            files,
            bite,
            fails,
            calls: 0,
            current: None,
            at: 0,
            faults: 0,
            absences: 0,
            taken: 0,
        }
    }
}

fn place_of(files: &[(Name, Vec<u8>)], name: &str) -> Option<usize>
    ensures { let found = file_named name.now (named_files files.now) in
        MatchOption result (found ≡ None)
        (λ i. (i < length files.now) × (found ≡ Some (bytes_at files.now i))) }
{
    for (i, file) in files.iter().enumerate() {
        if name == file.0.as_str() {
            return Some(i);
        }
    }
    None
}

fn bytes_of(files: &[(Name, Vec<u8>)], place: usize) -> &[u8]
    requires { place < length files.now }
    ensures { result.now ≡ bytes_at files.now place }
{
    files[place].1.as_slice()
}

// Copies as much of the front of `left` as fits and `bite` allows.
fn copy_front(left: &[u8], buf: &mut [u8], bite: usize) -> usize
    ensures count { result ≡ min (min (length left.now) (length buf.old)) bite }
    ensures front { take result buf.new ≡ take result left.now }
{
    let count = left.len().min(buf.len()).min(bite);
    buf[..count].copy_from_slice(&left[..count]);
    count
}

impl Store for MemoryStore {
    ghost files = { λ s. Some s.files };

    ghost rest = { λ s. s.rest };

    ghost is_open = { λ s. is_some s.rest };

    ghost faults = { λ s. s.faults };

    ghost absences = { λ s. s.absences };

    ghost taken = { λ s. s.taken };

    fn open_file(&mut self, name: &str) -> Result<(), StoreFault>
        ensures fails { IsErrOf result StoreFault.Failed ↔ Contains self.old.fails self.old.calls }
        ensures there { OnOk result (file_named name.now self.old.files ≢ None) }
        ensures not_there { IsErrOf result StoreFault.Missing
            → file_named name.now self.old.files ≡ None }
        ensures never_memory { IsErrOf result StoreFault.NoMemory → ⊥ }
        ensures opened { OnOk result (self.new ≡ record self.old {
          calls = raised self.old.calls 1;
          rest = file_named name.now self.old.files;
        }) }
        ensures failed { IsErrOf result StoreFault.Failed → self.new ≡ record self.old {
          calls = raised self.old.calls 1;
          rest = None;
          faults = raised self.old.faults 1;
        } }
        ensures missing { IsErrOf result StoreFault.Missing → self.new ≡ record self.old {
          calls = raised self.old.calls 1;
          rest = None;
          absences = raised self.old.absences 1;
        } }
        ensures faults_last { self.old.faults ≤ self.new.faults }
        ensures absences_last { self.old.absences ≤ self.new.absences }
    {
        let failing = self.fails.contains(&self.calls);
        self.calls = self.calls.saturating_add(1);
        self.current = None;
        if failing {
            self.faults = self.faults.saturating_add(1);
            return Err(StoreFault::Failed);
        }
        match place_of(&self.files, name) {
            Some(place) => {
                self.at = 0;
                self.current = Some(place);
                Ok(())
            }
            None => {
                self.absences = self.absences.saturating_add(1);
                Err(StoreFault::Missing)
            }
        }
    }

    fn read(&mut self, buf: &mut [u8]) -> Result<usize, StoreFault>
        requires { is_some self.old.rest ≡ true }
        ensures fails { IsErr result ↔ Contains self.old.fails self.old.calls }
        ensures count { IfOk result (λ n. IfSome self.old.rest (λ left.
            n ≡ min (min (length left) (length buf.new)) self.old.bite)) }
        ensures front { IfOk result
            (λ n. IfSome self.old.rest (λ left. take n buf.new ≡ take n left)) }
        ensures given { IfOk result (λ n. self.new ≡ record self.old {
          calls = raised self.old.calls 1;
          rest = option_map (λ left. drop n left) self.old.rest;
          taken = raised self.old.taken n;
        }) }
        ensures failed { OnErr result (self.new ≡ record self.old {
          calls = raised self.old.calls 1;
          rest = None;
          faults = raised self.old.faults 1;
        }) }
        ensures end { IfOk result (λ n. n ≡ 0 → 0 < length buf.new → self.new.rest ≡ Some []) }
        ensures never_missing { IsErrOf result StoreFault.Missing → ⊥ }
        ensures never_memory { IsErrOf result StoreFault.NoMemory → ⊥ }
        ensures taken_last { self.old.taken ≤ self.new.taken }
        ensures faults_last { self.old.faults ≤ self.new.faults }
    {
        let failing = self.fails.contains(&self.calls);
        self.calls = self.calls.saturating_add(1);
        if failing {
            self.current = None;
            self.faults = self.faults.saturating_add(1);
            return Err(StoreFault::Failed);
        }
        let Some(place) = self.current else {
            unreachable!()
        };
        let left = &bytes_of(&self.files, place)[self.at..];
        let count = copy_front(left, buf, self.bite);
        self.at += count;
        self.taken = self.taken.saturating_add(count as u64);
        Ok(count)
    }
}
