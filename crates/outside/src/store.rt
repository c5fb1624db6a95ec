ghost use Rattle.std.specs.Prelude.{◌≡◌, ◌≢◌, ℕ, ◌<◌, ◌≤◌, Bool, true, None, List, length, take, Option, IfOk, OnOk, OnErr, IsErrOf, is_ok};
ghost use Rattle.std.specs.Io.KnownBytes.{Consumes, IsAtEnd};
ghost use Rattle.outside.specs.Counts.{raised, Rose};
ghost use Rattle.outside.specs.Files.{Files, Told};

/// Why a store refused a call.
#[derive(Clone, Copy, Debug, PartialEq, Eq)]
pub enum StoreFault {
    /// The system failed; `faults` rose.
    Failed,
    /// There is no file of that name; `absences` rose.
    Missing,
    /// There was no memory to open the file.
    NoMemory,
}

/// Where files are read, one at a time. A store in memory tells what its files hold, a disk does
/// not.
pub trait Store {
    /// The files, where they are told.
    ghost files: { Self → Option Files };

    /// What is left of the current file, where it is told.
    ghost rest: { Self → Option (List ℕ) };

    /// Whether a file is current.
    ghost is_open: { Self → Bool };

    /// How many calls failed.
    ghost faults: { Self → ℕ };

    /// How many names were not there.
    ghost absences: { Self → ℕ };

    /// How many bytes were read.
    ghost taken: { Self → ℕ };

    /// Makes the named file the current one, at its first byte. After a refusal no file is current.
    fn open_file(&mut self, name: &str) -> Result<(), StoreFault>
        ensures files { files self.new ≡ files self.old }
        ensures current { is_open self.new ≡ is_ok result }
        // where the files are told, so is the rest: it is the whole file
        ensures whole { OnOk result
            (Told (files self.old) name.now (λ file. rest self.new ≡ file)) }
        ensures there { OnOk result (Told (files self.old) name.now (λ file. file ≢ None)) }
        ensures not_there { IsErrOf result StoreFault.Missing
            → Told (files self.old) name.now (λ file. file ≡ None) }
        ensures taken { taken self.new ≡ taken self.old }
        ensures ok_faults { OnOk result (faults self.new ≡ faults self.old) }
        ensures ok_absences { OnOk result (absences self.new ≡ absences self.old) }
        ensures memory_faults { IsErrOf result StoreFault.NoMemory
            → faults self.new ≡ faults self.old }
        ensures memory_absences { IsErrOf result StoreFault.NoMemory
            → absences self.new ≡ absences self.old }
        ensures failed { IsErrOf result StoreFault.Failed
            → Rose (faults self.old) (faults self.new) }
        ensures failed_absences { IsErrOf result StoreFault.Failed
            → absences self.new ≡ absences self.old }
        ensures missing { IsErrOf result StoreFault.Missing
            → Rose (absences self.old) (absences self.new) }
        ensures missing_faults { IsErrOf result StoreFault.Missing
            → faults self.new ≡ faults self.old }
        ensures faults_last { faults self.old ≤ faults self.new }
        ensures absences_last { absences self.old ≤ absences self.new };

    /// Moves the next bytes of the current file to the front of `buf`, and answers their number.
    /// Zero for a buffer that is not empty means the end. After a refusal no file is current.
    fn read(&mut self, buf: &mut [u8]) -> Result<usize, StoreFault>
        requires { is_open self.old ≡ true }
        ensures files { files self.new ≡ files self.old }
        ensures current { is_open self.new ≡ is_ok result }
        ensures count { IfOk result (λ n. n ≤ length buf.new) }
        // where the rest is told, it loses exactly these bytes
        ensures front { IfOk result
            (λ n. Consumes (rest self.old) (rest self.new) (take n buf.new)) }
        ensures end { IfOk result (λ n. n ≡ 0 → 0 < length buf.new → IsAtEnd (rest self.new)) }
        ensures taken { IfOk result (λ n. taken self.new ≡ raised (taken self.old) n) }
        ensures not_taken { OnErr result (taken self.new ≡ taken self.old) }
        ensures taken_last { taken self.old ≤ taken self.new }
        ensures ok_faults { OnOk result (faults self.new ≡ faults self.old) }
        ensures ok_absences { OnOk result (absences self.new ≡ absences self.old) }
        ensures failed { IsErrOf result StoreFault.Failed
            → Rose (faults self.old) (faults self.new) }
        ensures failed_absences { IsErrOf result StoreFault.Failed
            → absences self.new ≡ absences self.old }
        ensures never_missing { IsErrOf result StoreFault.Missing → ⊥ }
        ensures never_memory { IsErrOf result StoreFault.NoMemory → ⊥ }
        ensures faults_last { faults self.old ≤ faults self.new }
        ensures absences_last { absences self.old ≤ absences self.new };
}
