ghost use Rattle.std.specs.Prelude.{◌≡◌, Ok, IfOk, IfErr, MatchOption};
ghost use Rattle.rt_report.specs.declared.fault.FileFault.{FileFault};
ghost use Rattle.rt_report.specs.Fault.{IsFault};
ghost use Rattle.command_frame.specs.SecondFile.{IsToldFault};
ghost use Rattle.command_frame.specs.Steps.{IfAnswered, EndsJudged};

use crate::answer::Ending;
use crate::file::second_fault;
use cert_reader::CertFault;
use release_file::ReleaseFault;
use rt_report::FileFault;
use script_file::{GuestFault, ScriptFault};
use std::alloc::Global;
use trace_file::TraceFault;

/// What a reader of second files stops at.
pub trait SecondFault {
    ghost told_as: { Self → FileFault };

    /// The fault of the file, or none where memory ran out.
    fn told(self) -> Option<FileFault>
        ensures { MatchOption result (IsFault (told_as self) → ⊥)
            (λ fault. (fault ≡ told_as self) × IsFault fault) };
}

/// What the second file spells. It stops where that has a fault.
pub fn spelled<T, F: SecondFault>(alloc: Global, read: Result<T, F>) -> Result<T, Ending>
    ensures value { IfOk result (λ value. read ≡ Ok value) }
    ensures refused { IfErr result (λ stop. IfAnswered stop (λ a.
        IsToldFault F.told_as read a.status a.text.items)) }
    ensures judged { IfErr result (λ stop. EndsJudged stop) }
{
    match read {
        Ok(value) => Ok(value),
        Err(fault) => match fault.told() {
            Some(told) => Err(second_fault(alloc, told)),
            None => Err(Ending::NoMemory),
        },
    }
}

impl SecondFault for CertFault {
    ghost use Rattle.rt_report.specs.declared.fault.FileFault.TheVariants.{Cert};

    ghost told_as = { Cert };

    fn told(self) -> Option<FileFault> {
        match self {
            CertFault::NoMemory => None,
            fault => Some(FileFault::Cert(fault)),
        }
    }
}

impl SecondFault for ReleaseFault {
    ghost use Rattle.rt_report.specs.declared.fault.FileFault.TheVariants.{Release};

    ghost told_as = { Release };

    fn told(self) -> Option<FileFault> {
        match self {
            ReleaseFault::NoMemory => None,
            fault => Some(FileFault::Release(fault)),
        }
    }
}

impl SecondFault for TraceFault {
    ghost use Rattle.rt_report.specs.declared.fault.FileFault.TheVariants.{Trace};

    ghost told_as = { Trace };

    fn told(self) -> Option<FileFault> {
        match self {
            TraceFault::NoMemory => None,
            fault => Some(FileFault::Trace(fault)),
        }
    }
}

impl SecondFault for ScriptFault {
    ghost use Rattle.rt_report.specs.declared.fault.FileFault.TheVariants.{Script};

    ghost told_as = { Script };

    fn told(self) -> Option<FileFault> {
        match self {
            ScriptFault::NoMemory => None,
            fault => Some(FileFault::Script(fault)),
        }
    }
}

impl SecondFault for GuestFault {
    ghost use Rattle.command_frame.specs.SecondFile.{guest_fault};

    ghost told_as = { guest_fault };

    fn told(self) -> Option<FileFault> {
        match self {
            GuestFault::Script(ScriptFault::NoMemory) => None,
            GuestFault::Script(fault) => Some(FileFault::Script(fault)),
            GuestFault::Other(row) => Some(FileFault::BadGuest(row)),
        }
    }
}
