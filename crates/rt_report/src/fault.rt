ghost use Rattle.std.specs.Prelude.{◌≡◌, ◌<◌, length, IfOk};
ghost use Rattle.rt_report.specs.Fault.{fault_text, not_rtds_text, word_fault_text, IsFault};

use crate::cert_fault::cert_text;
use crate::row_fault::{guest_text, release_text, script_text, trace_text};
use crate::system_fault::system_text;
use cert_reader::CertFault;
use release_file::ReleaseFault;
use script_file::ScriptFault;
use std::alloc::{AllocError, Global};
use system_file::SystemFault;
use trace_file::TraceFault;
use tree_model::System;

/// The fault of a file that a command reads.
#[derive(Clone, Copy, Debug, PartialEq, Eq)]
pub enum FileFault {
    System(SystemFault),
    /// Of a release file or of a workload.
    Release(ReleaseFault),
    Trace(TraceFault),
    Cert(CertFault),
    Script(ScriptFault),
    /// The row of a guest that can't be a leaf, or that is no row of a guest.
    BadGuest(u64),
    /// It has no leaf of the name that a word tells.
    NoSuchLeaf,
    /// The deadline that a word tells passes the leaf's period.
    BadDeadline,
}

/// The line of a fault of the file word `file`, counted from 1.
pub fn fault_text(alloc: Global, f: &FileFault, file: u32) -> Result<Vec<u8>, AllocError>
    requires { IsFault f.now }
    ensures { IfOk result (λ text. text.items ≡ fault_text f.now file) }
{
    match *f {
        FileFault::System(fault) => system_text(alloc, fault, file),
        FileFault::Release(fault) => release_text(alloc, fault, file),
        FileFault::Trace(fault) => trace_text(alloc, fault, file),
        FileFault::Cert(fault) => cert_text(alloc, fault, file),
        FileFault::Script(fault) => script_text(alloc, fault, file),
        FileFault::BadGuest(row) => guest_text(alloc, row, file),
        FileFault::NoSuchLeaf => word_fault_text(alloc, "NoSuchLeaf", file),
        FileFault::BadDeadline => word_fault_text(alloc, "BadDeadline", file),
    }
}

/// The line of a core of the system that is not full or not under earliest deadline first.
pub fn not_rtds_text(alloc: Global, sys: &System, core: u32) -> Result<Vec<u8>, AllocError>
    requires { core < length sys.now.cores }
    ensures { IfOk result (λ text. text.items ≡ not_rtds_text sys.now core) }
{
    let name = sys.cores()[core as usize].name.as_str();
    Ok(format!(in alloc; "fault=NotRtds core={name} file=1\n")?.into_bytes())
}

fn word_fault_text(alloc: Global, fault: &str, file: u32) -> Result<Vec<u8>, AllocError>
    ensures { IfOk result (λ text. text.items ≡ word_fault_text fault.now file) }
{
    Ok(format!(in alloc; "fault={fault} file={file}\n")?.into_bytes())
}
