ghost use Rattle.std.specs.Prelude.{◌≡◌, ◌≢◌, IfOk};
ghost use Rattle.rt_report.specs.CertFault.{cert_fault_text};

use cert_reader::CertFault;
use std::alloc::{AllocError, Global};

/// The line of the fault of a certificate.
pub fn cert_text(alloc: Global, fault: CertFault, file: u32) -> Result<Vec<u8>, AllocError>
    requires { fault ≢ CertFault.NoMemory }
    ensures { IfOk result (λ text. text.items ≡ cert_fault_text fault file) }
{
    let word = match fault {
        CertFault::NotJson => "NotJson",
        CertFault::WrongShape => "WrongShape",
        CertFault::BadNumber => "BadNumber",
        CertFault::TooMany => "TooMany",
        CertFault::NoMemory => unreachable!(),
    };
    Ok(format!(in alloc; "fault={word} file={file}\n")?.into_bytes())
}
