ghost use Rattle.std.specs.Prelude.{◌≡◌, ◌≢◌, IfOk};
ghost use Rattle.rt_report.specs.RowFault.{row_line, release_fault_text, trace_fault_text, script_fault_text, guest_fault_text};

use release_file::ReleaseFault;
use script_file::ScriptFault;
use std::alloc::{AllocError, Global};
use trace_file::TraceFault;

/// The line of the fault of a release file or of a workload.
pub fn release_text(alloc: Global, fault: ReleaseFault, file: u32) -> Result<Vec<u8>, AllocError>
    requires { fault ≢ ReleaseFault.NoMemory }
    ensures { IfOk result (λ text. text.items ≡ release_fault_text fault file) }
{
    let (word, row) = match fault {
        ReleaseFault::BadHeader => ("BadHeader", 1),
        ReleaseFault::BadRow(row) => ("BadRow", row),
        ReleaseFault::Unknown(row) => ("Unknown", row),
        ReleaseFault::OutOfRange(row) => ("OutOfRange", row),
        ReleaseFault::TooEarly(row) => ("TooEarly", row),
        ReleaseFault::BadOrder(row) => ("BadOrder", row),
        ReleaseFault::NoMemory => unreachable!(),
    };
    at_row(alloc, word, row, file)
}

/// The line of the fault of a trace.
pub fn trace_text(alloc: Global, fault: TraceFault, file: u32) -> Result<Vec<u8>, AllocError>
    requires { fault ≢ TraceFault.NoMemory }
    ensures { IfOk result (λ text. text.items ≡ trace_fault_text fault file) }
{
    let (word, row) = match fault {
        TraceFault::BadHeader => ("BadHeader", 1),
        TraceFault::BadRow(row) => ("BadRow", row),
        TraceFault::Unknown(row) => ("Unknown", row),
        TraceFault::OutOfRange(row) => ("OutOfRange", row),
        TraceFault::TimeFalls(row) => ("TimeFalls", row),
        TraceFault::WrongCore(row) => ("WrongCore", row),
        TraceFault::NotStarted(row) => ("NotStarted", row),
        TraceFault::StartedTwice(row) => ("StartedTwice", row),
        TraceFault::NotBlocked(row) => ("NotBlocked", row),
        TraceFault::NotRunnable(row) => ("NotRunnable", row),
        TraceFault::StillRunning(row) => ("StillRunning", row),
        TraceFault::CoreIdle(row) => ("CoreIdle", row),
        TraceFault::AfterEnd(row) => ("AfterEnd", row),
        TraceFault::NoEnd(row) => ("NoEnd", row),
        TraceFault::NoMemory => unreachable!(),
    };
    at_row(alloc, word, row, file)
}

/// The line of the fault of a script.
pub fn script_text(alloc: Global, fault: ScriptFault, file: u32) -> Result<Vec<u8>, AllocError>
    requires { fault ≢ ScriptFault.NoMemory }
    ensures { IfOk result (λ text. text.items ≡ script_fault_text fault file) }
{
    let (word, row) = match fault {
        ScriptFault::BadHeader => ("BadHeader", 1),
        ScriptFault::BadRow(row) => ("BadRow", row),
        ScriptFault::NoMemory => unreachable!(),
    };
    at_row(alloc, word, row, file)
}

/// The line of the row of a guest that can't be placed anywhere.
pub fn guest_text(alloc: Global, row: u64, file: u32) -> Result<Vec<u8>, AllocError>
    ensures { IfOk result (λ text. text.items ≡ guest_fault_text row file) }
{
    at_row(alloc, "BadGuest", row, file)
}

fn at_row(alloc: Global, word: &str, row: u64, file: u32) -> Result<Vec<u8>, AllocError>
    ensures { IfOk result (λ text. text.items ≡ row_line word.now row file) }
{
    Ok(format!(in alloc; "fault={word} row={row} file={file}\n")?.into_bytes())
}
