ghost use Rattle.std.specs.Prelude.{◌≡◌, ◌⊎◌, ◌∷◌, [], List, ℕ, true, None, IfOk, IfErr, OnOk};
ghost use Rattle.csv_rows.specs.Reading.{HasRead, IsOpen, records_of};
ghost use Rattle.release_file.specs.declared.fault.ReleaseFault.TheVariants.{BadHeader, NoMemory};
ghost use Rattle.release_file.specs.Workload.{IsWorkload};
ghost use Rattle.release_file.specs.WorkloadFile.{SpellsWorkload, IsWorkloadFault, is_wake_header, wake_rows};

use crate::wake_rows::WakeRows;
use crate::wake_spelling::is_wake_header;
use crate::{ReleaseFault, Wake};
use csv_rows::{Records, read_rows};
use std::alloc::Global;
use tree_model::System;

/// The header of a workload.
fn read_header(records: &mut Records) -> Result<(), ReleaseFault>
    requires { IsOpen records.old }
    ensures header { (text : List ℕ) → HasRead text [] records.old
        → IfOk result (λ done. (header : List (List ℕ)) × (is_wake_header header ≡ true)
        × HasRead text (header ∷ []) records.new) }
    ensures fault { (text : List ℕ) → HasRead text [] records.old
        → IfErr result (λ fault. (fault ≡ NoMemory)
        ⊎ ((fault ≡ BadHeader) × (wake_rows (records_of text) ≡ None))) }
    ensures takes_any { OnOk result (IsOpen records.new) }
{
    let Ok(()) = records.read_header() else {
        return Err(ReleaseFault::NoMemory);
    };
    if !is_wake_header(&records.row()) {
        return Err(ReleaseFault::BadHeader);
    }
    Ok(())
}

/// The workload that the rows of a text spell, or the first rule that the text breaks, with its
/// row.
pub fn read_workload(alloc: Global, sys: &System, bytes: &[u8]) -> Result<Vec<Wake>, ReleaseFault>
    ensures spelt { IfOk result
        (λ wakes. SpellsWorkload sys.now (records_of bytes.now) wakes.items) }
    ensures workload { IfOk result (λ wakes. IsWorkload sys.now wakes.items) }
    ensures fault { IfErr result (λ fault. (fault ≡ NoMemory)
        ⊎ IsWorkloadFault sys.now (wake_rows (records_of bytes.now)) fault) }
{
    let mut records = Records::new(alloc, bytes);
    if let Err(fault) = read_header(&mut records) {
        return Err(fault);
    }
    let mut rows = match WakeRows::new(alloc, sys) {
        Ok(rows) => rows,
        Err(fault) => return Err(fault),
    };
    if let Err(fault) = read_rows(&mut records, &mut rows) {
        return Err(fault);
    }
    Ok(rows.finish())
}
