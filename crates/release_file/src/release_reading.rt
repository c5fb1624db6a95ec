ghost use Rattle.std.specs.Prelude.{◌≡◌, ◌⊎◌, ◌∷◌, [], ◌<◌, ◌≤◌, List, ℕ, Some, None, IfOk, IfErr, OnOk, length, map};
ghost use Rattle.csv_rows.specs.Reading.{HasRead, IsOpen, records_of};
ghost use Rattle.tree_model.specs.Releases.{AreReleases, jobs_at};
ghost use Rattle.release_file.specs.declared.fault.ReleaseFault.TheVariants.{BadHeader, NoMemory};
ghost use Rattle.release_file.specs.ReleaseFile.{SpellsReleases, IsReleasesFault, header_version, release_rows};

use crate::ReleaseFault;
use crate::release_rows::ReleaseRows;
use crate::release_spelling::{Version, header_version};
use csv_rows::{Records, read_rows};
use slot_model::Job;
use std::alloc::Global;
use tree_model::System;

/// The version that the header of a release file tells.
fn read_header(records: &mut Records) -> Result<Version, ReleaseFault>
    requires { IsOpen records.old }
    ensures version { (text : List ℕ) → HasRead text [] records.old
        → IfOk result (λ version. (header : List (List ℕ))
        × (header_version header ≡ Some version) × HasRead text (header ∷ []) records.new) }
    ensures fault { (text : List ℕ) → HasRead text [] records.old
        → IfErr result (λ fault. (fault ≡ NoMemory)
        ⊎ ((fault ≡ BadHeader) × (release_rows (records_of text) ≡ None))) }
    ensures takes_any { OnOk result (IsOpen records.new) }
{
    let Ok(()) = records.read_header() else {
        return Err(ReleaseFault::NoMemory);
    };
    match header_version(&records.row()) {
        Some(version) => Ok(version),
        None => Err(ReleaseFault::BadHeader),
    }
}

/// The jobs that the rows of a text release, one list a part, or the first rule that the text
/// breaks, with its row. A row of version 2 also says how early its job arrived.
pub fn read_releases(
    alloc: Global,
    sys: &System,
    bytes: &[u8],
) -> Result<Vec<Vec<Job>>, ReleaseFault>
    ensures spelt { IfOk result (λ jobs.
        SpellsReleases sys.now (records_of bytes.now) (map (λ js. js.items) jobs.items)) }
    ensures legal { IfOk result (λ jobs. AreReleases sys.now (map (λ js. js.items) jobs.items)) }
    ensures few { IfOk result (λ jobs. (q : ℕ) → q < length sys.now.parts
        → length (jobs_at (map (λ js. js.items) jobs.items) q) ≤ length bytes.now) }
    ensures fault { IfErr result (λ fault. (fault ≡ NoMemory)
        ⊎ IsReleasesFault sys.now (release_rows (records_of bytes.now)) fault) }
{
    let mut records = Records::new(alloc, bytes);
    let version = match read_header(&mut records) {
        Ok(version) => version,
        Err(fault) => return Err(fault),
    };
    let Ok(mut rows) = ReleaseRows::new(alloc, sys, version) else {
        return Err(ReleaseFault::NoMemory);
    };
    if let Err(fault) = read_rows(&mut records, &mut rows) {
        return Err(fault);
    }
    match rows.finish(alloc) {
        Ok(jobs) => Ok(jobs),
        Err(_) => Err(ReleaseFault::NoMemory),
    }
}
