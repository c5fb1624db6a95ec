ghost use Rattle.std.specs.Prelude.{◌≡◌, IfOk};
ghost use Rattle.tree_model.specs.System.{IsSystem};
ghost use Rattle.release_file.specs.inner.ReleasesTaken.{AreEmptyLeaves};

use crate::ReleaseFault;
use crate::leaf_rows::LeafRows;
use crate::release_spelling::{Version, release_fields, release_numbers};
use csv_rows::{Row, RowRules};
use slot_model::{Job, LIMIT};
use std::alloc::{AllocError, Global};
use trace_file::{Places, part_places};
use tree_model::System;

/// The rows of a release file so far.
#[derive(Drop)]
pub struct ReleaseRows<'s> {
    sys: &'s System,
    version: Version,
    /// The places of the parts by their names.
    parts: Places<'s>,
    /// The slot of the last row.
    slot: u64,
    /// The jobs of each part.
    leaves: Vec<LeafRows<'s>>,
}

impl<'s> RowRules for ReleaseRows<'s> {
    ghost use Rattle.std.specs.Prelude.{◌≡◌};
    ghost use Rattle.release_file.specs.declared.fault.ReleaseFault.TheVariants.{NoMemory};
    ghost use Rattle.release_file.specs.ReleaseFile.{release_rules};
    ghost use Rattle.release_file.specs.inner.ReleasesTaken.{HasTakenReleases};

    type Fault = ReleaseFault;

    ghost rules = { λ t. release_rules t.sys.now t.version };

    ghost has_taken = { HasTakenReleases };

    ghost is_memory = { λ fault. fault ≡ NoMemory };

    fn take(&mut self, row: &Row, number: u64) -> Result<(), ReleaseFault> {
        let Some(fields) = release_fields(self.version, row) else {
            return Err(ReleaseFault::BadRow(number));
        };
        let Some(numbers) = release_numbers(&fields) else {
            return Err(ReleaseFault::BadRow(number));
        };
        if numbers.at > LIMIT {
            return Err(ReleaseFault::OutOfRange(number));
        }
        if numbers.at < self.slot {
            return Err(ReleaseFault::BadOrder(number));
        }
        let Some(part) = self.parts.find(fields.part) else {
            return Err(ReleaseFault::Unknown(number));
        };
        if let Err(fault) = self.leaves[part].keep(&fields, &numbers, number) {
            return Err(fault);
        }
        self.slot = numbers.at;
        Ok(())
    }

    fn no_memory(&self) -> ReleaseFault {
        ReleaseFault::NoMemory
    }
}

impl<'s> ReleaseRows<'s> {
    ghost use Rattle.std.specs.Prelude.{◌≡◌, [], IfOk, map};
    ghost use Rattle.release_file.specs.declared.fault.ReleaseFault.TheVariants.{NoMemory};
    ghost use Rattle.release_file.specs.inner.ReleasesTaken.{HasTakenReleases};

    /// Before the first row.
    pub fn new(
        alloc: Global,
        sys: &'s System,
        version: Version,
    ) -> Result<ReleaseRows<'s>, AllocError>
        ensures taken { IfOk result (λ t. HasTakenReleases t t []) }
        ensures file { IfOk result (λ t. (t.sys.now ≡ sys.now) × (t.version ≡ version)) }
    {
        let parts = part_places(alloc, sys.parts())?;
        Ok(ReleaseRows {
            sys,
            version,
            parts,
            slot: 0,
            leaves: no_jobs(alloc, sys)?,
        })
    }

    /// The jobs of each part.
    pub fn finish(self, alloc: Global) -> Result<Vec<Vec<Job>>, AllocError>
        ensures { IfOk result
            (λ jobs. jobs.items ≡ map (λ leaf. leaf.jobs) self.entry.leaves.items) }
    {
        self.leaves.into_iter().map(|leaf| leaf.jobs).collect(alloc)
    }
}

/// No jobs of any part.
fn no_jobs(alloc: Global, sys: &System) -> Result<Vec<LeafRows<'_>>, AllocError>
    ensures system { IsSystem sys.now }
    ensures none { IfOk result (λ leaves. AreEmptyLeaves sys.now leaves.items) }
{
    let mut leaves = Vec::new(alloc);
    for part in sys.parts() {
        leaves.push(LeafRows::new(alloc, part)?)?;
    }
    Ok(leaves)
}
