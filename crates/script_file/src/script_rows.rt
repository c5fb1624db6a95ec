ghost use Rattle.std.specs.Prelude.{◌≡◌};

use crate::ScriptFault;
use crate::spelling::spell_edit;
use admission_session::Edit;
use csv_rows::{Row, RowRules};
use std::alloc::Global;

/// The edits of the rows of a script so far.
#[derive(Drop)]
pub struct ScriptRows {
    alloc: Global,
    edits: Vec<Edit>,
}

impl RowRules for ScriptRows {
    ghost use Rattle.std.specs.Prelude.{◌≡◌};
    ghost use Rattle.script_file.specs.declared.fault.ScriptFault.TheVariants.{NoMemory};
    ghost use Rattle.script_file.specs.Script.{script_rules};
    ghost use Rattle.script_file.specs.inner.Taken.{HasTakenRows};

    type Fault = ScriptFault;

    ghost rules = { λ t. script_rules };

    ghost has_taken = { HasTakenRows };

    ghost is_memory = { λ fault. fault ≡ NoMemory };

    fn take(&mut self, row: &Row, number: u64) -> Result<(), ScriptFault> {
        match spell_edit(self.alloc, row) {
            Ok(Some(edit)) => self.keep(edit),
            Ok(None) => Err(ScriptFault::BadRow(number)),
            Err(_) => Err(ScriptFault::NoMemory),
        }
    }

    fn no_memory(&self) -> ScriptFault {
        ScriptFault::NoMemory
    }
}

impl ScriptRows {
    ghost use Rattle.std.specs.Prelude.{◌≡◌, ◌<◌, ◌^◌, ◌∷◌, ◌++◌, [], length, OnOk, IfErr};
    ghost use Rattle.script_file.specs.declared.fault.ScriptFault.TheVariants.{NoMemory};
    ghost use Rattle.script_file.specs.inner.Taken.{HasTakenRows};

    /// Before the first row.
    pub fn new(alloc: Global) -> ScriptRows
        ensures { HasTakenRows result result [] }
    {
        ScriptRows {
            alloc,
            edits: Vec::new(alloc),
        }
    }

    /// The edits of the rows that were taken.
    pub fn finish(self) -> Vec<Edit>
        ensures { result.items ≡ self.edits.items }
    {
        self.edits
    }

    /// Keeps an edit. So many that a place has no 32 bits are as good as want of memory.
    fn keep(&mut self, edit: Edit) -> Result<(), ScriptFault>
        ensures edits { OnOk result (self.new.edits.items ≡ self.old.edits.items ++ edit ∷ []) }
        ensures few { OnOk result (length self.new.edits.items < 2 ^ 32) }
        ensures memory { IfErr result (λ fault. fault ≡ NoMemory) }
    {
        if self.edits.len() >= u32::MAX as usize || self.edits.push(edit).is_err() {
            return Err(ScriptFault::NoMemory);
        }
        Ok(())
    }
}
