ghost use Rattle.std.specs.Prelude.{◌≡◌, ◌⊎◌, ◌<◌, ◌^◌, false, length, IfOk, IfErr, MatchOption};
ghost use Rattle.csv_rows.specs.Reading.{records_of};
ghost use Rattle.script_file.specs.declared.fault.ScriptFault.TheVariants.{NoMemory};
ghost use Rattle.admission_session.specs.LeafView.{LeafView};
ghost use Rattle.script_file.specs.Guests.{SpellsGuests, IsGuestFault, guest_of, is_guest, without_parent};
ghost use Rattle.script_file.specs.inner.Guests.{AddGuests, IsOther};

use crate::{ScriptFault, read_edits};
use admission_session::Edit;
use csv_rows::row_of;
use std::alloc::Global;
use tree_model::{Parent, Part};

/// Why a text spells no guests.
#[derive(Clone, Copy, Debug, PartialEq, Eq)]
pub enum GuestFault {
    /// It is no script.
    Script(ScriptFault),
    /// The first row that adds no leaf without a parent. The header is row 1.
    Other(u64),
}

/// The guests of a script whose rows all add a leaf and name no parent: leaves that stand on the
/// first core until they are placed. The whole script is read before a row is looked at.
pub fn read_guests(alloc: Global, bytes: &[u8]) -> Result<Vec<Part>, GuestFault>
    ensures spelt { IfOk result (λ guests. SpellsGuests (records_of bytes.now) guests.items) }
    ensures few { IfOk result (λ guests. length guests.items < 2 ^ 32) }
    ensures fault { IfErr result (λ fault. (fault ≡ GuestFault.Script NoMemory)
        ⊎ IsGuestFault (records_of bytes.now) fault) }
{
    match read_edits(alloc, bytes) {
        Ok(edits) => guests_of(alloc, edits),
        Err(fault) => Err(GuestFault::Script(fault)),
    }
}

/// The guest that an edit adds, where it names no parent.
fn guest_of(edit: Edit) -> Option<Part>
    ensures { MatchOption result
        (is_guest edit ≡ false)
        (λ guest. (leaf : LeafView) × (edit ≡ without_parent leaf) × (guest ≡ guest_of leaf)) }
{
    match edit {
        Edit::Add { leaf, parent: None } => Some(leaf.on(Parent::Core(0), false)),
        _ => None,
    }
}

/// The guests that edits add, or the row of the first edit that adds none.
fn guests_of(alloc: Global, edits: Vec<Edit>) -> Result<Vec<Part>, GuestFault>
    requires few { length edits.items < 2 ^ 32 }
    ensures guests { IfOk result (λ guests. AddGuests edits.items guests.items) }
    ensures fault { IfErr result (λ fault. (fault ≡ GuestFault.Script NoMemory)
        ⊎ IsOther edits.items fault) }
{
    let mut guests = Vec::new(alloc);
    let mut row = row_of(0);
    for edit in edits {
        let Some(guest) = guest_of(edit) else {
            return Err(GuestFault::Other(row));
        };
        if guests.push(guest).is_err() {
            return Err(GuestFault::Script(ScriptFault::NoMemory));
        }
        row += 1;
    }
    Ok(guests)
}
