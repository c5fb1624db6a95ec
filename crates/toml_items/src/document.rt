ghost use Rattle.std.specs.Prelude.{◌≡◌, ◌≢◌, Some, None, IfOk, IfErr};
ghost use Rattle.toml.specs.Parse.{parse_document};
ghost use Rattle.toml_items.specs.Document.{members_in};
ghost use Rattle.toml_items.specs.declared.document.DocumentFault.TheVariants.{NoMemory};

use crate::Entry;
use crate::plain::plain_entries;
use std::alloc::{AllocError, Global};
use toml::Table;

/// The document of a text, as quickly as it could be read. Which of the two it is changes nothing
/// of what it holds.
#[derive(Drop)]
pub enum Document<'t> {
    /// Its entries, whose texts stay where they are.
    Entries(Vec<Entry<'t>>),
    /// The table that the kit's `toml` made of it.
    Table(Table),
}

/// Why a text has no document.
#[derive(Clone, Copy, Debug, PartialEq, Eq)]
pub enum DocumentFault {
    /// It is no TOML document.
    NotToml,
    /// Memory ran out.
    NoMemory,
}

impl From<AllocError> for DocumentFault {
    ghost use Rattle.std.specs.Prelude.{◌≡◌};
    ghost use Rattle.toml_items.specs.declared.document.DocumentFault.TheVariants.{NoMemory};

    ghost from_gives = { λ _ made. made ≡ NoMemory };

    fn from(_error: AllocError) -> DocumentFault {
        DocumentFault::NoMemory
    }
}

/// The document that a text spells. `NoMemory` may come in place of any answer.
pub fn read_document(alloc: Global, text: &str) -> Result<Document<'_>, DocumentFault>
    ensures document { IfOk result (λ found.
        parse_document text.now ≡ Some (members_in found)) }
    ensures fault { IfErr result (λ fault. fault ≢ NoMemory → parse_document text.now ≡ None) }
{
    match plain_entries(alloc, text)? {
        Some(entries) => Ok(Document::Entries(entries)),
        None => Ok(Document::Table(table_of(alloc, text)?)),
    }
}

/// The table of its document.
fn table_of(alloc: Global, text: &str) -> Result<Table, DocumentFault>
    ensures table { IfOk result (λ table.
        parse_document text.now ≡ Some (members_in (Document.Table table))) }
    ensures fault { IfErr result (λ fault. fault ≢ NoMemory → parse_document text.now ≡ None) }
{
    match toml::table_from_str(alloc, text) {
        Ok(table) => Ok(table),
        Err(error) => {
            if error.is_memory() {
                Err(DocumentFault::NoMemory)
            } else {
                Err(DocumentFault::NotToml)
            }
        }
    }
}
