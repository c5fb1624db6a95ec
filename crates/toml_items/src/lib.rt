//! A TOML document as items whose texts stay where they are: of a table of the kit's `toml`, and of
//! a text that is plain, without one.
#![tactic(auto)]

mod document;
mod entry;
mod header;
mod item;
mod keyed;
mod line;
mod number;
mod plain;
mod table;

pub use document::{Document, DocumentFault, read_document};
pub use header::Header;
pub use item::{Entry, Item};
pub use keyed::{NumberLine, TextLine, number_line, text_line};
pub use line::after_blank;
pub use plain::{
    Body, array_at, element, header_again, header_in, is_end, pairs, pairs_into, top_pairs,
};
pub use table::table_entries;
