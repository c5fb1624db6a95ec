ghost use Rattle.std.specs.Prelude.{◌≡◌, ◌<◌, ◌≤◌, ◌↔◌, ◌==◌, List, ℕ, [], ◌∷◌, ◌++◌, length, Some, IsTrue, IfOk, IfSome};
ghost use Rattle.toml_parser.specs.Lexical as lexical;
ghost use Rattle.toml.specs.Tables.{array_table};
ghost use Rattle.toml.specs.Parse.{parse_document};
ghost use Rattle.toml_items.specs.Item.{list_view, entries_view};
ghost use Rattle.toml_items.specs.Plain.{path_of, IsLine, ReadsTable, ReadsArray, BeginsWith};

use crate::entry::put_entry;
use crate::line::{after_blank, ends_here, header_at, pair_at};
use crate::{Entry, Header, Item};
use std::alloc::{AllocError, Global};
use toml_parser::text::{first, skip_blank};

/// The entries of a document, where its text is plain: pairs of a bare key and a text without
/// escapes, a whole number or a truth value, and arrays of tables, at most two in one another,
/// whose elements stand together.
pub(crate) fn plain_entries(alloc: Global, text: &str) -> Result<Option<Vec<Entry<'_>>>, AllocError>
    ensures { IfOk result (λ found. IfSome found
        (λ entries. parse_document text.now ≡ Some (entries_view entries.items))) }
{
    if is_marked(text) {
        return Ok(None);
    }
    let Some(top) = table(alloc, None, text)? else {
        return Ok(None);
    };
    if is_end(top.rest) {
        Ok(Some(top.entries))
    } else {
        Ok(None)
    }
}

/// The pairs of the top table of a plain text, and the text from the first header or the end on.
pub fn top_pairs(alloc: Global, text: &str) -> Result<Option<Body<'_>>, AllocError>
    ensures { IfOk result (λ found. IfSome found (λ top.
        BeginsWith text.now (entries_view top.entries.items) top.rest.now)) }
{
    if is_marked(text) {
        return Ok(None);
    }
    pairs(alloc, text)
}

/// Whether a byte order mark may stand at the front of a text.
fn is_marked(text: &str) -> bool
    ensures { result ≡ (lexical.first text.now == 0xEF) }
{
    first(text) == 0xEF
}

/// The header at the front of a text, if its array stands in the top table.
pub fn array_at(text: &str) -> Option<Header<'_>>
    ensures top { IfSome result (λ h. path_of h.parent ≡ []) }
    ensures line { IfSome result (λ h.
        IsLine text.now (([], h.key.now), array_table) h.rest.now) }
{
    header_in(None, text)
}

/// Whether nothing stands in a text but blank lines and comments.
pub fn is_end(text: &str) -> bool
    ensures { IsTrue result ↔ length (lexical.skip_blank text.now) ≡ 0 }
{
    skip_blank(text, true).is_empty()
}

/// The entries of a table, and the text behind them.
#[derive(Drop)]
pub struct Body<'t> {
    pub entries: Vec<Entry<'t>>,
    pub rest: &'t str,
}

/// The items of an array of tables, and the text behind them.
#[derive(Drop)]
struct Elements<'t> {
    items: Vec<Item<'t>>,
    rest: &'t str,
}

/// The top table, or an element of the array at this key there, with the arrays in it.
#[cycle(table)]
fn table<'t>(
    alloc: Global,
    key: Option<&'t str>,
    text: &'t str,
) -> Result<Option<Body<'t>>, AllocError>
    ensures reads { IfOk result (λ found. IfSome found (λ t.
        ReadsTable (path_of key.entry) text.now (entries_view t.entries.items) t.rest.now)) }
    ensures within { IfOk result (λ found. IfSome found (λ t.
        length t.rest.now ≤ length text.now)) }
{
    let Some(mut found) = pairs(alloc, text)? else {
        return Ok(None);
    };
    'arrays: while let Some(header) = header_in(key, found.rest) {
        let Some(elements) = array(alloc, header)? else {
            return Ok(None);
        };
        if !put_entry(&mut found.entries, header.key, Item::List(elements.items))? {
            return Ok(None);
        }
        found.rest = elements.rest;
    }
    Ok(Some(found))
}

/// The array of tables whose first element begins behind this header.
#[cycle(table)]
fn array<'t>(alloc: Global, header: Header<'t>) -> Result<Option<Elements<'t>>, AllocError>
    ensures reads { IfOk result (λ found. IfSome found (λ a.
        ReadsArray (path_of header.entry.parent) header.entry.key.now header.entry.rest.now
        (list_view a.items.items) a.rest.now)) }
    ensures within { IfOk result (λ found. IfSome found (λ a.
        length a.rest.now ≤ length header.entry.rest.now)) }
{
    let mut items = Vec::new(alloc);
    let mut rest = header.rest;
    'elements: loop {
        let Some(found) = element(alloc, header, rest)? else {
            return Ok(None);
        };
        items.push(Item::Table(found.entries))?;
        match header_again(header, found.rest) {
            Some(after) => rest = after,
            None => {
                return Ok(Some(Elements {
                    items,
                    rest: found.rest,
                }));
            }
        }
    }
}

/// The element at the front of a text, behind a header of its array. Two arrays deep it has no
/// array in it.
#[cycle(table)]
pub fn element<'t>(
    alloc: Global,
    header: Header<'t>,
    text: &'t str,
) -> Result<Option<Body<'t>>, AllocError>
    ensures reads { IfOk result (λ found. IfSome found (λ t.
        ReadsTable (path_of header.entry.parent ++ header.entry.key.now ∷ [])
        text.now (entries_view t.entries.items) t.rest.now)) }
    ensures within { IfOk result (λ found. IfSome found (λ t.
        length t.rest.now ≤ length text.now)) }
{
    match header.parent {
        None => table(alloc, Some(header.key), text),
        Some(_) => pairs(alloc, text),
    }
}

/// The pairs at the front of a table, up to a header or the end, and the text from there.
pub fn pairs(alloc: Global, text: &str) -> Result<Option<Body<'_>>, AllocError>
    ensures reads { IfOk result (λ found. IfSome found (λ t. (path : List (List ℕ)) →
        ReadsTable path text.now (entries_view t.entries.items) t.rest.now)) }
    ensures within { IfOk result (λ found. IfSome found (λ t.
        length t.rest.now ≤ length text.now)) }
{
    let mut entries = Vec::new(alloc);
    match pairs_into(alloc, &mut entries, text)? {
        Some(rest) => Ok(Some(Body { entries, rest })),
        None => Ok(None),
    }
}

/// The text behind these pairs, which take the place of other entries.
pub fn pairs_into<'t>(
    alloc: Global,
    entries: &mut Vec<Entry<'t>>,
    text: &'t str,
) -> Result<Option<&'t str>, AllocError>
    ensures reads { IfOk result (λ found. IfSome found (λ rest. (path : List (List ℕ)) →
        ReadsTable path text.now (entries_view entries.new.items) rest.now)) }
    ensures within { IfOk result (λ found. IfSome found (λ rest.
        length rest.now ≤ length text.now)) }
{
    entries.clear();
    let mut rest = text;
    'pairs: loop {
        let start = after_blank(rest);
        if start.is_empty() || first(start) == b'[' {
            return Ok(Some(start));
        }
        let Some(pair) = pair_at(alloc, start) else {
            return Ok(None);
        };
        if !put_entry(entries, pair.key, pair.item)? {
            return Ok(None);
        }
        rest = pair.rest;
    }
}

/// The header at the front, if its array stands in the table at this key, or without one in the
/// top table.
pub fn header_in<'t>(key: Option<&'t str>, text: &'t str) -> Option<Header<'t>>
    ensures path { IfSome result (λ h. path_of h.parent ≡ path_of key.entry) }
    ensures line { IfSome result (λ h.
        IsLine text.now ((path_of key.entry, h.key.now), array_table) h.rest.now) }
    ensures shorter { IfSome result (λ h. length h.rest.now < length text.now) }
{
    let header = header_at(after_blank(text))?;
    if is_same_path(header.parent, key) {
        Some(header)
    } else {
        None
    }
}

/// The text behind the header at the front, if it is this one again.
pub fn header_again<'t>(header: Header<'t>, text: &'t str) -> Option<&'t str>
    ensures line { IfSome result (λ rest. IsLine text.now
        ((path_of header.entry.parent, header.entry.key.now), array_table) rest.now) }
    ensures shorter { IfSome result (λ rest. length rest.now < length text.now) }
{
    let rest = after_blank(text).strip_prefix(header.spelled)?;
    if ends_here(rest) { Some(rest) } else { None }
}

/// Whether both are the top table, or at the same key.
fn is_same_path(a: Option<&str>, b: Option<&str>) -> bool
    ensures { IsTrue result → path_of a.entry ≡ path_of b.entry }
{
    match (a, b) {
        (None, None) => true,
        (Some(a), Some(b)) => a == b,
        _ => false,
    }
}
