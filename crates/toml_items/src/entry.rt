ghost use Rattle.std.specs.Prelude.{◌≡◌, ◌≤◌, None, true, length, OnOk, IfSome};
ghost use Rattle.std.specs.List.{insert};
ghost use Rattle.std.specs.Cmp.Lexicographic.{slice_cmp};
ghost use Rattle.std.specs.Ordering.{nat_cmp};
ghost use Rattle.toml.specs.Data.{get_member};
ghost use Rattle.toml_items.specs.declared.item.Item.{Item as ItemValue};
ghost use Rattle.toml_items.specs.Item.{item_view, entries_view};
ghost use Rattle.toml_items.specs.Plain.{insert_member};

use crate::{Entry, Item};
use std::alloc::AllocError;
use std::cmp::Ordering;
use toml_parser::text::first;

/// The most keys of a table that is read from a plain text: each new key is compared with all.
const MOST: usize = 64;

/// Puts a key that is new with its item at its place. It says whether it did: not where the key is
/// there already, and not where the table has the most keys.
pub(crate) fn put_entry<'t>(
    entries: &mut Vec<Entry<'t>>,
    key: &'t str,
    item: Item<'t>,
) -> Result<bool, AllocError>
    ensures new { OnOk result (result ≡ Ok true →
        get_member key.now (entries_view entries.old.items) ≡ None) }
    ensures put { OnOk result (result ≡ Ok true → entries_view entries.new.items
        ≡ insert_member key.now (item_view item.entry) (entries_view entries.old.items)) }
{
    if entries.len() >= MOST {
        return Ok(false);
    }
    match place_of(entries, key) {
        Some(place) => {
            insert_at(entries, place, (key, item))?;
            Ok(true)
        }
        None => Ok(false),
    }
}

/// Puts an entry at a place, which mostly is behind all others.
#[inline]
#[tactic(auto, using(std::proofs::lemmas::List::Edits::insert_end))]
fn insert_at<'t>(
    entries: &mut Vec<Entry<'t>>,
    place: usize,
    entry: Entry<'t>,
) -> Result<(), AllocError>
    requires { place ≤ length entries.old.items }
    ensures { OnOk result (entries.new.items ≡ insert entries.old.items place entry.entry) }
{
    if place == entries.len() {
        entries.push(entry)?;
    } else {
        entries.insert(place, entry)?;
    }
    Ok(())
}

/// The place of a key that is new: in front of the first key that is greater.
fn place_of(entries: &[Entry<'_>], key: &str) -> Option<usize>
    ensures new { IfSome result (λ _. get_member key.now (entries_view entries.now) ≡ None) }
    ensures within { IfSome result (λ place. place ≤ length entries.now) }
    ensures place { IfSome result (λ place. (item : ItemValue) →
        insert_member key.now (item_view item) (entries_view entries.now)
        ≡ entries_view (insert entries.now place (key.entry, item))) }
{
    let mut place = entries.len();
    let mut at = entries.len();
    'entries: while at > 0 {
        at -= 1;
        match key_order(key, entries[at].0) {
            Ordering::Less => place = at,
            Ordering::Equal => return None,
            Ordering::Greater => {}
        }
    }
    Some(place)
}

/// Which of two keys comes first in the order of their bytes. Mostly the first bytes tell it.
#[inline]
#[tactic(auto, using(crate::proofs::Entries::less_first, crate::proofs::Entries::greater_first))]
fn key_order(a: &str, b: &str) -> Ordering
    ensures { result ≡ slice_cmp nat_cmp a.now b.now }
{
    if first(a) < first(b) {
        Ordering::Less
    } else if first(b) < first(a) {
        Ordering::Greater
    } else {
        a.cmp(b)
    }
}
