ghost use Rattle.std.specs.Prelude.{◌≡◌, ℕ, ◌≤◌, pos, true, false, List, [], length, map, codes, bytes_eq, Option, Some, None, option_map, unwrap_or, IfOk, IfErr, IsOkAnd};
ghost use Rattle.toml.specs.Data.{string, integer, array, table, get_member, as_table, as_array};
ghost use Rattle.toml_items.specs.Item.{item_view, list_view, entries_view};
ghost use Rattle.tree_model.specs.System.{IsGivenBudget};
ghost use Rattle.tree_model.specs.Lists.{first_of};
ghost use Rattle.std.specs.List.{list_any, list_all};
ghost use Rattle.system_file.specs.declared.fault.Spot.{Spot};
ghost use Rattle.system_file.specs.declared.fault.SystemFault.{SystemFault};
ghost use Rattle.system_file.specs.Document.{format_at as format_in, number_of as number_in, given_number, flag_of, sched_named, text_of, array_of as elements};
ghost use Rattle.system_file.specs.Faults.{required, optional, text_faults, sched_faults, range_faults, below_faults, format_faults, flag_faults, array_faults, core_array_faults, has_only};

use crate::format::Format;
use crate::{Spot, SystemFault};
use slot_model::Sched;
use toml_items::{Entry, Item};
use tree_model::MAX_CORES;

/// The value at a key.
pub fn find<'e, 't>(table: &'e [Entry<'t>], key: &str) -> Option<&'e Item<'t>>
    ensures { option_map (λ v. item_view v.now) result
        ≡ get_member key.now (entries_view table.now) }
{
    for (name, item) in table {
        if key == *name {
            return Some(item);
        }
    }
    None
}

/// The value at a key that has to be there.
pub fn value_at<'e, 't>(
    table: &'e [Entry<'t>],
    key: &str,
    spot: Spot,
) -> Result<&'e Item<'t>, SystemFault>
    ensures ok { IfOk result (λ v.
        get_member key.now (entries_view table.now) ≡ Some (item_view v.now)) }
    ensures fault { IfErr result (λ fault. (get_member key.now (entries_view table.now) ≡ None)
        × (fault ≡ SystemFault.MissingKey spot)) }
{
    match find(table, key) {
        Some(value) => Ok(value),
        None => Err(SystemFault::MissingKey(spot)),
    }
}

/// The table that a value has to be.
pub fn table_of<'e, 't>(value: &'e Item<'t>, spot: Spot) -> Result<&'e [Entry<'t>], SystemFault>
    ensures ok { IfOk result (λ t. item_view value.now ≡ table (entries_view t.now)) }
    ensures fault { IfErr result (λ fault. (fault ≡ SystemFault.WrongKind spot)
        × (as_table (item_view value.now) ≡ None)) }
{
    match value {
        Item::Table(entries) => Ok(entries.as_slice()),
        _ => Err(SystemFault::WrongKind(spot)),
    }
}

/// The text at a key that has to be there.
pub fn text_at<'t>(table: &[Entry<'t>], key: &str, spot: Spot) -> Result<&'t str, SystemFault>
    ensures ok { IfOk result (λ s.
        get_member key.now (entries_view table.now) ≡ Some (string s.now)) }
    ensures fault { IfErr result (λ fault. (at_text : List ℕ → List SystemFault) →
        first_of
        (required spot (text_faults spot at_text) (get_member key.now (entries_view table.now)))
        ≡ Some fault) }
{
    match value_at(table, key, spot)? {
        Item::Text(text) => Ok(*text),
        _ => Err(SystemFault::WrongKind(spot)),
    }
}

/// The scheduler that a text names.
fn sched_of(text: &str, spot: Spot) -> Result<Sched, SystemFault>
    ensures ok { IfOk result (λ sched. (sched_faults spot text.now ≡ [])
        × (sched_named text.now ≡ Some sched)) }
    ensures fault { IfErr result (λ fault. first_of (sched_faults spot text.now) ≡ Some fault) }
{
    if text == "edf" {
        Ok(Sched::Edf)
    } else if text == "rm" {
        Ok(Sched::Rm)
    } else if text == "dm" {
        Ok(Sched::Dm)
    } else if text == "listed" {
        Ok(Sched::Listed)
    } else {
        Err(SystemFault::OutOfRange(spot))
    }
}

/// The scheduler that is named at a table's key.
pub fn sched_at(table: &[Entry<'_>], spot: Spot) -> Result<Sched, SystemFault>
    ensures ok { IfOk result (λ sched.
        let at = get_member (codes "sched") (entries_view table.now) in
        (required spot (text_faults spot (sched_faults spot)) at ≡ [])
        × (sched ≡ unwrap_or (sched_named (text_of at)) Sched.Edf)) }
    ensures fault { IfErr result (λ fault.
        let at = get_member (codes "sched") (entries_view table.now) in
        first_of (required spot (text_faults spot (sched_faults spot)) at) ≡ Some fault) }
{
    let text = text_at(table, "sched", spot)?;
    sched_of(text, spot)
}

/// The whole number from 1 to the highest that a value has to be.
pub fn number_of(value: &Item<'_>, highest: u64, spot: Spot) -> Result<u64, SystemFault>
    ensures ok { IfOk result (λ n. (range_faults spot highest (item_view value.now) ≡ [])
        × (item_view value.now ≡ integer (pos n)) × (1 ≤ n) × (n ≤ highest)) }
    ensures fault { IfErr result (λ fault.
        first_of (range_faults spot highest (item_view value.now)) ≡ Some fault) }
{
    match value {
        Item::Number(n) => ranged(*n, highest, spot),
        _ => Err(SystemFault::WrongKind(spot)),
    }
}

fn ranged(n: i64, highest: u64, spot: Spot) -> Result<u64, SystemFault>
    ensures ok { IfOk result (λ m. (range_faults spot highest (integer n) ≡ []) × (n ≡ pos m)
        × (1 ≤ m) × (m ≤ highest)) }
    ensures fault { IfErr result (λ fault.
        first_of (range_faults spot highest (integer n)) ≡ Some fault) }
{
    if 1 <= n && n as u64 <= highest {
        Ok(n as u64)
    } else {
        Err(SystemFault::OutOfRange(spot))
    }
}

/// The number at a key that has to be there.
pub fn number_at(
    table: &[Entry<'_>],
    key: &str,
    highest: u64,
    spot: Spot,
) -> Result<u64, SystemFault>
    ensures ok { IfOk result (λ n.
        (required spot (range_faults spot highest) (get_member key.now (entries_view table.now))
        ≡ [])
        × (get_member key.now (entries_view table.now) ≡ Some (integer (pos n))) × (1 ≤ n)
        × (n ≤ highest)) }
    ensures fault { IfErr result (λ fault.
        first_of
        (required spot (range_faults spot highest) (get_member key.now (entries_view table.now)))
        ≡ Some fault) }
{
    number_of(value_at(table, key, spot)?, highest, spot)
}

/// The number at a key that may be left out.
pub fn given_number_at(
    table: &[Entry<'_>],
    key: &str,
    highest: u64,
    spot: Spot,
) -> Result<Option<u64>, SystemFault>
    ensures ok { IfOk result (λ n.
        (optional (range_faults spot highest) (get_member key.now (entries_view table.now)) ≡ [])
        × (n ≡ given_number (get_member key.now (entries_view table.now)))
        × IsGivenBudget highest n) }
    ensures fault { IfErr result (λ fault.
        first_of
        (optional (range_faults spot highest) (get_member key.now (entries_view table.now)))
        ≡ Some fault) }
{
    match find(table, key) {
        Some(value) => Ok(Some(number_of(value, highest, spot)?)),
        None => Ok(None),
    }
}

/// The number from 0 on and below a bound at a key that may be left out, and is then 0.
pub fn below_at(table: &[Entry<'_>], key: &str, bound: u64, spot: Spot) -> Result<u64, SystemFault>
    ensures ok { IfOk result (λ n. let at = get_member key.now (entries_view table.now) in
        (optional (below_faults spot bound) at ≡ []) × (n ≡ number_in at)) }
    ensures fault { IfErr result (λ fault. let at = get_member key.now (entries_view table.now) in
        first_of (optional (below_faults spot bound) at) ≡ Some fault) }
{
    match find(table, key) {
        Some(Item::Number(n)) => below(*n, bound, spot),
        Some(_) => Err(SystemFault::WrongKind(spot)),
        None => Ok(0),
    }
}

fn below(n: i64, bound: u64, spot: Spot) -> Result<u64, SystemFault>
    ensures ok { IfOk result (λ m. (below_faults spot bound (integer n) ≡ []) × (n ≡ pos m)) }
    ensures fault { IfErr result (λ fault.
        first_of (below_faults spot bound (integer n)) ≡ Some fault) }
{
    if 0 <= n && (n as u64) < bound {
        Ok(n as u64)
    } else {
        Err(SystemFault::OutOfRange(spot))
    }
}

/// The truth value at a key that may be left out, and is then false.
pub fn flag_at(table: &[Entry<'_>], key: &str, spot: Spot) -> Result<bool, SystemFault>
    ensures ok { IfOk result (λ flag.
        (optional (flag_faults spot) (get_member key.now (entries_view table.now)) ≡ [])
        × (flag ≡ flag_of (get_member key.now (entries_view table.now)))) }
    ensures fault { IfErr result (λ fault.
        first_of (optional (flag_faults spot) (get_member key.now (entries_view table.now)))
        ≡ Some fault) }
{
    match find(table, key) {
        Some(Item::Flag(flag)) => Ok(*flag),
        Some(_) => Err(SystemFault::WrongKind(spot)),
        None => Ok(false),
    }
}

/// The elements of the array that a value has to be.
pub fn array_of<'e, 't>(value: &'e Item<'t>, spot: Spot) -> Result<&'e [Item<'t>], SystemFault>
    ensures ok { IfOk result (λ xs. item_view value.now ≡ array (list_view xs.now)) }
    ensures fault { IfErr result (λ fault. (fault ≡ SystemFault.WrongKind spot)
        × (as_array (item_view value.now) ≡ None)) }
{
    match value {
        Item::List(elements) => Ok(elements.as_slice()),
        _ => Err(SystemFault::WrongKind(spot)),
    }
}

#[tactic(auto, using(crate::proofs::Elements::elements_view, tree_model::proofs::Lists::length_map))]
/// The elements of an array, at most so many.
pub fn few_of<'e, 't>(
    value: &'e Item<'t>,
    most: usize,
    spot: Spot,
) -> Result<&'e [Item<'t>], SystemFault>
    ensures ok { IfOk result (λ xs. (array_faults spot most (item_view value.now) ≡ [])
        × (map item_view xs.now ≡ elements (Some (item_view value.now))) × (length xs.now ≤ most)) }
    ensures fault { IfErr result (λ fault.
        first_of (array_faults spot most (item_view value.now)) ≡ Some fault) }
{
    let elements = array_of(value, spot)?;
    if elements.len() > most {
        return Err(SystemFault::TooMany(spot));
    }
    Ok(elements)
}

/// The elements of an array that is left out.
fn no_elements<'e, 't>() -> Result<&'e [Item<'t>], SystemFault>
    ensures { IsOkAnd result (λ xs. xs.now ≡ []) }
{
    Ok(&[])
}

/// The elements at a key that may be left out, at most so many.
pub fn elements_at<'e, 't>(
    table: &'e [Entry<'t>],
    key: &str,
    most: usize,
    spot: Spot,
) -> Result<&'e [Item<'t>], SystemFault>
    ensures ok { IfOk result (λ xs.
        (optional (array_faults spot most) (get_member key.now (entries_view table.now)) ≡ [])
        × (map item_view xs.now ≡ elements (get_member key.now (entries_view table.now)))
        × (length xs.now ≤ most)) }
    ensures fault { IfErr result (λ fault.
        first_of (optional (array_faults spot most) (get_member key.now (entries_view table.now)))
        ≡ Some fault) }
{
    match find(table, key) {
        Some(value) => few_of(value, most, spot),
        None => no_elements(),
    }
}

#[tactic(auto, using(crate::proofs::Elements::elements_view, tree_model::proofs::Lists::length_map))]
/// The cores of the top table: 1 to 64.
pub fn cores_at<'e, 't>(table: &'e [Entry<'t>]) -> Result<&'e [Item<'t>], SystemFault>
    ensures ok { IfOk result (λ xs.
        let at = get_member (codes "core") (entries_view table.now) in
        (required Spot.Top core_array_faults at ≡ []) × (map item_view xs.now ≡ elements at)
        × (length xs.now ≤ 64)) }
    ensures fault { IfErr result (λ fault.
        let at = get_member (codes "core") (entries_view table.now) in
        first_of (required Spot.Top core_array_faults at) ≡ Some fault) }
{
    let elements = array_of(value_at(table, "core", Spot::Top)?, Spot::Top)?;
    if elements.is_empty() {
        return Err(SystemFault::Empty(Spot::Top));
    }
    if elements.len() > MAX_CORES {
        return Err(SystemFault::TooMany(Spot::Top));
    }
    Ok(elements)
}

/// The format of the file.
pub fn format_at(table: &[Entry<'_>]) -> Result<Format, SystemFault>
    ensures ok { IfOk result (λ format.
        let at = get_member (codes "format") (entries_view table.now) in
        (required Spot.Top format_faults at ≡ []) × (format ≡ format_in at)) }
    ensures fault { IfErr result (λ fault.
        let at = get_member (codes "format") (entries_view table.now) in
        first_of (required Spot.Top format_faults at) ≡ Some fault) }
{
    match value_at(table, "format", Spot::Top)? {
        Item::Number(1) => Ok(Format::One),
        Item::Number(2) => Ok(Format::Two),
        Item::Number(_) => Err(SystemFault::OutOfRange(Spot::Top)),
        _ => Err(SystemFault::WrongKind(Spot::Top)),
    }
}

#[tactic(auto, using(crate::proofs::Elements::only_listed))]
/// Every key of a table has to be listed.
pub fn check_keys(table: &[Entry<'_>], listed: &[&str], spot: Spot) -> Result<(), SystemFault>
    ensures ok { IfOk result (λ _.
        has_only (map (λ key. key.now) listed.now) (entries_view table.now) ≡ true) }
    ensures fault { IfErr result (λ fault.
        (has_only (map (λ key. key.now) listed.now) (entries_view table.now) ≡ false)
        × (fault ≡ SystemFault.UnknownKey spot)) }
{
    if all_listed(table, listed) {
        Ok(())
    } else {
        Err(SystemFault::UnknownKey(spot))
    }
}

fn all_listed(table: &[Entry<'_>], listed: &[&str]) -> bool
    ensures { result ≡ list_all (λ e.
        list_any (λ l. bytes_eq e.0.now l.now) listed.now) table.now }
{
    table.iter().all(|entry| is_listed(entry.0, listed))
}

fn is_listed(key: &str, listed: &[&str]) -> bool
    ensures { result ≡ list_any (λ k. bytes_eq key.now k.now) listed.now }
{
    listed.iter().any(|k| key == *k)
}
