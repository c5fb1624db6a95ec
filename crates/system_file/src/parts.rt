ghost use Rattle.std.specs.Prelude.{◌≡◌, ◌≢◌, ℕ, ◌≤◌, ◌<◌, ◌+◌, List, [], ◌∷◌, ◌++◌, true, false, length, map, slice_index_or, codes, Some, IfOk, IfErr, OnOk, MatchOption};
ghost use Rattle.slot_model.specs.declared.task.TheConstants.{LIMIT};
ghost use Rattle.toml.specs.Data.{Data, table as toml_table, get};
ghost use Rattle.toml_items.specs.Item.{item_view, entries_view};
ghost use Rattle.tree_model.specs.System.{IsGivenBudget};
ghost use Rattle.tree_model.specs.Lists.{first_of};
ghost use Rattle.system_file.specs.declared.fault.SystemFault.TheVariants.{NoMemory};
ghost use Rattle.system_file.specs.Document.{flag_of, given_number, number_of, parent_at as parent_in, parent_named, sched_at as sched_in, spelled_part, tasks_of};
ghost use Rattle.system_file.specs.Faults.{in_order, parent_faults, part_faults, required, server_faults, text_faults};
ghost use Rattle.system_file.specs.inner.Reading.{HaveNames, Known, has_child, is_empty_part, part_in, ParentsAmong, placed_faults};

use crate::format::Format;
use crate::keys::{
    check_keys, elements_at, flag_at, given_number_at, number_at, sched_at, table_of, text_at,
};
use crate::names::{Names, name_at};
use crate::tasks::read_tasks;
use crate::{Spot, SystemFault};
use slot_model::{LIMIT, Sched};
use std::alloc::{AllocError, Global};
use toml_items::{Entry, Item};
use tree_model::{Parent, Part};

/// The core or the earlier part without tasks that a text names. Behind their names stands the
/// part's own, which names no parent.
fn parent_of(
    text: &str,
    names: &Names,
    cores: usize,
    earlier: &[Part],
    spot: Spot,
) -> Result<Parent, SystemFault>
    requires few_cores { cores ≤ 64 }
    requires few_parts { length earlier.now < 512 }
    requires names { length names.now ≡ cores + (length earlier.now + 1) }
    ensures ok { IfOk result (λ parent. (core_elements before later : List Data) →
        (known : List (List ℕ)) (own : List ℕ) → names.now ≡ known ++ own ∷ [] →
        Known core_elements before later cores known earlier.now →
        (parent_faults spot core_elements before text.now ≡ [])
        × (parent_named core_elements before text.now ≡ Some parent)) }
    ensures fault { IfErr result (λ fault. (core_elements before later : List Data) →
        (known : List (List ℕ)) (own : List ℕ) → names.now ≡ known ++ own ∷ [] →
        Known core_elements before later cores known earlier.now →
        first_of (parent_faults spot core_elements before text.now) ≡ Some fault) }
{
    match names.find_before_last(text) {
        Some(place) => {
            if place < cores {
                return Ok(Parent::Core(place as u32));
            }
            let part = place - cores;
            if earlier[part].is_leaf() {
                return Err(SystemFault::Mixed(spot));
            }
            Ok(Parent::Part(part as u32))
        }
        None => Err(SystemFault::NoSuchParent(spot)),
    }
}

/// The core or the earlier part that a part names as its parent.
fn parent_at(
    table: &[Entry<'_>],
    names: &Names,
    cores: usize,
    earlier: &[Part],
    spot: Spot,
) -> Result<Parent, SystemFault>
    requires few_cores { cores ≤ 64 }
    requires few_parts { length earlier.now < 512 }
    requires names { length names.now ≡ cores + (length earlier.now + 1) }
    ensures ok { IfOk result (λ parent. (core_elements before later : List Data) →
        (known : List (List ℕ)) (own : List ℕ) → names.now ≡ known ++ own ∷ [] →
        Known core_elements before later cores known earlier.now →
        let d = toml_table (entries_view table.now) in let at = get (codes "parent") d in
        (required spot (text_faults spot (parent_faults spot core_elements before)) at ≡ [])
        × (parent ≡ parent_in core_elements (before ++ later) d)) }
    ensures fault { IfErr result (λ fault. (core_elements before later : List Data) →
        (known : List (List ℕ)) (own : List ℕ) → names.now ≡ known ++ own ∷ [] →
        Known core_elements before later cores known earlier.now →
        let at = get (codes "parent") (toml_table (entries_view table.now)) in
        first_of (required spot (text_faults spot (parent_faults spot core_elements before)) at)
        ≡ Some fault) }
{
    let text = text_at(table, "parent", spot)?;
    parent_of(text, names, cores, earlier, spot)
}

/// How a part is served, and the values of its tasks.
#[derive(Clone, Copy)]
struct Served<'e, 't> {
    period: u64,
    budget: Option<u64>,
    extra: bool,
    tasks: &'e [Item<'t>],
}

/// What the keys of a part say of its server, and its tasks.
fn served_at<'e, 't>(table: &'e [Entry<'t>], spot: Spot) -> Result<Served<'e, 't>, SystemFault>
    ensures ok { IfOk result (λ served. let d = toml_table (entries_view table.now) in
        (server_faults spot d ≡ []) × (served.period ≡ number_of (get (codes "period") d))
        × (served.budget ≡ given_number (get (codes "budget") d))
        × (served.extra ≡ flag_of (get (codes "extra") d))
        × (map item_view served.tasks.now ≡ tasks_of d)) }
    ensures range { IfOk result (λ served. (1 ≤ served.period) × (served.period ≤ LIMIT)
        × IsGivenBudget served.period served.budget × (length served.tasks.now ≤ 256)) }
    ensures fault { IfErr result (λ fault.
        first_of (server_faults spot (toml_table (entries_view table.now))) ≡ Some fault) }
{
    let period = number_at(table, "period", LIMIT, spot)?;
    let budget = given_number_at(table, "budget", period, spot)?;
    let extra = flag_at(table, "extra", spot)?;
    let tasks = elements_at(table, "task", 256, spot)?;
    Ok(Served {
        period,
        budget,
        extra,
        tasks,
    })
}

/// Where a part stands, and how it is served.
#[derive(Clone, Copy)]
struct Placed<'e, 't> {
    parent: Parent,
    sched: Sched,
    served: Served<'e, 't>,
}

/// What the keys of a part say but its name, which stands behind those of the cores and the parts
/// before it.
fn placed_at<'e, 't>(
    table: &'e [Entry<'t>],
    names: &Names,
    cores: usize,
    earlier: &[Part],
    spot: Spot,
) -> Result<Placed<'e, 't>, SystemFault>
    requires few_cores { cores ≤ 64 }
    requires few_parts { length earlier.now < 512 }
    requires names { length names.now ≡ cores + (length earlier.now + 1) }
    ensures parent { IfOk result (λ placed. (core_elements before later : List Data) →
        (known : List (List ℕ)) (own : List ℕ) → names.now ≡ known ++ own ∷ [] →
        Known core_elements before later cores known earlier.now →
        let d = toml_table (entries_view table.now) in
        (placed_faults spot core_elements before d ≡ [])
        × (placed.parent ≡ parent_in core_elements (before ++ later) d)) }
    ensures sched { IfOk result (λ placed.
        placed.sched ≡ sched_in (toml_table (entries_view table.now))) }
    ensures served { IfOk result (λ placed. let d = toml_table (entries_view table.now) in
        (placed.served.period ≡ number_of (get (codes "period") d))
        × (placed.served.budget ≡ given_number (get (codes "budget") d))
        × (placed.served.extra ≡ flag_of (get (codes "extra") d))
        × (map item_view placed.served.tasks.now ≡ tasks_of d)) }
    ensures range { IfOk result (λ placed.
        (1 ≤ placed.served.period) × (placed.served.period ≤ LIMIT)
        × IsGivenBudget placed.served.period placed.served.budget
        × (length placed.served.tasks.now ≤ 256)) }
    ensures fault { IfErr result (λ fault. (core_elements before later : List Data) →
        (known : List (List ℕ)) (own : List ℕ) → names.now ≡ known ++ own ∷ [] →
        Known core_elements before later cores known earlier.now →
        first_of (placed_faults spot core_elements before (toml_table (entries_view table.now)))
        ≡ Some fault) }
{
    let parent = parent_at(table, names, cores, earlier, spot)?;
    let sched = sched_at(table, spot)?;
    let served = served_at(table, spot)?;
    Ok(Placed {
        parent,
        sched,
        served,
    })
}

/// A part, whose name is put behind the names of the cores and the parts before it. `tasks` is a
/// set for the names of its tasks.
fn read_part<'t>(
    alloc: Global,
    value: &Item<'t>,
    format: Format,
    cores: usize,
    earlier: &[Part],
    names: &mut Names<'t>,
    tasks: &mut Names<'t>,
) -> Result<Part, SystemFault>
    requires few_cores { cores ≤ 64 }
    requires few_parts { length earlier.now < 512 }
    requires names { length names.old ≡ cores + length earlier.now }
    ensures named { OnOk result (length names.new ≡ length names.old + 1) }
    ensures ok { IfOk result (λ part.
        (core_elements before later : List Data) →
        Known core_elements before (item_view value.now ∷ later) cores names.old earlier.now →
        (part_faults format core_elements before (item_view value.now) ≡ [])
        × (part ≡ spelled_part core_elements (before ++ item_view value.now ∷ later)
        (item_view value.now))
        × HaveNames (core_elements ++ (before ++ item_view value.now ∷ [])) names.new) }
    ensures fault { IfErr result (λ fault. fault ≢ NoMemory →
        (core_elements before later : List Data) →
        Known core_elements before (item_view value.now ∷ later) cores names.old earlier.now →
        first_of (part_faults format core_elements before (item_view value.now)) ≡ Some fault) }
{
    let table = table_of(value, Spot::Part(earlier.len() as u32))?;
    part_of(alloc, table, format, cores, earlier, names, tasks)
}

/// The part of a table, whose name is put behind the names of the cores and the parts before it.
/// `tasks` is a set for the names of its tasks.
pub fn part_of<'t>(
    alloc: Global,
    table: &[Entry<'t>],
    format: Format,
    cores: usize,
    earlier: &[Part],
    names: &mut Names<'t>,
    tasks: &mut Names<'t>,
) -> Result<Part, SystemFault>
    requires few_cores { cores ≤ 64 }
    requires few_parts { length earlier.now < 512 }
    requires names { length names.old ≡ cores + length earlier.now }
    ensures named { OnOk result (length names.new ≡ length names.old + 1) }
    ensures ok { IfOk result (λ part. (core_elements before later : List Data) →
        let d = toml_table (entries_view table.now) in
        Known core_elements before (d ∷ later) cores names.old earlier.now →
        (part_faults format core_elements before d ≡ [])
        × (part ≡ spelled_part core_elements (before ++ d ∷ later) d)
        × HaveNames (core_elements ++ (before ++ d ∷ [])) names.new) }
    ensures fault { IfErr result (λ fault. fault ≢ NoMemory →
        (core_elements before later : List Data) →
        let d = toml_table (entries_view table.now) in
        Known core_elements before (d ∷ later) cores names.old earlier.now →
        first_of (part_faults format core_elements before d) ≡ Some fault) }
{
    let place = earlier.len() as u32;
    let spot = Spot::Part(place);
    check_keys(
        table,
        &[
            "name", "parent", "sched", "period", "budget", "extra", "task",
        ],
        spot,
    )?;
    let name = name_at(alloc, table, names, spot)?;
    let placed = placed_at(table, names, cores, earlier, spot)?;
    let served = placed.served;
    let tasks = read_tasks(alloc, served.tasks, format, place, tasks)?;
    Ok(Part {
        name,
        parent: placed.parent,
        sched: placed.sched,
        period: served.period,
        budget: served.budget,
        extra: served.extra,
        tasks,
    })
}

/// The parts of the file, over the names of its cores.
pub fn read_parts<'t>(
    alloc: Global,
    values: &[Item<'t>],
    format: Format,
    cores: usize,
    names: &mut Names<'t>,
) -> Result<Vec<Part>, SystemFault>
    requires few_cores { cores ≤ 64 }
    requires few_parts { length values.now ≤ 512 }
    requires names { length names.old ≡ cores }
    ensures ok { IfOk result (λ parts. (core_elements : List Data) →
        length core_elements ≡ cores → HaveNames core_elements names.old →
        let elements = map item_view values.now in
        (in_order (part_faults format core_elements) [] elements ≡ [])
        × (parts.items ≡ map (spelled_part core_elements elements) elements)) }
    ensures fault { IfErr result (λ fault. fault ≢ NoMemory → (core_elements : List Data) →
        length core_elements ≡ cores → HaveNames core_elements names.old →
        let elements = map item_view values.now in
        first_of (in_order (part_faults format core_elements) [] elements) ≡ Some fault) }
{
    let mut parts = Vec::with_capacity(alloc, values.len())?;
    let mut tasks = Names::new(alloc);
    for value in values {
        let part = read_part(alloc, value, format, cores, &parts, names, &mut tasks)?;
        parts.push(part)?;
    }
    Ok(parts)
}

/// Which parts are the parent of a part.
fn parents(alloc: Global, parts: &[Part]) -> Result<Vec<bool>, AllocError>
    requires among { ParentsAmong parts.now }
    ensures long { IfOk result (λ marks. length marks.items ≡ length parts.now) }
    ensures marks { IfOk result (λ marks. (q : ℕ) → q < length parts.now →
        slice_index_or marks.items q false ≡ has_child parts.now q) }
{
    let mut marks = vec![in alloc; false; parts.len()]?;
    for part in parts {
        if let Parent::Part(place) = part.parent {
            marks[place as usize] = true;
        }
    }
    Ok(marks)
}

/// The first part with neither tasks nor children.
pub fn first_empty(alloc: Global, parts: &[Part]) -> Result<Option<usize>, AllocError>
    requires among { ParentsAmong parts.now }
    ensures found { IfOk result (λ found. MatchOption found
        ((q : ℕ) → q < length parts.now → is_empty_part parts.now q (part_in parts.now q) ≡ false)
        (λ at. (at < length parts.now) × (is_empty_part parts.now at (part_in parts.now at) ≡ true)
        × ((q : ℕ) → q < at → is_empty_part parts.now q (part_in parts.now q) ≡ false))) }
{
    let marks = parents(alloc, parts)?;
    for (place, part) in parts.iter().enumerate() {
        if part.tasks.is_empty() && !marks[place] {
            return Ok(Some(place));
        }
    }
    Ok(None)
}
