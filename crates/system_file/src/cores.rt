ghost use Rattle.std.specs.Prelude.{◌≡◌, ◌≢◌, ◌≤◌, List, [], ◌∷◌, ◌++◌, length, map, codes, IfOk, IfErr};
ghost use Rattle.toml.specs.Data.{Data, get_member, table as toml_table};
ghost use Rattle.toml_items.specs.Item.{item_view, entries_view};
ghost use Rattle.tree_model.specs.Lists.{first_of};
ghost use Rattle.system_file.specs.declared.fault.SystemFault.TheVariants.{NoMemory};
ghost use Rattle.system_file.specs.Document.{spelled_core, supply_of};
ghost use Rattle.system_file.specs.Faults.{supply_faults, core_keys, core_key_faults, core_faults, table_faults, in_order};
ghost use Rattle.system_file.specs.inner.Reading.{HaveNames};

use crate::keys::{check_keys, find, number_at, number_of, sched_at, table_of};
use crate::names::{Names, name_at};
use crate::{Spot, SystemFault};
use slot_model::LIMIT;
use std::alloc::Global;
use toml_items::{Entry, Item};
use tree_model::Core;

/// The supply of a core: both keys or neither.
fn supply_at(table: &[Entry<'_>], spot: Spot) -> Result<Option<(u64, u64)>, SystemFault>
    ensures ok { IfOk result (λ supply.
        let period = get_member (codes "supply_period") (entries_view table.now) in
        let budget = get_member (codes "supply_budget") (entries_view table.now) in
        (supply_faults spot period budget ≡ []) × (supply ≡ supply_of period budget)) }
    ensures fault { IfErr result (λ fault.
        let period = get_member (codes "supply_period") (entries_view table.now) in
        let budget = get_member (codes "supply_budget") (entries_view table.now) in
        first_of (supply_faults spot period budget) ≡ Some fault) }
{
    match find(table, "supply_period") {
        Some(value) => {
            let period = number_of(value, LIMIT, spot)?;
            let budget = number_at(table, "supply_budget", period, spot)?;
            Ok(Some((period, budget)))
        }
        None => match find(table, "supply_budget") {
            Some(_) => Err(SystemFault::MissingKey(spot)),
            None => Ok(None),
        },
    }
}

/// A core, whose name is put behind the names of the cores before it.
fn read_core<'t>(
    alloc: Global,
    value: &Item<'t>,
    spot: Spot,
    names: &mut Names<'t>,
) -> Result<Core, SystemFault>
    ensures ok { IfOk result (λ core. (earlier : List Data) → HaveNames earlier names.old →
        (table_faults spot core_keys (core_key_faults spot earlier (item_view value.now))
        (item_view value.now) ≡ [])
        × (core ≡ spelled_core (item_view value.now))
        × HaveNames (earlier ++ item_view value.now ∷ []) names.new) }
    ensures fault { IfErr result (λ fault. fault ≢ NoMemory → (earlier : List Data) →
        HaveNames earlier names.old →
        let d = item_view value.now in
        first_of (table_faults spot core_keys (core_key_faults spot earlier d) d) ≡ Some fault) }
{
    let table = table_of(value, spot)?;
    core_of(alloc, table, spot, names)
}

/// The core of a table, whose name is put behind the names of the cores before it.
pub fn core_of<'t>(
    alloc: Global,
    table: &[Entry<'t>],
    spot: Spot,
    names: &mut Names<'t>,
) -> Result<Core, SystemFault>
    ensures ok { IfOk result (λ core. (earlier : List Data) → HaveNames earlier names.old →
        let d = toml_table (entries_view table.now) in
        (table_faults spot core_keys (core_key_faults spot earlier d) d ≡ [])
        × (core ≡ spelled_core d) × HaveNames (earlier ++ d ∷ []) names.new) }
    ensures fault { IfErr result (λ fault. fault ≢ NoMemory → (earlier : List Data) →
        HaveNames earlier names.old →
        let d = toml_table (entries_view table.now) in
        first_of (table_faults spot core_keys (core_key_faults spot earlier d) d) ≡ Some fault) }
{
    check_keys(
        table,
        &["name", "sched", "supply_period", "supply_budget"],
        spot,
    )?;
    let name = name_at(alloc, table, names, spot)?;
    let sched = sched_at(table, spot)?;
    let supply = supply_at(table, spot)?;
    Ok(Core {
        name,
        sched,
        supply,
    })
}

/// The cores of the file, whose names are put into an empty set.
pub fn read_cores<'t>(
    alloc: Global,
    values: &[Item<'t>],
    names: &mut Names<'t>,
) -> Result<Vec<Core>, SystemFault>
    requires few { length values.now ≤ 64 }
    requires no_names { names.old ≡ [] }
    ensures ok { IfOk result (λ cores. (in_order core_faults [] (map item_view values.now) ≡ [])
        × (cores.items ≡ map spelled_core (map item_view values.now))
        × HaveNames (map item_view values.now) names.new) }
    ensures fault { IfErr result (λ fault. fault ≢ NoMemory →
        first_of (in_order core_faults [] (map item_view values.now)) ≡ Some fault) }
{
    let mut cores = Vec::with_capacity(alloc, values.len())?;
    for (place, value) in values.iter().enumerate() {
        let core = read_core(alloc, value, Spot::Core(place as u32), names)?;
        cores.push(core)?;
    }
    Ok(cores)
}
