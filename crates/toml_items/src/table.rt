ghost use Rattle.std.specs.Prelude.{◌≡◌, IfOk};
ghost use Rattle.toml.specs.View.{view, items_view, table_view};
ghost use Rattle.toml_items.specs.Item.{item_view, list_view, entries_view};

use crate::{Entry, Item};
use std::alloc::{AllocError, Global};
use toml::{Table, Value};

/// The entries of a table.
#[cycle(items)]
pub fn table_entries<'t>(alloc: Global, table: &'t Table) -> Result<Vec<Entry<'t>>, AllocError>
    ensures { IfOk result (λ entries. entries_view entries.items ≡ table_view table.now) }
{
    let mut entries = Vec::with_capacity(alloc, table.len())?;
    for (key, value) in table {
        let item = item_of(alloc, value)?;
        entries.push((key.as_str(), item))?;
    }
    Ok(entries)
}

/// The items of an array.
#[cycle(items)]
fn array_items<'t>(alloc: Global, values: &'t [Value]) -> Result<Vec<Item<'t>>, AllocError>
    ensures { IfOk result (λ items. list_view items.items ≡ items_view values.now) }
{
    let mut items = Vec::with_capacity(alloc, values.len())?;
    for value in values {
        let item = item_of(alloc, value)?;
        items.push(item)?;
    }
    Ok(items)
}

/// The item of a value.
#[cycle(items)]
fn item_of<'t>(alloc: Global, value: &'t Value) -> Result<Item<'t>, AllocError>
    ensures { IfOk result (λ item. item_view item ≡ view value.now) }
{
    match value {
        Value::String(text) => Ok(Item::Text(text.as_str())),
        Value::Integer(number) => Ok(Item::Number(*number)),
        Value::Boolean(flag) => Ok(Item::Flag(*flag)),
        Value::Array(values) => Ok(Item::List(array_items(alloc, values)?)),
        Value::Table(table) => Ok(Item::Table(table_entries(alloc, table)?)),
        Value::Float(number) => Ok(Item::Float(*number)),
        Value::Datetime(date) => Ok(Item::Date(date)),
    }
}
