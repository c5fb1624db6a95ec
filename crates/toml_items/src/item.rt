use toml::value::Datetime;

/// What stands at a key of a table, or at a place of an array.
#[derive(Drop)]
pub enum Item<'t> {
    Text(&'t str),
    Number(i64),
    Flag(bool),
    List(Vec<Item<'t>>),
    Table(Vec<Entry<'t>>),
    Float(f64),
    Date(&'t Datetime),
}

/// A key of a table with its item. The entries of a table stand in the order of their keys' bytes.
pub type Entry<'t> = (&'t str, Item<'t>);
