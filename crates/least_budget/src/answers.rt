use slot_model::Short;

/// What the test of a level answers. Under earliest deadline first it walks up to a horizon, the
/// least common multiple of the periods and the supply's cycle, and one cycle more.
#[derive(Clone, Copy, Debug, PartialEq, Eq)]
pub enum Tested {
    /// Nothing is short.
    Passes,
    /// What is short first.
    Short(Short),
    /// The horizon passes 2^128 - 2 slots.
    Wide,
}

/// The least whole budget of a period with which a level passes.
#[derive(Clone, Copy, Debug, PartialEq, Eq)]
pub enum Least {
    /// In slots, from 0 to the period.
    Budget(u64),
    /// Even the whole period does not pass: what is short there first.
    Over(Short),
    /// The horizon passes 2^128 - 2 slots.
    Wide,
}

/// The least budget, and what is short first with one slot less: None where no budget passes, or
/// the least one is 0.
#[derive(Clone, Copy, Debug, PartialEq, Eq)]
pub struct Edge {
    pub least: Least,
    pub below: Option<Short>,
}
