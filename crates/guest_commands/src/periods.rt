ghost use Rattle.std.specs.Prelude.{◌≤◌};
ghost use Rattle.slot_model.specs.declared.task.TheConstants.{LIMIT};

/// A period, or a deadline within one, in slots.
#[derive(Clone, Copy)]
pub struct Period {
    pub slots: u64,
    pub ghost some: { 1 ≤ slots },
    pub ghost in_limit: { slots ≤ LIMIT },
}

/// All periods from `low` to `high`.
#[derive(Clone, Copy)]
pub struct Periods {
    pub low: u64,
    pub high: u64,
    pub ghost some: { 1 ≤ low },
    pub ghost in_order: { low ≤ high },
    pub ghost in_limit: { high ≤ LIMIT },
}
