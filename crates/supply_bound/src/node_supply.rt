use crate::Periodic;

/// The supply of a node: every slot, or a budget in every period.
#[derive(Clone, Copy, Debug, PartialEq, Eq)]
pub enum NodeSupply {
    Full,
    Periodic(Periodic),
}

impl NodeSupply {
    ghost use Rattle.std.specs.Prelude.{◌≡◌};
    ghost use Rattle.supply_bound.specs.NodeSupplies.{amount_of};

    /// The slots of each cycle.
    pub fn budget(&self) -> u64
        ensures { result ≡ amount_of self.now }
    {
        match self {
            NodeSupply::Full => 1,
            NodeSupply::Periodic(s) => s.budget,
        }
    }
}
