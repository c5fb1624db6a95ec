ghost use Rattle.supply_bound.specs.NodeSupplies.{bound_of, amount_of, cycle_of, pattern_of, start_of, Conforms, node_laws};

use crate::{Full, NodeSupply, Supply, Window};

impl Supply for NodeSupply {
    ghost bound = { bound_of };

    ghost amount = { amount_of };

    ghost cycle_of = { cycle_of };

    ghost pattern = { pattern_of };

    ghost start_of = { start_of };

    ghost conforms = { Conforms };

    fn least(&self, t: u128) -> u128 {
        match self {
            NodeSupply::Full => Full.least(t),
            NodeSupply::Periodic(s) => s.least(t),
        }
    }

    fn reach(&self, x: u128) -> Option<u128> {
        match self {
            NodeSupply::Full => Full.reach(x),
            NodeSupply::Periodic(s) => s.reach(x),
        }
    }

    fn cycle(&self) -> u64 {
        match self {
            NodeSupply::Full => Full.cycle(),
            NodeSupply::Periodic(s) => s.cycle(),
        }
    }

    fn worst(&self, x: u64) -> bool {
        match self {
            NodeSupply::Full => Full.worst(x),
            NodeSupply::Periodic(s) => s.worst(x),
        }
    }

    fn next_window(&self, from: u64, below: u64) -> Option<Window> {
        match self {
            NodeSupply::Full => Full.next_window(from, below),
            NodeSupply::Periodic(s) => s.next_window(from, below),
        }
    }

    fn window_after(&self, last: Window, below: u64) -> Option<Window> {
        match self {
            NodeSupply::Full => Full.window_after(last, below),
            NodeSupply::Periodic(s) => s.window_after(last, below),
        }
    }

    fn start(&self) -> u64 {
        match self {
            NodeSupply::Full => Full.start(),
            NodeSupply::Periodic(s) => s.start(),
        }
    }

    ghost laws = { node_laws };
}
