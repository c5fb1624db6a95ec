use slot_model::{Name, Sched};
use std::marker::Model;
use tree_model::{Named, Parent, Part};

/// What a leaf says of itself, wherever it stands: its server's period and given budget, in
/// slots, and its tasks.
#[derive(Drop, Debug)]
pub struct Leaf {
    pub name: Name,
    pub sched: Sched,
    pub period: u64,
    pub budget: Option<u64>,
    pub tasks: Vec<Named>,
}

impl Model for Leaf {
    ghost use Rattle.admission_session.specs.LeafView.{LeafView};

    ghost Value = { LeafView };

    ghost view = { λ l. record {
      name = l.name;
      sched = l.sched;
      period = l.period;
      budget = l.budget;
      tasks = l.tasks.items;
    } };
}

impl Leaf {
    ghost use Rattle.std.specs.Prelude.{◌≡◌};
    ghost use Rattle.admission_session.specs.LeafPart.{leaf_part};

    /// The part that the leaf is on a parent.
    pub fn on(self, parent: Parent, extra: bool) -> Part
        ensures { result ≡ leaf_part self parent extra }
    {
        Part {
            name: self.name,
            parent,
            sched: self.sched,
            period: self.period,
            budget: self.budget,
            extra,
            tasks: self.tasks,
        }
    }
}
