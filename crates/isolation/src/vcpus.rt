ghost use Rattle.std.specs.Prelude.{◌≡◌, IfOk};
ghost use Rattle.tree_model.specs.Plans.{IsPlan};
ghost use Rattle.isolation.specs.Answers.{AreIsolations, is_isolated, are_isolated};

use crate::isolation::{Isolation, isolation_among};
use crate::neighbours::Neighbours;
use std::alloc::{AllocError, Global};
use tree_model::{Parent, Plan, System};

/// What the part at a place, which stands on a core, keeps there.
#[derive(Clone, Copy, Debug, PartialEq, Eq)]
pub struct PartIsolation {
    pub part: u32,
    pub isolation: Isolation,
}

/// What each part that stands on a core keeps there, in file order.
pub fn isolations(
    alloc: Global,
    sys: &System,
    plan: &Plan,
) -> Result<Vec<PartIsolation>, AllocError>
    requires { IsPlan sys.now plan.now }
    ensures { IfOk result (λ rows. AreIsolations sys.now plan.now rows.items) }
{
    let neighbours = Neighbours::new(sys);
    let mut rows = Vec::new(alloc);
    for (v, part) in sys.parts().iter().enumerate() {
        if let Parent::Core(core) = part.parent() {
            rows.push(PartIsolation {
                part: v as u32,
                isolation: isolation_among(sys, plan, &neighbours, core, v),
            })?;
        }
    }
    Ok(rows)
}

/// Whether each part is isolated however ties are broken.
pub fn are_isolated(rows: &[PartIsolation]) -> bool
    ensures { result ≡ are_isolated rows.now }
{
    rows.iter().all(|row| row.isolation.is_isolated())
}
