ghost use Rattle.std.specs.Prelude.{ℕ, MatchOption};
ghost use Rattle.tree_model.specs.System.{IsSystem};
ghost use Rattle.tree_model.specs.NamedLeaf.{IsLeafNamed};

use crate::System;

/// The place of the leaf of a name.
pub fn leaf_named(sys: &System, name: &str) -> Option<usize>
    ensures system { IsSystem sys.now }
    ensures leaf { MatchOption result
        ((q : ℕ) → IsLeafNamed sys.now name.now q → ⊥)
        (λ q. IsLeafNamed sys.now name.now q) }
{
    for (q, part) in sys.parts().iter().enumerate() {
        if part.is_leaf() && part.name().is_text(name) {
            return Some(q);
        }
    }
    None
}
