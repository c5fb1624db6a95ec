ghost use Rattle.std.specs.Prelude.{◌≡◌, IfOk};
ghost use Rattle.rt_report.specs.Place.{unplaced_text};

use std::alloc::{AllocError, Global};
use tree_model::Part;

/// The text of a guest that fits on no core.
pub fn unplaced_text(alloc: Global, guest: &Part) -> Result<Vec<u8>, AllocError>
    ensures { IfOk result (λ text. text.items ≡ unplaced_text guest.now.name) }
{
    let name = guest.name().as_str();
    Ok(format!(in alloc; "verdict=no\nunplaced {name}\n")?.into_bytes())
}
