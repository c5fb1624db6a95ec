ghost use Rattle.std.specs.Prelude.{◌≡◌, IfOk};
ghost use Rattle.rt_report.specs.Interface.{interface_text};

use std::alloc::{AllocError, Global};
use tree_model::Part;

/// The text of an interface: the verdict, and the budget by the deadline with which the leaf
/// passes.
pub fn interface_text(
    alloc: Global,
    part: &Part,
    deadline: u64,
    budget: u64,
) -> Result<Vec<u8>, AllocError>
    ensures { IfOk result (λ text. text.items ≡ interface_text part.now deadline budget) }
{
    let name = part.name().as_str();
    let period = part.period();
    let text = format!(in alloc;
        "verdict=yes\ninterface {name} period={period} deadline={deadline} budget={budget}\n"
    )?;
    Ok(text.into_bytes())
}
