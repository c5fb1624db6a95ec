ghost use Rattle.std.specs.Prelude.{◌≡◌, IfOk};
ghost use Rattle.rt_report.specs.Choose.{best_text, nothing_text};

use std::alloc::{AllocError, Global};
use tree_model::Part;

/// The text of the best period of a leaf: the verdict, the period and its least budget.
pub fn best_text(
    alloc: Global,
    part: &Part,
    period: u64,
    budget: u64,
) -> Result<Vec<u8>, AllocError>
    ensures { IfOk result (λ text. text.items ≡ best_text part.now period budget) }
{
    let name = part.name().as_str();
    let text = format!(in alloc; "verdict=yes\nchoose {name} period={period} budget={budget}\n")?;
    Ok(text.into_bytes())
}

/// The text of a range at no period of which a budget passes: the verdict, at how many even the
/// whole period is short, and how many are too wide.
pub fn nothing_text(alloc: Global, over: u64, wide: u64) -> Result<Vec<u8>, AllocError>
    ensures { IfOk result (λ text. text.items ≡ nothing_text over wide) }
{
    Ok(format!(in alloc; "verdict=no\nnothing over={over} wide={wide}\n")?.into_bytes())
}
