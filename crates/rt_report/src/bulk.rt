ghost use Rattle.std.specs.Prelude.{◌≡◌, ◌++◌, IfOk, OnOk, string_bytes};
ghost use Rattle.rt_report.specs.Bulk.{host_words, run_words, bulk_text};

use bulk_run::BulkCounts;
use std::alloc::{AllocError, Global};

/// The text of a generated host: the verdict, and what is counted.
pub fn bulk_text(alloc: Global, counts: &BulkCounts) -> Result<Vec<u8>, AllocError>
    ensures { IfOk result (λ text. text.items ≡ bulk_text counts.now) }
{
    let mut text = String::new(alloc);
    text.push_str("verdict=yes\n")?;
    push_host(&mut text, counts)?;
    push_run(&mut text, counts)?;
    Ok(text.into_bytes())
}

fn push_host(text: &mut String, counts: &BulkCounts) -> Result<(), AllocError>
    ensures { OnOk result (
        string_bytes text.new ≡ string_bytes text.old ++ host_words counts.now) }
{
    write!(
        text,
        "guests={} cores={} budgets={}",
        counts.guests, counts.cores, counts.budgets
    )
}

fn push_run(text: &mut String, counts: &BulkCounts) -> Result<(), AllocError>
    ensures { OnOk result (
        string_bytes text.new ≡ string_bytes text.old ++ run_words counts.now) }
{
    write!(
        text,
        " jobs={} missed={} pending={}\n",
        counts.jobs, counts.missed, counts.pending
    )
}
