ghost use Rattle.std.specs.Prelude.{◌≡◌, ◌++◌, ◌<◌, length, All, IfOk, OnOk, string_bytes};
ghost use Rattle.isolation.specs.declared.vcpus.PartIsolation.{PartIsolation as RowView};
ghost use Rattle.tree_model.specs.System.{part_at};
ghost use Rattle.isolation.specs.declared.budgets.CoreBudgets.{CoreBudgets as CoreView};
ghost use Rattle.rt_report.specs.Isolation.{
  budgets_line,
  budgets_lines,
  isolation_line,
  isolation_lines,
  isolation_text,
  isolation_words,
  last_words,
};

use crate::names;
use crate::simulate::verdict;
use isolation::{CoreBudgets, Isolation, PartIsolation, are_isolated};
use std::alloc::{AllocError, Global};
use tree_model::{Part, Place, System};

/// The text of what the parts on cores keep: the verdict, a line each, and a line each core that
/// has one.
pub fn isolation_text(
    alloc: Global,
    sys: &System,
    rows: &[PartIsolation],
    cores: &[CoreBudgets],
) -> Result<Vec<u8>, AllocError>
    requires parts { All (λ (row : RowView). row.part < length sys.now.parts) rows.now }
    requires cores { All (λ (row : CoreView). row.core < length sys.now.cores) cores.now }
    ensures { IfOk result (λ text. text.items ≡ isolation_text sys.now rows.now cores.now) }
{
    let mut text = String::from_str(alloc, verdict(are_isolated(rows)))?;
    push_isolations(&mut text, sys, rows)?;
    push_cores(&mut text, sys, cores)?;
    Ok(text.into_bytes())
}

fn push_isolations(
    text: &mut String,
    sys: &System,
    rows: &[PartIsolation],
) -> Result<(), AllocError>
    requires { All (λ (row : RowView). row.part < length sys.now.parts) rows.now }
    ensures { OnOk result
        (string_bytes text.new ≡ string_bytes text.old ++ isolation_lines sys.now rows.now) }
{
    for row in rows {
        push_isolation(text, sys, row)?;
    }
    Ok(())
}

fn push_cores(text: &mut String, sys: &System, cores: &[CoreBudgets]) -> Result<(), AllocError>
    requires { All (λ (row : CoreView). row.core < length sys.now.cores) cores.now }
    ensures { OnOk result
        (string_bytes text.new ≡ string_bytes text.old ++ budgets_lines sys.now cores.now) }
{
    for row in cores {
        push_core(text, sys, row)?;
    }
    Ok(())
}

fn push_core(text: &mut String, sys: &System, row: &CoreBudgets) -> Result<(), AllocError>
    requires { row.now.core < length sys.now.cores }
    ensures { OnOk result
        (string_bytes text.new ≡ string_bytes text.old ++ budgets_line sys.now row.now) }
{
    names::push_node(text, sys, Place::Core(row.core))?;
    write!(text, " budgets={} shortest={}\n", row.budgets, row.shortest)
}

fn push_isolation(text: &mut String, sys: &System, row: &PartIsolation) -> Result<(), AllocError>
    requires { row.now.part < length sys.now.parts }
    ensures { OnOk result
        (string_bytes text.new ≡ string_bytes text.old ++ isolation_line sys.now row.now) }
{
    push_words(text, &sys.parts()[row.part as usize], row.isolation)
}

fn push_words(text: &mut String, part: &Part, isolation: Isolation) -> Result<(), AllocError>
    ensures { OnOk result
        (string_bytes text.new ≡ string_bytes text.old ++ isolation_words part.now isolation) }
{
    let name = part.name().as_str();
    match isolation {
        Isolation::Isolated { last } => {
            write!(text, "isolated {name}")?;
            push_last(text, part, last)
        }
        Isolation::ByTies { last } => {
            write!(text, "exposed {name} by=ties")?;
            push_last(text, part, last)
        }
        Isolation::ByBlock => write!(text, "exposed {name} by=block\n"),
    }
}

fn push_last(text: &mut String, part: &Part, last: u64) -> Result<(), AllocError>
    ensures { OnOk result
        (string_bytes text.new ≡ string_bytes text.old ++ last_words part.now last) }
{
    write!(text, " last={last} of={}\n", part.period())
}
