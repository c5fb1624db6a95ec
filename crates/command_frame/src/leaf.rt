ghost use Rattle.std.specs.Prelude.{◌≡◌, ◌<◌, ◌≤◌, length, IfOk, IfErr};
ghost use Rattle.slot_model.specs.declared.task.TheConstants.{LIMIT};
ghost use Rattle.tree_model.specs.System.{part_at};
ghost use Rattle.tree_model.specs.NamedLeaf.{IsLeafNamed};
ghost use Rattle.command_frame.specs.Attempt.{IsRefused};
ghost use Rattle.command_frame.specs.NamedLeaf.{finding};
ghost use Rattle.command_frame.specs.Steps.{IfAnswered, EndsJudged};

use crate::answer::Ending;
use crate::file::bad_file;
use rt_report::FileFault;
use std::alloc::Global;
use tree_model::{Part, System, leaf_named};

/// The place of the leaf of that name. It stops where no leaf has it.
pub fn find_leaf(alloc: Global, sys: &System, name: &str) -> Result<u32, Ending>
    ensures found { IfOk result (λ q. IsLeafNamed sys.now name.now q) }
    ensures refused { IfErr result (λ stop. IfAnswered stop (λ a.
        IsRefused (finding sys.now name.now) a.status a.text.items)) }
    ensures judged { IfErr result (λ stop. EndsJudged stop) }
{
    match leaf_named(sys, name) {
        Some(q) => Ok(q as u32),
        None => Err(Ending::Answered(bad_file(alloc, FileFault::NoSuchLeaf, 1)?)),
    }
}

/// The part at a place.
pub fn part_at(sys: &System, q: u32) -> &Part
    requires { q < length sys.now.parts }
    ensures part { result.now ≡ part_at sys.now q }
    ensures some_period { 1 ≤ result.now.period }
    ensures in_limit { result.now.period ≤ LIMIT }
    ensures few { length result.now.tasks ≤ 256 }
{
    &sys.parts()[q as usize]
}
