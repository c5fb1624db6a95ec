ghost use Rattle.std.specs.Prelude.{Option};
ghost use Rattle.outside.specs.Counts.{Counts};
ghost use Rattle.outside.specs.Files.{Files};
ghost use Rattle.host_commands.specs.Bulk.{the_bulk};
ghost use Rattle.command_frame.specs.Steps.{ending_of, IfAnswered, Explains, IsSaid, EndsJudged};

use crate::guests::Guests;
use bulk_run::bulk_counts;
use command_frame::{Answer, Ending, Status};
use rt_report::bulk_text;
use std::alloc::Global;

/// `bulk N`: what is counted of a generated host of that many guests and of its run. The answer is
/// always yes. It reads no file.
pub fn bulk(alloc: Global, guests: Guests) -> Result<Answer, Ending>
    ensures answer { (files : Option Files) → IfAnswered (ending_of result) (λ a.
        IsSaid (the_bulk guests.number) files a.status a.text.items) }
    ensures explained { (counts : Counts) → Explains (ending_of result) counts counts }
    ensures judged { EndsJudged (ending_of result) }
{
    let counts = bulk_counts(alloc, guests.number)?;
    let text = bulk_text(alloc, &counts)?;
    Ok(Answer {
        status: Status::Yes,
        text,
    })
}
