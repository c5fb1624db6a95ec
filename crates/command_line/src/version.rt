ghost use Rattle.std.specs.Prelude.{Option};
ghost use Rattle.outside.specs.Counts.{Counts};
ghost use Rattle.outside.specs.Files.{Files};
ghost use Rattle.command_line.specs.Version.{the_version};
ghost use Rattle.command_frame.specs.Steps.{ending_of, IfAnswered, Explains, IsSaid, EndsJudged};

use command_frame::{Answer, Ending, Status};
use rt_report::version_text;
use std::alloc::Global;

/// `version`: the line of the version of the program. It reads no file.
pub fn version(alloc: Global) -> Result<Answer, Ending>
    ensures answer { (files : Option Files) → IfAnswered (ending_of result) (λ a.
        IsSaid the_version files a.status a.text.items) }
    ensures explained { (counts : Counts) → Explains (ending_of result) counts counts }
    ensures judged { EndsJudged (ending_of result) }
{
    let text = version_text(alloc)?;
    Ok(Answer {
        status: Status::Yes,
        text,
    })
}
