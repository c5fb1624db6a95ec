ghost use Rattle.std.specs.Prelude.{◌≡◌};
ghost use Rattle.command_frame.specs.Steps.{ending_of};

use crate::Status;
use std::alloc::AllocError;

/// A status and the whole text that tells it.
#[derive(Drop)]
pub struct Answer {
    pub status: Status,
    pub text: Vec<u8>,
}

/// How a command ends, and so why a step of it gives no value.
#[derive(Drop)]
pub enum Ending {
    /// This is the answer.
    Answered(Answer),
    /// Opening or reading a file failed; nothing is written.
    Unread,
    /// Memory ran out; nothing is written.
    NoMemory,
}

impl From<AllocError> for Ending {
    ghost use Rattle.std.specs.Prelude.{◌≡◌};
    ghost use Rattle.command_frame.specs.declared.answer.Ending.TheVariants.{NoMemory};

    ghost from_gives = { λ _ made. made ≡ NoMemory };

    fn from(_error: AllocError) -> Ending {
        Ending::NoMemory
    }
}

/// How a command ends that came to its answer, or ended before.
pub fn ended(given: Result<Answer, Ending>) -> Ending
    ensures { result ≡ ending_of given }
{
    match given {
        Ok(answer) => Ending::Answered(answer),
        Err(ending) => ending,
    }
}
