ghost use Rattle.std.specs.Prelude.{◌<◌, ◌^◌, length, IfOk, IfErr};
ghost use Rattle.command_frame.specs.Attempt.{IsRefused};
ghost use Rattle.host_commands.specs.Place.{placing, IsPlacement, IsSystemText, Places};
ghost use Rattle.command_frame.specs.Steps.{IfAnswered, IsJudged, EndsJudged};

use crate::refusing::refuse_system;
use command_frame::{Answer, Ending, JudgeTwo, Status, second_fault, spelled};
use csv_rows::row_of;
use placement::{PlaceFault, place};
use rt_report::{FileFault, unplaced_text};
use script_file::read_guests;
use std::alloc::{AllocError, Global};
use system_file::print_system;
use tree_model::{Part, Refusal, System};

/// `place FILE GUESTS`: the system with the guests, each on the first core on which it fits.
#[derive(Clone, Copy)]
pub struct Placer;

impl JudgeTwo for Placer {
    ghost says = { λ _. Places };

    fn judge(&self, alloc: Global, sys: &System, bytes: &[u8]) -> Result<Answer, Ending> {
        let guests = spelled(alloc, read_guests(alloc, bytes))?;
        let placed = placed(alloc, sys, &guests)?;
        Ok(printed(alloc, &placed)?)
    }
}

// The system with the guests on their cores. It stops where they are not placed.
fn placed(alloc: Global, sys: &System, guests: &[Part]) -> Result<System, Ending>
    requires few { length guests.now < 2 ^ 32 }
    ensures placed { IfOk result (IsPlacement sys.now guests.now) }
    ensures refused { IfErr result (λ stop. IfAnswered stop (λ a.
        IsRefused (placing sys.now guests.now) a.status a.text.items)) }
    ensures judged { IfErr result (λ stop. EndsJudged stop) }
{
    match place(alloc, sys, guests) {
        Ok(placed) => Ok(placed),
        Err(PlaceFault::NoMemory) => Err(Ending::NoMemory),
        Err(PlaceFault::Refused(Refusal::NoMemory)) => Err(Ending::NoMemory),
        Err(PlaceFault::Refused(refusal)) => {
            Err(Ending::Answered(refuse_system(alloc, sys, refusal)?))
        }
        Err(PlaceFault::BadGuest(i)) => {
            let row = row_of(u64::from(i));
            Err(second_fault(alloc, FileFault::BadGuest(row)))
        }
        Err(PlaceFault::Unplaced(i)) => Err(Ending::Answered(Answer {
            status: Status::No,
            text: unplaced_text(alloc, &guests[i as usize])?,
        })),
    }
}

// The system file of the placed system.
fn printed(alloc: Global, placed: &System) -> Result<Answer, AllocError>
    ensures text { IfOk result (λ a. IsSystemText placed.now a.status a.text.items) }
    ensures judged { IfOk result (λ a. IsJudged a.status) }
{
    Ok(Answer {
        status: Status::Yes,
        text: print_system(alloc, placed)?,
    })
}
