ghost use Rattle.admit_commands.specs.Certify.{Certifies};

use certificate::print_certificate;
use command_frame::{Answer, Ending, JudgeOne, Status, refuse};
use std::alloc::Global;
use tree_model::{Refusal, System};

/// `certify FILE`: a certificate that the system of the file is admitted, which anyone can check.
#[derive(Clone, Copy)]
pub struct Certify;

impl JudgeOne for Certify {
    ghost says = { λ _. Certifies };

    #[tactic(auto, using(command_frame::proofs::Budgets::refusal_told, crate::proofs::Laws::Certify::printed))]
    fn judge(&self, alloc: Global, sys: &System) -> Result<Answer, Ending> {
        match certificate::certify(alloc, sys) {
            Ok(certificate) => Ok(Answer {
                status: Status::Yes,
                text: print_certificate(alloc, &certificate)?,
            }),
            Err(Refusal::NoMemory) => Err(Ending::NoMemory),
            Err(refusal) => Ok(refuse(alloc, sys, refusal)?),
        }
    }
}
