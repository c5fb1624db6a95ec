ghost use Rattle.std.specs.Prelude.{IfOk};
ghost use Rattle.admit_commands.specs.Check.{ChecksNodes, Checks};

use cert_reader::read_certificate;
use cert_verify::verify;
use command_frame::{Answer, Ending, JudgeTwo, Status, spelled};
use rt_report::check_text;
use std::alloc::{AllocError, Global};
use tree_model::{Certificate, System};

/// `check FILE CERT`: whether the certificate proves that the system of the file is admitted under
/// the budgets that it tells, or its first flaw.
#[derive(Clone, Copy)]
pub struct Check;

impl JudgeTwo for Check {
    ghost says = { λ _. Checks };

    fn judge(&self, alloc: Global, sys: &System, bytes: &[u8]) -> Result<Answer, Ending> {
        let certificate = spelled(alloc, read_certificate(alloc, bytes))?;
        Ok(verdict(alloc, sys, &certificate)?)
    }
}

#[tactic(auto, using(crate::proofs::Laws::Check::flaw_told))]
fn verdict(alloc: Global, sys: &System, c: &Certificate) -> Result<Answer, AllocError>
    ensures { IfOk result (λ a. ChecksNodes sys.now c.now.nodes a.status a.text.items) }
{
    let verdict = verify(sys, c);
    let status = match verdict {
        Ok(()) => Status::Yes,
        Err(_) => Status::No,
    };
    Ok(Answer {
        status,
        text: check_text(alloc, sys, &verdict)?,
    })
}
