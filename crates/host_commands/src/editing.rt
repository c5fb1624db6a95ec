ghost use Rattle.std.specs.Prelude.{◌≡◌, ◌⊎◌, IfOk, IfErr};
ghost use Rattle.csv_rows.specs.Reading.{records_of};
ghost use Rattle.script_file.specs.declared.fault.ScriptFault.TheVariants.{NoMemory};
ghost use Rattle.script_file.specs.Script.{IsScriptFault, script_rows};
ghost use Rattle.host_commands.specs.inner.Editing.{IsToldSession};

use admission_session::{Edit, Session};
use csv_rows::{Records, Row, RowRules, read_rows};
use rt_report::{push_answer, session_begun, session_text};
use script_file::{ScriptFault, read_header, spell_edit};
use std::alloc::{AllocError, Global};

/// A session that edits by the rows of a script as they are read, and the text of its answers.
#[derive(Drop)]
struct Editing {
    alloc: Global,
    session: Session,
    text: String,
}

impl RowRules for Editing {
    ghost use Rattle.std.specs.Prelude.{◌≡◌};
    ghost use Rattle.script_file.specs.declared.fault.ScriptFault.TheVariants.{NoMemory};
    ghost use Rattle.script_file.specs.Script.{script_rules};
    ghost use Rattle.host_commands.specs.inner.Editing.{HasEdited};

    type Fault = ScriptFault;

    ghost rules = { λ t. script_rules };

    ghost has_taken = { HasEdited };

    ghost is_memory = { λ fault. fault ≡ NoMemory };

    #[tactic(auto, using(crate::proofs::Edited::took_edit))]
    fn take(&mut self, row: &Row, number: u64) -> Result<(), ScriptFault> {
        match spell_edit(self.alloc, row) {
            Ok(Some(edit)) => self.edit(edit, number - 1),
            Ok(None) => Err(ScriptFault::BadRow(number)),
            Err(_) => Err(ScriptFault::NoMemory),
        }
    }

    fn no_memory(&self) -> ScriptFault {
        ScriptFault::NoMemory
    }
}

impl Editing {
    ghost use Rattle.std.specs.Prelude.{◌≡◌, ◌++◌, List, ℕ, [], codes, IfOk, OnOk, IfErr, string_bytes};
    ghost use Rattle.admission_session.specs.declared.answer.Answer.{Answer};
    ghost use Rattle.admission_session.specs.Answers.{IsAnswered};
    ghost use Rattle.tree_model.specs.Admission.{Admitted};
    ghost use Rattle.script_file.specs.declared.fault.ScriptFault.TheVariants.{NoMemory};
    ghost use Rattle.rt_report.specs.Session.{answer_line, plan_lines};
    ghost use Rattle.host_commands.specs.inner.Editing.{HasEdited};

    /// Before the first row.
    #[tactic(auto, using(crate::proofs::Edited::none_edited))]
    fn new(alloc: Global, session: Session) -> Result<Editing, AllocError>
        ensures taken { IfOk result (λ t. HasEdited t t []) }
        ensures session { IfOk result (λ t. t.session ≡ session) }
        ensures text { IfOk result (λ t. string_bytes t.text ≡ codes "verdict=yes\n") }
    {
        Ok(Editing {
            alloc,
            session,
            text: session_begun(alloc)?,
        })
    }

    /// The whole text, with the plan of the system that the rows left.
    #[tactic(auto, using(crate::proofs::Edited::one_budget_each))]
    fn finish(self) -> Result<Vec<u8>, AllocError>
        ensures { IfOk result (λ text. (budgets : List ℕ) × Admitted self.session budgets
            × (text.items ≡ string_bytes self.text
            ++ plan_lines self.session.parts budgets)) }
    {
        let plan = self.session.plan(self.alloc)?;
        session_text(self.text, self.session.system(), &plan)
    }

    /// Answers row `number`, counted from 1.
    #[tactic(auto, using(crate::proofs::Edited::can_tell))]
    fn edit(&mut self, edit: Edit, number: u64) -> Result<(), ScriptFault>
        ensures answered { OnOk result ((answer : Answer)
            × IsAnswered self.old.session edit answer self.new.session
            × (string_bytes self.new.text
            ≡ string_bytes self.old.text ++ answer_line number answer)) }
        ensures memory { IfErr result (λ fault. fault ≡ NoMemory) }
    {
        let Ok(answer) = self.session.apply(edit) else {
            return Err(ScriptFault::NoMemory);
        };
        match push_answer(&mut self.text, number, &answer) {
            Ok(()) => Ok(()),
            Err(_) => Err(ScriptFault::NoMemory),
        }
    }
}

/// The text of the answers of a session to the rows of a script, with the plan of the system that
/// they leave.
pub fn edit_all(alloc: Global, session: Session, bytes: &[u8]) -> Result<Vec<u8>, ScriptFault>
    ensures told { IfOk result (λ text. IsToldSession session bytes.now text.items) }
    ensures fault { IfErr result (λ fault. (fault ≡ NoMemory)
        ⊎ IsScriptFault (script_rows (records_of bytes.now)) fault) }
{
    let mut records = Records::new(alloc, bytes);
    if let Err(fault) = read_header(&mut records) {
        return Err(fault);
    }
    let mut rows = match Editing::new(alloc, session) {
        Ok(rows) => rows,
        Err(_) => return Err(ScriptFault::NoMemory),
    };
    if let Err(fault) = read_rows(&mut records, &mut rows) {
        return Err(fault);
    }
    match rows.finish() {
        Ok(text) => Ok(text),
        Err(_) => Err(ScriptFault::NoMemory),
    }
}
