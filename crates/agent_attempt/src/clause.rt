ghost use Rattle.std.specs.Prelude.{◌≡◌, ℕ, List, Some, IfOk};
ghost use Rattle.agent_attempt.specs.ReadTexts.{IsReadAs};
ghost use Rattle.agent_attempt.specs.Relevance.{AllAre, Asks};

use crate::found::Found;
use crate::time::Time;
use bf_machine::Machine;
use rel_eval::{Question, Refusal, prepare, truth};
use rel_lexer::Text;
use std::alloc::{AllocError, Global};
use std::marker::Model;

/// A clause that was read once: a question, or a text that is refused. Contracts see its text.
#[derive(Drop)]
pub struct Clause {
    text: Text,
    question: Option<Question>,
}

impl Model for Clause {
    ghost use Rattle.std.specs.Prelude.{List, ℕ};
    ghost use Rattle.agent_attempt.specs.ReadTexts.{IsReadAs};

    ghost Value = { List ℕ };

    ghost view = { λ c. c.text };

    ghost invariant = { λ c. IsReadAs c.text c.question };
}

impl Clause {
    /// Reads a clause. The error is want of memory, here and below.
    pub(crate) fn read(alloc: Global, text: &Text) -> Result<Clause, AllocError>
        ensures { IfOk result (λ clause. clause ≡ text.now) }
    {
        Ok(Clause {
            text: text.copy()?,
            question: question_of(alloc, text)?,
        })
    }

    /// Asks the clause.
    pub(crate) fn ask<M: Machine>(&self, alloc: Global, machine: &mut M, time: &Time) -> Found
        ensures { Asks time.now self.now (M.told machine.old) result (M.told machine.new) }
    {
        match &self.question {
            Some(question) => Found::of(truth(alloc, question, machine, time.scene())),
            None => Found::No,
        }
    }
}

/// Reads a question. None where the text is refused.
fn question_of(alloc: Global, text: &Text) -> Result<Option<Question>, AllocError>
    ensures { IfOk result (λ question. IsReadAs text.now question) }
{
    match prepare(alloc, text.as_str().as_bytes()) {
        Ok(question) => Ok(Some(question)),
        Err(refusal) => match refusal {
            Refusal::Memory => Err(AllocError),
            _ => Ok(None),
        },
    }
}

/// Reads clauses, in their order.
pub(crate) fn read_all(alloc: Global, texts: &[Text]) -> Result<Vec<Clause>, AllocError>
    ensures { IfOk result (λ clauses. clauses.items ≡ texts.now) }
{
    let mut clauses = Vec::with_capacity(alloc, texts.len())?;
    for text in texts {
        clauses.push(Clause::read(alloc, text)?)?;
    }
    Ok(clauses)
}

/// Asks clauses in order, up to the first that isn't true.
pub(crate) fn ask_all<M: Machine>(
    alloc: Global,
    clauses: &[Clause],
    machine: &mut M,
    time: &Time,
) -> Found
    ensures { AllAre time.now clauses.now (M.told machine.old) result (M.told machine.new) }
{
    for clause in clauses {
        match clause.ask(alloc, machine, time) {
            Found::Yes => {}
            found => return found,
        }
    }
    Found::Yes
}

/// Asks a clause, if there is one.
pub(crate) fn ask_given<M: Machine>(
    alloc: Global,
    clause: &Option<Clause>,
    machine: &mut M,
    time: &Time,
) -> Found
    ensures { (text : List ℕ) → clause.now ≡ Some text → Asks time.now text (M.told machine.old) result (M.told machine.new) }
{
    match clause {
        Some(clause) => clause.ask(alloc, machine, time),
        None => Found::Yes,
    }
}
