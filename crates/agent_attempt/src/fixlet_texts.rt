ghost use Rattle.std.specs.Prelude.{◌≡◌, ◌<◌, ◌^◌, ◌↔◌, length, Some, IfOk, IsTrue};
ghost use Rattle.fix_site.specs.Contents.{IsFixlet};
ghost use Rattle.agent_attempt.specs.ReadTexts.{IsScriptOf, success_clause};
ghost use Rattle.agent_attempt.specs.Relevance.{HasScript, Succeeds};

use crate::clause::{Clause, ask_all, ask_given};
use crate::found::Found;
use crate::time::Time;
use bf_machine::Machine;
use fix_site::{Fixlet, Success};
use rel_lexer::Text;
use script_text::{Script, ScriptError, one_verdict, read_script};
use std::alloc::{AllocError, Global};
use std::marker::Model;

/// A fixlet, and what its texts but those of its relevance read as. Contracts see the fixlet.
#[derive(Drop)]
pub struct FixletTexts {
    fixlet: Fixlet,
    success: Option<Clause>,
    script: Option<Script>,
}

impl Model for FixletTexts {
    ghost use Rattle.fix_site.specs.declared.fixlet.Fixlet.{Fixlet};
    ghost use Rattle.agent_attempt.specs.ReadTexts.{AreTextsOf};

    ghost Value = { Fixlet };

    ghost view = { λ f. f.fixlet };

    ghost invariant = { λ f. AreTextsOf f.fixlet f.success f.script };
}

impl FixletTexts {
    /// Reads the texts of a fixlet but its relevance. The error is want of memory, here and below.
    pub(crate) fn read(alloc: Global, fixlet: Fixlet) -> Result<FixletTexts, AllocError>
        requires { IsFixlet fixlet }
        ensures { IfOk result (λ read. read ≡ fixlet) }
    {
        Ok(FixletTexts {
            success: read_success(alloc, &fixlet.success)?,
            script: script_of(alloc, fixlet.script.as_slice())?,
            fixlet,
        })
    }

    /// Its script, which isn't refused.
    pub(crate) fn script(&self) -> Result<Script, AllocError>
        requires { HasScript self.now.script }
        ensures { IfOk result (λ script. IsScriptOf self.now.script (Some script)) }
    {
        // Proof: lines that are a script aren't refused.
        one_verdict();
        match &self.script {
            Some(script) => script.copy(),
            None => unreachable!(),
        }
    }

    /// Whether its script isn't refused.
    pub(crate) fn has_script(&self) -> bool
        ensures { IsTrue result ↔ HasScript self.now.script }
    {
        // Proof: lines that are refused are no script.
        one_verdict();
        self.script.is_some()
    }

    /// Whether its success rule holds, after its script is done. These are its relevance.
    pub(crate) fn succeeds<M: Machine>(
        &self,
        alloc: Global,
        relevance: &[Clause],
        machine: &mut M,
        time: &Time,
    ) -> Found
        requires { relevance.now ≡ self.now.relevance }
        ensures { Succeeds time.now self.now self.now.success (M.told machine.old) result (M.told machine.new) }
    {
        match &self.fixlet.success {
            Success::Lines => Found::Yes,
            Success::Relevance => ask_all(alloc, relevance, machine, time).opposite(),
            Success::Clause(_) => ask_given(alloc, &self.success, machine, time),
        }
    }
}

/// Reads the question of a success rule, if it has one.
fn read_success(alloc: Global, success: &Success) -> Result<Option<Clause>, AllocError>
    ensures { IfOk result (λ clause. clause ≡ success_clause success.now) }
{
    match success {
        Success::Lines | Success::Relevance => Ok(None),
        Success::Clause(question) => Ok(Some(Clause::read(alloc, question)?)),
    }
}

/// Reads a script. None where it is refused.
fn script_of(alloc: Global, lines: &[Text]) -> Result<Option<Script>, AllocError>
    requires { length lines.now < 2 ^ 32 }
    ensures { IfOk result (λ script. IsScriptOf lines.now script) }
{
    match read_script(alloc, lines) {
        Ok(script) => Ok(Some(script)),
        Err(error) => match error {
            ScriptError::Memory => Err(AllocError),
            _ => Ok(None),
        },
    }
}
