ghost use Rattle.std.specs.Prelude.{◌≡◌, Some, IfOk};
ghost use Rattle.fix_site.specs.Contents.{IsFixlet};
ghost use Rattle.agent_attempt.specs.ReadTexts.{IsScriptOf};
ghost use Rattle.agent_attempt.specs.Relevance.{FixletIs, HasScript, Succeeds};

use crate::clause::ask_all;
use crate::clauses::Clauses;
use crate::fixlet_texts::FixletTexts;
use crate::found::Found;
use crate::time::Time;
use bf_machine::Machine;
use fix_site::Fixlet;
use script_text::Script;
use std::alloc::{AllocError, Global};
use std::marker::Model;
use std::rc::Rc;

/// A fixlet whose texts were read once. Its copies share them. Contracts see the fixlet.
#[derive(Drop)]
pub struct ReadFixlet {
    // What an idle turn looks at stands here, so that it needn't go to the texts: the id once more, whether the script is one, and what
    // the relevance reads as.
    id: u64,
    has_script: bool,
    relevance: Clauses,
    texts: Rc<FixletTexts>,
}

impl Model for ReadFixlet {
    ghost use Rattle.fix_site.specs.declared.fixlet.Fixlet.{Fixlet};
    ghost use Rattle.agent_attempt.specs.ReadTexts.{IsReadFixlet};

    ghost Value = { Fixlet };

    ghost view = { λ f. f.texts.value };

    ghost invariant = { λ f. IsReadFixlet f.texts.value f.id f.relevance f.has_script };
}

impl ReadFixlet {
    /// Reads the texts of a fixlet whose relevance was read. The error is want of memory, here and below.
    pub(crate) fn read(
        alloc: Global,
        fixlet: Fixlet,
        relevance: Clauses,
    ) -> Result<ReadFixlet, AllocError>
        requires fixlet { IsFixlet fixlet }
        requires relevance { relevance ≡ fixlet.relevance }
        ensures { IfOk result (λ read. read ≡ fixlet) }
    {
        let id = fixlet.id;
        let texts = FixletTexts::read(alloc, fixlet)?;
        Ok(ReadFixlet {
            id,
            has_script: texts.has_script(),
            relevance,
            texts: Rc::new(alloc, texts)?,
        })
    }

    /// The same fixlet once more. It takes no memory, but can't be had of more copies than can be counted.
    pub(crate) fn copy(&self) -> Result<ReadFixlet, AllocError>
        ensures { IfOk result (λ copy. copy ≡ self.now) }
    {
        Ok(ReadFixlet {
            id: self.id,
            has_script: self.has_script,
            relevance: self.relevance.copy()?,
            texts: self.texts.clone()?,
        })
    }

    /// Its id.
    pub(crate) fn id(&self) -> u64
        ensures { result ≡ self.now.id }
    {
        self.id
    }

    /// Its script, which isn't refused.
    pub(crate) fn script(&self) -> Result<Script, AllocError>
        requires { HasScript self.now.script }
        ensures { IfOk result (λ script. IsScriptOf self.now.script (Some script)) }
    {
        self.texts.script()
    }

    /// Whether the fixlet is relevant.
    pub(crate) fn is_relevant<M: Machine>(
        &self,
        alloc: Global,
        machine: &mut M,
        time: &Time,
    ) -> Found
        ensures { FixletIs time.now self.now (M.told machine.old) result (M.told machine.new) }
    {
        if !self.has_script {
            return Found::No;
        }
        ask_all(alloc, self.relevance.as_slice(), machine, time)
    }

    /// Whether its success rule holds, after its script is done.
    pub(crate) fn succeeds<M: Machine>(&self, alloc: Global, machine: &mut M, time: &Time) -> Found
        ensures { Succeeds time.now self.now self.now.success (M.told machine.old) result (M.told machine.new) }
    {
        self.texts
            .succeeds(alloc, self.relevance.as_slice(), machine, time)
    }
}
