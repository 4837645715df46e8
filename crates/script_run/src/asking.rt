// Asking the expressions and tests of a line.
ghost use Rattle.std.specs.Prelude.{◌≡◌, ℕ, false, List};
ghost use Rattle.rel_eval.specs.Answers.{Prepares};
ghost use Rattle.rel_eval.specs.Singles.{text_has_failed, truth_has_failed};
ghost use Rattle.script_run.specs.Asking.{SaysOn, JudgesOn};
ghost use Rattle.script_run.specs.Fills.{Unread, UnreadTest};

use crate::kept::Kept;
use bf_machine::Machine;
use rel_eval::{OneText, Refusal, Truth, one_text, prepare, truth};
use rel_lexer::Text;
use std::alloc::Global;

/// Asks an expression for its text.
pub(crate) fn say<M: Machine>(
    alloc: Global,
    machine: &mut M,
    kept: &Kept,
    expression: &Text,
) -> OneText
    ensures { SaysOn kept.now.scene expression.now (M.told machine.old) result (M.told machine.new) }
{
    match prepare(alloc, expression.as_str().as_bytes()) {
        Ok(question) => one_text(alloc, &question, machine, &kept.scene),
        Err(refusal) => unread(&refusal),
    }
}

/// Why a text isn't asked.
fn unread(refusal: &Refusal) -> OneText
    ensures reads { (text : List ℕ) → Prepares text (Err refusal.now) → Unread text result }
    ensures failed { text_has_failed result ≡ false }
{
    match refusal.located() {
        Some(found) => OneText::Error(found.kind, found.place),
        None => OneText::Memory,
    }
}

/// Asks a test for its truth.
pub(crate) fn judge<M: Machine>(alloc: Global, machine: &mut M, kept: &Kept, test: &Text) -> Truth
    ensures { JudgesOn kept.now.scene test.now (M.told machine.old) result (M.told machine.new) }
{
    match prepare(alloc, test.as_str().as_bytes()) {
        Ok(question) => truth(alloc, &question, machine, &kept.scene),
        Err(refusal) => unread_test(&refusal),
    }
}

/// Why a text isn't asked.
fn unread_test(refusal: &Refusal) -> Truth
    ensures reads { (text : List ℕ) → Prepares text (Err refusal.now) → UnreadTest text result }
    ensures failed { truth_has_failed result ≡ false }
{
    match refusal.located() {
        Some(found) => Truth::Error(found.kind, found.place),
        None => Truth::Memory,
    }
}
