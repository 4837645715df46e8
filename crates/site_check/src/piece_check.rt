// What a piece of a site is refused for.
ghost use Rattle.std.specs.Prelude.{◌≡◌, ℕ, List, length, IfOk, MatchOption};
ghost use Rattle.fix_site.specs.declared.piece.Piece.TheVariants.{Relevance, Script};
ghost use Rattle.rel_eval.specs.Answers.{Prepares};
ghost use Rattle.rel_eval.specs.Questions.{plan_of};
ghost use Rattle.script_text.specs.declared.error.ScriptError.TheVariants.{Memory};
ghost use Rattle.script_text.specs.Readings.{ReadsScript};
ghost use Rattle.script_text.specs.Refusals.{error_line};
ghost use Rattle.site_check.specs.Pieces.{IsNoTruth, IsRefusedPiece, IsTruth, JudgesQuestion, line_in_text, script_error};
ghost use Rattle.site_check.specs.Judgements.{HasNumbers, IsNumbered, JudgesPiece};

use crate::refusal::{PieceRefusal, QuestionFault, ScriptFault};
use fix_site::Piece;
use rel_eval::{Question, Refusal, prepare};
use rel_lexer::Text;
use rel_trace::RelKind;
use rel_value::Kind;
use script_text::{ScriptError, an_error_tells_one_of_the_lines, read_script};
use std::alloc::{AllocError, Global};

/// Why a piece is refused, if it is.
pub(crate) fn refusal_of(alloc: Global, piece: &Piece) -> Result<Option<PieceRefusal>, AllocError>
    requires { IsNumbered piece.now }
    ensures { IfOk result (λ refusal. JudgesPiece piece.now refusal) }
{
    match piece {
        Piece::Relevance { line, text } => refusal_of_question(alloc, *line, text),
        Piece::Script { line, lines } => refusal_of_script(alloc, *line, lines.as_slice()),
    }
}

fn refusal_of_question(
    alloc: Global,
    line: u32,
    text: &Text,
) -> Result<Option<PieceRefusal>, AllocError>
    ensures { IfOk result (λ refusal. JudgesPiece (Relevance line text.now) refusal) }
{
    let Some(fault) = question_fault(alloc, text.as_str())? else {
        return Ok(None);
    };
    Ok(Some(PieceRefusal::Question { line, fault }))
}

/// Why a text is no question that gives one truth; none where it is one. The error is want of memory.
pub fn question_fault(alloc: Global, text: &str) -> Result<Option<QuestionFault>, AllocError>
    ensures { IfOk result (λ fault. JudgesQuestion text.now fault) }
{
    let question = match prepare(alloc, text.as_bytes()) {
        Ok(question) => question,
        Err(refusal) => return Ok(Some(unprepared(&refusal)?)),
    };
    let Some(kind) = fault_of(&question) else {
        return Ok(None);
    };
    Ok(Some(QuestionFault {
        kind,
        place: question.span(),
    }))
}

/// Why a question isn't prepared.
fn unprepared(refusal: &Refusal) -> Result<QuestionFault, AllocError>
    ensures { IfOk result (λ fault. (text : List ℕ) → Prepares text (Err refusal.now) → JudgesQuestion text (Some fault)) }
{
    let Some(found) = refusal.located() else {
        return Err(AllocError);
    };
    Ok(QuestionFault {
        kind: found.kind,
        place: found.place,
    })
}

/// Why a question asks for no truth.
fn fault_of(question: &Question) -> Option<RelKind>
    ensures { MatchOption result (IsTruth (plan_of question.now)) (IsNoTruth (plan_of question.now)) }
{
    let plan = question.plan();
    if plan.is_plural() {
        return Some(RelKind::NotSingular);
    }
    if !plan.kind().is(&Kind::Boolean) {
        return Some(RelKind::Incompatible);
    }
    None
}

fn refusal_of_script(
    alloc: Global,
    first: u32,
    lines: &[Text],
) -> Result<Option<PieceRefusal>, AllocError>
    requires { HasNumbers first (length lines.now) }
    ensures { IfOk result (λ refusal. JudgesPiece (Script first lines.now) refusal) }
{
    let error = match read_script(alloc, lines) {
        Ok(_) => return Ok(None),
        Err(error) => error,
    };
    // the error's line is one of these, so that it has a number of the site's text
    an_error_tells_one_of_the_lines();
    Ok(Some(unread(first, error)?))
}

/// Why the script whose first line has this number isn't read.
fn unread(first: u32, error: ScriptError) -> Result<PieceRefusal, AllocError>
    requires { HasNumbers first (error_line error) }
    ensures { IfOk result (λ refusal.
        (lines : List (List ℕ)) → ReadsScript lines (Err error) → IsRefusedPiece (Script first lines) refusal) }
{
    let Some(fault) = fault_of_script(error) else {
        return Err(AllocError);
    };
    Ok(PieceRefusal::Script {
        line: line_in_text(first, error.line()),
        fault,
    })
}

/// What an error says beside its line.
fn fault_of_script(error: ScriptError) -> Option<ScriptFault>
    ensures { MatchOption result (error ≡ Memory) (λ fault. error ≡ script_error fault (error_line error)) }
{
    match error {
        ScriptError::NoCommand(_) => Some(ScriptFault::NoCommand),
        ScriptError::IfNotClosed(_) => Some(ScriptFault::IfNotClosed),
        ScriptError::StrayElse(_) => Some(ScriptFault::StrayElse),
        ScriptError::BraceNotClosed(_) => Some(ScriptFault::BraceNotClosed),
        ScriptError::CreateNotClosed(_) => Some(ScriptFault::CreateNotClosed),
        ScriptError::Memory => None,
    }
}

/// A line of a script in the text whose line with this number is the script's first.
fn line_in_text(first: u32, line: u32) -> u32
    requires { HasNumbers first line }
    ensures { result ≡ line_in_text first line }
{
    first - 1 + line
}
