// What the texts of requests say.
ghost use Rattle.std.specs.Prelude.{◌≡◌, ◌≤◌, ◌-◌, List, ℕ, length, IfOk, Result};
ghost use Rattle.fix_site.specs.declared.error.SiteError.{SiteError};
ghost use Rattle.fix_site.specs.Answers.{ReadsAction, ReadsSite};
ghost use Rattle.server_text.specs.RequestTexts.{ReadsIssued, ReadsPublished, ReadsReported, Tells, line_count, refused_line};
ghost use Rattle.server_text.specs.TextParts.{IsUnreadSite, IsUnreadAction, JudgesTarget};

use crate::text_error::TextError;
use fix_site::{Action, Site, SiteError, Target, a_site_has_few_lines, read_action, read_site};
use report_text::{Report, ReportError, read_report};
use site_check::{PieceRefusal, question_fault, refusal_of_site};
use std::alloc::{AllocError, Global};

/// The line of an action's target, where that is a question.
const TARGET_LINE: u32 = 5;

/// Reads a text that is to be published: a site other than `actionsite`, of which no question and no script is refused. The error
/// is the line that is told of the text, or want of memory, here and below.
pub fn read_published(alloc: Global, text: &[u8]) -> Result<Site, TextError>
    ensures { Tells (ReadsPublished text.now) result }
{
    let site = match read_site(alloc, text) {
        Ok(site) => site,
        Err(error) => return Err(unread_site(text, error)),
    };
    if site.name.as_str() == "actionsite" {
        return Err(TextError::BadText(1));
    }
    // Proof: each line of the site has a number of 32 bits.
    a_site_has_few_lines();
    match refusal_of_site(alloc, &site)? {
        Some(refusal) => Err(TextError::BadText(refused_line(refusal))),
        None => Ok(site),
    }
}

/// Why a text isn't that of a site.
#[tactic(auto, using(crate::proofs::Refusing::whole_text))]
fn unread_site(text: &[u8], error: SiteError) -> TextError
    requires { ReadsSite text.now (Err error) }
    ensures { IsUnreadSite text.now result }
{
    match error {
        SiteError::BadLine(line) => TextError::BadText(line),
        SiteError::TwiceId(line) => TextError::BadText(line),
        SiteError::WrongDigest { .. } => TextError::BadText(line_count(text)),
        SiteError::TooLong => TextError::BadText(0),
        SiteError::Memory => TextError::Memory,
    }
}

/// The line of a site's text that is refused.
fn refused_line(refusal: PieceRefusal) -> u32
    ensures { result ≡ refused_line refusal }
{
    match refusal {
        PieceRefusal::Question { line, .. } => line,
        PieceRefusal::Script { line, .. } => line,
    }
}

/// The number of LFs of a text.
fn line_count(text: &[u8]) -> u32
    requires { length text.now ≤ 4194304 }
    ensures { result ≡ line_count text.now }
{
    text.iter().filter(|byte| **byte == b'\n').count() as u32
}

/// Reads a text that is to be acted on: an action that isn't stopped, whose target, where it is a question, asks for one truth.
pub fn read_issued(alloc: Global, text: &[u8]) -> Result<Action, TextError>
    ensures { Tells (ReadsIssued text.now) result }
{
    let action = match read_action(alloc, text) {
        Ok(action) => action,
        Err(error) => return Err(unread_action(error)),
    };
    if !asks_for_truth(alloc, &action.target)? {
        return Err(TextError::BadText(TARGET_LINE));
    }
    if action.stopped {
        return Err(TextError::BadText(line_count(text).saturating_sub(1)));
    }
    Ok(action)
}

/// Why a text isn't that of an action.
fn unread_action(error: SiteError) -> TextError
    ensures { (text : List ℕ) → ReadsAction text (Err error) → IsUnreadAction text result }
{
    match error {
        SiteError::BadLine(line) | SiteError::TwiceId(line) => TextError::BadText(line),
        SiteError::WrongDigest { .. } | SiteError::TooLong => TextError::BadText(0),
        SiteError::Memory => TextError::Memory,
    }
}

/// Whether a target is no question, or one that asks for one truth.
fn asks_for_truth(alloc: Global, target: &Target) -> Result<bool, AllocError>
    ensures { IfOk result (λ good. JudgesTarget target.now good) }
{
    match target {
        Target::Where(question) => Ok(question_fault(alloc, question.as_str())?.is_none()),
        _ => Ok(true),
    }
}

/// Reads the text of a report.
pub fn read_reported(alloc: Global, text: &[u8]) -> Result<Report, TextError>
    ensures { Tells (ReadsReported text.now) result }
{
    match read_report(alloc, text) {
        Ok(report) => Ok(report),
        Err(ReportError::BadReport(line)) => Err(TextError::BadText(line)),
        Err(ReportError::TooLong) => Err(TextError::BadText(0)),
        Err(ReportError::Memory) => Err(TextError::Memory),
    }
}
