// What holds of whatever an agent saves. The body of a law calls the laws that its proof stands on.
ghost use Rattle.std.specs.Prelude.{◌≡◌, ◌≤◌, ◌<◌, ◌+◌, ◌^◌, ◌⊎◌, ℕ, ℤ, List, Result, length, IfSome, IsSomeAnd};
ghost use Rattle.desk_base.specs.Moments.{IsMoment};
ghost use Rattle.line_forms.specs.Numbers.{IsId};
ghost use Rattle.line_forms.specs.Lines.{lines_text};
ghost use Rattle.act_rules.specs.declared.row.Note.{Note};
ghost use Rattle.act_rules.specs.declared.row.Outcome.{Outcome};
ghost use Rattle.act_rules.specs.declared.row.Row.{Row};
ghost use Rattle.act_rules.specs.Rows.{HasEnded, HasMoments, last_row};
ghost use Rattle.report_text.specs.declared.form.Form.{Form};
ghost use Rattle.agent_text.specs.declared.error.SavedError.{SavedError};
ghost use Rattle.agent_text.specs.declared.error.SavedError.TheVariants.{Memory};
ghost use Rattle.agent_text.specs.declared.saved.Saved.{Saved};
ghost use Rattle.agent_text.specs.SavedRows.{IsSavedNote, IsSavedRow};
ghost use Rattle.agent_text.specs.Histories.{AreHistories, PlainHistory, rows_at, with_begun, with_cleared, with_ended, with_reported};
ghost use Rattle.agent_text.specs.SavedTexts.{IsSaved, IsSavedBy, ReadsSaved, most_bytes, saved_lines, saved_text};

use line_forms::lines_are_read_again;
use report_text::reports_are_short;

/// A text is what one computer saved at most, in one form.
pub fn one_saved()
    ensures { (computer : List ℕ) (form other_form : Form) (saved other : Saved) → IsSavedBy computer form saved
        → IsSavedBy computer other_form other → lines_text (saved_lines form saved) ≡ lines_text (saved_lines other_form other)
        → (form ≡ other_form) × (saved ≡ other) }
{
    lines_are_read_again();
}

/// What was saved is read again, or want of memory stands in its place.
pub fn a_saved_text_is_read_again()
    ensures { (saved : Saved) (answer : Result Saved SavedError) → IsSaved saved
        → ReadsSaved saved.computer (saved_text saved) answer → (answer ≡ Ok saved) ⊎ (answer ≡ Err Memory) }
{
    lines_are_read_again();
}

/// The most bytes of a saved text: room for one is reckoned by this.
pub fn saved_texts_are_short()
    ensures { (saved : Saved) → IsSaved saved → length (saved_text saved) ≤ most_bytes saved.histories saved.reports }
{
    reports_are_short();
}

/// Histories stay what can be saved where an attempt begins, ends or is cleared and where pending ones are reported; an ended,
/// cleared or reported one needs no more bytes.
pub fn changed_histories_can_be_saved()
    ensures begun { (hs : List PlainHistory) (action : ℕ) (row : Row) → AreHistories hs → IsId action
        → IfSome (last_row (rows_at action hs)) HasEnded → length (rows_at action hs) + 1 < 2 ^ 32
        → row.number ≡ length (rows_at action hs) + 1 → HasMoments row → IsSavedRow row
        → AreHistories (with_begun action row hs) }
    ensures ended { (hs : List PlainHistory) (action : ℕ) (moment : ℤ) (outcome : Outcome) (note : Note) → AreHistories hs
        → IsMoment moment → IsSomeAnd (last_row (rows_at action hs)) (λ row. row.end ≡ None) → IsSavedNote outcome note
        → AreHistories (with_ended action moment outcome note hs) }
    ensures cleared { (hs : List PlainHistory) (action : ℕ) (moment : ℤ) → AreHistories hs → IsMoment moment
        → IsSomeAnd (last_row (rows_at action hs)) HasEnded → AreHistories (with_cleared action moment hs) }
    ensures reported { (hs : List PlainHistory) (most : ℕ) → AreHistories hs → AreHistories (with_reported most hs) }
{}
