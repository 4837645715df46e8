// What holds of every list of accepted requests. The body of a law calls the laws that its proof stands on.
ghost use Rattle.std.specs.Prelude.{◌≡◌, ◌≢◌, ◌<◌, ◌↔◌, ◌⊎◌, ℕ, List, Ok, Some, Contains, codes, count_by};
ghost use Rattle.sha2.specs.Sha256.{sha256};
ghost use Rattle.fix_site.specs.declared.action.Action.{Action};
ghost use Rattle.fix_site.specs.declared.block.Block.TheVariants.{Action as action_block};
ghost use Rattle.fix_site.specs.declared.site.Site.{Site};
ghost use Rattle.fix_site.specs.Actions.{IsAction, action_text};
ghost use Rattle.fix_site.specs.Answers.{ReadsSite};
ghost use Rattle.desk_keep.specs.declared.change.Change.TheVariants as change;
ghost use Rattle.desk_keep.specs.Tables.{AreRows};
ghost use Rattle.server_core.specs.declared.limits.Limits.{Limits};
ghost use Rattle.server_text.specs.declared.reply.Reply.TheVariants as told;
ghost use Rattle.report_text.specs.declared.report.Report.{Report};
ghost use Rattle.report_text.specs.Reports.{report_text};
ghost use Rattle.server_text.specs.declared.request.Request.{Request};
ghost use Rattle.server_text.specs.declared.reply.Reply.{Reply};
ghost use Rattle.server_text.specs.Entries.{Enters, Entry, Reported, SiteText};
ghost use Rattle.server_core.specs.CallAnswers.{Answers, AnswersAll, AreAccepted, after};
ghost use Rattle.server_core.specs.Replies.{reply};
ghost use Rattle.server_core.specs.AcceptedTables.{action_at, actions_version, computer_at, file_at, report_at, result_at, site_at, view};
ghost use Rattle.server_core.specs.TableViews.{IsHeld, ShowsAction, ShowsComputer, ShowsFile, ShowsReport, ShowsResult, ShowsSite, changes_actions};

use desk_keep::{a_row_is_found_where_it_was_put, one_key, rows_stay_rows};
use fix_site::{one_action, one_site};
use server_text::{actionsite_is_a_site, the_state_ends_an_action};

/// The tables are rows in order and in their forms.
pub fn the_tables_are_rows()
    ensures { (accepted : List Entry) → AreAccepted accepted → AreRows (view accepted) }
{
    rows_stay_rows();
}

/// What was accepted once isn't accepted again, whatever came since.
pub fn what_is_accepted_stays()
    ensures { (accepted : List Entry) (limits : Limits) (entry : Entry) → AreAccepted accepted → Contains accepted entry
        → after accepted limits (Enters entry) ≡ accepted }
{
    a_row_is_found_where_it_was_put();
    one_key();
}

/// After every reply, and after replies to requests in their order, what is accepted is what was asked for and accepted.
pub fn answers_leave_what_is_accepted()
    ensures one { (limits : Limits) (accepted later : List Entry) (request : Request) (answered : Reply) → AreAccepted accepted
        → Answers limits accepted request answered later → AreAccepted later }
    ensures all { (limits : Limits) (accepted last : List Entry) (requests : List Request) (replies : List Reply) → AreAccepted accepted
        → AnswersAll limits accepted requests replies last → AreAccepted last }
{}

/// What a reply says of a report. At Ok and Again it is held then, by its digest. At Conflict another one of its computer and number is held,
/// with the digest that is told.
pub fn a_reply_says_what_is_held()
    ensures held { (accepted : List Entry) (limits : Limits) (report : Report) → AreAccepted accepted
        → (reply accepted limits (Enters (Reported report)) ≡ told.Ok) ⊎ (reply accepted limits (Enters (Reported report)) ≡ told.Again)
        → IsHeld (after accepted limits (Enters (Reported report))) report.computer report.seq (sha256 (report_text report)) }
    ensures another { (accepted : List Entry) (limits : Limits) (report : Report) (digest : List ℕ) → AreAccepted accepted
        → reply accepted limits (Enters (Reported report)) ≡ told.Conflict digest
        → IsHeld accepted report.computer report.seq digest × (digest ≢ sha256 (report_text report)) }
{
    a_row_is_found_where_it_was_put();
    one_key();
}

/// The row of a site is that of the last one of its name that was published.
pub fn the_last_site_is_kept()
    ensures { (accepted : List Entry) (name : List ℕ) → name ≢ codes "actionsite"
        → ShowsSite accepted name (site_at name (view accepted)) }
{
    a_row_is_found_where_it_was_put();
    one_key();
}

/// The row of an action has its text, stopped or not, and the digest of the text as it came.
pub fn an_action_is_kept_as_it_came()
    ensures { (accepted : List Entry) (id : ℕ) → AreAccepted accepted → ShowsAction accepted id (action_at id (view accepted)) }
{
    a_row_is_found_where_it_was_put();
    one_key();
    the_state_ends_an_action();
}

/// The version of `actionsite` is the number of actions and stops that were accepted.
pub fn actionsite_counts_actions_and_stops()
    ensures { (accepted : List Entry) → AreAccepted accepted
        → actions_version (view accepted) ≡ count_by changes_actions accepted }
{
    a_row_is_found_where_it_was_put();
    one_key();
}

/// The row of a file has bytes of its digest.
pub fn a_file_is_kept_by_its_digest()
    ensures { (accepted : List Entry) (digest : List ℕ) → ShowsFile accepted digest (file_at digest (view accepted)) }
{
    a_row_is_found_where_it_was_put();
    one_key();
}

/// A computer is kept where a report of it was accepted.
pub fn a_computer_is_kept_that_reported()
    ensures { (accepted : List Entry) (computer : List ℕ)
        → ShowsComputer accepted computer (computer_at computer (view accepted)) }
{
    a_row_is_found_where_it_was_put();
    one_key();
}

/// The row of a report has the digest of the one that was accepted.
pub fn a_report_is_kept_by_its_number()
    ensures { (accepted : List Entry) (computer : List ℕ) (seq : ℕ) → AreAccepted accepted
        → ShowsReport accepted computer seq (report_at computer seq (view accepted)) }
{
    a_row_is_found_where_it_was_put();
    one_key();
}

/// The result of an action on a computer is that of the report with the greatest number.
pub fn the_greatest_number_is_kept()
    ensures { (accepted : List Entry) (computer : List ℕ) (action : ℕ)
        → ShowsResult accepted computer action (result_at computer action (view accepted)) }
{
    a_row_is_found_where_it_was_put();
    one_key();
}

/// A text that is answered for a site is that of a site of this name, of a greater version than the one that was told. That of
/// `actionsite` has the actions as they are kept.
pub fn an_answered_site_is_read()
    ensures site { (accepted : List Entry) (limits : Limits) (name : List ℕ) (version : ℕ) (text : List ℕ) → AreAccepted accepted
        → reply accepted limits (SiteText name version) ≡ told.Site text
        → (site : Site) × ReadsSite text (Ok site) × (site.name ≡ name) × (version < site.version) }
    ensures actions { (accepted : List Entry) (limits : Limits) (version : ℕ) (text : List ℕ) (site : Site) (action : Action)
        → AreAccepted accepted → reply accepted limits (SiteText (codes "actionsite") version) ≡ told.Site text
        → ReadsSite text (Ok site) → IsAction action
        → Contains site.blocks (action_block action)
        ↔ ((digest : List ℕ) × (action_at action.id (view accepted) ≡ Some (change.Action action.id (action_text action) digest))) }
{
    actionsite_is_a_site();
    one_site();
    one_action();
}
