// What holds of every request and of every text that is made. The body of a law calls the laws that its proof stands on.
ghost use Rattle.std.specs.Prelude.{◌≡◌, ◌≤◌, ℕ, true, List, Ok, map};
ghost use Rattle.fix_site.specs.declared.action.Action.{Action};
ghost use Rattle.fix_site.specs.Actions.{IsAction, action_text};
ghost use Rattle.fix_site.specs.Answers.{ReadsSite};
ghost use Rattle.fix_site.specs.Sites.{IsSite};
ghost use Rattle.report_text.specs.declared.report.Report.{Report as TheReport};
ghost use Rattle.report_text.specs.Reports.{IsReport, report_text};
ghost use Rattle.server_text.specs.declared.request.Request.{Request};
ghost use Rattle.server_text.specs.declared.request.Request.TheVariants as asking;
ghost use Rattle.server_text.specs.ActionStates.{before_state, is_stopped, stopped_text};
ghost use Rattle.server_text.specs.Actionsite.{actionsite_of, actionsite_text, longest_actionsite};
ghost use Rattle.server_text.specs.Entries.{Asked, Enters, Reported};
ghost use Rattle.server_text.specs.RequestTexts.{Asks};

use fix_site::{an_action_is_read_again, one_action, one_reading};
use rel_eval::one_plan;
use report_text::{a_report_is_read_again, one_report};
use site_check::one_finding;

/// A request asks one thing.
pub fn one_meaning()
    ensures { (request : Request) (asked other : Asked) → Asks request asked → Asks request other → asked ≡ other }
{
    one_reading();
    one_finding();
    one_plan();
    one_action();
    an_action_is_read_again();
    one_report();
    a_report_is_read_again();
}

/// The text of a report that can be spelled asks that the report is accepted, and nothing else: it is never refused as a text.
pub fn a_written_report_is_read()
    ensures asked { (report : TheReport) → IsReport report
        → Asks (asking.Report (report_text report)) (Enters (Reported report)) }
    ensures only { (report : TheReport) (asked : Asked) → IsReport report
        → Asks (asking.Report (report_text report)) asked → asked ≡ Enters (Reported report) }
{
    a_report_is_read_again();
    one_report();
}

/// The text of a stopped action is that of the action with `state stopped`, and the rest of an action's text tells which one it is.
pub fn the_state_ends_an_action()
    ensures stopped { (action : Action) → is_stopped (action_text action) ≡ action.stopped }
    ensures stops { (action : Action) → stopped_text (action_text action) ≡ action_text (record action { stopped = true }) }
    ensures same { (action other : Action) → IsAction action → IsAction other
        → before_state (action_text action) ≡ before_state (action_text other)
        → action ≡ record other { stopped = action.stopped } }
{
    one_action();
}

/// The text of `actionsite` is that of a site of its actions, where it wouldn't be too long if all of them were stopped.
pub fn actionsite_is_a_site()
    ensures { (version : ℕ) (actions : List Action) → IsSite (actionsite_of version actions)
        → longest_actionsite (map action_text actions) ≤ 4194304
        → ReadsSite (actionsite_text version (map action_text actions)) (Ok (actionsite_of version actions)) }
{}
