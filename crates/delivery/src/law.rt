// What holds of every relay and of every schedule. The body of a law calls the laws that its proof stands on.
ghost use Rattle.std.specs.Prelude.{◌≡◌, ℕ, List, Some};
ghost use Rattle.report_text.specs.declared.report.Report.{Report};
ghost use Rattle.relay_core.specs.ReportKeys.{ReportKey};
ghost use Rattle.relay_core.specs.Relays.{RelayState};
ghost use Rattle.relay_core.specs.ReportsUp.{after_sent, after_up, up_verdict};
ghost use Rattle.delivery.specs.Messages.{carrier_of, relay_of};
ghost use Rattle.delivery.specs.Arrivals.{carried, told};
ghost use Rattle.delivery.specs.Schedules.{Deployment, IsSchedule, Step, reached, start};
ghost use Rattle.delivery.specs.Holdings.{IsDelivered};

use report_text::a_report_is_read_again;
use server_core::{a_reply_says_what_is_held, a_report_is_kept_by_its_number};

/// What a relay answers to a report, and what becomes of its carrier as reports come and become known, rests on that alone: its sites have
/// no part in it.
pub fn a_relay_delivers_as_its_carrier()
    ensures verdict { (relay : RelayState) (report : Report) → up_verdict (relay_of (carrier_of relay)) report ≡ up_verdict relay report }
    ensures up { (relay : RelayState) (report : Report) → carried report (carrier_of relay) ≡ carrier_of (after_up relay report) }
    ensures sent { (relay : RelayState) (key : ReportKey) (digest : List ℕ)
        → told key (Some digest) (carrier_of relay) ≡ carrier_of (after_sent relay key digest) }
{}

/// Over every schedule, whatever the limits and whichever computer has which relay: each accepted report was made by its computer, no two
/// have one computer and number, each report that a computer ever dropped is held with its digest, and no report is answered by a conflict.
pub fn what_is_dropped_is_held()
    ensures { (given : Deployment) (steps : List Step) → IsSchedule given.limits (start given) steps
        → IsDelivered (reached given.limits (start given) steps) }
{
    a_report_is_read_again();
    a_reply_says_what_is_held();
    a_report_is_kept_by_its_number();
}
