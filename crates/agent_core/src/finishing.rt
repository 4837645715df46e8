// The end of a turn: its report, and its last save.
ghost use Rattle.std.specs.Prelude.{◌≡◌, ◌<◌, ◌≤◌, min, [], length, take, true, vec_capacity};
ghost use Rattle.bf_machine.specs.Views.{MachineView};
ghost use Rattle.report_text.specs.Reports.{most_rows};
ghost use Rattle.agent_text.specs.Histories.{report_rows};
ghost use Rattle.agent_core.specs.Inside.{IsSoundKept, state_of};
ghost use Rattle.agent_state.specs.States.{can_report, text_of, with_report};
ghost use Rattle.agent_core.specs.Devices.{devices};
ghost use Rattle.agent_state.specs.Counting.{pending_count};
ghost use Rattle.agent_core.specs.Steps.{Suffices};
ghost use Rattle.agent_core.specs.Turns.{Finishes, LastSave};

use crate::kept_state::KeptState;
use crate::turned::Turned;
use agent_state::{Spare, add_row};
use agent_text::{
    Histories, MOST_REPORTS, Pocket, SaveResult, changed_histories_can_be_saved,
    saved_texts_are_short,
};
use desk_base::Room;
use line_forms::LAST_ID;
use rel_lexer::Text;
use report_text::{Form, MOST_ROWS, Report, ReportRow, ReportRows};

impl KeptState {
    /// Makes a report where one can be made, saves what has changed, and answers `would` where that succeeds.
    pub(crate) fn finish<P: Pocket>(
        &mut self,
        pocket: &mut P,
        mut spare: Spare,
        changed: bool,
        would: Turned,
    ) -> Turned
        requires sound { IsSoundKept self.old }
        requires spare { Suffices 0 spare self.old }
        ensures finishes { (machine : MachineView) → Finishes changed would (state_of self.old)
            (devices machine (P.told pocket.old)) result (state_of self.new) (devices machine (P.told pocket.new)) }
        ensures sound { IsSoundKept self.new }
        ensures held { (state_of self.new).held ≡ (state_of self.old).held }
    {
        saved_texts_are_short();
        if self.can_report() {
            self.report(spare.computer, spare.rows);
            return self.save_last(pocket, &mut spare.text, would);
        }
        if changed {
            return self.save_last(pocket, &mut spare.text, would);
        }
        would
    }

    /// Whether a report can be made: an action is pending, there is room in the outbox, and a number is left.
    pub(crate) fn can_report(&self) -> bool
        requires { IsSoundKept self.now }
        ensures { result ≡ can_report (state_of self.now) }
    {
        if self.outbox.all().len() >= MOST_REPORTS || self.next >= LAST_ID {
            return false;
        }
        self.histories
            .as_slice()
            .iter()
            .any(|history| history.pending)
    }

    /// Adds a report of the first pending actions.
    fn report(&mut self, computer: Text, mut rows: Vec<ReportRow>)
        requires sound { IsSoundKept self.old }
        requires can { can_report (state_of self.old) ≡ true }
        requires computer { computer ≡ self.old.name }
        requires empty { rows.items ≡ [] }
        requires rows { min most_rows (pending_count self.old.histories) ≤ vec_capacity rows }
        requires outbox { length self.old.outbox.reports < self.old.outbox.capacity }
        ensures state { state_of self.new ≡ with_report (state_of self.old) }
        ensures sound { IsSoundKept self.new }
    {
        changed_histories_can_be_saved();
        add_rows(&self.histories, &mut rows);
        self.histories.report(MOST_ROWS);
        self.outbox.push(Report {
            form: Form::Two,
            computer,
            seq: self.next,
            rows: ReportRows::from_vec(rows),
        });
        self.next += 1;
    }

    /// The turn's last save. Where it isn't done the new state stands unsaved.
    fn save_last<P: Pocket>(&mut self, pocket: &mut P, room: &mut Room, would: Turned) -> Turned
        requires sound { IsSoundKept self.old }
        requires within { length (text_of (state_of self.old)) ≤ room.old.capacity }
        ensures saves { (machine : MachineView) → LastSave true would (state_of self.old)
            (devices machine (P.told pocket.old)) result (state_of self.new) (devices machine (P.told pocket.new)) }
        ensures sound { IsSoundKept self.new }
        ensures held { (state_of self.new).held ≡ (state_of self.old).held }
    {
        match self.save_in(pocket, room) {
            SaveResult::Done => would,
            SaveResult::Failed => {
                self.unsaved = true;
                Turned::PocketFault
            }
            SaveResult::Memory => {
                self.unsaved = true;
                Turned::Memory
            }
        }
    }
}

/// Adds what is reported of the first pending actions, for which there is room.
fn add_rows(histories: &Histories, rows: &mut Vec<ReportRow>)
    requires empty { rows.old.items ≡ [] }
    requires room { min most_rows (pending_count histories.now) ≤ vec_capacity rows.old }
    ensures { rows.new.items ≡ take most_rows (report_rows histories.now) }
{
    for history in histories.as_slice() {
        if rows.len() >= MOST_ROWS {
            return;
        }
        add_row(history, rows);
    }
}
