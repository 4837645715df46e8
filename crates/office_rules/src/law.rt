// What holds of every office that is played. The body of a law calls the laws that its proof stands on.
ghost use Rattle.std.specs.Prelude.{◌≡◌, All, List, ℕ, ℤ};
ghost use Rattle.desk_base.specs.Flow.{IsFront};
ghost use Rattle.bf_machine.specs.Steps.{SameButPolls};
ghost use Rattle.fix_site.specs.declared.site.Site.{Site};
ghost use Rattle.server_text.specs.Entries.{Entry};
ghost use Rattle.office_text.specs.declared.order.Order.{Order};
ghost use Rattle.office_rules.specs.ComputerWords.{TurnsComputer};
ghost use Rattle.office_rules.specs.Offices.{Office, PlayedComputer};
ghost use Rattle.office_rules.specs.OfficeSchedules.{ReachesOffice, SaysNoConflict};
ghost use Rattle.office_rules.specs.Plays.{IsFrontOfPlay, IsPlayed};
ghost use Rattle.office_rules.specs.PrintedAnswers.{AreAlike, PrintsAnswers};

use agent_core::{
    a_turn_acts_step_by_step, devices_go_on_telling, one_change, one_turn, turns_are_steps,
};
use bf_machine::commands_are_answered_alike;
use delivery::what_is_dropped_is_held;
use fix_site::one_reading;
use group_core::one_list_of_members;
use group_sample::one_sample;
use server_text::one_meaning;

/// Orders print one text and leave one office.
pub fn one_play()
    ensures { (orders : List Order) (written other : List ℕ) (one two : Office) → IsPlayed orders written one
        → IsPlayed orders other two → (written ≡ other) × (one ≡ two) }
{
    one_meaning();
    one_reading();
    one_turn();
    devices_go_on_telling();
    one_change();
    one_sample();
    one_list_of_members();
}

/// What is written of orders that are played is a front of their play, and every front of it begins that.
pub fn fronts_begin_the_play()
    ensures whole { (orders : List Order) (written : List ℕ) (o : Office) → IsPlayed orders written o → IsFrontOfPlay orders written }
    ensures fronts { (orders : List Order) (written front : List ℕ) (o : Office) → IsPlayed orders written o
        → IsFrontOfPlay orders front → IsFront written front }
{
    one_meaning();
    one_reading();
    one_turn();
    devices_go_on_telling();
    one_change();
    one_sample();
    one_list_of_members();
}

/// Both worlds of each computer stay the same but for polls left. So what is printed of a turn's commands is what its machine answered.
pub fn commands_are_printed_as_answered()
    ensures worlds { (orders : List Order) (written : List ℕ) (o : Office) → IsPlayed orders written o → AreAlike o.computers }
    ensures lines { (name : List ℕ) (moment : ℤ) (accepted : List Entry) (sites : List Site) (old : PlayedComputer) (said : List ℕ)
        (new : PlayedComputer) → SameButPolls old.world old.again → TurnsComputer name moment accepted sites old said new
        → PrintsAnswers name moment old said new }
{
    a_turn_acts_step_by_step();
    commands_are_answered_alike();
}

/// What is played is a schedule of the delivery of reports, under the desk's limits and the relays and computers that the orders name: it
/// is made of the steps of each order, and reaches what of the office matters for the delivery. So no message that was ever sent brings
/// back the word `conflict`, and a line of a report that arrived has the word of its answer.
pub fn played_offices_are_schedules()
    ensures schedule { (orders : List Order) (written : List ℕ) (o : Office) → IsPlayed orders written o → ReachesOffice orders o }
    ensures words { (orders : List Order) (written : List ℕ) (o : Office) → IsPlayed orders written o → All SaysNoConflict o.messages }
{
    turns_are_steps();
    what_is_dropped_is_held();
}
