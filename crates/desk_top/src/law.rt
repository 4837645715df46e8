// What holds of every run of a command, of every schedule of the delivery of reports, and of every office that is played.
ghost use Rattle.std.specs.Prelude.{◌≡◌, [], All, ℕ, ℤ, List, Some, Err};
ghost use Rattle.sha2.specs.Sha256.{sha256};
ghost use Rattle.desk_base.specs.Flow.{IsFront};
ghost use Rattle.bf_machine.specs.Steps.{SameButPolls};
ghost use Rattle.fix_site.specs.declared.site.Site.{Site};
ghost use Rattle.server_text.specs.Entries.{Entry};
ghost use Rattle.office_text.specs.declared.order.Order.{Order};
ghost use Rattle.delivery.specs.Holdings.{IsDelivered};
ghost use Rattle.delivery.specs.Schedules.{Deployment, IsSchedule, Step, reached, start};
ghost use Rattle.office_rules.specs.ComputerWords.{TurnsComputer};
ghost use Rattle.office_rules.specs.Offices.{Office, PlayedComputer};
ghost use Rattle.office_rules.specs.OfficeSchedules.{ReachesOffice, SaysNoConflict};
ghost use Rattle.office_rules.specs.Plays.{IsFrontOfPlay, IsPlayed};
ghost use Rattle.office_rules.specs.PrintedAnswers.{AreAlike, PrintsAnswers};
ghost use Rattle.server_text.specs.declared.reply.Reply.TheVariants as reply;
ghost use Rattle.http_replies.specs.declared.answer.Answer.TheVariants as answer;
ghost use Rattle.desk_hosts.specs.declared.file.Came.{Came};
ghost use Rattle.desk_hosts.specs.RelayFiles.{passed_on};
ghost use Rattle.desk_serve.specs.declared.step.Stop.{Stop};
ghost use Rattle.desk_runs.specs.KeptFiles.{AsksForFile, FileCall};
ghost use Rattle.desk_runs.specs.KeptFiles as kept_files;
ghost use Rattle.desk_runs.specs.RelaySteps.{RelayScene};
ghost use Rattle.desk_top.specs.declared.command.DeskCommand.{DeskCommand};
ghost use Rattle.desk_serve.specs.OneServing.{IsSteady, LeaveAlike, TellsScene};
ghost use Rattle.desk_runs.specs.OneExchanges.{LinkTold};
ghost use Rattle.desk_top.specs.declared.command.AgentWords.{AgentWords};
ghost use Rattle.desk_top.specs.declared.command.DeskCommand.TheVariants.{Agent, Qna, Relay, Serve, Session};
ghost use Rattle.desk_top.specs.declared.command.RelayWords.{RelayWords};
ghost use Rattle.desk_top.specs.declared.command.ServeWords.{ServeWords};
ghost use Rattle.desk_top.specs.declared.command.SessionWords.{SessionWords};
ghost use Rattle.desk_top.specs.AllDevices.{AllDevices, asking, relaying, rounding, serving, tables};
ghost use Rattle.desk_top.specs.Commands.{AsksUpstream, HoldsTalks, UsesKeeper};
ghost use Rattle.desk_top.specs.OneWorking.{RelayedAlike, RelayedSteadily, RoundedAlike, RoundedSteadily, TellsRelaying, TellsRounding};
ghost use Rattle.desk_top.specs.Relayed.{RelaysAt};
ghost use Rattle.desk_top.specs.RelayedFiles.{BreaksFiles, RelaysFiles};
ghost use Rattle.desk_top.specs.Said.{Did, IsGoodInput, Refuses};
ghost use Rattle.desk_top.specs.Tellings.{AskedAlike, RanAlike, TellsAll, TellsTables};

use agent_core::one_change;
use desk_runs::{
    a_relay_keeps_what_was_asked_for, answers_are_those_without_a_cache, one_relaying, one_rounding,
};
use desk_serve::one_serving;
use office_text::an_office_is_read;
use rel_session::{PlainReader, one_run};
use relay_cache::a_kept_file_was_given;
use session_view::SessionReader;
use site_check::one_finding;
use world_text::{a_world_is_read, one_front};

/// A command says one thing: where no device fails, what is written is fixed by the input, the machine's world, the moments that the clock
/// gives, what is kept or saved, what the peers say and what the upstream replies. So are the keys that `qna` looks up, what is written to
/// peers, what the upstream is asked, what is kept then, and what an agent looks up, does and saves. An input is refused in one way, and
/// none that a command takes is refused.
pub fn one_said()
    ensures bytes { (command : DeskCommand) (input : List ℕ) (old one other : AllDevices) → ¬ HoldsTalks command
        → ¬ AsksUpstream command → ¬ UsesKeeper command → TellsAll (asking old) → RanAlike (asking old) (asking one) (asking other)
        → Did command input old one → Did command input old other → one.sink.held ≡ other.sink.held }
    ensures looks { (input : List ℕ) (old one other : AllDevices) → TellsAll (asking old)
        → RanAlike (asking old) (asking one) (asking other) → Did Qna input old one → Did Qna input old other
        → one.machine.looked ≡ other.machine.looked }
    ensures kept { (asked : SessionWords) (input : List ℕ) (old one other : AllDevices) → TellsTables (tables old)
        → AskedAlike (tables old) (tables one) (tables other) → Did (Session asked) input old one → Did (Session asked) input old other
        → one.sink.held ≡ other.sink.held }
    ensures served { (asked : ServeWords) (held : List ℕ) (coming written : List (List ℕ)) (accepted : List Entry)
        (old one other : AllDevices) → old.sink.held ≡ Some held → TellsScene coming written accepted (serving old)
        → Did (Serve asked) [] old one → Did (Serve asked) [] old other → IsSteady (serving old) (serving one)
        → IsSteady (serving old) (serving other)
        → (one.sink.held ≡ other.sink.held) × LeaveAlike (serving one) (serving other) }
    ensures relayed { (asked : RelayWords) (held : List ℕ) (coming written : List (List ℕ)) (told : LinkTold)
        (old one other : AllDevices) → old.sink.held ≡ Some held → TellsRelaying coming written told (relaying old)
        → Did (Relay asked) [] old one → Did (Relay asked) [] old other → RelayedSteadily (relaying old) (relaying one)
        → RelayedSteadily (relaying old) (relaying other)
        → (one.sink.held ≡ other.sink.held) × RelayedAlike (relaying one) (relaying other) }
    ensures rounded { (asked : AgentWords) (held : List ℕ) (told : LinkTold) (old one other : AllDevices) → old.sink.held ≡ Some held
        → TellsRounding told (rounding old) → Did (Agent asked) [] old one → Did (Agent asked) [] old other
        → RoundedSteadily (rounding old) (rounding one) → RoundedSteadily (rounding old) (rounding other)
        → one.clock.given ≡ other.clock.given
        → (one.sink.held ≡ other.sink.held) × RoundedAlike (rounding one) (rounding other) }
    ensures refusals { (command : DeskCommand) (input a b : List ℕ) → Refuses command input a → Refuses command input b → a ≡ b }
    ensures apart { (command : DeskCommand) (input line : List ℕ) → IsGoodInput command input → ¬ Refuses command input line }
{
    // Proof: this is made of the laws of the parts.
    one_run::<PlainReader>();
    one_run::<SessionReader>();
    one_serving();
    one_relaying();
    one_rounding();
    one_change();
    one_finding();
    one_front();
    a_world_is_read();
    an_office_is_read();
    office_rules::one_play();
}

/// What a relay with a cache does with files: in whole steps its upstream was asked for a file, once, exactly where the file isn't kept after
/// the earlier requests; what was kept was answered without that. The bytes that are answered have the digest that was asked for. Where the
/// upstream gives each file always the same, each answer is that of a relay without a cache.
pub fn a_relay_asks_for_what_it_lacks()
    ensures whole { (asked : RelayWords) (room : ℕ) (input : List ℕ) (old new : AllDevices) → asked.room ≡ Some room
        → Did (Relay asked) input old new → RelaysFiles asked room (relaying old) (relaying new) }
    ensures cut { (asked : RelayWords) (room : ℕ) (why : Stop) (old new : AllDevices) → asked.room ≡ Some room
        → RelaysAt asked (relaying old) (Err why) (relaying new) → BreaksFiles asked room (relaying old) why (relaying new) }
    ensures digests { (room : ℕ) (earlier calls : List FileCall) (old new : RelayScene) (asks : AsksForFile room earlier old calls new)
        (text : List ℕ) → asks.it ≡ answer.Reply (reply.Content text) → sha256 text ≡ asks.digest }
    ensures alike { (upstream : List ℕ → Came) (room : ℕ) (earlier calls : List FileCall) (old new : RelayScene)
        (asks : AsksForFile room earlier old calls new) → All (kept_files.IsSteady upstream) calls
        → asks.it ≡ passed_on asks.digest (upstream asks.digest) }
{
    a_relay_keeps_what_was_asked_for();
    answers_are_those_without_a_cache();
    a_kept_file_was_given();
}

/// Over every schedule of the delivery of reports each accepted report was made by its computer, no two have one computer and number, each
/// report that a computer ever dropped is held with its digest, and no report is answered by a conflict.
pub fn what_is_dropped_is_held()
    ensures { (given : Deployment) (steps : List Step) → IsSchedule given.limits (start given) steps
        → IsDelivered (reached given.limits (start given) steps) }
{
    delivery::what_is_dropped_is_held();
}

/// Orders print one text and leave one office.
pub fn one_play()
    ensures { (orders : List Order) (written other : List ℕ) (one two : Office) → IsPlayed orders written one
        → IsPlayed orders other two → (written ≡ other) × (one ≡ two) }
{
    office_rules::one_play();
}

/// What is written of orders that are played is a front of their play, and every front of it begins that.
pub fn fronts_begin_the_play()
    ensures whole { (orders : List Order) (written : List ℕ) (o : Office) → IsPlayed orders written o → IsFrontOfPlay orders written }
    ensures fronts { (orders : List Order) (written front : List ℕ) (o : Office) → IsPlayed orders written o
        → IsFrontOfPlay orders front → IsFront written front }
{
    office_rules::fronts_begin_the_play();
}

/// Both worlds of each computer of an office stay the same but for polls left. So what is printed of a turn's commands is what its machine
/// answered.
pub fn commands_are_printed_as_answered()
    ensures worlds { (orders : List Order) (written : List ℕ) (o : Office) → IsPlayed orders written o → AreAlike o.computers }
    ensures lines { (name : List ℕ) (moment : ℤ) (accepted : List Entry) (sites : List Site) (old : PlayedComputer) (said : List ℕ)
        (new : PlayedComputer) → SameButPolls old.world old.again → TurnsComputer name moment accepted sites old said new
        → PrintsAnswers name moment old said new }
{
    office_rules::commands_are_printed_as_answered();
}

/// An office that is played is a schedule of the delivery of reports, made of the steps of each order. So no message that was ever sent
/// brings back the word `conflict`, and a line of a report that arrived has the word of its answer.
pub fn played_offices_are_schedules()
    ensures schedule { (orders : List Order) (written : List ℕ) (o : Office) → IsPlayed orders written o → ReachesOffice orders o }
    ensures words { (orders : List Order) (written : List ℕ) (o : Office) → IsPlayed orders written o → All SaysNoConflict o.messages }
{
    office_rules::played_offices_are_schedules();
}
