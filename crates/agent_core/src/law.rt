ghost use Rattle.std.specs.Prelude.{◌≡◌, ◌≢◌, ◌⊎◌, ◌+◌, ◌<◌, ℕ, List, ◌∷◌, ◌++◌, [], All, Option, None, Some, IsSome, IsSomeAnd, Result, Ok, Err, Bool, true, false};
ghost use Rattle.desk_base.specs.Moments.{IsMoment};
ghost use Rattle.act_rules.specs.Lawful.{AreBounded};
ghost use Rattle.act_rules.specs.Series.{series};
ghost use Rattle.report_text.specs.declared.report.Report.{Report};
ghost use Rattle.bf_machine.specs.Rises.{RoseBy};
ghost use Rattle.bf_machine.specs.Steps.{Step, TakesAll};
ghost use Rattle.script_run.specs.Asking.{When};
ghost use Rattle.agent_text.specs.declared.saved.Saved.{Saved};
ghost use Rattle.agent_text.specs.declared.error.SavedError.{SavedError};
ghost use Rattle.agent_text.specs.declared.error.SavedError.TheVariants.{Memory as NoMemory};
ghost use Rattle.agent_text.specs.Histories.{rows_at};
ghost use Rattle.agent_text.specs.Pockets.{Changes};
ghost use Rattle.agent_text.specs.SavedTexts.{ReadsSaved};
ghost use Rattle.agent_attempt.specs.Attempts.{PlainAttempt};
ghost use Rattle.agent_attempt.specs.ActionContents.{actions_of};
ghost use Rattle.agent_attempt.specs.Supplies.{wanted_of};
ghost use Rattle.line_forms.specs.Names.{IsName};
ghost use Rattle.agent_core.specs.declared.turned.Turned.{Turned};
ghost use Rattle.agent_core.specs.declared.turned.Turned.TheVariants.{Memory, PocketFault, Wants};
ghost use Rattle.agent_core.specs.Agents.{AgentState, shown_state};
ghost use Rattle.agent_core.specs.Calls.{Call, DoAll, IsCall, Point};
ghost use Rattle.agent_core.specs.Wants.{AttemptWantsAtMost};
ghost use Rattle.report_text.specs.declared.answer.Gathered.{Gathered};
ghost use Rattle.report_text.specs.declared.answer.Gathered.TheVariants as gathering;
ghost use Rattle.report_text.specs.declared.answer.Verdict.{Verdict};
ghost use Rattle.fix_site.specs.declared.site.Site.{Site};
ghost use Rattle.agent_state.specs.Changes.{GathersSite, SettlesState, SuppliesHeld, SuppliesState};
ghost use Rattle.agent_core.specs.Opens.{OpensAgent, new_state, opened_state};
ghost use Rattle.agent_core.specs.Schedules.{HasSaved, IsMailOf, IsStep, Mail, restarted, saved, settled};
ghost use Rattle.agent_core.specs.PocketTexts.{IsTextOfSound, TurnSaves};
ghost use Rattle.agent_core.specs.ShownReports.{ShowsAll, ShowsSaved};
ghost use Rattle.agent_core.specs.ToldFaults.{DoAllCounted, faults_told};
ghost use Rattle.agent_core.specs.declared.opening.Opened.TheVariants as opening;
ghost use Rattle.agent_state.specs.States.{IsSound, State, saved_of, text_of};
ghost use Rattle.agent_core.specs.Devices.{Devices, NoFaults, TellsWorld};
ghost use Rattle.agent_core.specs.Stops.{Agrees, AreLawful, BothLawful, HaveRules, Table, TurnHasCause};
ghost use Rattle.agent_core.specs.Turns.{Turn};

use crate::agent::Agent;
use act_rules::{lawful_rows, lawful_rows_stay_lawful};
use agent_text::{a_saved_text_is_read_again, changed_histories_can_be_saved, one_saved};
use line_forms::lines_are_read_again;
use rel_eval::one_plan;
use script_run::a_machine_fault_is_counted;
use script_text::one_verdict;

/// What an agent saves is read back as what it saved, or want of memory stands in its place. An agent that is opened from it has that.
pub fn a_saved_state_is_read_again()
    ensures opened { (s : State) (agent : AgentState) → IsSound s
        → OpensAgent s.computer (Some (Some (text_of s))) (opening.Agent agent) → shown_state agent ≡ opened_state (saved_of s) }
    ensures read { (s : State) (answer : Result Saved SavedError) → IsSound s → ReadsSaved s.computer (text_of s) answer
        → (answer ≡ Ok (saved_of s)) ⊎ (answer ≡ Err NoMemory) }
{
    a_saved_text_is_read_again();
}

/// On a machine that tells its world a turn in which no device fails, and that doesn't end by a pocket's fault or want of memory, is a
/// function of its time, the state and what the devices tell.
pub fn one_turn()
    ensures { (at : When) (s : State) (d : Devices) (answer other : Turned) (s2 s3 : State) (d2 d3 : Devices)
        → TellsWorld d → Turn at s d answer s2 d2 → Turn at s d other s3 d3 → NoFaults d d2 → NoFaults d d3
        → answer ≢ PocketFault → answer ≢ Memory → other ≢ PocketFault → other ≢ Memory
        → (answer ≡ other) × (s2 ≡ s3) × (d2 ≡ d3) }
{
    one_plan();
    one_verdict();
}

/// On devices that tell, a turn in which none fails, and that ends by neither a pocket's fault nor want of memory, leaves them telling. Every
/// turn has its cause: the machine's count doesn't fall, and the pocket's rises only where the turn ends by its fault.
pub fn devices_go_on_telling()
    ensures tells { (at : When) (s s2 : State) (d d2 : Devices) (answer : Turned) → TellsWorld d → Turn at s d answer s2 d2
        → NoFaults d d2 → answer ≢ PocketFault → answer ≢ Memory → TellsWorld d2 }
    ensures cause { (at : When) (s s2 : State) (d d2 : Devices) (answer : Turned) → Turn at s d answer s2 d2 → TurnHasCause d answer d2 }
{
    one_plan();
    one_verdict();
}

/// What a turn does on its machine is looks, commands and polls, one after another, the commands at its moment.
pub fn a_turn_acts_step_by_step()
    ensures { (at : When) (s s2 : State) (d d2 : Devices) (answer : Turned) → Turn at s d answer s2 d2
        → (steps : List Step) × TakesAll at.moment d.machine steps d2.machine }
{}

/// What a call between turns comes to is a function of its arguments and the state: of settling, of supplying, and of gathering but for
/// want of memory. An agent that is opened from a pocket that tells its text shows one state.
pub fn one_change()
    ensures settled { (seq : ℕ) (verdict : Verdict) (s s2 s3 : State) (answer other : Bool) → SettlesState seq verdict s answer s2
        → SettlesState seq verdict s other s3 → (answer ≡ other) × (s2 ≡ s3) }
    ensures gathered { (site : Site) (s s2 s3 : State) (answer other : Gathered) → GathersSite s site answer s2
        → GathersSite s site other s3 → answer ≢ gathering.Memory → other ≢ gathering.Memory → (answer ≡ other) × (s2 ≡ s3) }
    ensures supplied { (digest : List ℕ) (bytes : Option (List ℕ)) (s s2 s3 : State) (answer other : Bool)
        → SuppliesState s digest bytes answer s2 → SuppliesState s digest bytes other s3 → (answer ≡ other) × (s2 ≡ s3) }
    ensures opened { (computer : List ℕ) (told : Option (Option (List ℕ))) (agent other : AgentState) → IsSome told
        → OpensAgent computer told (opening.Agent agent) → OpensAgent computer told (opening.Agent other)
        → shown_state agent ≡ shown_state other }
{
    one_saved();
    lines_are_read_again();
}

/// A turn adds one report at most, which has the next number. Where the pocket has the text of a state that isn't said to be unsaved, it
/// has that of the state at the end of a turn that doesn't end by a pocket's fault or want of memory: its outbox and its next number too.
pub fn a_turn_adds_one_report()
    ensures reports { (at : When) (s s2 : State) (d d2 : Devices) (answer : Turned) → Turn at s d answer s2 d2
        → ((s2.reports ≡ s.reports) × (s2.next ≡ s.next))
        ⊎ ((report : Report) × (report.seq ≡ s.next) × (s2.reports ≡ s.reports ++ report ∷ []) × (s2.next ≡ s.next + 1)) }
    ensures saved { (at : When) (s s2 : State) (d d2 : Devices) (answer : Turned) → Turn at s d answer s2 d2
        → answer ≢ PocketFault → answer ≢ Memory → IsSome d.pocket.saved
        → (s.unsaved ≡ false → d.pocket.saved ≡ Some (Some (text_of s))) → d2.pocket.saved ≡ Some (Some (text_of s2)) }
{}

/// To the delivery of reports a turn that doesn't end by a pocket's fault or want of memory is nothing, a save, or a report that is made
/// and saved. What is saved after it is the mail as it stands, where that was so before it or the state was said to be unsaved. Settling and
/// opening are steps of their own.
pub fn turns_are_steps()
    ensures turn { (at : When) (s s2 : State) (d d2 : Devices) (answer : Turned) (m : Mail) → Turn at s d answer s2 d2
        → IsSound s2 → answer ≢ PocketFault → answer ≢ Memory → IsMailOf m s d.pocket.saved
        → (m2 : Mail) × IsStep m m2 × IsMailOf m2 s2 d2.pocket.saved × ((s.unsaved ≡ true) ⊎ (m ≡ saved m) → m2 ≡ saved m2) }
    ensures settled { (seq : ℕ) (verdict : Verdict) (s s2 : State) (m : Mail) (told : Option (Option (List ℕ)))
        → SettlesState seq verdict s true s2 → IsMailOf m s told → IsMailOf (settled seq m) s2 told }
    ensures opened { (computer : List ℕ) (told : Option (Option (List ℕ))) (s : State) (agent : AgentState) (m : Mail)
        → IsSome told → OpensAgent computer told (opening.Agent agent) → IsMailOf m s told → s.computer ≡ computer
        → IsMailOf (restarted m) (shown_state agent) told }
{
    one_saved();
    lines_are_read_again();
}

/// What a pocket has after a turn, where it tells its text: at every answer what it had, or the text of a sound state of the same
/// computer; and at each answer but a pocket's fault and want of memory the text of the state after the turn, unless there was nothing
/// to save. That is what a mail of this computer saved, and never a bad pocket to an agent of it that is opened.
pub fn pockets_keep_own_texts()
    ensures turn { (at : When) (s s2 : State) (d d2 : Devices) (answer : Turned) → IsMoment at.moment → IsSound s → IsSound s2
        → Turn at s d answer s2 d2 → Changes d.pocket.saved d2.pocket.saved (TurnSaves s answer s2) }
    ensures saved { (computer : List ℕ) (now : Option (List ℕ)) → IsTextOfSound computer now
        → (m : Mail) × (m.computer ≡ computer) × HasSaved m now }
    ensures opened { (m : Mail) (now : Option (List ℕ)) (line : ℕ) → HasSaved m now
        → ¬ OpensAgent m.computer (Some now) (opening.BadPocket line) }
{
    changed_histories_can_be_saved();
    lines_are_read_again();
}

/// An agent is unsaved or shows all its reports, and those that it shows stand in its pocket's text: this holds of each that is opened,
/// and every call keeps it. A turn that doesn't end by a pocket's fault or want of memory leaves all reports shown, and settling does so
/// where all were.
pub fn shown_reports_are_saved()
    ensures opened { (computer : List ℕ) (told : Option (Option (List ℕ))) (agent : AgentState)
        → OpensAgent computer told (opening.Agent agent) → ShowsAll (shown_state agent) × ShowsSaved (shown_state agent) told }
    ensures turn { (at : When) (s s2 : State) (d d2 : Devices) (answer : Turned) → IsMoment at.moment → IsSound s → IsSound s2
        → Turn at s d answer s2 d2 → ShowsSaved s d.pocket.saved
        → ShowsSaved s2 d2.pocket.saved × (answer ≢ PocketFault → answer ≢ Memory → ShowsAll s2) }
    ensures settled { (seq : ℕ) (verdict : Verdict) (s s2 : State) (answer : Bool) (told : Option (Option (List ℕ))) → IsSound s
        → SettlesState seq verdict s answer s2 → ShowsSaved s told → ShowsSaved s2 told × (ShowsAll s → ShowsAll s2) }
    ensures gathered { (site : Site) (s s2 : State) (answer : Gathered) (told : Option (Option (List ℕ)))
        → GathersSite s site answer s2 → ShowsSaved s told → ShowsSaved s2 told }
    ensures supplied { (digest : List ℕ) (bytes : Option (List ℕ)) (s s2 : State) (answer : Bool) (told : Option (Option (List ℕ)))
        → SuppliesState s digest bytes answer s2 → ShowsSaved s told → ShowsSaved s2 told }
{
    changed_histories_can_be_saved();
}

/// An attempt that is held can want so many files at most. After a turn that answers Wants the held attempt wants the file of the answer,
/// so that just that one can be supplied; once it is, and a file is wanted again in the next turn, the attempt can want fewer from then on.
/// So a turn, what it wants, and the turn again come to an end.
pub fn wants_come_to_an_end()
    ensures bounded { (agent : AgentState) (attempt : PlainAttempt) → (shown_state agent).held ≡ Some attempt
        → (most : ℕ) × AttemptWantsAtMost attempt most }
    ensures wanted { (at : When) (s s2 : State) (d d2 : Devices) (id : ℕ) (began : Bool) (digest : List ℕ)
        → Turn at s d (Wants id began digest) s2 d2
        → IsSomeAnd s2.held (λ attempt. (attempt.action.id ≡ id) × (wanted_of attempt.stage ≡ Some digest)) }
    ensures fewer { (at : When) (agent : AgentState) (given s2 : State) (d d2 : Devices) (attempt then : PlainAttempt)
        (bytes : Option (List ℕ)) (id : ℕ) (digest next : List ℕ) (began : Bool) (most : ℕ) → (shown_state agent).held ≡ Some attempt
        → AttemptWantsAtMost attempt most → SuppliesHeld (shown_state agent).held digest bytes true given.held
        → Turn at given d (Wants id began next) s2 d2 → s2.held ≡ Some then
        → (fewer : ℕ) × (fewer < most) × AttemptWantsAtMost then fewer }
{}

/// Over any list of calls, stops among them, rows that each began when a run was owed stay so, the agent's and the saved ones, and an
/// attempt that is held is backed by the saved text.
pub fn stops_leave_rows_lawful()
    ensures { (table : Table) (calls : List Call) (s s2 : State) (saved saved2 : Option (List ℕ)) → All (IsCall table) calls
        → IsSound s → HaveRules table (actions_of s.sites) → BothLawful table s (Some saved) → Agrees s.held (Some saved)
        → DoAll calls s saved s2 saved2 → BothLawful table s2 (Some saved2) × Agrees s2.held (Some saved2) }
{
    changed_histories_can_be_saved();
    lawful_rows_stay_lawful();
    one_saved();
    lines_are_read_again();
}

/// Lawful rows of an action are of no more series of attempts, and no more attempts in a series, than its rules allow. So it is over
/// any list of calls, stops among them, of an agent that begins with nothing.
pub fn attempts_are_bounded()
    ensures lawful { (table : Table) (s : State) (action : ℕ) → AreLawful table s.histories → IsSound s
        → AreBounded (table action) (series (table action).retries (rows_at action s.histories)) }
    ensures calls { (table : Table) (calls : List Call) (computer : List ℕ) (s : State) (saved : Option (List ℕ)) (action : ℕ)
        → IsName computer → All (IsCall table) calls → DoAll calls (new_state computer) None s saved
        → AreBounded (table action) (series (table action).retries (rows_at action s.histories)) }
{
    lawful_rows();
    lawful_rows_stay_lawful();
    stops_leave_rows_lawful();
}

/// Over any list of calls of an agent that was opened over a pocket that tells its text, stops among them, the machine's count rose by at
/// least as many as the turns told faults of the machine, or stands still at its last value: each turn that ends by one, or in which an
/// attempt ends by one, tells one.
pub fn told_faults_are_counted()
    ensures { (calls : List Call) (computer : List ℕ) (told : Option (Option (List ℕ))) (agent : AgentState) (old new : Point)
        (answers : List Turned) → OpensAgent computer told (opening.Agent agent) → old.state ≡ shown_state agent
        → DoAllCounted calls old answers new → RoseBy (faults_told answers) old.faults new.faults }
{
    a_machine_fault_is_counted();
}

/// What an agent shows is a sound state.
pub fn agents_are_sound(agent: &Agent)
    ensures { IsSound (shown_state agent.now) }
{
    // seen, so that the invariant of an agent is known
    let _kept = &agent.kept;
}
