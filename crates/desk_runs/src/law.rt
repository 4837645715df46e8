// What holds of every run of a relay and of an agent.
ghost use Rattle.std.specs.Prelude.{◌≡◌, ℕ, ◌+◌, IsSome, List, Some, [], All, codes};
ghost use Rattle.desk_base.specs.Counts.{Rose};
ghost use Rattle.bf_machine.specs.Rises.{RoseBy};
ghost use Rattle.route_rules.specs.declared.method.Asking.{Asking};
ghost use Rattle.desk_http.specs.declared.host.Called.TheVariants.{Answer};
ghost use Rattle.desk_hosts.specs.declared.file.Came.{Came};
ghost use Rattle.desk_hosts.specs.RelayCalls.{RelayCalls, RelayTells};
ghost use Rattle.desk_hosts.specs.RelayFiles.{passed_on};
ghost use Rattle.std.specs.declared.result.Result.{Result};
ghost use Rattle.desk_rounds.specs.declared.agent_rounds.Rounder.{Rounder};
ghost use Rattle.desk_rounds.specs.declared.agent_rounds.RoundEnd.TheVariants as end;
ghost use Rattle.desk_rounds.specs.declared.way.Upstreams.{Upstreams};
ghost use Rattle.desk_rounds.specs.AgentRounds.{AgentPoint, AgentRound};
ghost use Rattle.desk_rounds.specs.Lines.{Line};
ghost use Rattle.desk_serve.specs.declared.step.Stop.{Stop};
ghost use Rattle.desk_serve.specs.declared.step.Stop.TheVariants as stop;
ghost use Rattle.desk_runs.specs.declared.rounding.AgentStop.{AgentStop};
ghost use Rattle.desk_runs.specs.AgentRuns.{AgentRun, MakesAll, round_count};
ghost use Rattle.desk_runs.specs.AgentRuns as rounds;
ghost use Rattle.desk_runs.specs.AgentSteps.{AgentScene};
ghost use Rattle.desk_runs.specs.AskedUpstreams.{AsksEither};
ghost use Rattle.desk_runs.specs.Counting.{CountsLines, CountsRelayed, CountsRounds, CountsSteps};
ghost use Rattle.desk_runs.specs.Counting.{ToldLinkFaults, WasOpened, door_faults, no_answer_told, told_of_relay};
ghost use Rattle.desk_runs.specs.Counting.{told_of_rounds, turn_fault_told};
ghost use Rattle.desk_runs.specs.KeptFiles.{AsksForFile, FileCall, IsSteady, KeepsFiles, cache_after};
ghost use Rattle.desk_runs.specs.OneRelaying.{IsSteadyRelay, RelayTold, RelaysAlike, TellsRelay};
ghost use Rattle.desk_runs.specs.OneRounding.{AgentTold, AgentsAlike, IsSteadyAgent, TellsAgent};
ghost use Rattle.desk_runs.specs.RelayRuns as relay;
ghost use Rattle.desk_runs.specs.RelayRuns.{RelayRun, RelaysAll, talk_count};
ghost use Rattle.desk_runs.specs.RelaySteps.{BreaksTalk, RelayScene};

use agent_core::{devices_go_on_telling, one_change, one_turn, told_faults_are_counted};
use desk_http::{a_reply_is_one_thing, what_is_heard_is_one_thing};
use fix_site::one_site;
use relay_cache::a_steady_upstream_gives_it_again;
use relay_core::one_keeping;
use route_rules::one_route;
use server_text::one_meaning;

/// How a relay's run ended tells which counts of faults rose.
pub fn what_ends_a_relay_was_counted()
    ensures { (old new : RelayScene) (count : ℕ) (result : Result Unit Stop) → RelaysAll old count result new
        → CountsRelayed result old new }
{}

/// How an agent's run ended tells which counts of faults rose.
pub fn what_ends_rounds_was_counted()
    ensures { (rounder : Rounder) (old new : AgentScene) (count : ℕ) (result : Result Unit AgentStop)
        → MakesAll rounder old count result new → CountsRounds result old new }
{}

/// Of whole steps no more lines say that an exchange failed, and no more conversations were answered `link fault`, both together, than the
/// link counted faults; no more conversations ended by a fault of the door than the door counted, and one less where the door ended the
/// run; and no more lines say that a look failed before an attempt began than the machine counted. From the opening of an agent on, these
/// are counted together with the lines of attempts that ended by a fault of the machine.
pub fn faults_of_steps_were_counted()
    ensures relay { (old new : RelayScene) (run : RelayRun) → relay.Runs old run new → CountsSteps old run new }
    ensures answers { (old new : RelayScene) (run : RelayRun) (count : ℕ) → ToldLinkFaults old run count new
        → RoseBy (count + told_of_relay no_answer_told run) old.link.faults new.link.faults }
    ensures broken { (old mid new : RelayScene) (run : RelayRun) → relay.Runs old run mid → BreaksTalk mid stop.Door new
        → RoseBy (door_faults run + 1) old.door.faults new.door.faults }
    ensures agent { (rounder : Rounder) (old new : AgentScene) (run : AgentRun) → rounds.Runs rounder old run new
        → CountsLines old run new }
    ensures attempts { (rounder : Rounder) (computer : List ℕ) (old new : AgentScene) (run : AgentRun) → WasOpened computer old
        → rounds.Runs rounder old run new
        → RoseBy (told_of_rounds turn_fault_told run) old.point.devices.machine.faults new.point.devices.machine.faults }
{
    told_faults_are_counted();
}

/// A relay answers a fault of the link only where the upstream was asked and the link counted one.
pub fn a_link_fault_was_counted()
    ensures { (old new : RelayTells) (asking : Asking) (path body : List ℕ)
        → RelayCalls old asking path body (Answer 502 (codes "link fault\n")) new → Rose old.files.link.faults new.files.link.faults }
{}

/// A relay with a cache keeps what is kept after the requests for files of its whole steps. For each of them it asks its upstream exactly
/// where the file isn't kept after the earlier ones, and answers as a relay without a cache does; else it answers the kept bytes.
pub fn a_relay_keeps_what_was_asked_for()
    ensures { (room : ℕ) (old new : RelayScene) (run : RelayRun) → old.cache ≡ cache_after room [] → relay.Runs old run new
        → (calls : List FileCall) × KeepsFiles room old run calls new }
{}

/// Where the upstream gives each file always the same, each answer is that of a relay without a cache.
pub fn answers_are_those_without_a_cache()
    ensures { (upstream : List ℕ → Came) (room : ℕ) (earlier calls : List FileCall) (old new : RelayScene)
        (asks : AsksForFile room earlier old calls new) → All (IsSteady upstream) calls
        → asks.it ≡ passed_on asks.digest (upstream asks.digest) }
{
    a_steady_upstream_gives_it_again();
}

/// What a relay does is one thing: where doors and links tell one thing and none fails, runs of as many conversations end these the same
/// ways, print the same lines, write the same to each peer, ask the upstream the same, and leave the same.
pub fn one_relaying()
    ensures { (told : RelayTold) (old start one other : RelayScene) (run again : RelayRun) → TellsRelay told old → TellsRelay told start
        → relay.Runs old run one → relay.Runs start again other → talk_count run ≡ talk_count again → IsSteadyRelay old one
        → IsSteadyRelay start other → (run ≡ again) × RelaysAlike one other }
{
    one_route();
    what_is_heard_is_one_thing();
    a_reply_is_one_thing();
    one_meaning();
    one_site();
    one_keeping();
}

/// In a whole round an agent with two upstreams asks the first, and from the first exchange on that fails the second.
pub fn a_round_turns_once()
    ensures { (rounder : Rounder) (two : Upstreams) (old new : AgentPoint) (lines : List Line) → rounder.upstreams ≡ Some two
        → AgentRound rounder old end.Done lines new → AsksEither two old.at.way.link new.at.way.link }
{}

/// What an agent does is one thing: where links, machines and pockets tell one thing and none fails, and clocks give the same moments, as
/// many rounds print the same lines, ask the upstream the same, look up, do and save the same, and leave the same.
pub fn one_rounding()
    ensures { (rounder : Rounder) (told : AgentTold) (old start one other : AgentScene) (run again : AgentRun) → TellsAgent told old
        → TellsAgent told start → IsSome old.point.clock.given → IsSome start.point.clock.given → rounds.Runs rounder old run one
        → rounds.Runs rounder start again other → round_count run ≡ round_count again → IsSteadyAgent old one
        → IsSteadyAgent start other → one.point.clock.given ≡ other.point.clock.given → (run ≡ again) × AgentsAlike one other }
{
    a_reply_is_one_thing();
    one_site();
    one_turn();
    devices_go_on_telling();
    one_change();
}
