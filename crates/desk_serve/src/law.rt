// What holds of every run of conversations. The body of a law calls the laws that its proof stands on.
ghost use Rattle.std.specs.Prelude.{◌≡◌, ℕ, ◌+◌, List};
ghost use Rattle.std.specs.declared.result.Result.{Result};
ghost use Rattle.bf_machine.specs.Rises.{RoseBy};
ghost use Rattle.desk_http.specs.declared.talk.Met.TheVariants.{Answered};
ghost use Rattle.server_text.specs.Entries.{Entry};
ghost use Rattle.server_core.specs.declared.limits.Limits.{Limits};
ghost use Rattle.desk_serve.specs.declared.step.Stop.{Stop};
ghost use Rattle.desk_serve.specs.declared.step.Stop.TheVariants as stop;
ghost use Rattle.desk_serve.specs.OneServing.{IsSteady, LeaveAlike, TellsScene};
ghost use Rattle.desk_serve.specs.ServeCounts.{CountsServed, CountsTalks, ended_so, is_door_fault};
ghost use Rattle.desk_serve.specs.ServeRuns.{Run, Runs, ServesAll, talk_count};
ghost use Rattle.desk_serve.specs.ServeSteps.{Breaks, Scene, Serves};

use desk_hosts::a_keeper_fault_was_counted;
use desk_http::what_is_heard_is_one_thing;
use route_rules::one_route;
use server_text::one_meaning;

/// Of whole conversations no more were answered 500 than the keeper counted faults, and no more ended by a fault of the door than the door
/// counted; one less where the door ended the run.
pub fn faults_of_conversations_were_counted()
    ensures whole { (limits : Limits) (old new : Scene) (run : Run) → Runs limits old run new → CountsTalks old run new }
    ensures broken { (limits : Limits) (old mid new : Scene) (run : Run) → Runs limits old run mid → Breaks limits mid stop.Door new
        → RoseBy (ended_so is_door_fault run + 1) old.door.faults new.door.faults }
{
    a_keeper_fault_was_counted();
}

/// How serving ended tells which counts of faults rose.
pub fn what_ends_serving_was_counted()
    ensures { (limits : Limits) (old new : Scene) (count : ℕ) (result : Result Unit Stop) → ServesAll limits old count result new
        → CountsServed result old new }
{
    a_keeper_fault_was_counted();
}

/// No whole conversation is answered 503, so that want of memory is told in the last one alone.
pub fn want_of_memory_is_told_last()
    ensures { (limits : Limits) (old new : Scene) → ¬ Serves limits old (Answered 503) new }
{}

/// What is served is one thing: where doors and keepers tell all and none fails, as many conversations with the same peers over the same
/// tables end the same ways, write the same to each peer and leave the same tables.
pub fn one_serving()
    ensures { (limits : Limits) (coming written : List (List ℕ)) (accepted : List Entry) (old start one other : Scene) (run again : Run)
        → TellsScene coming written accepted old → TellsScene coming written accepted start → Runs limits old run one
        → Runs limits start again other → talk_count run ≡ talk_count again → IsSteady old one → IsSteady start other
        → (run ≡ again) × LeaveAlike one other }
{
    one_route();
    what_is_heard_is_one_thing();
    one_meaning();
    a_keeper_fault_was_counted();
}
