// What begins in a turn of an agent, said without the walk of the turn. What an agent shows is a sound state.
ghost use Rattle.std.specs.Prelude.{◌≡◌, ◌≢◌, ◌⊎◌, ℕ, None};
ghost use Rattle.script_run.specs.Asking.{When};
ghost use Rattle.agent_state.specs.States.{IsSound, State, broken_action};
ghost use Rattle.agent_core.specs.declared.turned.Turned.{Turned};
ghost use Rattle.agent_core.specs.declared.turned.Turned.TheVariants.{Idle, MachineFault, Memory, PocketFault};
ghost use Rattle.agent_core.specs.Devices.{Devices};
ghost use Rattle.agent_core.specs.Turns.{Turn};
ghost use Rattle.first_due.specs.Beginnings.{BeginsLeast, FindsNone, SaysBegan};

/// Where a turn answers that an attempt of an action began in it, that action is the least that is due.
pub fn the_least_due_action_begins()
    ensures { (at : When) (s s2 : State) (d d2 : Devices) (answer : Turned) (id : ℕ) → IsSound s → Turn at s d answer s2 d2
        → SaysBegan id answer → BeginsLeast at s d id answer s2 d2 }
{}

/// Where a turn is idle, no gathered action is due.
pub fn an_idle_turn_found_none_due()
    ensures { (at : When) (s s2 : State) (d d2 : Devices) → IsSound s → Turn at s d Idle s2 d2 → FindsNone at s d s2 d2 }
{}

/// Where an attempt is held or one is broken, none begins in the turn.
pub fn a_turn_begins_one_at_most()
    ensures { (at : When) (s s2 : State) (d d2 : Devices) (answer : Turned) (id : ℕ) → IsSound s → Turn at s d answer s2 d2
        → (s.held ≢ None) ⊎ (broken_action s ≢ None) → ¬ SaysBegan id answer }
{
    // Proof: what begins is the least that is due, which is searched for where none is held and none is broken.
    the_least_due_action_begins();
}

/// Where no attempt is held and none is broken, a turn that doesn't end by a fault or want of memory begins the least action that is due,
/// or is idle, and none is due.
pub fn a_free_agent_begins_what_is_due()
    ensures { (at : When) (s s2 : State) (d d2 : Devices) (answer : Turned) → IsSound s → Turn at s d answer s2 d2
        → s.held ≡ None → broken_action s ≡ None → answer ≢ MachineFault → answer ≢ PocketFault → answer ≢ Memory
        → ((answer ≡ Idle) × FindsNone at s d s2 d2) ⊎ ((id : ℕ) × SaysBegan id answer × BeginsLeast at s d id answer s2 d2) }
{}
