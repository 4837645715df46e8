// What holds of machines that tell their world.
ghost use Rattle.std.specs.Prelude.{◌≡◌, ℤ, List, Some};
ghost use Rattle.bf_world.specs.declared.command.Command.{Command};
ghost use Rattle.bf_world.specs.Done.{done};
ghost use Rattle.bf_world.specs.Worlds.{WorldState};
ghost use Rattle.bf_machine.specs.Views.{MachineView};
ghost use Rattle.bf_machine.specs.Steps.{AnswersAs, SameButPolls, Steady, Step, TakesAll, answered_in};

/// Worlds that are the same but for the polls that are left answer each command alike, and are the same but for those afterwards. So what
/// is done on a machine at one moment, where no call fails, is answered as in the world before it, command by command, and as in any world
/// that is the same but for polls left.
pub fn commands_are_answered_alike()
    ensures one { (moment : ℤ) (w other : WorldState) (command : Command) → SameButPolls w other
        → ((done other command moment).answer ≡ (done w command moment).answer)
        × SameButPolls (done w command moment).after (done other command moment).after }
    ensures all { (moment : ℤ) (old new : MachineView) (steps : List Step) (w other : WorldState) → old.world ≡ Some w
        → SameButPolls w other → Steady old new → TakesAll moment old steps new → AnswersAs moment old (answered_in steps) new other }
{}
