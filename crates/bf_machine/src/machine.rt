ghost use Rattle.std.specs.Prelude.{◌≡◌, ◌<◌, length, IfOk, Some};
ghost use Rattle.desk_base.specs.Moments.{IsMoment};
ghost use Rattle.bf_world.specs.Worlds.{WorldState};
ghost use Rattle.bf_world.specs.Answers.{HasMoment};
ghost use Rattle.bf_machine.specs.Views.{MachineView};
ghost use Rattle.bf_machine.specs.Looks.{LooksOn};
ghost use Rattle.bf_machine.specs.Acts.{ActsOn};
ghost use Rattle.bf_machine.specs.Polls.{PollsOn};

use bf_world::{Acted, Answer, Command, Key, Polled, ProcessNo};
use rel_lexer::Text;
use std::alloc::AllocError;

/// What a look answers.
#[derive(Drop)]
pub enum Looked {
    /// What was looked up.
    Answer(Answer),
    /// The count of faults went up.
    Failed,
    /// Memory ran out.
    Memory,
}

impl Looked {
    /// The same answer once more. The error is want of memory.
    pub fn copy(&self) -> Result<Looked, AllocError>
        ensures { IfOk result (λ looked. looked ≡ self.now) }
    {
        Ok(match self {
            Looked::Answer(answer) => Looked::Answer(answer.copy()?),
            Looked::Failed => Looked::Failed,
            Looked::Memory => Looked::Memory,
        })
    }
}

/// A machine: what is on it can be looked up, and commands are done on it.
pub trait Machine {
    /// What it tells of itself.
    ghost told: { Self → MachineView };

    /// Names the work folder, in which the paths without a leading `/` stand. The error is want of memory.
    fn open(&mut self, work: &Text) -> Result<(), AllocError>
        ensures { told self.new ≡ told self.old };

    /// Looks something up.
    fn look(&mut self, key: &Key) -> Looked
        ensures { LooksOn key.now (told self.old) result (told self.new) };

    /// Does a command at a moment.
    fn act(&mut self, command: &Command, moment: i64) -> Acted
        requires moment { IsMoment moment }
        requires date { HasMoment command.now }
        ensures { ActsOn moment command.now (told self.old) result (told self.new) };

    /// Asks whether a program that was started still runs. It takes no memory.
    fn poll(&mut self, process: ProcessNo) -> Polled
        requires { process.0 < (told self.old).started }
        ensures { PollsOn process.0 (told self.old) result (told self.new) };

    /// A told world has as many programs started as are counted.
    ghost counted: { (m : Self) (w : WorldState) → (told m).world ≡ Some w → (told m).started ≡ length w.started };
}
