ghost use Rattle.std.specs.Prelude.{◌≡◌, ◌≢◌, ◌<◌, ◌∷◌, ◌++◌, [], length, All, IfOk, OnErr};
ghost use Rattle.desk_base.specs.Moments.{IsMoment};
ghost use Rattle.bf_world.specs.Answers.{HasMoment, IsGoodAnswer, HasAscendingNames};
ghost use Rattle.bf_world.specs.Done.{FitsCommand, StartsByStart};
ghost use Rattle.bf_world.specs.Shown.{shown};
ghost use Rattle.bf_machine.specs.Looks.{LooksOn};
ghost use Rattle.bf_machine.specs.Acts.{Acts, ActsOn, commands_added, CountsStarted};
ghost use Rattle.bf_machine.specs.Polls.{PollsOn};
ghost use Rattle.bf_machine.specs.Sure.{untouched, sure_view, world_counted};

use crate::unseen::Unseen;
use crate::{Looked, Machine};
use bf_world::{Acted, Answer, Command, Key, Polled, ProcessNo, World};
use rel_lexer::Text;
use std::alloc::{AllocError, Global};
use std::marker::Model;

/// The machine over a described world of which no call fails. It keeps what was done; what was looked up and polled only clauses see.
#[derive(Drop)]
pub struct SureMachine {
    world: World,
    looked: Unseen<Key>,
    acted: Vec<Command>,
    polled: Unseen<u32>,
}

impl Model for SureMachine {
    ghost use Rattle.std.specs.Prelude.{All};
    ghost use Rattle.bf_world.specs.Answers.{HasMoment};
    ghost use Rattle.bf_machine.specs.Sure.{SureState};

    ghost Value = { SureState };

    ghost view = { λ m. record { world = m.world; looked = m.looked; acted = m.acted.items; polled = m.polled } };

    ghost invariant = { λ m. All HasMoment m.acted.items };
}

impl SureMachine {
    /// A machine over this world, on which nothing was asked or done yet. It takes no memory.
    pub fn new(alloc: Global, world: World) -> SureMachine
        ensures { result ≡ untouched world }
    {
        SureMachine {
            world,
            looked: Unseen::new(),
            acted: Vec::new(alloc),
            polled: Unseen::new(),
        }
    }

    /// The machine over the world as it stands, on which nothing was asked or done yet. It takes no memory.
    pub fn begin_anew(&mut self)
        ensures { self.new ≡ untouched self.old.world }
    {
        self.looked = Unseen::new();
        self.acted = Vec::new(*self.acted.allocator());
        self.polled = Unseen::new();
    }

    /// The world.
    pub fn world(&self) -> &World
        ensures { result.now ≡ self.now.world }
    {
        &self.world
    }

    /// The commands that were done, started or refused, in their order.
    pub fn acted(&self) -> &[Command]
        ensures acted { result.now ≡ self.now.acted }
        ensures moments { All HasMoment result.now }
    {
        self.acted.as_slice()
    }

    /// Looks something up.
    fn answer(&mut self, key: &Key) -> Result<Answer, AllocError>
        ensures shown { IfOk result (λ answer. answer ≡ shown self.old.world key.now) }
        ensures good { IfOk result IsGoodAnswer }
        ensures ascending { IfOk result HasAscendingNames }
        ensures kept { IfOk result (λ answer. self.new ≡ record self.old { looked = self.old.looked ++ key.now ∷ [] }) }
        ensures err { OnErr result (self.new ≡ self.old) }
    {
        let answer = self.world.look(key)?;
        self.looked.push(key);
        Ok(answer)
    }

    /// Does a command, and keeps it where it is done, started or refused.
    fn carry_out(&mut self, command: &Command, moment: i64) -> Acted
        requires moment { IsMoment moment }
        requires date { HasMoment command.now }
        ensures acts { Acts self.old.world self.new.world command.now moment result }
        ensures acted { self.new.acted ≡ self.old.acted ++ commands_added command.now result }
        ensures fits { FitsCommand command.now result }
        ensures started { CountsStarted (length self.old.world.started) (length self.new.world.started) result }
        ensures by_start { StartsByStart command.now (length self.old.world.started) (length self.new.world.started) }
        ensures rest { self.new ≡ record self.old { world = self.new.world; acted = self.new.acted } }
        ensures never { result ≢ Acted.Failed }
    {
        let Ok(kept) = command.copy() else {
            return Acted::Memory;
        };
        if self.acted.push(kept).is_err() {
            return Acted::Memory;
        }
        match self.world.act(command, moment) {
            Acted::Done => Acted::Done,
            Acted::Started(process) => Acted::Started(process),
            Acted::Refused(reason) => Acted::Refused(reason),
            Acted::Failed | Acted::Memory => {
                self.acted.pop();
                Acted::Memory
            }
        }
    }
}

impl Machine for SureMachine {
    ghost told = { sure_view };

    fn open(&mut self, _work: &Text) -> Result<(), AllocError>
        ensures { self.new ≡ self.old }
    {
        Ok(())
    }

    fn look(&mut self, key: &Key) -> Looked
        ensures looks { LooksOn key.now (sure_view self.old) result (sure_view self.new) }
        ensures rest { self.new ≡ record self.old { looked = self.new.looked } }
        ensures never { result ≢ Looked.Failed }
    {
        match self.answer(key) {
            Ok(answer) => Looked::Answer(answer),
            Err(_) => Looked::Memory,
        }
    }

    fn act(&mut self, command: &Command, moment: i64) -> Acted
        requires moment { IsMoment moment }
        requires date { HasMoment command.now }
        ensures acts { ActsOn moment command.now (sure_view self.old) result (sure_view self.new) }
        ensures rest { self.new ≡ record self.old { world = self.new.world; acted = self.new.acted } }
        ensures never { result ≢ Acted.Failed }
    {
        self.carry_out(command, moment)
    }

    fn poll(&mut self, process: ProcessNo) -> Polled
        requires { process.0 < length self.old.world.started }
        ensures polls { PollsOn process.0 (sure_view self.old) result (sure_view self.new) }
        ensures rest { self.new ≡ record self.old { world = self.new.world; polled = self.new.polled } }
        ensures never { result ≢ Polled.Failed }
    {
        self.polled.push(&process.0);
        self.world.poll(process.0)
    }

    ghost counted = { λ m. world_counted m.world };
}
