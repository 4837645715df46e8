ghost use Rattle.std.specs.Prelude.{◌≡◌, ◌<◌, ◌∷◌, ◌++◌, [], length, All, IfOk, OnErr};
ghost use Rattle.desk_base.specs.Moments.{IsMoment};
ghost use Rattle.bf_world.specs.Answers.{HasMoment, IsGoodAnswer, HasAscendingNames};
ghost use Rattle.bf_world.specs.Shown.{shown};
ghost use Rattle.bf_machine.specs.Looks.{LooksOn};
ghost use Rattle.bf_machine.specs.Acts.{ActsOn};
ghost use Rattle.bf_machine.specs.Polls.{PollsOn};
ghost use Rattle.bf_machine.specs.Sure.{world_counted};
ghost use Rattle.bf_machine.specs.Plain.{unasked, plain_view, LooksPlain, ActsPlain, PollsPlain};

use crate::{Looked, Machine, SureMachine};
use bf_world::{Acted, Answer, Command, Key, Polled, ProcessNo, World};
use desk_base::Calls;
use rel_lexer::Text;
use std::alloc::{AllocError, Global};
use std::marker::Model;

/// The machine over a described world. It keeps what was looked up and done, and tells what was polled.
#[derive(Drop)]
pub struct PlainMachine {
    machine: SureMachine,
    looked: Vec<Key>,
    looks: Calls,
    acts: Calls,
    polls: Calls,
}

impl Model for PlainMachine {
    ghost use Rattle.bf_machine.specs.Plain.{PlainState};

    ghost Value = { PlainState };

    ghost view = { λ m. record {
      world = m.machine.world;
      looked = m.looked.items;
      acted = m.machine.acted;
      polled = m.machine.polled;
      looks = m.looks;
      acts = m.acts;
      polls = m.polls;
    } };
}

impl PlainMachine {
    /// A machine over this world. The looks, acts and polls with these numbers fail, each counted from 1.
    pub fn new(
        alloc: Global,
        world: World,
        looks: Vec<u32>,
        acts: Vec<u32>,
        polls: Vec<u32>,
    ) -> PlainMachine
        ensures { result ≡ unasked world looks.items acts.items polls.items }
    {
        PlainMachine {
            machine: SureMachine::new(alloc, world),
            looked: Vec::new(alloc),
            looks: Calls::new(alloc, looks),
            acts: Calls::new(alloc, acts),
            polls: Calls::new(alloc, polls),
        }
    }

    /// The world.
    pub fn world(&self) -> &World
        ensures { result.now ≡ self.now.world }
    {
        self.machine.world()
    }

    /// The keys of the looks that answered, in their order.
    pub fn looked(&self) -> &[Key]
        ensures { result.now ≡ self.now.looked }
    {
        self.looked.as_slice()
    }

    /// The commands that were done, started or refused, in their order.
    pub fn acted(&self) -> &[Command]
        ensures acted { result.now ≡ self.now.acted }
        ensures moments { All HasMoment result.now }
    {
        self.machine.acted()
    }

    /// Looks something up, and keeps its key, for which the room is taken first.
    fn answer(&mut self, key: &Key) -> Result<Answer, AllocError>
        ensures shown { IfOk result (λ answer. answer ≡ shown self.old.world key.now) }
        ensures good { IfOk result IsGoodAnswer }
        ensures ascending { IfOk result HasAscendingNames }
        ensures kept { IfOk result (λ answer. self.new ≡ record self.old { looked = self.old.looked ++ key.now ∷ [] }) }
        ensures err { OnErr result (self.new ≡ self.old) }
    {
        let kept = key.copy()?;
        self.looked.reserve(1)?;
        match self.machine.look(key) {
            Looked::Answer(answer) => {
                self.looked.push_reserved(kept);
                Ok(answer)
            }
            Looked::Failed | Looked::Memory => Err(AllocError),
        }
    }
}

impl Machine for PlainMachine {
    ghost told = { plain_view };

    fn open(&mut self, _work: &Text) -> Result<(), AllocError>
        ensures { self.new ≡ self.old }
    {
        Ok(())
    }

    fn look(&mut self, key: &Key) -> Looked
        ensures looks { LooksOn key.now (plain_view self.old) result (plain_view self.new) }
        ensures plain { LooksPlain self.old self.new result }
        ensures others { (self.new.acts ≡ self.old.acts) × (self.new.polls ≡ self.old.polls) }
    {
        if self.looks.begin() {
            self.looks.fault();
            return Looked::Failed;
        }
        match self.answer(key) {
            Ok(answer) => Looked::Answer(answer),
            Err(_) => Looked::Memory,
        }
    }

    fn act(&mut self, command: &Command, moment: i64) -> Acted
        requires moment { IsMoment moment }
        requires date { HasMoment command.now }
        ensures acts { ActsOn moment command.now (plain_view self.old) result (plain_view self.new) }
        ensures plain { ActsPlain self.old self.new result }
        ensures others { (self.new.looks ≡ self.old.looks) × (self.new.polls ≡ self.old.polls) }
    {
        if self.acts.begin() {
            self.acts.fault();
            return Acted::Failed;
        }
        self.machine.act(command, moment)
    }

    fn poll(&mut self, process: ProcessNo) -> Polled
        requires { process.0 < length self.old.world.started }
        ensures polls { PollsOn process.0 (plain_view self.old) result (plain_view self.new) }
        ensures plain { PollsPlain self.old self.new result }
        ensures others { (self.new.looks ≡ self.old.looks) × (self.new.acts ≡ self.old.acts) }
    {
        if self.polls.begin() {
            self.polls.fault();
            return Polled::Failed;
        }
        self.machine.poll(process)
    }

    ghost counted = { λ m. world_counted m.world };
}
