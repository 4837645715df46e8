// What a described world is asked through. Nothing fails there.
ghost use Rattle.bf_machine.specs.Sure.{world_counted};
ghost use Rattle.desk_top.specs.Asked.{described, no_clock};

use bf_machine::{Looked, Machine};
use bf_world::{Acted, Command, Key, Polled, ProcessNo, World};
use desk_base::{Clock, Told};
use rel_lexer::Text;
use std::alloc::AllocError;

/// The machine over a described world. No look, act or poll fails on it, and it keeps none.
#[derive(Drop)]
pub(crate) struct DescribedMachine {
    pub(crate) world: World,
}

impl Machine for DescribedMachine {
    ghost told = { λ m. described m.world };

    fn open(&mut self, _work: &Text) -> Result<(), AllocError> {
        Ok(())
    }

    fn look(&mut self, key: &Key) -> Looked {
        match self.world.look(key) {
            Ok(answer) => Looked::Answer(answer),
            Err(_) => Looked::Memory,
        }
    }

    fn act(&mut self, command: &Command, moment: i64) -> Acted {
        self.world.act(command, moment)
    }

    fn poll(&mut self, process: ProcessNo) -> Polled {
        self.world.poll(process.0)
    }

    ghost counted = { λ m. world_counted m.world };
}

/// A clock for questions whose moment is known, which is asked for none. It stands at 1970-01-01 00:00:00 UTC.
#[derive(Drop)]
pub(crate) struct NoClock;

impl Clock for NoClock {
    ghost told = { λ _. no_clock };

    fn now(&mut self) -> Told {
        Told::Moment(0)
    }
}
