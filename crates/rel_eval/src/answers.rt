ghost use Rattle.std.specs.Prelude.{◌≡◌, Some};
ghost use Rattle.desk_base.specs.Counts.{CountsIf};
ghost use Rattle.bf_machine.specs.Views.{OnlyLooks};
ghost use Rattle.bf_world.specs.Worlds.{WorldState};
ghost use Rattle.rel_eval.specs.Answers.{Answers, Handed, end_has_failed};
ghost use Rattle.rel_eval.specs.Cuts.{meaning};
ghost use Rattle.rel_eval.specs.Questions.{plan_of};

use crate::cursor::Pulled;
use crate::question::Question;
use crate::taker::{Ended, Take, Taker};
use bf_machine::Machine;
use rel_inspect::Scene;
use std::alloc::Global;

impl Question {
    /// Hands the values of the question to the taker, one after another, until it has enough.
    pub fn answer<M: Machine, T: Taker>(
        &self,
        alloc: Global,
        machine: &mut M,
        scene: &Scene,
        taker: &mut T,
    ) -> Ended
        ensures answers { (w : WorldState) → (M.told machine.old).world ≡ Some w
            → Answers T.takes (M.told machine.old).looked (meaning w scene.now (plan_of self.now)) taker.old result
            (M.told machine.new).looked taker.new }
        ensures handed { Handed T.takes taker.old result taker.new }
        ensures cause { CountsIf (end_has_failed result) (M.told machine.old).faults (M.told machine.new).faults }
        ensures looks { OnlyLooks (M.told machine.old) (M.told machine.new) }
    {
        let mut cursor = match self.open(alloc, scene) {
            Ok(cursor) => cursor,
            Err(_) => return Ended::Memory,
        };
        loop {
            match cursor.pull(machine) {
                Pulled::Value(value) => match taker.take(&value) {
                    Take::More => {}
                    Take::Enough => return Ended::Enough,
                    Take::Memory => return Ended::Memory,
                },
                Pulled::End => return Ended::Stop,
                Pulled::Error(kind, place) => return Ended::Error(kind, place),
                Pulled::Failed(place) => return Ended::Failed(place),
                Pulled::Memory => return Ended::Memory,
                Pulled::Closed => return Ended::Memory,
            }
        }
    }
}
