// The steps of an `if`.
ghost use Rattle.std.specs.Prelude.{◌≡◌, ◌<◌, None, true};
ghost use Rattle.std.specs.VecDeque.{deque_capacity, deque_len};
ghost use Rattle.bf_machine.specs.Views.{MachineView};
ghost use Rattle.script_text.specs.declared.tree.Arm.{out-Arm};
ghost use Rattle.script_run.specs.Asking.{JudgesOn};
ghost use Rattle.script_run.specs.OneStep.{StepsFrom, MovesTo, Enters};

use crate::asking::judge;
use crate::place::Place;
use crate::todo::Todo;
use crate::{Cause, Ran, Run};
use bf_machine::Machine;
use rel_eval::Truth;
use script_text::{Arm, StatementList, statements_show_each};
use std::alloc::Global;
use std::collections::VecDeque;
use std::mem;

impl Run {
    /// The first arm is at hand; without an arm the other statements come.
    pub(crate) fn choose(&mut self, mut arms: VecDeque<Arm>, other: StatementList) -> Option<Ran>
        requires ready { self.old.place ≡ Place.Ready }
        ensures { (machine : MachineView) → StepsFrom (Place.Testing arms other) self.old machine result machine self.new }
    {
        // room for what is left of the list at hand
        if self.later.reserve(1).is_err() {
            self.place = Place::Testing { arms, other };
            return Some(Ran::Memory);
        }
        match arms.pop_front() {
            Some(arm) => {
                self.place = Place::Asking { arm, arms, other };
                None
            }
            None => {
                self.enter(other);
                None
            }
        }
    }

    /// The test of an arm is asked: its body comes where it is true, and otherwise the arm behind it.
    pub(crate) fn ask<M: Machine>(
        &mut self,
        alloc: Global,
        machine: &mut M,
        arm: Arm,
        arms: VecDeque<Arm>,
        other: StatementList,
    ) -> Option<Ran>
        requires ready { self.old.place ≡ Place.Ready }
        ensures { StepsFrom (Place.Asking arm arms other) self.old (M.told machine.old) result (M.told machine.new) self.new }
    {
        // room for what is left of the list at hand
        if self.later.reserve(1).is_err() {
            self.stand(Place::Asking { arm, arms, other });
            return Some(Ran::Memory);
        }
        let truth = judge(alloc, machine, &self.kept, &arm.test);
        self.asked(arm, arms, other, truth)
    }

    /// What the test of an arm was answered.
    fn asked(
        &mut self,
        arm: Arm,
        arms: VecDeque<Arm>,
        other: StatementList,
        truth: Truth,
    ) -> Option<Ran>
        requires ready { self.old.place ≡ Place.Ready }
        requires room { deque_len self.old.later < deque_capacity self.old.later }
        ensures { (before after : MachineView) → JudgesOn self.old.kept.scene (out-Arm arm).test before truth after
            → StepsFrom (Place.Asking arm arms other) self.old before result after self.new }
    {
        match truth {
            Truth::True => self.go_in(arm, arms, other),
            Truth::False => self.pass_by(arm, arms, other),
            Truth::Error(kind, place) => {
                self.give_up(arm, arms, other, Cause::Relevance(kind, place))
            }
            Truth::Failed(_) => self.give_up(arm, arms, other, Cause::MachineFault),
            Truth::Memory => {
                self.stand(Place::Asking { arm, arms, other });
                Some(Ran::Memory)
            }
        }
    }

    /// The body of an arm comes.
    fn go_in(&mut self, arm: Arm, _arms: VecDeque<Arm>, _other: StatementList) -> Option<Ran>
        requires ready { self.old.place ≡ Place.Ready }
        requires room { deque_len self.old.later < deque_capacity self.old.later }
        ensures goes_on { result ≡ None }
        ensures enters { Enters (out-Arm arm).body self.old self.new }
    {
        self.enter(arm.body);
        None
    }

    /// The arms behind an arm come.
    fn pass_by(&mut self, _arm: Arm, arms: VecDeque<Arm>, other: StatementList) -> Option<Ran>
        ensures { MovesTo (Place.Testing arms other) self.old result self.new }
    {
        self.stand(Place::Testing { arms, other });
        None
    }

    /// The line of an arm has failed.
    fn give_up(
        &mut self,
        arm: Arm,
        _arms: VecDeque<Arm>,
        _other: StatementList,
        cause: Cause,
    ) -> Option<Ran>
        ensures { MovesTo (Place.Failed (out-Arm arm).line true cause) self.old result self.new }
    {
        self.fail(arm.line, true, cause)
    }

    /// The statements of a body come first.
    fn enter(&mut self, body: StatementList)
        requires ready { self.old.place ≡ Place.Ready }
        requires room { deque_len self.old.later < deque_capacity self.old.later }
        ensures { Enters body self.old self.new }
    {
        // Proof: statements that were taken out of their list are walked through as the list is.
        statements_show_each();
        let list = VecDeque::from(body.into_vec());
        let todo = mem::replace(&mut self.current, Todo::Statements { list });
        match self.later.push_front(todo) {
            Ok(()) => {}
            Err(_) => {}
        }
    }
}
