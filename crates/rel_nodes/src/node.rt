ghost use Rattle.std.specs.Prelude.{◌≡◌, ◌≤◌, ℕ, false, true};
ghost use Rattle.bf_world.specs.Worlds.{WorldState};
ghost use Rattle.rel_sources.specs.declared.scene.Scene.{Scene};
ghost use Rattle.rel_trace.specs.Ones.{one_kind};
ghost use Rattle.rel_trace.specs.Scopes.{Around, seen};
ghost use Rattle.rel_trace.specs.Trace.{Trace, none};
ghost use Rattle.rel_trace.specs.Twos.{two_kind, two_left, two_quiet};
ghost use Rattle.rel_nodes.specs.Core.{core};
ghost use Rattle.rel_nodes.specs.Nodes.{rest, shape};
ghost use Rattle.rel_nodes.specs.Remainders.{of_choice, of_node, of_one, of_two};
ghost use Rattle.rel_nodes.specs.Steps.{IsStop, StepsOn};

use crate::counting::pass_over;
use crate::{Property, Pure};
use bf_machine::Machine;
use rel_inspect::Scene;
use rel_trace::{Choice, One, Scope, Step, Two};
use std::alloc::Global;

/// A part of a question, and how far its evaluation has come.
#[derive(Drop)]
pub enum Node {
    /// It gives nothing.
    Nothing,
    /// It is told at once, in the first step.
    Pure {
        pure: Pure,
        given: bool,
    },
    Property(Property),
    WithOne {
        part: Box<Node>,
        state: One,
    },
    WithTwo {
        first: Box<Node>,
        second: Box<Node>,
        state: Two,
    },
    WithChoice {
        test: Box<Node>,
        yes: Box<Node>,
        no: Box<Node>,
        state: Choice,
    },
}

impl Node {
    /// Begins anew. A part that begins later is begun anew when it begins.
    pub fn reset(&mut self)
        ensures shape { shape self.new ≡ shape self.old }
        ensures rest { (w : WorldState) (s : Scene) (a : Around) → rest w s self.new a ≡ core w s (shape self.old) a }
    {
        match self {
            Node::Nothing => {}
            Node::Pure { given, .. } => *given = false,
            Node::Property(property) => property.reset(),
            Node::WithOne { part, state } => {
                part.reset();
                state.reset();
            }
            Node::WithTwo { first, state, .. } => {
                first.reset();
                state.reset();
            }
            Node::WithChoice { test, state, .. } => {
                test.reset();
                state.reset();
            }
        }
    }

    /// Whether nothing is left, as far as that shows without a step.
    fn is_told(&self) -> bool
        ensures { result ≡ true → (w : WorldState) (s : Scene) (a : Around) → rest w s self.now a ≡ none }
    {
        match self {
            Node::Nothing => true,
            Node::Pure { given, .. } => *given,
            Node::WithOne { part, state } => {
                state.is_done() || state.ends_with_part() && part.is_told()
            }
            Node::WithTwo { first, state, .. } => state.ends_with_first() && first.is_told(),
            Node::Property(_) | Node::WithChoice { .. } => false,
        }
    }

    /// Goes on to the next value, the end or an error. Looks and turns on the way are made and counted down in `budget`; where that
    /// is used up it stops before the next look (`Step::Full`), or behind the next turn, which is not counted then (`Step::Turned`).
    /// After a failed look the next step makes the same one. At want of memory the looks that were made are counted; what the node
    /// would give from then on is not told.
    #[cycle(step)]
    pub fn step<M: Machine>(
        &mut self,
        alloc: Global,
        scope: &Scope<'_>,
        scene: &Scene,
        machine: &mut M,
        budget: &mut u64,
    ) -> Step
        ensures stop { IsStop budget.new result }
        ensures shape { shape self.new ≡ shape self.old }
        ensures steps { StepsOn (M.told machine.old) budget.old (of_node scene.now self.old (seen scope.now))
            result (M.told machine.new) budget.new (of_node scene.now self.new (seen scope.now)) }
    {
        loop {
            let step = self.event(alloc, scope, scene, machine, budget);
            if !pass_over(&step, budget) {
                return step;
            }
        }
    }

    /// One event of the form itself, or none, behind the looks and turns of its parts.
    #[cycle(step)]
    fn event<M: Machine>(
        &mut self,
        alloc: Global,
        scope: &Scope<'_>,
        scene: &Scene,
        machine: &mut M,
        budget: &mut u64,
    ) -> Step
        ensures shape { shape self.new ≡ shape self.old }
        ensures steps { StepsOn (M.told machine.old) budget.old (of_node scene.now self.old (seen scope.now))
            result (M.told machine.new) budget.new (of_node scene.now self.new (seen scope.now)) }
    {
        match self {
            Node::Nothing => Step::Over,
            Node::Pure { pure, given } => pure.tell_once(given, alloc, scope, scene),
            Node::Property(property) => property.go_on(alloc, scope, scene, machine, *budget > 0),
            Node::WithOne { part, state } => {
                go_on_one(part, state, alloc, scope, scene, machine, budget)
            }
            Node::WithTwo {
                first,
                second,
                state,
            } => go_on_two(first, second, state, alloc, scope, scene, machine, budget),
            Node::WithChoice {
                test,
                yes,
                no,
                state,
            } => go_on_choice(test, yes, no, state, alloc, scope, scene, machine, budget),
        }
    }
}

/// One event of a form with one part, or none, behind the looks and turns of the part.
#[cycle(step)]
#[inline(never)]
fn go_on_one<M: Machine>(
    part: &mut Node,
    state: &mut One,
    alloc: Global,
    scope: &Scope<'_>,
    scene: &Scene,
    machine: &mut M,
    budget: &mut u64,
) -> Step
    ensures part { shape part.new ≡ shape part.old }
    ensures kind { one_kind state.new ≡ one_kind state.old }
    ensures steps { StepsOn (M.told machine.old) budget.old (of_one scene.now part.old state.old (seen scope.now))
        result (M.told machine.new) budget.new (of_one scene.now part.new state.new (seen scope.now)) }
{
    if state.is_done() {
        return Step::Over;
    }
    let step = part.step(alloc, scope, scene, machine, budget);
    state.after(alloc, step, *scope, scene.offset)
}

/// One event of a form with two parts, or none, behind the looks and turns of the parts.
#[cycle(step)]
#[inline(never)]
fn go_on_two<M: Machine>(
    first: &mut Node,
    second: &mut Node,
    state: &mut Two,
    alloc: Global,
    scope: &Scope<'_>,
    scene: &Scene,
    machine: &mut M,
    budget: &mut u64,
) -> Step
    ensures first { shape first.new ≡ shape first.old }
    ensures second { shape second.new ≡ shape second.old }
    ensures kind { two_kind state.new ≡ two_kind state.old }
    ensures steps { StepsOn (M.told machine.old) budget.old (of_two scene.now first.old second.old state.old (seen scope.now))
        result (M.told machine.new) budget.new (of_two scene.now first.new second.new state.new (seen scope.now)) }
{
    if state.on_second() {
        if second.is_told() {
            return state.after_second(Step::Over);
        }
        let inner = state.second_scope(*scope);
        let step = second.step(alloc, &inner, scene, machine, budget);
        let step = state.after_second(step);
        release(second, state);
        return step;
    }
    let step = first.step(alloc, scope, scene, machine, budget);
    let next = state.after_first(step);
    if next.begins {
        second.reset();
    }
    next.step
}

/// Gives up what was handed to a second part that has nothing left: a long tuple would keep all its first halves otherwise.
fn release(second: &Node, state: &mut Two)
    ensures kind { two_kind state.new ≡ two_kind state.old }
    ensures rest { (w : WorldState) (s : Scene) (t : Trace) (f : Around → Trace) (a : Around)
        → two_left state.new t (rest w s second.now) f a ≡ two_left state.old t (rest w s second.now) f a }
    ensures falls { (q r c : ℕ) → two_quiet state.new q r c ≤ two_quiet state.old q r c }
{
    if second.is_told() {
        state.release();
    }
}

/// One event of a form with a test and two branches, or none, behind the looks and turns of the parts.
#[cycle(step)]
#[inline(never)]
fn go_on_choice<M: Machine>(
    test: &mut Node,
    yes: &mut Node,
    no: &mut Node,
    state: &mut Choice,
    alloc: Global,
    scope: &Scope<'_>,
    scene: &Scene,
    machine: &mut M,
    budget: &mut u64,
) -> Step
    ensures test { shape test.new ≡ shape test.old }
    ensures yes { shape yes.new ≡ shape yes.old }
    ensures no { shape no.new ≡ shape no.old }
    ensures steps { StepsOn
        (M.told machine.old) budget.old (of_choice scene.now test.old yes.old no.old state.old (seen scope.now))
        result (M.told machine.new) budget.new (of_choice scene.now test.new yes.new no.new state.new (seen scope.now)) }
{
    match state {
        Choice::Test => {
            let step = test.step(alloc, scope, scene, machine, budget);
            let next = state.after_test(step);
            if next.begins {
                yes.reset();
                no.reset();
            }
            next.step
        }
        Choice::Yes => {
            let step = yes.step(alloc, scope, scene, machine, budget);
            state.after_branch(step)
        }
        Choice::No => {
            let step = no.step(alloc, scope, scene, machine, budget);
            state.after_branch(step)
        }
    }
}
