ghost use Rattle.std.specs.Prelude.{◌≡◌, Bool, Option, None, Some};
ghost use Rattle.bf_machine.specs.Views.{MachineView};
ghost use Rattle.rel_sources.specs.declared.scene.Scene.{Scene};
ghost use Rattle.rel_inspect.specs.Facets.{IsSoundOffer, offered};
ghost use Rattle.rel_trace.specs.Scopes.{lent, seen};
ghost use Rattle.rel_nodes.specs.Core.{asked_for};
ghost use Rattle.rel_nodes.specs.Nodes.{row_core};
ghost use Rattle.rel_nodes.specs.Remainders.{of_property};
ghost use Rattle.rel_nodes.specs.Steps.{WentOn};

use crate::Walking;
use bf_machine::Machine;
use rel_inspect::{Scene, inspect};
use rel_lexer::Place;
use rel_trace::{Held, Scope, Step};
use rel_value::{PropertyId, Value};
use std::alloc::Global;
use std::mem;

/// A property of a question, and how far its walk has come.
#[derive(Drop)]
pub struct Property {
    pub id: PropertyId,
    /// Whether it has an argument.
    pub argument: bool,
    /// Whether it has an object, which is what `it` stands for.
    pub object: bool,
    /// The place of the head.
    pub head: Place,
    /// None before the first step.
    pub walk: Option<Walking>,
}

impl Property {
    /// Begins anew.
    pub(crate) fn reset(&mut self)
        ensures row { row_core self.new ≡ row_core self.old }
        ensures walk { self.new.walk ≡ None }
    {
        put(&mut self.walk, None);
    }

    /// One event, or none. A look is made where there is room for it.
    #[inline(never)]
    pub(crate) fn go_on<M: Machine>(
        &mut self,
        alloc: Global,
        scope: &Scope<'_>,
        scene: &Scene,
        machine: &mut M,
        room: bool,
    ) -> Step
        ensures row { row_core self.new ≡ row_core self.old }
        ensures steps { WentOn room (M.told machine.old) (of_property scene.now self.old (seen scope.now))
            result (M.told machine.new) (of_property scene.now self.new (seen scope.now)) }
    {
        match &mut self.walk {
            Some(walking) => walking.step(self.head, scene, machine, room),
            None => self.begin(alloc, scope),
        }
    }

    /// Begins the walk over what the scope hands down, in a step without an event.
    fn begin(&mut self, alloc: Global, scope: &Scope<'_>) -> Step
        requires { self.old.walk ≡ None }
        ensures row { row_core self.new ≡ row_core self.old }
        ensures steps { (s : Scene) (room : Bool) (view : MachineView)
            → WentOn room view (of_property s self.old (seen scope.now)) result view (of_property s self.new (seen scope.now)) }
    {
        let argument = asked_for(self.argument, scope.argument);
        let object = asked_for(self.object, scope.it);
        match inspect(alloc, self.id, argument, object) {
            Ok(walk) => {
                put(&mut self.walk, Some(Walking::new(walk)));
                Step::Quiet
            }
            Err(_) => Step::Memory,
        }
    }
}

/// Puts a walk in the place of the one that is there.
fn put(place: &mut Option<Walking>, walk: Option<Walking>)
    ensures { place.new ≡ walk }
{
    drop(mem::replace(place, walk));
}

/// What is handed down, where it is asked for.
fn asked_for(asked: bool, held: Option<&Held>) -> Option<&Value>
    ensures same { offered result ≡ asked_for asked (lent held.entry) }
    ensures sound { IsSoundOffer (offered result) }
{
    if !asked {
        return None;
    }
    match held {
        Some(held) => Some(held.value()),
        None => None,
    }
}
