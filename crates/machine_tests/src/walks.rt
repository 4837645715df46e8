// What no question shows: failed looks of a described machine, and the parameters and the exit code of an action. The size is that
// of the bytes written here.
ghost use Rattle.std.specs.Prelude.{◌≡◌, IfSome};
ghost use Rattle.rel_inspect.specs.Left.{IsSoundWalk};
ghost use Rattle.rel_value.specs.Operands.{IsSound};
ghost use Rattle.rel_value.specs.Views.{shown};

use bf_machine::{PlainMachine, read_world};
use rel_inspect::{Pairs, Scene, Walk, WalkEvent, WalkStep, inspect};
use rel_lexer::Text;
use rel_value::{PropertyId, Value};
use std::alloc::Global;
use std::mem::drop;

const WORLD: &[u8] = b"world
name pc1
system 12.4 Debian
offset 0
moment 1000
file 200 one
| x=1
end
";

/// A machine with the file `one`. The looks of these numbers fail.
fn machine(alloc: Global, fails: &[u32]) -> Option<PlainMachine> {
    let looks = Vec::from_slice(alloc, fails).ok()?;
    let world = read_world(alloc, WORLD).ok()?;
    Some(PlainMachine::new(alloc, world, looks, Vec::new(alloc), Vec::new(alloc)))
}

fn text(alloc: Global, bytes: &str) -> Option<Text>
    ensures { IfSome result (λ text. text ≡ bytes.now) }
{
    match Text::from_str(alloc, bytes) {
        Ok(text) => Some(text),
        Err(_) => None,
    }
}

/// A text of at most 100 bytes.
fn words(alloc: Global, bytes: &str) -> Option<Value>
    ensures { IfSome result (λ v. IsSound (shown v)) }
{
    if bytes.len() > 100 {
        return None;
    }
    Some(Value::Text(text(alloc, bytes)?))
}

/// A scene in which the parameter `a` is `1` and the exit code is 3.
fn scene(alloc: Global) -> Option<Scene> {
    let mut parameters = Pairs::new(alloc);
    parameters.push(text(alloc, "a")?, text(alloc, "1")?).ok()?;
    Some(Scene {
        moment: 1000,
        offset: 0,
        parameters,
        exit: Some(3),
    })
}

/// The integer that the next step of a walk gives.
fn integer_of(walk: &mut Walk, machine: &mut PlainMachine, scene: &Scene) -> Option<i64>
    requires walk { IsSoundWalk walk.old }
{
    match walk.step(machine, scene) {
        WalkStep::Give(Value::Integer(integer)) => Some(integer),
        _ => None,
    }
}

/// Writes `0` where a walk tells that there is no room for its look, `F` where the look fails, and `?` for anything else.
fn write_event(
    walk: &mut Walk,
    machine: &mut PlainMachine,
    scene: &Scene,
    room: bool,
    events: &mut String,
) -> Option<()>
    requires walk { IsSoundWalk walk.old }
    ensures { IsSoundWalk walk.new }
{
    let event = match walk.next_event(machine, scene, room) {
        WalkEvent::Full => "0",
        WalkEvent::Failed => "F",
        _ => "?",
    };
    events.push_str(event).ok()
}

/// The size that a walk gives which has no room at first, and whose first look fails. Both are written.
fn size_of(
    walk: &mut Walk,
    machine: &mut PlainMachine,
    scene: &Scene,
    events: &mut String,
) -> Option<i64>
    requires walk { IsSoundWalk walk.old }
{
    write_event(walk, machine, scene, false, events)?;
    write_event(walk, machine, scene, true, events)?;
    integer_of(walk, machine, scene)
}

/// The same of the file `one`.
fn size_in(
    alloc: Global,
    machine: &mut PlainMachine,
    scene: &Scene,
    events: &mut String,
) -> Option<i64> {
    let file = Value::File(text(alloc, "one")?);
    let begun = inspect(alloc, PropertyId::Size, None, Some(&file));
    drop(file);
    let Ok(mut walk) = begun else {
        return None;
    };
    let size = size_of(&mut walk, machine, scene, events);
    drop(walk);
    size
}

/// The same in the scene.
fn size_later(alloc: Global, machine: &mut PlainMachine, events: &mut String) -> Option<i64> {
    let scene = scene(alloc)?;
    let size = size_in(alloc, machine, &scene, events);
    drop(scene);
    size
}

/// How many looks are told of such a walk, where it gives the size.
fn looks_later(alloc: Global, events: &mut String) -> Option<usize> {
    let mut machine = machine(alloc, [1].as_slice())?;
    let size = size_later(alloc, &mut machine, events);
    let looks = machine.looked().len();
    drop(machine);
    match size? {
        4 => Some(looks),
        _ => None,
    }
}

#[test]
fn a_failed_look_is_made_again(rt: HostRuntime) {
    let alloc = rt.alloc();
    let mut events = String::new(alloc);
    assert_eq!(rt; looks_later(alloc, &mut events), Some(1));
    assert_eq!(rt; events.as_str(), "0F");
}

/// The exit code of the action.
fn exit_code(alloc: Global, machine: &mut PlainMachine, scene: &Scene) -> Option<i64> {
    let Ok(mut walk) = inspect(alloc, PropertyId::ExitCode, None, Some(&Value::Action)) else {
        return None;
    };
    let code = integer_of(&mut walk, machine, scene);
    drop(walk);
    code
}

/// Whether a step gives this text.
fn is_text(step: &WalkStep, wanted: &str) -> bool {
    match step {
        WalkStep::Give(Value::Text(text)) => text.as_str() == wanted,
        _ => false,
    }
}

/// Whether the parameter `a` is given as a text.
fn gives_parameter(
    alloc: Global,
    machine: &mut PlainMachine,
    scene: &Scene,
    wanted: &str,
) -> Option<bool> {
    let name = words(alloc, "a")?;
    let begun = inspect(alloc, PropertyId::Parameter, Some(&name), None);
    drop(name);
    let Ok(mut walk) = begun else {
        return None;
    };
    let step = walk.step(machine, scene);
    drop(walk);
    let is_given = is_text(&step, wanted);
    drop(step);
    Some(is_given)
}

/// The exit code, and whether the parameter `a` is `1`.
fn of_action(alloc: Global, machine: &mut PlainMachine) -> Option<(i64, bool)> {
    let scene = scene(alloc)?;
    let code = exit_code(alloc, machine, &scene);
    let given = gives_parameter(alloc, machine, &scene, "1");
    drop(scene);
    Some((code?, given?))
}

/// The same on a machine of its own.
fn of_action_there(alloc: Global) -> Option<(i64, bool)> {
    let mut machine = machine(alloc, [].as_slice())?;
    let found = of_action(alloc, &mut machine);
    drop(machine);
    found
}

#[test]
fn an_action_has_a_parameter_and_an_exit_code(rt: HostRuntime) {
    assert_eq!(rt; of_action_there(rt.alloc()), Some((3, true)));
}
