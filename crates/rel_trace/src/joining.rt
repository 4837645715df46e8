ghost use Rattle.std.specs.Prelude.{◌≡◌, IfOk};
ghost use Rattle.rel_value.specs.Operands.{AreSound, IsSound};
ghost use Rattle.rel_value.specs.Outcomes.{gives};
ghost use Rattle.rel_value.specs.Plain.{Parts, more_parts, no_parts, tuple};
ghost use Rattle.rel_value.specs.Views.{shown, shown_parts};
ghost use Rattle.rel_trace.specs.declared.joining.Joining.TheVariants.{Append, Push};
ghost use Rattle.rel_trace.specs.Joins.{appended, parts_then, tied, tied_left};
ghost use Rattle.rel_trace.specs.Scopes.{lent};
ghost use Rattle.rel_trace.specs.Works.{Works};

use crate::Held;
use crate::worked::Worked;
use rel_value::{Value, Values};
use std::alloc::{AllocError, Global};

/// How a value joins those before it in a tuple.
#[derive(Clone, Copy)]
pub enum Joining {
    /// The first two make a tuple.
    Pair,
    /// A further one is put at the end of the tuple.
    Push,
    /// Those of a further tuple are put at the end of the tuple.
    Append,
}

impl Joining {
    /// The tuple of the left value in scope and a later one.
    pub(crate) fn tie_left(self, alloc: Global, left: Option<&Held>, later: &Held) -> Worked
        ensures { Works (tied_left self (lent left.entry) later.now) result }
    {
        match left {
            Some(earlier) => self.tie(alloc, earlier, later),
            None => Worked::Without,
        }
    }

    /// The tuple of an earlier value, or of the parts of an earlier tuple, and a later one, or the parts of a later one.
    fn tie(self, alloc: Global, earlier: &Held, later: &Held) -> Worked
        ensures { Works (tied self earlier.now later.now) result }
    {
        match self {
            Joining::Pair => tuple(paired(alloc, earlier, later)),
            Joining::Push => pushed(earlier.value(), later),
            Joining::Append => appended(earlier.value(), later.value()),
        }
    }
}

/// The tuple of these parts, if there was memory for them.
fn tuple(parts: Result<Values, AllocError>) -> Worked
    requires { IfOk parts (λ list. AreSound (shown_parts list)) }
    ensures { (ps : Parts) → IfOk parts (λ list. shown_parts list ≡ ps) → Works (gives (tuple ps)) result }
{
    match parts {
        Ok(parts) => Worked::Given(Held::new(Value::Tuple(parts))),
        Err(_) => Worked::Memory,
    }
}

fn paired(alloc: Global, earlier: &Held, later: &Held) -> Result<Values, AllocError>
    ensures same { IfOk result (λ list. shown_parts list ≡ more_parts (more_parts no_parts earlier.now) later.now) }
    ensures sound { IfOk result (λ list. AreSound (shown_parts list)) }
{
    let earlier = earlier.copy()?;
    let later = later.copy()?;
    Values::pair(alloc, earlier.into_value(), later.into_value())
}

fn pushed(earlier: &Value, later: &Held) -> Worked
    requires { IsSound (shown earlier.now) }
    ensures { Works (tied Push (shown earlier.now) later.now) result }
{
    match earlier {
        Value::Tuple(parts) => tuple(lengthened(parts, later)),
        _ => Worked::Without,
    }
}

fn lengthened(earlier: &Values, later: &Held) -> Result<Values, AllocError>
    requires { AreSound (shown_parts earlier.now) }
    ensures same { IfOk result (λ list. shown_parts list ≡ more_parts (shown_parts earlier.now) later.now) }
    ensures sound { IfOk result (λ list. AreSound (shown_parts list)) }
{
    let mut parts = earlier.copy()?;
    let later = later.copy()?;
    parts.push(later.into_value())?;
    Ok(parts)
}

fn appended(earlier: &Value, later: &Value) -> Worked
    requires earlier { IsSound (shown earlier.now) }
    requires later { IsSound (shown later.now) }
    ensures { Works (tied Append (shown earlier.now) (shown later.now)) result }
{
    match earlier {
        Value::Tuple(parts) => behind(parts, later),
        _ => Worked::Without,
    }
}

/// The parts of a later tuple behind these.
fn behind(earlier: &Values, later: &Value) -> Worked
    requires earlier { AreSound (shown_parts earlier.now) }
    requires later { IsSound (shown later.now) }
    ensures { Works (appended (shown_parts earlier.now) (shown later.now)) result }
{
    match later {
        Value::Tuple(parts) => tuple(together(earlier, parts)),
        _ => Worked::Without,
    }
}

fn together(earlier: &Values, later: &Values) -> Result<Values, AllocError>
    requires earlier { AreSound (shown_parts earlier.now) }
    requires later { AreSound (shown_parts later.now) }
    ensures same { IfOk result (λ list. shown_parts list ≡ parts_then (shown_parts earlier.now) (shown_parts later.now)) }
    ensures sound { IfOk result (λ list. AreSound (shown_parts list)) }
{
    let mut parts = earlier.copy()?;
    for value in later.as_slice() {
        let copied = value.copy()?;
        parts.push(copied)?;
    }
    Ok(parts)
}
