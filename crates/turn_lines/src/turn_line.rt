// The line of a turn.
ghost use Rattle.std.specs.Prelude.{◌≡◌, ◌++◌, OnOk, decimal};
ghost use Rattle.turn_lines.specs.TurnLines.{attempt_text, cause_text, component_text, detail_text, end_text, ended_text, failed_text, has_line, head_text, held_text, in_component, interrupted_text, place_text, span_text, turn_line, turn_text, wants_text};

use crate::command_line::{say_number, say_spaced};
use agent_core::{Fail, Turned};
use desk_base::{Bytes, decimal};
use line_forms::{write_digest, write_signed_number};
use rel_eval::RelKind;
use rel_lexer::{Place, Text};
use script_run::Cause;
use std::alloc::AllocError;

/// Appends the line of a turn of this computer at this moment, in seconds since 1970-01-01 00:00:00 UTC. A fault of the pocket and want
/// of memory have none. The error is want of memory, here and below, after which `out` is of no use.
pub fn say_turn(
    computer: &Text,
    moment: i64,
    turned: &Turned,
    out: &mut Bytes,
) -> Result<(), AllocError>
    ensures { OnOk result (out.new ≡ out.old ++ turn_line computer.now moment turned.now) }
{
    if !has_line(turned) {
        return Ok(());
    }
    say_head(computer, moment, out)?;
    say_answer(turned, out)?;
    out.push(b'\n')
}

/// Whether a turn that came to this has a line.
fn has_line(turned: &Turned) -> bool
    ensures { result ≡ has_line turned.now }
{
    match turned {
        Turned::PocketFault | Turned::Memory => false,
        _ => true,
    }
}

/// Appends whose turn it was, and at which moment.
#[tactic(auto, unfolding(crate::specs::TurnLines::head_text))]
fn say_head(computer: &Text, moment: i64, out: &mut Bytes) -> Result<(), AllocError>
    ensures { OnOk result (out.new ≡ out.old ++ head_text computer.now moment) }
{
    out.extend(b"turn ")?;
    out.extend(computer.as_str().as_bytes())?;
    out.push(b' ')?;
    write_signed_number(moment, out)?;
    out.extend(b": ")
}

/// Appends what a turn came to.
fn say_answer(turned: &Turned, out: &mut Bytes) -> Result<(), AllocError>
    ensures { OnOk result (out.new ≡ out.old ++ turn_text turned.now) }
{
    match turned {
        Turned::Idle => out.extend(b"idle"),
        Turned::Interrupted { id } => say_interrupted(*id, out),
        Turned::Held {
            id,
            began,
            component,
            line,
        } => say_held(*began, *id, *component, *line, out),
        Turned::Wants { id, began, digest } => say_wants(*began, *id, digest, out),
        Turned::Ended {
            id,
            began,
            fail,
            ..
        } => say_ended(*began, *id, fail, out),
        Turned::MachineFault => out.extend(b"machine fault"),
        Turned::PocketFault | Turned::Memory => Ok(()),
    }
}

/// Appends that the last attempt of an action had been broken off.
#[tactic(auto, unfolding(crate::specs::TurnLines::interrupted_text))]
fn say_interrupted(id: u64, out: &mut Bytes) -> Result<(), AllocError>
    ensures { OnOk result (out.new ≡ out.old ++ interrupted_text id) }
{
    say_counted("interrupted ", id, out)
}

/// Appends that an attempt is held, and where.
#[tactic(auto, unfolding(crate::specs::TurnLines::held_text))]
fn say_held(
    began: bool,
    id: u64,
    component: u32,
    line: u32,
    out: &mut Bytes,
) -> Result<(), AllocError>
    ensures { OnOk result (out.new ≡ out.old ++ held_text began id component line) }
{
    say_attempt(began, id, out)?;
    out.extend(b", held")?;
    say_place(component, line, out)
}

/// Appends that an attempt wants a file, and which.
#[tactic(auto, unfolding(crate::specs::TurnLines::wants_text))]
fn say_wants(began: bool, id: u64, digest: &[u8; 32], out: &mut Bytes) -> Result<(), AllocError>
    ensures { OnOk result (out.new ≡ out.old ++ wants_text began id digest.now) }
{
    say_attempt(began, id, out)?;
    out.extend(b", wants ")?;
    write_digest(digest, out)
}

/// Appends that an attempt ended, and how.
#[tactic(auto, unfolding(crate::specs::TurnLines::ended_text))]
fn say_ended(began: bool, id: u64, fail: &Option<Fail>, out: &mut Bytes) -> Result<(), AllocError>
    ensures { OnOk result (out.new ≡ out.old ++ ended_text began id fail.now) }
{
    say_attempt(began, id, out)?;
    say_end(fail, out)
}

/// Appends whether an attempt began in the turn, and its action.
#[tactic(auto, unfolding(crate::specs::TurnLines::attempt_text))]
fn say_attempt(began: bool, id: u64, out: &mut Bytes) -> Result<(), AllocError>
    ensures { OnOk result (out.new ≡ out.old ++ attempt_text began id) }
{
    out.extend(if began {
        b"began ".as_slice()
    } else {
        b"went on ".as_slice()
    })?;
    decimal(id, out)
}

/// Appends where an attempt is held or failed.
#[tactic(auto, unfolding(crate::specs::TurnLines::place_text))]
fn say_place(component: u32, line: u32, out: &mut Bytes) -> Result<(), AllocError>
    ensures { OnOk result (out.new ≡ out.old ++ place_text component line) }
{
    say_component(component, out)?;
    out.extend(b" at line ")?;
    decimal(u64::from(line), out)
}

/// Appends the component, unless it is a fixlet by itself.
fn say_component(component: u32, out: &mut Bytes) -> Result<(), AllocError>
    ensures { OnOk result (out.new ≡ out.old ++ component_text component) }
{
    if component == 0 {
        return Ok(());
    }
    say_in_component(component, out)
}

/// Appends the component of a baseline.
#[tactic(auto, unfolding(crate::specs::TurnLines::in_component))]
fn say_in_component(component: u32, out: &mut Bytes) -> Result<(), AllocError>
    ensures { OnOk result (out.new ≡ out.old ++ in_component component) }
{
    say_counted(" in component ", u64::from(component), out)
}

/// Appends words and a number.
fn say_counted(words: &str, number: u64, out: &mut Bytes) -> Result<(), AllocError>
    ensures { OnOk result (out.new ≡ out.old ++ (words.now ++ decimal number)) }
{
    out.extend(words.as_bytes())?;
    decimal(number, out)
}

/// Appends how an attempt ended.
fn say_end(fail: &Option<Fail>, out: &mut Bytes) -> Result<(), AllocError>
    ensures { OnOk result (out.new ≡ out.old ++ end_text fail.now) }
{
    match fail {
        None => out.extend(b", fixed"),
        Some(fail) => say_failed(fail, out),
    }
}

/// Appends where and why an attempt failed.
#[tactic(auto, unfolding(crate::specs::TurnLines::failed_text))]
fn say_failed(fail: &Fail, out: &mut Bytes) -> Result<(), AllocError>
    ensures { OnOk result (out.new ≡ out.old ++ failed_text fail.now) }
{
    out.extend(b", failed")?;
    say_place(fail.component, fail.line, out)?;
    say_cause(&fail.cause, out)
}

/// Appends the number of a cause, and what is known beside it.
#[tactic(auto, unfolding(crate::specs::TurnLines::cause_text))]
fn say_cause(cause: &Cause, out: &mut Bytes) -> Result<(), AllocError>
    ensures { OnOk result (out.new ≡ out.old ++ cause_text cause.now) }
{
    out.extend(b" cause ")?;
    decimal(u64::from(cause.number()), out)?;
    say_detail(cause, out)
}

/// Appends what is known beside the number of a cause.
fn say_detail(cause: &Cause, out: &mut Bytes) -> Result<(), AllocError>
    ensures { OnOk result (out.new ≡ out.old ++ detail_text cause.now) }
{
    match cause {
        Cause::Relevance(kind, place) => say_error(*kind, *place, out),
        Cause::Refused(reason) => say_spaced(reason.name(), out),
        Cause::WrongSize { stated, found } => {
            say_number(*stated, out)?;
            say_number(*found, out)
        }
        Cause::WrongDigest { stated, found } => {
            say_spaced(stated.as_str(), out)?;
            say_spaced(found.as_str(), out)
        }
        Cause::NotServed(digest) => {
            out.push(b' ')?;
            write_digest(digest, out)
        }
        Cause::NotContinued
        | Cause::MachineFault
        | Cause::ParameterTwice
        | Cause::BadDate
        | Cause::NotMet => Ok(()),
    }
}

/// Appends the number of a kind of errors, and a place.
fn say_error(kind: RelKind, place: Place, out: &mut Bytes) -> Result<(), AllocError>
    ensures { OnOk result (out.new ≡ out.old ++ detail_text (Cause.Relevance kind place)) }
{
    say_number(u64::from(kind.number()), out)?;
    out.push(b' ')?;
    say_span(place, out)
}

/// Appends a place in the text between the braces, without brackets.
#[tactic(auto, unfolding(crate::specs::TurnLines::span_text))]
fn say_span(place: Place, out: &mut Bytes) -> Result<(), AllocError>
    ensures { OnOk result (out.new ≡ out.old ++ span_text place) }
{
    decimal(u64::from(place.from), out)?;
    out.extend(b"..")?;
    decimal(u64::from(place.to), out)
}
