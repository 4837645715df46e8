// What is said of a question.
ghost use Rattle.std.specs.Prelude.{◌≡◌, ◌++◌, ◌<◌, OnOk};
ghost use Rattle.rel_session.specs.Errors.{undefined_text};
ghost use Rattle.rel_session.specs.Printed.{hex_digit, printed, printed_byte, said_error, said_fault, said_more, said_no_command, said_nothing_paused, said_place, said_question, said_undefined, said_value};

use crate::errors::error_text;
use desk_base::Bytes;
use rel_eval::{RelKind, write_place};
use rel_lexer::{Place, Text};
use std::alloc::{AllocError, Global};

#[tactic(auto, unfolding(crate::specs::Printed::said_question))]
pub(crate) fn say_question(line: &[u8], out: &mut Bytes) -> Result<(), AllocError>
    ensures { OnOk result (out.new ≡ out.old ++ said_question line.now) }
{
    out.extend(b"Q: ")?;
    out.extend(line)?;
    out.push(b'\n')
}

#[tactic(auto, unfolding(crate::specs::Printed::said_value))]
pub(crate) fn say_value(text: &Text, out: &mut Bytes) -> Result<(), AllocError>
    ensures { OnOk result (out.new ≡ out.old ++ said_value text.now) }
{
    out.extend(b"A: ")?;
    print(text.as_str().as_bytes(), out)?;
    out.push(b'\n')
}

/// Appends a text in its printed form.
fn print(text: &[u8], out: &mut Bytes) -> Result<(), AllocError>
    ensures { OnOk result (out.new ≡ out.old ++ printed text.now) }
{
    for byte in text {
        print_byte(*byte, out)?;
    }
    Ok(())
}

fn print_byte(byte: u8, out: &mut Bytes) -> Result<(), AllocError>
    ensures { OnOk result (out.new ≡ out.old ++ printed_byte byte) }
{
    if byte < 32 || byte == 127 {
        return out.extend(&[b'%', hex_digit(byte / 16), hex_digit(byte % 16)]);
    }
    out.push(byte)
}

fn hex_digit(digit: u8) -> u8
    requires { digit < 16 }
    ensures { result ≡ hex_digit digit }
{
    b"0123456789abcdef"[usize::from(digit)]
}

/// Appends the line of an error. At an error of its own, which is want of memory, a front may be appended.
#[tactic(auto, unfolding(crate::specs::Printed::said_error))]
pub fn say_error(
    alloc: Global,
    kind: RelKind,
    place: Place,
    out: &mut Bytes,
) -> Result<(), AllocError>
    ensures { OnOk result (out.new ≡ out.old ++ said_error kind place) }
{
    out.extend(b"E: ")?;
    out.extend(error_text(kind).as_bytes())?;
    say_place(alloc, place, out)
}

/// Appends the line that nothing is defined of these words.
#[tactic(auto, unfolding(crate::specs::Printed::said_undefined))]
pub fn say_undefined(
    alloc: Global,
    place: Place,
    words: &Text,
    out: &mut Bytes,
) -> Result<(), AllocError>
    ensures { OnOk result (out.new ≡ out.old ++ said_undefined place words.now) }
{
    out.extend(b"E: ")?;
    say_undefined_text(words, out)?;
    say_place(alloc, place, out)
}

#[tactic(auto, unfolding(crate::specs::Errors::undefined_text))]
fn say_undefined_text(words: &Text, out: &mut Bytes) -> Result<(), AllocError>
    ensures { OnOk result (out.new ≡ out.old ++ undefined_text words.now) }
{
    out.extend(b"The operator \"")?;
    out.extend(words.as_str().as_bytes())?;
    out.extend(b"\" is not defined.")
}

#[tactic(auto, unfolding(crate::specs::Printed::said_place))]
fn say_place(alloc: Global, place: Place, out: &mut Bytes) -> Result<(), AllocError>
    ensures { OnOk result (out.new ≡ out.old ++ said_place place) }
{
    out.push(b' ')?;
    write_place(alloc, place, out)?;
    out.push(b'\n')
}

#[tactic(auto, unfolding(crate::specs::Printed::said_fault))]
pub(crate) fn say_fault(alloc: Global, place: Place, out: &mut Bytes) -> Result<(), AllocError>
    ensures { OnOk result (out.new ≡ out.old ++ said_fault place) }
{
    out.extend(b"E: The machine could not answer.")?;
    say_place(alloc, place, out)
}

#[tactic(auto, unfolding(crate::specs::Printed::said_more))]
pub(crate) fn say_more(out: &mut Bytes) -> Result<(), AllocError>
    ensures { OnOk result (out.new ≡ out.old ++ said_more) }
{
    out.extend(b"M: more\n")
}

#[tactic(auto, unfolding(crate::specs::Printed::said_no_command))]
pub(crate) fn say_no_command(out: &mut Bytes) -> Result<(), AllocError>
    ensures { OnOk result (out.new ≡ out.old ++ said_no_command) }
{
    out.extend(b"E: This is no command.\n")
}

#[tactic(auto, unfolding(crate::specs::Printed::said_nothing_paused))]
pub(crate) fn say_nothing_paused(out: &mut Bytes) -> Result<(), AllocError>
    ensures { OnOk result (out.new ≡ out.old ++ said_nothing_paused) }
{
    out.extend(b"E: Nothing is paused.\n")
}
