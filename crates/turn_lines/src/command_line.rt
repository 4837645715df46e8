// The lines of commands that were done on a machine, or that the machine refused.
ghost use Rattle.std.specs.Prelude.{◌≡◌, ◌++◌, All, OnOk, length, decimal};
ghost use Rattle.std.specs.Fmt.{signed_decimal};
ghost use Rattle.desk_base.specs.Moments.{IsMoment};
ghost use Rattle.bf_world.specs.Answers.{HasMoment};
ghost use Rattle.bf_world.specs.Done.{done};
ghost use Rattle.bf_machine.specs.Steps.{answered, answers_from, world_after};
ghost use Rattle.turn_lines.specs.DoLines.{command_text, do_line, do_lines, refusal_text, spaced, with_one, with_three, with_two};

use bf_machine::{Acted, Command, World};
use desk_base::{Bytes, decimal};
use line_forms::write_signed_number;
use std::alloc::AllocError;

/// Does commands again on a world, at the moment at which they were done, and appends the line of each with what it is answered. Where
/// the world was the same as theirs but for polls left, that is what they were answered (`commands_are_answered_alike`). The error is
/// want of memory, after which the world and `out` are of no use.
pub fn say_again(
    world: &mut World,
    commands: &[Command],
    moment: i64,
    out: &mut Bytes,
) -> Result<(), AllocError>
    requires moment { IsMoment moment }
    requires dates { All HasMoment commands.now }
    ensures lines { OnOk result (out.new ≡ out.old ++ do_lines (answers_from moment world.old commands.now)) }
    ensures world { OnOk result (world.new ≡ world_after moment world.old commands.now) }
{
    for command in commands {
        say_one_again(world, command, moment, out)?;
    }
    Ok(())
}

/// Does a command again, and appends its line.
fn say_one_again(
    world: &mut World,
    command: &Command,
    moment: i64,
    out: &mut Bytes,
) -> Result<(), AllocError>
    requires moment { IsMoment moment }
    requires date { HasMoment command.now }
    ensures lines { OnOk result (out.new ≡ out.old ++ do_line (answered command.now (done world.old command.now moment).answer)) }
    ensures world { OnOk result (world.new ≡ (done world.old command.now moment).after) }
{
    let answer = world.act(command, moment);
    match answer {
        Acted::Failed | Acted::Memory => Err(AllocError),
        Acted::Done | Acted::Started(_) | Acted::Refused(_) => say_command(command, answer, out),
    }
}

/// Appends the line of a command and what it was answered. The error is want of memory, here and below, after which `out` is of no
/// use.
pub fn say_command(command: &Command, answer: Acted, out: &mut Bytes) -> Result<(), AllocError>
    ensures { OnOk result (out.new ≡ out.old ++ do_line (answered command.now answer)) }
{
    out.extend(b"do ")?;
    say_words(command, out)?;
    say_refusal(answer, out)?;
    out.push(b'\n')
}

/// Appends a command.
fn say_words(command: &Command, out: &mut Bytes) -> Result<(), AllocError>
    ensures { OnOk result (out.new ≡ out.old ++ command_text command.now) }
{
    match command {
        Command::Write(path, content) => say_content("write", path.as_str(), content, out),
        Command::Append(path, content) => say_content("append", path.as_str(), content, out),
        Command::Delete(path) => say_one("delete", path.as_str(), out),
        Command::Copy(from, to) => say_two("copy", from.as_str(), to.as_str(), out),
        Command::Move(from, to) => say_two("move", from.as_str(), to.as_str(), out),
        Command::MakeFolder(path) => say_one("make folder", path.as_str(), out),
        Command::DropFolder(path) => say_one("drop folder", path.as_str(), out),
        Command::Start { line, .. } => say_one("start", line.as_str(), out),
        Command::Put { name, value, date } => {
            say_setting("put", name.as_str(), *date, value.as_str(), out)
        }
        Command::Drop { name, date } => say_dated("drop", name.as_str(), *date, out),
        Command::Place(name, content) => say_content("place", name.as_str(), content, out),
    }
}

/// Appends a text behind a space.
pub(crate) fn say_spaced(text: &str, out: &mut Bytes) -> Result<(), AllocError>
    ensures { OnOk result (out.new ≡ out.old ++ spaced text.now) }
{
    out.push(b' ')?;
    out.extend(text.as_bytes())
}

/// Appends a number behind a space.
pub(crate) fn say_number(number: u64, out: &mut Bytes) -> Result<(), AllocError>
    ensures { OnOk result (out.new ≡ out.old ++ spaced (decimal number)) }
{
    out.push(b' ')?;
    decimal(number, out)
}

/// Appends words and a text.
#[tactic(auto, unfolding(crate::specs::DoLines::with_one))]
fn say_one(words: &str, text: &str, out: &mut Bytes) -> Result<(), AllocError>
    ensures { OnOk result (out.new ≡ out.old ++ with_one words.now text.now) }
{
    out.extend(words.as_bytes())?;
    say_spaced(text, out)
}

/// Appends words and two texts.
#[tactic(auto, unfolding(crate::specs::DoLines::with_two))]
fn say_two(words: &str, first: &str, second: &str, out: &mut Bytes) -> Result<(), AllocError>
    ensures { OnOk result (out.new ≡ out.old ++ with_two words.now first.now second.now) }
{
    out.extend(words.as_bytes())?;
    say_spaced(first, out)?;
    say_spaced(second, out)
}

/// Appends words, a name, and how many bytes the content has.
#[tactic(auto, unfolding(crate::specs::DoLines::with_two))]
fn say_content(words: &str, name: &str, content: &Bytes, out: &mut Bytes) -> Result<(), AllocError>
    ensures { OnOk result (out.new ≡ out.old ++ with_two words.now name.now (decimal (length content.now))) }
{
    out.extend(words.as_bytes())?;
    say_spaced(name, out)?;
    say_number(content.as_slice().len() as u64, out)
}

/// Appends words, a name and a date.
#[tactic(auto, unfolding(crate::specs::DoLines::with_two))]
fn say_dated(words: &str, name: &str, date: i64, out: &mut Bytes) -> Result<(), AllocError>
    ensures { OnOk result (out.new ≡ out.old ++ with_two words.now name.now (signed_decimal date)) }
{
    out.extend(words.as_bytes())?;
    say_spaced(name, out)?;
    say_date(date, out)
}

/// Appends words, a name, a date and a value.
#[tactic(auto, unfolding(crate::specs::DoLines::with_three))]
fn say_setting(
    words: &str,
    name: &str,
    date: i64,
    value: &str,
    out: &mut Bytes,
) -> Result<(), AllocError>
    ensures { OnOk result (out.new ≡ out.old ++ with_three words.now name.now (signed_decimal date) value.now) }
{
    out.extend(words.as_bytes())?;
    say_spaced(name, out)?;
    say_date(date, out)?;
    say_spaced(value, out)
}

/// Appends a date behind a space.
fn say_date(date: i64, out: &mut Bytes) -> Result<(), AllocError>
    ensures { OnOk result (out.new ≡ out.old ++ spaced (signed_decimal date)) }
{
    out.push(b' ')?;
    write_signed_number(date, out)
}

/// Appends why a command was refused, if it was.
fn say_refusal(answer: Acted, out: &mut Bytes) -> Result<(), AllocError>
    ensures { OnOk result (out.new ≡ out.old ++ refusal_text answer) }
{
    match answer {
        Acted::Refused(reason) => {
            out.extend(b" refused ")?;
            out.extend(reason.name().as_bytes())
        }
        Acted::Done | Acted::Started(_) | Acted::Failed | Acted::Memory => Ok(()),
    }
}
