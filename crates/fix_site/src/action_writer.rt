ghost use Rattle.std.specs.Prelude.{◌≡◌, ◌++◌, map, IfOk, OnOk};
ghost use Rattle.line_forms.specs.Lines.{lines_text, ended_line};
ghost use Rattle.fix_site.specs.Actions.{IsAction, action_text, action_lines, target_lines, issued_line, content_line, members_line, computer_line, state_line};
ghost use Rattle.fix_site.specs.Readings.{first_lines};

use crate::action::{Action, Target};
use crate::content_writer::{write_id, write_rest};
use crate::rule_writer::write_rules;
use crate::texts::Texts;
use desk_base::Bytes;
use line_forms::{write_number, write_signed_number};
use rel_lexer::Text;
use std::alloc::{AllocError, Global};

/// The text of an action. The error is want of memory.
pub fn write_action(alloc: Global, action: &Action) -> Result<Bytes, AllocError>
    requires { IsAction action.now }
    ensures { IfOk result (λ text. text ≡ action_text action.now) }
{
    let mut out = Bytes::new(alloc);
    add_action(action, &mut out)?;
    Ok(out)
}

/// Appends the lines of an action.
pub(crate) fn add_action(action: &Action, out: &mut Bytes) -> Result<(), AllocError>
    ensures { OnOk result (out.new ≡ out.old ++ lines_text (action_lines action.now)) }
{
    add_head(action, out)?;
    add_target(&action.target, out)?;
    write_rules(&action.rules, out)?;
    out.extend(state_bytes(action.stopped))?;
    out.extend(b"end\n")
}

/// Appends the lines before the target.
fn add_head(action: &Action, out: &mut Bytes) -> Result<(), AllocError>
    ensures { OnOk result (out.new ≡ out.old ++ lines_text (first_lines action.now)) }
{
    write_id(b"action ", action.id, out)?;
    write_issued(action.issued, out)?;
    write_content(&action.site, action.content, out)?;
    out.extend(members_bytes(action.all_members))
}

fn write_issued(issued: i64, out: &mut Bytes) -> Result<(), AllocError>
    ensures { OnOk result (out.new ≡ out.old ++ ended_line (issued_line issued)) }
{
    out.extend(b"issued ")?;
    write_signed_number(issued, out)?;
    out.push(b'\n')
}

fn write_content(site: &Text, content: u64, out: &mut Bytes) -> Result<(), AllocError>
    ensures { OnOk result (out.new ≡ out.old ++ ended_line (content_line site.now content)) }
{
    out.extend(b"content ")?;
    out.extend(site.as_str().as_bytes())?;
    out.push(b' ')?;
    write_number(content, out)?;
    out.push(b'\n')
}

fn members_bytes(all: bool) -> &'static [u8]
    ensures { result.now ≡ ended_line (members_line all) }
{
    if all {
        b"members all\n"
    } else {
        b"members stop\n"
    }
}

fn state_bytes(stopped: bool) -> &'static [u8]
    ensures { result.now ≡ ended_line (state_line stopped) }
{
    if stopped {
        b"state stopped\n"
    } else {
        b"state open\n"
    }
}

/// Appends the lines of the target.
fn add_target(target: &Target, out: &mut Bytes) -> Result<(), AllocError>
    ensures { OnOk result (out.new ≡ out.old ++ lines_text (target_lines target.now)) }
{
    match target {
        Target::All => out.extend(b"target all\n"),
        Target::Computers(names) => add_computers(names, out),
        Target::Where(question) => write_rest(b"target where ", question, out),
    }
}

fn add_computers(names: &Texts, out: &mut Bytes) -> Result<(), AllocError>
    ensures { OnOk result (out.new ≡ out.old ++ lines_text (map computer_line names.now)) }
{
    for name in names.as_slice() {
        write_rest(b"target computer ", name, out)?;
    }
    Ok(())
}
