ghost use Rattle.std.specs.Prelude.{◌≡◌, ◌++◌, ◌≤◌, IfOk, OnOk};
ghost use Rattle.line_forms.specs.Lines.{lines_text};
ghost use Rattle.office_text.specs.Made.{office_of, site_body, site_lines, action_lines, computer_lines, computers_lines, next_draw, turn_lines, turns_lines};

use desk_base::{Bytes, decimal};
use line_forms::write_digest;
use sha2::{Digest, Sha256};
use std::alloc::{AllocError, Global};

/// The text of an office with a server, a relay and this many computers, from 1 to 2,000: each of them upgrades `agentd`, which is
/// there in one of two versions, as a sequence of draws has it, and reports it. The error is want of memory.
pub fn make(alloc: Global, number: u32) -> Result<Bytes, AllocError>
    requires { (1 ≤ number) × (number ≤ 2000) }
    ensures { IfOk result (λ text. text ≡ office_of number) }
{
    let mut out = Bytes::from_slice(alloc, b"office\npublish\n")?;
    add_site(&mut out)?;
    out.extend(b"act\n")?;
    out.extend(action_text())?;
    out.extend(b"relay r1\n")?;
    add_computers(number, &mut out)?;
    out.extend(b"gather r1\n")?;
    add_turns(number, &mut out)?;
    out.extend(b"forward r1\nend\n")?;
    Ok(out)
}

/// Appends the site with its digest.
fn add_site(out: &mut Bytes) -> Result<(), AllocError>
    ensures { OnOk result (out.new ≡ out.old ++ lines_text site_lines) }
{
    let body = site_text();
    out.extend(body)?;
    out.extend(b"digest ")?;
    write_digest(&Sha256::digest(body), out)?;
    out.push(b'\n')
}

fn site_text() -> &'static [u8]
    ensures { result.now ≡ lines_text site_body }
{
    b"site desk 1\nfixlet 1\ntitle Upgrade agentd\nrelevance exists packages whose (name of it = \"agentd\" and version of it < \"1.2\")\nsuccess relevance\n| wait upgrade agentd\nend\n"
}

fn action_text() -> &'static [u8]
    ensures { result.now ≡ lines_text action_lines }
{
    b"action 1\nissued 0\ncontent desk 1\nmembers stop\ntarget all\nstart none\nuntil none\nhours none\ndays 1111111\nretries 0 0\nreapply never\nstate open\nend\n"
}

/// Appends the computers.
fn add_computers(number: u32, out: &mut Bytes) -> Result<(), AllocError>
    requires { number ≤ 2000 }
    ensures { OnOk result (out.new ≡ out.old ++ lines_text (computers_lines number)) }
{
    let mut drawn = u64::from(number);
    for place in 0..number {
        drawn = next_draw(drawn);
        add_computer(place + 1, drawn / 65_536 % 2, out)?;
    }
    Ok(())
}

/// The number that is drawn behind this one.
fn next_draw(drawn: u64) -> u64
    requires { drawn ≤ 2147483648 }
    ensures { result ≡ next_draw drawn }
{
    (1_103_515_245 * drawn + 12_345) % 2_147_483_648
}

/// Appends the computer at this place.
fn add_computer(place: u32, minor: u64, out: &mut Bytes) -> Result<(), AllocError>
    ensures { OnOk result (out.new ≡ out.old ++ lines_text (computer_lines place minor)) }
{
    out.extend(b"computer c")?;
    decimal(u64::from(place), out)?;
    out.extend(b" r1\nworld\nname c")?;
    decimal(u64::from(place), out)?;
    out.extend(b"\nsystem 12.4 Debian\noffset 0\nmoment 1000\npackage 1.")?;
    decimal(minor, out)?;
    out.extend(b" agentd\nprogram 0 0 upgrade agentd\ngives 1.2 agentd\nend\n")
}

/// Appends the turns and reports.
fn add_turns(number: u32, out: &mut Bytes) -> Result<(), AllocError>
    requires { number ≤ 2000 }
    ensures { OnOk result (out.new ≡ out.old ++ lines_text (turns_lines number)) }
{
    for place in 0..number {
        add_turn(place + 1, out)?;
    }
    Ok(())
}

/// Appends the turn of the computer at this place, and its report.
fn add_turn(place: u32, out: &mut Bytes) -> Result<(), AllocError>
    ensures { OnOk result (out.new ≡ out.old ++ lines_text (turn_lines place)) }
{
    out.extend(b"turn c")?;
    decimal(u64::from(place), out)?;
    out.extend(b" 1000\nreport c")?;
    decimal(u64::from(place), out)?;
    out.push(b'\n')
}
