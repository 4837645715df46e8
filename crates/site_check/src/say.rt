// What is said of a finding.
ghost use Rattle.std.specs.Prelude.{◌≡◌, ◌++◌, OnOk};
ghost use Rattle.site_check.specs.Lines.{bad_line, digest_line, finding_line, good_line, question_line, refusal_line, script_line, script_number, too_long_line, twice_line, wrong_line};

use crate::finding::Finding;
use crate::refusal::{PieceRefusal, QuestionFault, ScriptFault};
use desk_base::{Bytes, decimal};
use line_forms::write_digest;
use rel_eval::write_place;
use std::alloc::{AllocError, Global};

/// Appends the line that tells a finding; Memory has none, and appends nothing. The error is want of memory, after which `out` is of
/// no use.
pub fn say_finding(alloc: Global, finding: &Finding, out: &mut Bytes) -> Result<(), AllocError>
    ensures { OnOk result (out.new ≡ out.old ++ finding_line finding.now) }
{
    match finding {
        Finding::Good { fixlets, baselines } => say_good(*fixlets, *baselines, out),
        Finding::BadLine(line) => say_bad_line(*line, out),
        Finding::TwiceId(line) => say_twice(*line, out),
        Finding::WrongDigest { stated, found } => say_digests(stated, found, out),
        Finding::TooLong => say_too_long(out),
        Finding::BadPiece(refusal) => say_refusal(alloc, *refusal, out),
        Finding::Memory => Ok(()),
    }
}

#[tactic(auto, unfolding(crate::specs::Lines::good_line))]
fn say_good(fixlets: u64, baselines: u64, out: &mut Bytes) -> Result<(), AllocError>
    ensures { OnOk result (out.new ≡ out.old ++ good_line fixlets baselines) }
{
    out.extend(b"ok ")?;
    decimal(fixlets, out)?;
    out.extend(b" ")?;
    decimal(baselines, out)?;
    out.push(b'\n')
}

/// Appends the number of what is wrong, and the line of the site on which it is.
#[tactic(auto, unfolding(crate::specs::Lines::wrong_line))]
fn say_wrong_line(status: &[u8], line: u32, out: &mut Bytes) -> Result<(), AllocError>
    ensures { OnOk result (out.new ≡ out.old ++ wrong_line status.now line) }
{
    out.extend(status)?;
    out.extend(b" line ")?;
    decimal(u64::from(line), out)
}

#[tactic(auto, unfolding(crate::specs::Lines::bad_line))]
fn say_bad_line(line: u32, out: &mut Bytes) -> Result<(), AllocError>
    ensures { OnOk result (out.new ≡ out.old ++ bad_line line) }
{
    say_wrong_line(b"20", line, out)?;
    out.push(b'\n')
}

#[tactic(auto, unfolding(crate::specs::Lines::twice_line))]
fn say_twice(line: u32, out: &mut Bytes) -> Result<(), AllocError>
    ensures { OnOk result (out.new ≡ out.old ++ twice_line line) }
{
    say_wrong_line(b"21", line, out)?;
    out.push(b'\n')
}

#[tactic(auto, unfolding(crate::specs::Lines::digest_line))]
fn say_digests(stated: &[u8; 32], found: &[u8; 32], out: &mut Bytes) -> Result<(), AllocError>
    ensures { OnOk result (out.new ≡ out.old ++ digest_line stated.now found.now) }
{
    out.extend(b"22 ")?;
    write_digest(stated, out)?;
    out.extend(b" ")?;
    write_digest(found, out)?;
    out.push(b'\n')
}

#[tactic(auto, unfolding(crate::specs::Lines::too_long_line))]
fn say_too_long(out: &mut Bytes) -> Result<(), AllocError>
    ensures { OnOk result (out.new ≡ out.old ++ too_long_line) }
{
    out.extend(b"23\n")
}

/// Appends the line that tells why a piece is refused.
fn say_refusal(alloc: Global, refusal: PieceRefusal, out: &mut Bytes) -> Result<(), AllocError>
    ensures { OnOk result (out.new ≡ out.old ++ refusal_line refusal) }
{
    match refusal {
        PieceRefusal::Question { line, fault } => say_question(alloc, line, fault, out),
        PieceRefusal::Script { line, fault } => say_script(line, fault, out),
    }
}

#[tactic(auto, unfolding(crate::specs::Lines::question_line))]
fn say_question(
    alloc: Global,
    line: u32,
    fault: QuestionFault,
    out: &mut Bytes,
) -> Result<(), AllocError>
    ensures { OnOk result (out.new ≡ out.old ++ question_line line fault) }
{
    say_wrong_line(b"24", line, out)?;
    out.extend(b" kind ")?;
    decimal(u64::from(fault.kind.number()), out)?;
    out.extend(b" ")?;
    write_place(alloc, fault.place, out)?;
    out.push(b'\n')
}

#[tactic(auto, unfolding(crate::specs::Lines::script_line))]
fn say_script(line: u32, fault: ScriptFault, out: &mut Bytes) -> Result<(), AllocError>
    ensures { OnOk result (out.new ≡ out.old ++ script_line line fault) }
{
    say_wrong_line(b"25", line, out)?;
    out.extend(b" number ")?;
    decimal(script_number(fault), out)?;
    out.push(b'\n')
}

/// The number of a script's fault.
fn script_number(fault: ScriptFault) -> u64
    ensures { result ≡ script_number fault }
{
    match fault {
        ScriptFault::NoCommand => 30,
        ScriptFault::IfNotClosed => 31,
        ScriptFault::StrayElse => 32,
        ScriptFault::BraceNotClosed => 33,
        ScriptFault::CreateNotClosed => 34,
    }
}
