ghost use Rattle.std.specs.Prelude.{◌≤◌, IfOk};
ghost use Rattle.line_forms.specs.Numbers.{IsId};
ghost use Rattle.report_text.specs.Reports.{IsReport};

use rel_lexer::Text;
use relay_core::{Relay, RelayAnswer, Verdict};
use report_text::{Form, Report, ReportRows, read_report};
use std::alloc::Global;
use std::test::Fail;

/// A report, and another one of its key.
const ONE: &[u8] = b"report 1\ncomputer pc1\nseq 1\nrow 7 1 fixed 1000 1010\nend\n";

const OTHER: &[u8] = b"report 1\ncomputer pc1\nseq 1\nrow 7 1 failed 1000 1010\nend\n";

const TWO: &[u8] = b"report 1\ncomputer pc1\nseq 2\nend\n";

/// The SHA-256 of the first, by another program.
const DIGEST: [u8; 32] = [
    0xca, 0x8a, 0x73, 0x75, 0xb5, 0x60, 0xd8, 0xfb, 0x82, 0x20, 0x12, 0xab, 0x1e, 0x72, 0x14, 0x7b,
    0x17, 0x2b, 0x6f, 0x77, 0xad, 0xe2, 0xee, 0x68, 0xd8, 0xff, 0x63, 0xbf, 0xaf, 0x69, 0x80, 0x6e,
];

/// That of the other one.
const OTHER_DIGEST: [u8; 32] = [
    0x88, 0xab, 0xc0, 0x8f, 0xba, 0xdc, 0x0f, 0x9e, 0x45, 0xdd, 0xaf, 0x32, 0x98, 0x06, 0x0a, 0xc3,
    0x44, 0x50, 0xd7, 0x32, 0x01, 0xa8, 0xe9, 0x42, 0x15, 0x65, 0xf6, 0x19, 0xca, 0xba, 0x95, 0x20,
];

/// What the relay answers to the report of this text.
fn told(alloc: Global, relay: &mut Relay, text: &[u8]) -> Result<Verdict, Fail> {
    let Ok(report) = read_report(alloc, text) else {
        return Err("no report".into());
    };
    match relay.up(&report) {
        RelayAnswer::Told(verdict) => Ok(verdict),
        RelayAnswer::Memory => Err("no memory".into()),
    }
}

/// A verdict in a word, and which of the two reports it names.
fn shown(verdict: Verdict) -> &'static str {
    match verdict {
        Verdict::Stored => "stored",
        Verdict::Carried => "carried",
        Verdict::Conflict(digest) if digest == DIGEST => "conflict with one",
        Verdict::Conflict(digest) if digest == OTHER_DIGEST => "conflict with the other",
        Verdict::Conflict(_) => "conflict",
        Verdict::Full(1) => "full at 1",
        Verdict::Full(_) => "full",
    }
}

#[test]
fn a_report_is_carried_until_the_server_holds_it(rt: HostRuntime) -> Result<(), Fail> {
    let alloc = rt.alloc();
    let mut relay = Relay::new(alloc, 1);
    let queued = [
        (ONE, "carried"),
        (ONE, "carried"),
        (TWO, "full at 1"),
        (OTHER, "conflict with one"),
    ];
    for (text, wanted) in queued {
        assert_eq!(rt; shown(told(alloc, &mut relay, text)?), wanted);
    }
    let computer = Text::from_str(alloc, "pc1")?;
    assert_eq!(rt; relay.sent(&computer, 2, &DIGEST), false);
    assert_eq!(rt; relay.sent(&computer, 1, &DIGEST), true);
    assert_eq!(rt; relay.sent(&computer, 1, &DIGEST), false);
    assert_eq!(rt; relay.queue().len(), 0);
    let known = [
        (ONE, "stored"),
        (OTHER, "conflict with one"),
        (TWO, "carried"),
    ];
    for (text, wanted) in known {
        assert_eq!(rt; shown(told(alloc, &mut relay, text)?), wanted);
    }
    assert_eq!(rt; relay.queue().first().ok_or("no report")?.seq, 2);
    Ok(())
}

#[test]
fn a_known_key_has_the_digest_that_was_told(rt: HostRuntime) -> Result<(), Fail> {
    let alloc = rt.alloc();
    let mut relay = Relay::new(alloc, 2);
    assert_eq!(rt; shown(told(alloc, &mut relay, ONE)?), "carried");
    assert_eq!(rt;
        relay.sent(&Text::from_str(alloc, "pc1")?, 1, &OTHER_DIGEST),
        true
    );
    assert_eq!(rt;
        shown(told(alloc, &mut relay, ONE)?),
        "conflict with the other"
    );
    assert_eq!(rt; shown(told(alloc, &mut relay, OTHER)?), "stored");
    Ok(())
}

/// The report of this number without rows.
fn numbered(alloc: Global, seq: u64) -> Result<Report, Fail>
    requires { IsId seq }
    ensures { IfOk result IsReport }
{
    Ok(Report {
        form: Form::One,
        computer: Text::from_str(alloc, "pc1")?,
        seq,
        rows: ReportRows::from_vec(Vec::new(alloc)),
    })
}

/// What the relay answers to a report of this number without rows.
fn told_number(alloc: Global, relay: &mut Relay, seq: u64) -> Result<&'static str, Fail>
    requires { IsId seq }
{
    let report = numbered(alloc, seq)?;
    match relay.up(&report) {
        RelayAnswer::Told(verdict) => Ok(shown(verdict)),
        RelayAnswer::Memory => Err("no memory".into()),
    }
}

/// The reports of these numbers go up, and the relay is told that the server holds them.
fn send(alloc: Global, relay: &mut Relay, from: u64, to: u64) -> Result<(), Fail>
    requires { (1 ≤ from) × (to ≤ 20000) }
{
    let computer = Text::from_str(alloc, "pc1")?;
    for seq in from..to {
        told_number(alloc, relay, seq)?;
        if !relay.sent(&computer, seq, &DIGEST) {
            return Err("not queued".into());
        }
    }
    Ok(())
}

#[test]
fn the_latest_10_000_keys_are_known(rt: HostRuntime) -> Result<(), Fail> {
    let alloc = rt.alloc();
    let mut relay = Relay::new(alloc, 3);
    send(alloc, &mut relay, 1, 10_001)?;
    // the first key is known, and asking for it doesn't keep it
    assert_eq!(rt; told_number(alloc, &mut relay, 1)?, "conflict with one");
    send(alloc, &mut relay, 10_001, 10_002)?;
    let rows = [
        (1, "carried"),
        (2, "conflict with one"),
        (10_001, "conflict with one"),
    ];
    for (seq, wanted) in rows {
        assert_eq!(rt; told_number(alloc, &mut relay, seq)?, wanted);
    }
    Ok(())
}

#[test]
fn a_report_leaves_the_queue_from_any_place(rt: HostRuntime) -> Result<(), Fail> {
    let alloc = rt.alloc();
    let mut relay = Relay::new(alloc, 3);
    for seq in 1..4u64 {
        assert_eq!(rt; told_number(alloc, &mut relay, seq)?, "carried");
    }
    assert_eq!(rt;
        relay.sent(&Text::from_str(alloc, "pc1")?, 2, &DIGEST),
        true
    );
    let left = relay.queue();
    assert_eq!(rt; left.len(), 2);
    assert_eq!(rt; (left[0].seq, left[1].seq), (1, 3));
    Ok(())
}
