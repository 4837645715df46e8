// The line of each answer of a turn. The rows follow the table of turn lines, written by hand.
use act_rules::Outcome;
use agent_core::{Fail as Failed, Turned};
use bf_machine::Reason;
use desk_base::Bytes;
use rel_eval::RelKind;
use rel_lexer::{Place, Text};
use script_run::Cause;
use std::alloc::{AllocError, Global};
use std::mem::drop;
use std::test::Fail;
use turn_lines::say_turn;

/// Why an attempt failed.
#[derive(Clone, Copy)]
enum Why {
    Relevance(RelKind, u32, u32),
    NotContinued,
    Refused(Reason),
    MachineFault,
    ParameterTwice,
    WrongSize(u64, u64),
    WrongDigest(&'static str, &'static str),
    NotServed,
    BadDate,
    NotMet,
}

/// What a turn came to. Each attempt is of the action 7.
#[derive(Clone, Copy)]
enum Came {
    Idle,
    Interrupted(u64),
    /// Whether the attempt began, its component and line.
    Held(bool, u32, u32),
    Wants(bool),
    Fixed(bool),
    Failed(bool, u32, u32, Why),
    MachineFault,
    PocketFault,
    Memory,
}

/// The SHA-256 of the bytes `abc`, and how it is written.
const ABC: [u8; 32] = [
    0xba, 0x78, 0x16, 0xbf, 0x8f, 0x01, 0xcf, 0xea, 0x41, 0x41, 0x40, 0xde, 0x5d, 0xae, 0x22, 0x23,
    0xb0, 0x03, 0x61, 0xa3, 0x96, 0x17, 0x7a, 0x9c, 0xb4, 0x10, 0xff, 0x61, 0xf2, 0x00, 0x15, 0xad,
];

/// What a turn of pc1 at the moment 1000 came to, and its line.
const ROWS: [(Came, &str); 28] = [
    (Came::Idle, "turn pc1 1000: idle\n"),
    (Came::Interrupted(7), "turn pc1 1000: interrupted 7\n"),
    (
        Came::Interrupted(9007199254740992),
        "turn pc1 1000: interrupted 9007199254740992\n",
    ),
    (
        Came::Held(true, 0, 8),
        "turn pc1 1000: began 7, held at line 8\n",
    ),
    (
        Came::Held(false, 0, 1),
        "turn pc1 1000: went on 7, held at line 1\n",
    ),
    (
        Came::Held(true, 2, 1),
        "turn pc1 1000: began 7, held in component 2 at line 1\n",
    ),
    (
        Came::Held(false, 10, 20),
        "turn pc1 1000: went on 7, held in component 10 at line 20\n",
    ),
    (
        Came::Wants(true),
        "turn pc1 1000: began 7, wants ba7816bf8f01cfea414140de5dae2223b00361a396177a9cb410ff61f20015ad\n",
    ),
    (
        Came::Wants(false),
        "turn pc1 1000: went on 7, wants ba7816bf8f01cfea414140de5dae2223b00361a396177a9cb410ff61f20015ad\n",
    ),
    (Came::Fixed(true), "turn pc1 1000: began 7, fixed\n"),
    (Came::Fixed(false), "turn pc1 1000: went on 7, fixed\n"),
    (
        Came::Failed(true, 0, 1, Why::Relevance(RelKind::DivideByZero, 1, 2)),
        "turn pc1 1000: began 7, failed at line 1 cause 40 8 1..2\n",
    ),
    (
        Came::Failed(false, 3, 12, Why::Relevance(RelKind::NotSingular, 0, 5)),
        "turn pc1 1000: went on 7, failed in component 3 at line 12 cause 40 13 0..5\n",
    ),
    (
        Came::Failed(true, 0, 9, Why::NotContinued),
        "turn pc1 1000: began 7, failed at line 9 cause 41\n",
    ),
    (
        Came::Failed(true, 0, 3, Why::Refused(Reason::AlreadyThere)),
        "turn pc1 1000: began 7, failed at line 3 cause 42 AlreadyThere\n",
    ),
    (
        Came::Failed(false, 1, 1, Why::Refused(Reason::NotStarted)),
        "turn pc1 1000: went on 7, failed in component 1 at line 1 cause 42 NotStarted\n",
    ),
    (
        Came::Failed(true, 0, 0, Why::MachineFault),
        "turn pc1 1000: began 7, failed at line 0 cause 43\n",
    ),
    (
        Came::Failed(true, 2, 0, Why::MachineFault),
        "turn pc1 1000: began 7, failed in component 2 at line 0 cause 43\n",
    ),
    (
        Came::Failed(true, 0, 2, Why::ParameterTwice),
        "turn pc1 1000: began 7, failed at line 2 cause 44\n",
    ),
    (
        Came::Failed(false, 0, 1, Why::WrongSize(3, 4)),
        "turn pc1 1000: went on 7, failed at line 1 cause 45 3 4\n",
    ),
    (
        Came::Failed(false, 0, 1, Why::WrongSize(18446744073709551615, 0)),
        "turn pc1 1000: went on 7, failed at line 1 cause 45 18446744073709551615 0\n",
    ),
    (
        Came::Failed(
            false,
            0,
            1,
            Why::WrongDigest(
                "da39a3ee5e6b4b0d3255bfef95601890afd80709",
                "a9993e364706816aba3e25717850c26c9cd0d89d",
            ),
        ),
        "turn pc1 1000: went on 7, failed at line 1 cause 46 da39a3ee5e6b4b0d3255bfef95601890afd80709 a9993e364706816aba3e25717850c26c9cd0d89d\n",
    ),
    (
        Came::Failed(true, 0, 2, Why::NotServed),
        "turn pc1 1000: began 7, failed at line 2 cause 47 ba7816bf8f01cfea414140de5dae2223b00361a396177a9cb410ff61f20015ad\n",
    ),
    (
        Came::Failed(true, 0, 4, Why::BadDate),
        "turn pc1 1000: began 7, failed at line 4 cause 48\n",
    ),
    (
        Came::Failed(false, 0, 0, Why::NotMet),
        "turn pc1 1000: went on 7, failed at line 0 cause 49\n",
    ),
    (Came::MachineFault, "turn pc1 1000: machine fault\n"),
    (Came::PocketFault, ""),
    (Came::Memory, ""),
];

/// The cause of a row.
fn cause(alloc: Global, why: Why) -> Result<Cause, AllocError> {
    Ok(match why {
        Why::Relevance(kind, from, to) => Cause::Relevance(kind, Place { from, to }),
        Why::NotContinued => Cause::NotContinued,
        Why::Refused(reason) => Cause::Refused(reason),
        Why::MachineFault => Cause::MachineFault,
        Why::ParameterTwice => Cause::ParameterTwice,
        Why::WrongSize(stated, found) => Cause::WrongSize { stated, found },
        Why::WrongDigest(stated, found) => Cause::WrongDigest {
            stated: Text::from_str(alloc, stated)?,
            found: Text::from_str(alloc, found)?,
        },
        Why::NotServed => Cause::NotServed(ABC),
        Why::BadDate => Cause::BadDate,
        Why::NotMet => Cause::NotMet,
    })
}

/// The answer of an attempt that ended so.
fn ended(began: bool, outcome: Outcome, fail: Option<Failed>) -> Turned {
    Turned::Ended {
        id: 7,
        began,
        outcome,
        fail,
    }
}

/// The answer of a row.
fn turned(alloc: Global, came: Came) -> Result<Turned, AllocError> {
    Ok(match came {
        Came::Idle => Turned::Idle,
        Came::Interrupted(id) => Turned::Interrupted { id },
        Came::Held(began, component, line) => Turned::Held {
            id: 7,
            began,
            component,
            line,
        },
        Came::Wants(began) => Turned::Wants {
            id: 7,
            began,
            digest: ABC,
        },
        Came::Fixed(began) => ended(began, Outcome::Fixed, None),
        Came::Failed(began, component, line, why) => {
            let fail = Failed {
                component,
                line,
                cause: cause(alloc, why)?,
            };
            ended(began, Outcome::Failed, Some(fail))
        }
        Came::MachineFault => Turned::MachineFault,
        Came::PocketFault => Turned::PocketFault,
        Came::Memory => Turned::Memory,
    })
}

/// The line of a row.
fn line(alloc: Global, computer: &Text, came: Came) -> Result<Bytes, AllocError> {
    let turned = turned(alloc, came)?;
    let mut out = Bytes::new(alloc);
    let said = say_turn(computer, 1000, &turned, &mut out);
    drop(turned);
    said?;
    Ok(out)
}

#[test]
fn each_answer_has_its_line(rt: HostRuntime) -> Result<(), Fail> {
    let alloc = rt.alloc();
    let computer = Text::from_str(alloc, "pc1")?;
    for (came, wanted) in ROWS {
        let said = line(alloc, &computer, came)?;
        assert_eq!(rt;
            str::from_utf8(said.as_slice()).ok().ok_or("no text")?,
            wanted
        );
    }
    Ok(())
}
