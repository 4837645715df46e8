// Pockets that fail: what stands unsaved, when it is saved, and how often. A text that stands in the pocket is its first save.
use crate::played::{Faults, SOUND, Step};
use crate::shown::Shown;
use crate::sites::{ACTION, FAILING, OPEN, REALISTIC, WAITS};
use crate::stories::Story;
use agent_core::{Agent, MemoryPocket, Opened, Pocket, Verdict};
use line_forms::read_name;
use rel_lexer::Text;
use std::alloc::Global;
use std::mem::drop;
use std::test::Fail;

/// The saved text whose row runs, as a save that failed may have left it.
const RUNNING: &str =
    "agent 2\ncomputer pc1\nnext 1\naction 7\nattempt 1 1000 running - - - - -\npending 7\nend\n";

/// The save of a beginning fails, then the one that is made since it failed. A save that failed may have left the new text, whose row
/// the agent doesn't have: the next turn saves what the agent has; an agent that is opened from it has a broken attempt.
pub(crate) const BEGINNINGS: [Story; 3] = [
    Story {
        faults: Faults {
            looks: &[],
            acts: &[],
            saves: &[1, 2],
        },
        saved: "",
        lives: &[&[
            Step::Gather(&[FAILING]),
            Step::Gather(&[ACTION, OPEN]),
            Step::Turn(1000),
            Step::Show(Shown::Rows(7)),
            Step::Turn(1000),
            Step::Show(Shown::Rows(7)),
            Step::Show(Shown::Saved),
            Step::Turn(1001),
            Step::Show(Shown::Attempts),
        ]],
        wanted: "pocket fault\nno rows\npocket fault\nno rows\nnothing\nbegan 7 failed 0 3 42 AlreadyThere, make /t, append __appendfile, copy __appendfile /etc/agentd/conf\nattempt 1 1001 failed 1001 - - 0 3\n",
    },
    Story {
        faults: Faults {
            looks: &[],
            acts: &[],
            saves: &[1],
        },
        saved: "",
        lives: &[&[
            Step::Gather(&[FAILING]),
            Step::Gather(&[ACTION, OPEN]),
            Step::Turn(1000),
            Step::Put(RUNNING),
            Step::Gather(&["site actionsite 2\n"]),
            Step::Turn(1001),
            Step::Show(Shown::Saved),
        ]],
        wanted: "pocket fault\nidle\nagent 2\ncomputer pc1\nnext 1\nend\n",
    },
    Story {
        faults: Faults {
            looks: &[],
            acts: &[],
            saves: &[1],
        },
        saved: "",
        lives: &[
            &[
                Step::Gather(&[FAILING]),
                Step::Gather(&[ACTION, OPEN]),
                Step::Turn(1000),
                Step::Put(RUNNING),
            ],
            &[Step::Turn(1001), Step::Show(Shown::Attempts)],
        ],
        wanted: "pocket fault\ninterrupted 7\nattempt 1 1000 interrupted 1001 - - - -\n",
    },
];

/// Reports that are not saved are hidden, and can be settled all the same.
pub(crate) const HIDDEN: [Story; 2] = [
    Story {
        faults: Faults {
            looks: &[],
            acts: &[],
            saves: &[2],
        },
        saved: "",
        lives: &[&[
            Step::Gather(&[FAILING]),
            Step::Gather(&[ACTION, OPEN]),
            Step::Turn(1000),
            Step::Show(Shown::Outbox),
            Step::Turn(1001),
            Step::Show(Shown::Outbox),
            Step::Settle(1, Verdict::Carried),
            Step::Settle(1, Verdict::Conflict([0; 32])),
            Step::Settle(1, Verdict::Full(1)),
            Step::Settle(2, Verdict::Stored),
            Step::Settle(1, Verdict::Stored),
            Step::Settle(1, Verdict::Stored),
            Step::Show(Shown::Outbox),
        ]],
        wanted: "pocket fault, make /t, append __appendfile, copy __appendfile /etc/agentd/conf\noutbox 0\nidle\noutbox 1, last 1 of 1, 7 1 failed\nnot dropped\nnot dropped\nnot dropped\nnot dropped\ndropped\nnot dropped\noutbox 0\n",
    },
    Story {
        faults: Faults {
            looks: &[],
            acts: &[],
            saves: &[2],
        },
        saved: "",
        lives: &[&[
            Step::Gather(&[FAILING]),
            Step::Gather(&[ACTION, OPEN]),
            Step::Turn(1000),
            Step::Settle(1, Verdict::Stored),
            Step::Turn(1001),
            Step::Show(Shown::Outbox),
            Step::Show(Shown::Saved),
        ]],
        wanted: "pocket fault, make /t, append __appendfile, copy __appendfile /etc/agentd/conf\ndropped\nidle\noutbox 0\nagent 2\ncomputer pc1\nnext 2\naction 7\nattempt 1 1000 failed 1000 - - 0 3\nend\n",
    },
];

/// A broken attempt ends, also where that isn't saved; then the next turn saves it, goes on, and makes the report at its end. An
/// interrupted turn saves twice.
pub(crate) const BROKEN: [Story; 4] = [
    Story {
        faults: Faults {
            looks: &[],
            acts: &[],
            saves: &[2],
        },
        saved: "agent 2\ncomputer pc1\nnext 1\naction 7\nattempt 1 1000 running - - - - -\nend\n",
        lives: &[&[
            Step::Turn(1005),
            Step::Show(Shown::Attempts),
            Step::Turn(1006),
            Step::Show(Shown::Saved),
        ]],
        wanted: "pocket fault\nattempt 1 1000 running - - - - -\nidle\nagent 2\ncomputer pc1\nnext 2\naction 7\nattempt 1 1000 interrupted 1005 - - - -\nreport 2\ncomputer pc1\nseq 1\nrow 7 1 interrupted 1000 1005 - - -\nend\nend\n",
    },
    Story {
        faults: Faults {
            looks: &[],
            acts: &[],
            saves: &[2],
        },
        saved: RUNNING,
        lives: &[&[
            Step::Gather(&[WAITS]),
            Step::Gather(&[ACTION, OPEN]),
            Step::Turn(1005),
            Step::Turn(1065),
            Step::Show(Shown::Outbox),
        ]],
        wanted: "pocket fault\nbegan 7 held 0 1, start slow\noutbox 1, last 1 of 1, 7 2 running\n",
    },
    Story {
        faults: Faults {
            looks: &[],
            acts: &[],
            saves: &[4],
        },
        saved: RUNNING,
        lives: &[&[
            Step::Turn(1005),
            Step::Show(Shown::Outbox),
            Step::Turn(1006),
            Step::Settle(1, Verdict::Stored),
            Step::Turn(1007),
        ]],
        wanted: "interrupted 7\noutbox 1, last 1 of 1, 7 1 interrupted\nidle\ndropped\npocket fault\n",
    },
    Story {
        faults: SOUND,
        saved: "agent 2\ncomputer pc1\nnext 1\naction 6\nattempt 1 1000 running - - - - -\naction 7\nattempt 1 1000 running - - - - -\nend\n",
        lives: &[&[
            Step::Turn(1005),
            Step::Turn(1006),
            Step::Turn(1007),
            Step::Show(Shown::Outbox),
        ]],
        wanted: "interrupted 6\ninterrupted 7\nidle\noutbox 2, last 2 of 1, 7 1 interrupted\n",
    },
];

/// Saves 1 and 2 are those of the turn at 1000, save 3 is that of what was settled. It is made also in a turn that falls back then.
pub(crate) const SETTLED: [Story; 2] = [
    Story {
        faults: Faults {
            looks: &[],
            acts: &[],
            saves: &[3],
        },
        saved: "",
        lives: &[&[
            Step::Gather(&[FAILING]),
            Step::Gather(&[ACTION, OPEN]),
            Step::Turn(1000),
            Step::Turn(1001),
            Step::Turn(1001),
            Step::Settle(1, Verdict::Stored),
            Step::Turn(1002),
            Step::Turn(1002),
            Step::Show(Shown::Saved),
        ]],
        wanted: "began 7 failed 0 3 42 AlreadyThere, make /t, append __appendfile, copy __appendfile /etc/agentd/conf\nidle\nidle\ndropped\npocket fault\nidle\nagent 2\ncomputer pc1\nnext 2\naction 7\nattempt 1 1000 failed 1000 - - 0 3\nend\n",
    },
    Story {
        faults: Faults {
            looks: &[1],
            acts: &[],
            saves: &[],
        },
        saved: "agent 2\ncomputer pc1\nnext 2\nreport 2\ncomputer pc1\nseq 1\nend\nend\n",
        lives: &[&[
            Step::Gather(&[FAILING]),
            Step::Gather(&[ACTION, OPEN]),
            Step::Settle(1, Verdict::Stored),
            Step::Turn(1000),
            Step::Show(Shown::Saved),
        ]],
        wanted: "dropped\nmachine fault\nagent 2\ncomputer pc1\nnext 2\nend\n",
    },
];

/// Two saves in the turn that begins and is held, and two at the end: the third fails.
pub(crate) const HELD: Story = Story {
    faults: Faults {
        looks: &[],
        acts: &[],
        saves: &[3],
    },
    saved: "",
    lives: &[&[
        Step::Gather(&[WAITS]),
        Step::Gather(&[ACTION, OPEN]),
        Step::Turn(1000),
        Step::Turn(1001),
        Step::Turn(1002),
        Step::Show(Shown::Outbox),
        Step::Turn(1003),
        Step::Show(Shown::Outbox),
        Step::Turn(1004),
        Step::Show(Shown::Outbox),
    ]],
    wanted: "began 7 held 0 1, start slow\nwent on 7 held 0 1\nwent on 7 held 0 1\noutbox 1, last 1 of 1, 7 1 running\npocket fault\noutbox 1, last 1 of 1, 7 1 running\nidle\noutbox 2, last 2 of 1, 7 1 fixed\n",
};

/// The fifth look is that of the success rule. What failed has the exit code of its run.
pub(crate) const UNJUDGED: Story = Story {
    faults: Faults {
        looks: &[5],
        acts: &[],
        saves: &[],
    },
    saved: "",
    lives: &[&[
        Step::Gather(&[REALISTIC]),
        Step::Gather(&[ACTION, OPEN]),
        Step::Turn(1000),
        Step::Turn(1010),
        Step::Show(Shown::Attempts),
    ]],
    wanted: "began 7 held 0 8, delete __createfile, write __createfile, delete /etc/agentd/conf, copy __createfile /etc/agentd/conf, start upgrade agentd\nwent on 7 failed 0 0 43\nattempt 1 1000 failed 1010 - 0 0 0\n",
};

/// What opening an agent answers, in a word.
fn opened(alloc: Global, pocket: &mut MemoryPocket) -> Option<&'static str> {
    let name = Text::from_str(alloc, read_name(b"pc1")?).ok()?;
    let opened = Agent::open(alloc, &name, pocket);
    let word = match &opened {
        Opened::Agent(_) => "an agent",
        Opened::BadPocket(1) => "bad at line 1",
        Opened::BadPocket(_) => "bad",
        Opened::PocketFault => "a fault",
        Opened::Memory => "no memory",
    };
    drop(opened);
    Some(word)
}

#[test]
fn a_pocket_tells_what_is_wrong(rt: HostRuntime) -> Result<(), Fail> {
    let alloc = rt.alloc();
    let loads = [2].to_vec(alloc)?;
    let mut pocket = MemoryPocket::new(alloc, loads, Vec::new(alloc));
    pocket.save(b"agent 3\n");
    assert_eq!(rt; opened(alloc, &mut pocket), Some("bad at line 1"));
    assert_eq!(rt; opened(alloc, &mut pocket), Some("a fault"));
    Ok(())
}
