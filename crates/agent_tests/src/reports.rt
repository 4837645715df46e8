// Reports: what fits into one, and when none can be made.
use crate::played::{Faults, SOUND, Step};
use crate::shown::Shown;
use crate::stories::{Story, plays_from};
use agent_core::Verdict;
use std::alloc::Global;
use std::test::Fail;

/// The text of an agent with so many pending actions.
fn pending_actions(alloc: Global, count: u32) -> Option<String> {
    let mut text = String::from_str(alloc, "agent 2\ncomputer pc1\nnext 1\n").ok()?;
    for action in 0..count {
        let lines = format!(in alloc;
            "action {}\nattempt 1 0 failed 0 - - - -\n",
            u64::from(action) + 1
        )
        .ok()?;
        text.push_str(lines.as_str()).ok()?;
    }
    for action in 0..count {
        let line = format!(in alloc; "pending {}\n", u64::from(action) + 1).ok()?;
        text.push_str(line.as_str()).ok()?;
    }
    text.push_str("end\n").ok()?;
    Some(text)
}

const FITS: Story = Story {
    faults: SOUND,
    saved: "",
    lives: &[&[
        Step::Turn(1000),
        Step::Show(Shown::Outbox),
        Step::Turn(1001),
        Step::Show(Shown::Outbox),
        Step::Turn(1002),
        Step::Show(Shown::Outbox),
    ]],
    wanted: "idle\noutbox 1, last 1 of 500, 500 1 failed\nidle\noutbox 2, last 2 of 1, 501 1 failed\nidle\noutbox 2, last 2 of 1, 501 1 failed\n",
};

#[test]
fn what_does_not_fit_goes_into_the_next_report(rt: HostRuntime) -> Result<(), Fail> {
    let text = pending_actions(rt.alloc(), 501).ok_or("no memory")?;
    plays_from(rt.alloc(), "what does not fit", text.as_str(), &FITS)
}

/// The text of an agent with this pending attempt and 1,000 reports.
fn reports(alloc: Global, attempt: &str) -> Option<String> {
    let mut text = format!(in alloc;
        "agent 2\ncomputer pc1\nnext 1001\naction 7\n{attempt}\npending 7\n"
    ).ok()?;
    for seq in 0..1000_u32 {
        let lines = format!(in alloc; "report 2\ncomputer pc1\nseq {}\nend\n", seq + 1).ok()?;
        text.push_str(lines.as_str()).ok()?;
    }
    text.push_str("end\n").ok()?;
    Some(text)
}

const FULL: Story = Story {
    faults: SOUND,
    saved: "",
    lives: &[&[
        Step::Turn(1000),
        Step::Show(Shown::Outbox),
        Step::Settle(4, Verdict::Stored),
        Step::Turn(1001),
        Step::Show(Shown::Outbox),
    ]],
    wanted: "idle\noutbox 1000, last 1000 of 0\ndropped\nidle\noutbox 1000, last 1001 of 1, 7 1 fixed\n",
};

#[test]
fn a_full_outbox_makes_no_report(rt: HostRuntime) -> Result<(), Fail> {
    let text = reports(rt.alloc(), "attempt 1 0 fixed 0 - 3 - -").ok_or("no memory")?;
    plays_from(rt.alloc(), "a full outbox", text.as_str(), &FULL)
}

/// The interrupted turn saves once, and the settled report is saved by the third save, which fails. The row is reported as it then stands.
const STANDS: Story = Story {
    faults: Faults {
        looks: &[],
        acts: &[],
        saves: &[3],
    },
    saved: "",
    lives: &[&[
        Step::Turn(1000),
        Step::Show(Shown::Outbox),
        Step::Settle(4, Verdict::Stored),
        Step::Turn(1001),
        Step::Turn(1002),
        Step::Show(Shown::Outbox),
    ]],
    wanted: "interrupted 7\noutbox 1000, last 1000 of 0\ndropped\npocket fault\nidle\noutbox 1000, last 1001 of 1, 7 1 interrupted\n",
};

#[test]
fn a_row_is_reported_as_it_then_stands(rt: HostRuntime) -> Result<(), Fail> {
    let text = reports(rt.alloc(), "attempt 1 0 running - - - - -").ok_or("no memory")?;
    plays_from(
        rt.alloc(),
        "a row as it then stands",
        text.as_str(),
        &STANDS,
    )
}

/// The last number is used, and the one behind it isn't: an interrupted turn saves once then, and the third save is the next turn's.
pub(crate) const NUMBERS: [Story; 3] = [
    Story {
        faults: SOUND,
        saved: "agent 2\ncomputer pc1\nnext 9007199254740991\naction 7\nattempt 1 0 fixed 0 - 3 - -\npending 7\nend\n",
        lives: &[&[Step::Turn(1000), Step::Show(Shown::Saved)]],
        wanted: "idle\nagent 2\ncomputer pc1\nnext 9007199254740992\naction 7\nattempt 1 0 fixed 0 - 3 - -\nreport 2\ncomputer pc1\nseq 9007199254740991\nrow 7 1 fixed 0 0 3 - -\nend\nend\n",
    },
    Story {
        faults: Faults {
            looks: &[],
            acts: &[],
            saves: &[2],
        },
        saved: "agent 2\ncomputer pc1\nnext 9007199254740992\naction 7\nattempt 1 0 fixed 0 - 3 - -\npending 7\nend\n",
        lives: &[&[Step::Turn(1000), Step::Show(Shown::Outbox)]],
        wanted: "idle\noutbox 0\n",
    },
    Story {
        faults: Faults {
            looks: &[],
            acts: &[],
            saves: &[3],
        },
        saved: "agent 2\ncomputer pc1\nnext 9007199254740992\naction 7\nattempt 1 0 running - - - - -\nreport 2\ncomputer pc1\nseq 5\nend\nend\n",
        lives: &[&[
            Step::Turn(1000),
            Step::Show(Shown::Outbox),
            Step::Settle(5, Verdict::Stored),
            Step::Turn(1001),
        ]],
        wanted: "interrupted 7\noutbox 1, last 5 of 0\ndropped\npocket fault\n",
    },
];

/// A failed attempt without a place is reported at 0 and 0.
pub(crate) const OLD: Story = Story {
    faults: SOUND,
    saved: "agent 1\ncomputer pc1\nnext 1\naction 7\nattempt 1 1000 failed 1000 -\npending 7\nend\n",
    lives: &[&[Step::Turn(1000), Step::Show(Shown::Saved)]],
    wanted: "idle\nagent 2\ncomputer pc1\nnext 2\naction 7\nattempt 1 1000 failed 1000 - - - -\nreport 2\ncomputer pc1\nseq 1\nrow 7 1 failed 1000 1000 - 0 0\nend\nend\n",
};
