// Turns of agents of one action.
use crate::played::{Faults, File, SOUND, Step};
use crate::shown::Shown;
use crate::sites::{ACTION, FAILING, OPEN, REALISTIC};
use crate::stories::Story;
use agent_core::Verdict;

pub(crate) const FIXED: Story = Story {
    faults: SOUND,
    saved: "",
    lives: &[&[
        Step::Gather(&[REALISTIC]),
        Step::Gather(&[ACTION, OPEN]),
        Step::Turn(1000),
        Step::Show(Shown::Looks),
        Step::Turn(1010),
        Step::Show(Shown::Looks),
        Step::Turn(5000),
        Step::Show(Shown::Looks),
        Step::Show(Shown::Outbox),
        Step::Show(Shown::Saved),
    ]],
    wanted: "began 7 held 0 8, delete __createfile, write __createfile, delete /etc/agentd/conf, copy __createfile /etc/agentd/conf, start upgrade agentd
looks 4
went on 7 fixed
looks 5
idle
looks 6
outbox 2, last 2 of 1, 7 1 fixed
agent 2
computer pc1
next 3
action 7
attempt 1 1000 fixed 1010 5000 0 - -
report 2
computer pc1
seq 1
row 7 1 running 1000 - - - -
end
report 2
computer pc1
seq 2
row 7 1 fixed 1000 1010 0 - -
end
end
",
};

/// Two saves in each turn that begins and ends, and none in an idle one: the fifth would fail.
pub(crate) const FAILS: Story = Story {
    faults: Faults {
        looks: &[],
        acts: &[],
        saves: &[5],
    },
    saved: "",
    lives: &[&[
        Step::Show(Shown::Owed(7, 1000)),
        Step::Gather(&[FAILING]),
        Step::Gather(&[ACTION, OPEN]),
        Step::Show(Shown::Rows(7)),
        Step::Show(Shown::Owed(7, 1000)),
        Step::Turn(1000),
        Step::Turn(1059),
        Step::Turn(1060),
        Step::Turn(2000),
        Step::Show(Shown::Rows(7)),
        Step::Show(Shown::Owed(7, 2000)),
    ]],
    wanted: "no tally
no rows
owed
began 7 failed 0 3 42 AlreadyThere, make /t, append __appendfile, copy __appendfile /etc/agentd/conf
idle
began 7 failed 0 3 42 AlreadyThere, make /t, append __appendfile, copy __appendfile /etc/agentd/conf
idle
rows 2
not owed
",
};

pub(crate) const OLDER: Story = Story {
    faults: SOUND,
    saved: "",
    lives: &[&[
        Step::Show(Shown::Version("desk")),
        Step::Gather(&["site desk 2\n"]),
        Step::Gather(&["site desk 1\n"]),
        Step::Gather(&["site desk 2\n"]),
        Step::Gather(&["site other 1\n"]),
        Step::Show(Shown::Version("desk")),
        Step::Gather(&["site desk 3\n"]),
        Step::Show(Shown::Version("desk")),
        Step::Show(Shown::Version("other")),
        Step::Supply(File::Abc),
        Step::Settle(1, Verdict::Stored),
    ]],
    wanted: "version 0
older than 2
older than 2
version 2
version 3
version 1
not wanted
not dropped
",
};
