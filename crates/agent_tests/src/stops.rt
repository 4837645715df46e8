// An agent that is stopped before any of its device calls. A turn ends with the first call that fails, so from there on all may.
use crate::played::{Faults, SOUND, Step};
use crate::shown::Shown;
use crate::sites::{ACTION, FAILING, OPEN, REALISTIC};
use crate::stories::Story;

/// An agent of the failing script makes a turn, and is thrown away. Another one is opened from its pocket, gathers, and makes three turns.
const LIVES: &[&[Step]] = &[
    &[
        Step::Gather(&[FAILING]),
        Step::Gather(&[ACTION, OPEN]),
        Step::Turn(1000),
        Step::Show(Shown::Looks),
        Step::Show(Shown::Attempts),
    ],
    &[
        Step::Gather(&[FAILING]),
        Step::Gather(&[ACTION, OPEN]),
        Step::Turn(1065),
        Step::Turn(1200),
        Step::Turn(1300),
        Step::Show(Shown::Attempts),
    ],
];

/// The order of the calls, where none fails: three looks, the save of the row, three commands, and the last save.
pub(crate) const NEVER: Story = Story {
    faults: SOUND,
    saved: "",
    lives: LIVES,
    wanted: "began 7 failed 0 3 42 AlreadyThere, make /t, append __appendfile, copy __appendfile /etc/agentd/conf
looks 3
attempt 1 1000 failed 1000 - - 0 3
began 7 failed 0 3 42 AlreadyThere, make /t, append __appendfile, copy __appendfile /etc/agentd/conf
idle
idle
attempt 1 1000 failed 1000 - - 0 3
attempt 2 1065 failed 1065 - - 0 3
",
};

/// Without a saved row nothing was done, and the next turn begins row 1.
pub(crate) const BEFORE: [Story; 4] = [
    Story {
        faults: Faults {
            looks: &[1],
            acts: &[],
            saves: &[],
        },
        saved: "",
        lives: LIVES,
        wanted: "machine fault
looks 0
began 7 failed 0 3 42 AlreadyThere, make /t, append __appendfile, copy __appendfile /etc/agentd/conf
began 7 failed 0 3 42 AlreadyThere, make /t, append __appendfile, copy __appendfile /etc/agentd/conf
idle
attempt 1 1065 failed 1065 - - 0 3
attempt 2 1200 failed 1200 - - 0 3
",
    },
    Story {
        faults: Faults {
            looks: &[2],
            acts: &[],
            saves: &[],
        },
        saved: "",
        lives: LIVES,
        wanted: "machine fault
looks 1
began 7 failed 0 3 42 AlreadyThere, make /t, append __appendfile, copy __appendfile /etc/agentd/conf
began 7 failed 0 3 42 AlreadyThere, make /t, append __appendfile, copy __appendfile /etc/agentd/conf
idle
attempt 1 1065 failed 1065 - - 0 3
attempt 2 1200 failed 1200 - - 0 3
",
    },
    Story {
        faults: Faults {
            looks: &[3],
            acts: &[],
            saves: &[],
        },
        saved: "",
        lives: LIVES,
        wanted: "machine fault
looks 2
began 7 failed 0 3 42 AlreadyThere, make /t, append __appendfile, copy __appendfile /etc/agentd/conf
began 7 failed 0 3 42 AlreadyThere, make /t, append __appendfile, copy __appendfile /etc/agentd/conf
idle
attempt 1 1065 failed 1065 - - 0 3
attempt 2 1200 failed 1200 - - 0 3
",
    },
    Story {
        faults: Faults {
            looks: &[],
            acts: &[],
            saves: &[1],
        },
        saved: "",
        lives: LIVES,
        wanted: "pocket fault
looks 3
began 7 failed 0 3 42 AlreadyThere, make /t, append __appendfile, copy __appendfile /etc/agentd/conf
began 7 failed 0 3 42 AlreadyThere, make /t, append __appendfile, copy __appendfile /etc/agentd/conf
idle
attempt 1 1065 failed 1065 - - 0 3
attempt 2 1200 failed 1200 - - 0 3
",
    },
];

/// What was done is of the saved row, which ends as interrupted; one row more is owed.
pub(crate) const BEHIND: [Story; 4] = [
    Story {
        faults: Faults {
            looks: &[],
            acts: &[1],
            saves: &[2],
        },
        saved: "",
        lives: LIVES,
        wanted: "pocket fault
looks 3
attempt 1 1000 running - - - - -
interrupted 7
began 7 failed 0 3 42 AlreadyThere, make /t, append __appendfile, copy __appendfile /etc/agentd/conf
idle
attempt 1 1000 interrupted 1065 - - - -
attempt 2 1200 failed 1200 - - 0 3
",
    },
    Story {
        faults: Faults {
            looks: &[],
            acts: &[2],
            saves: &[2],
        },
        saved: "",
        lives: LIVES,
        wanted: "pocket fault, make /t
looks 3
attempt 1 1000 running - - - - -
interrupted 7
began 7 failed 0 3 42 AlreadyThere, make /t, append __appendfile, copy __appendfile /etc/agentd/conf
idle
attempt 1 1000 interrupted 1065 - - - -
attempt 2 1200 failed 1200 - - 0 3
",
    },
    Story {
        faults: Faults {
            looks: &[],
            acts: &[3],
            saves: &[2],
        },
        saved: "",
        lives: LIVES,
        wanted: "pocket fault, make /t, append __appendfile
looks 3
attempt 1 1000 running - - - - -
interrupted 7
began 7 failed 0 3 42 AlreadyThere, make /t, append __appendfile, copy __appendfile /etc/agentd/conf
idle
attempt 1 1000 interrupted 1065 - - - -
attempt 2 1200 failed 1200 - - 0 3
",
    },
    Story {
        faults: Faults {
            looks: &[],
            acts: &[],
            saves: &[2],
        },
        saved: "",
        lives: LIVES,
        wanted: "pocket fault, make /t, append __appendfile, copy __appendfile /etc/agentd/conf
looks 3
attempt 1 1000 running - - - - -
interrupted 7
began 7 failed 0 3 42 AlreadyThere, make /t, append __appendfile, copy __appendfile /etc/agentd/conf
idle
attempt 1 1000 interrupted 1065 - - - -
attempt 2 1200 failed 1200 - - 0 3
",
    },
];

/// Every call from the first command on fails.
pub(crate) const AGAIN: Story = Story {
    faults: Faults {
        looks: &[],
        acts: &[1],
        saves: &[2],
    },
    saved: "",
    lives: &[
        &[
            Step::Gather(&[REALISTIC]),
            Step::Gather(&[ACTION, OPEN]),
            Step::Turn(1000),
            Step::Show(Shown::Saved),
        ],
        &[
            Step::Gather(&[REALISTIC]),
            Step::Gather(&[ACTION, OPEN]),
            Step::Turn(1005),
            Step::Turn(1064),
            Step::Turn(1065),
            Step::Show(Shown::Rows(7)),
        ],
    ],
    wanted: "pocket fault
agent 2
computer pc1
next 1
action 7
attempt 1 1000 running - - - - -
pending 7
end
interrupted 7
idle
began 7 held 0 8, delete __createfile, write __createfile, delete /etc/agentd/conf, copy __createfile /etc/agentd/conf, start upgrade agentd
rows 2
",
};
