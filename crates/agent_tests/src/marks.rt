// Clearing marks: what is marked, and what becomes of the marks of a turn that falls back.
use crate::played::{Faults, SOUND, Step};
use crate::shown::Shown;
use crate::sites::{ACTION, OPEN};
use crate::stories::Story;

/// Fixlets: one that isn't relevant, one whose clause errs, one that is relevant, and one whose script is refused.
const FIXLETS: &str = "site desk 1
fixlet 1
title No
relevance exists file \"/no\"
success lines
end
fixlet 2
title Errs
relevance size of file \"/no\" = 1
success lines
end
fixlet 3
title Yes
relevance exists folder \"/etc\"
success lines
| folder create /t
end
fixlet 4
title No script
relevance exists folder \"/etc\"
success lines
| no command
end
";

/// An action that is stopped, one for another computer, one that may run again, one without content, one whose content errs, one that is
/// still relevant, and one whose script is refused.
const ACTIONS: &str = "site actionsite 1
action 1
issued 900
content desk 1
members stop
target all
start none
until none
hours none
days 1111111
retries 1 60
reapply never
state stopped
end
action 2
issued 900
content desk 1
members stop
target computer pc2
start none
until none
hours none
days 1111111
retries 1 60
reapply again 9 0
state open
end
action 3
issued 900
content desk 1
members stop
target all
start none
until none
hours none
days 1111111
retries 1 60
reapply while 9 0
state open
end
action 4
issued 900
content none 1
members stop
target all
start none
until none
hours none
days 1111111
retries 1 60
reapply never
state open
end
action 5
issued 900
content desk 2
members stop
target all
start none
until none
hours none
days 1111111
retries 1 60
reapply never
state open
end
action 6
issued 900
content desk 3
members stop
target all
start none
until none
hours none
days 1111111
retries 1 60
reapply never
state open
end
action 7
issued 900
content desk 4
members stop
target all
start none
until none
hours none
days 1111111
retries 1 60
reapply never
state open
end
";

/// Action 8 is in no site. Action 3 is tried as well, so it looks twice.
pub(crate) const ALL: Story = Story {
    faults: SOUND,
    saved: "agent 2
computer pc1
next 1
action 1
attempt 1 900 fixed 900 - - - -
action 2
attempt 1 900 fixed 900 - - - -
action 3
attempt 1 900 fixed 900 - - - -
action 4
attempt 1 900 fixed 900 - - - -
action 5
attempt 1 900 failed 900 - - 0 1
attempt 2 900 failed 900 - - 0 1
action 6
attempt 1 900 fixed 900 - - - -
action 7
attempt 1 900 fixed 900 - - - -
action 8
attempt 1 900 fixed 900 - - - -
end
",
    lives: &[&[
        Step::Gather(&[FIXLETS]),
        Step::Gather(&[ACTIONS]),
        Step::Turn(1000),
        Step::Show(Shown::Looks),
        Step::Show(Shown::Saved),
    ]],
    wanted: "idle
looks 6
agent 2
computer pc1
next 1
action 1
attempt 1 900 fixed 900 1000 - - -
action 2
attempt 1 900 fixed 900 1000 - - -
action 3
attempt 1 900 fixed 900 1000 - - -
action 4
attempt 1 900 fixed 900 1000 - - -
action 5
attempt 1 900 failed 900 - - 0 1
attempt 2 900 failed 900 1000 - 0 1
action 6
attempt 1 900 fixed 900 - - - -
action 7
attempt 1 900 fixed 900 1000 - - -
action 8
attempt 1 900 fixed 900 - - - -
end
",
};

/// The text of an agent with a row of action 7 that isn't cleared, and with a mark at 1000.
const OLD: &str = "agent 2\ncomputer pc1\nnext 1\naction 7\nattempt 1 900 fixed 900 - - - -\nend\n";

/// A mark that is made counts in the same turn, so that what may run again once it was cleared is tried, and looks once more. It is
/// saved once: the third save would fail, and the first was that of the text.
pub(crate) const COUNTS: [Story; 2] = [
    Story {
        faults: Faults {
            looks: &[],
            acts: &[],
            saves: &[3],
        },
        saved: OLD,
        lives: &[&[
            Step::Gather(&[FIXLETS]),
            Step::Gather(&[
                ACTION,
                "members stop\ntarget all\nstart none\nuntil none\nhours none\ndays 1111111\nretries 1 60\nreapply again 1 0\nstate open\nend\n",
            ]),
            Step::Turn(1000),
            Step::Show(Shown::Looks),
            Step::Show(Shown::Attempts),
            Step::Turn(1001),
            Step::Show(Shown::Looks),
        ]],
        wanted: "idle\nlooks 2\nattempt 1 900 fixed 900 1000 - - -\nidle\nlooks 3\n",
    },
    Story {
        faults: Faults {
            looks: &[],
            acts: &[],
            saves: &[3],
        },
        saved: OLD,
        lives: &[&[
            Step::Gather(&[FIXLETS]),
            Step::Gather(&[ACTION, OPEN]),
            Step::Turn(1000),
            Step::Show(Shown::Looks),
            Step::Show(Shown::Attempts),
            Step::Turn(1001),
            Step::Show(Shown::Looks),
        ]],
        wanted: "idle\nlooks 1\nattempt 1 900 fixed 900 1000 - - -\nidle\nlooks 1\n",
    },
];

/// Action 7, which is to be marked, and action 8, which is due.
const TWO: [&str; 4] = [ACTION, OPEN, "action 8\nissued 900\ncontent desk 3\n", OPEN];

/// A look that fails leaves no mark; a beginning that can't be saved leaves the marks, unsaved; a last save that fails does so as well.
/// The first save is that of the text.
pub(crate) const FALLS: [Story; 3] = [
    Story {
        faults: Faults {
            looks: &[2],
            acts: &[],
            saves: &[2],
        },
        saved: OLD,
        lives: &[&[
            Step::Gather(&[FIXLETS]),
            Step::Gather(&TWO),
            Step::Turn(1000),
            Step::Show(Shown::Rows(7)),
            Step::Show(Shown::Rows(8)),
            Step::Show(Shown::Attempts),
        ]],
        wanted: "machine fault\nrows 1\nno rows\nattempt 1 900 fixed 900 - - - -\n",
    },
    Story {
        faults: Faults {
            looks: &[],
            acts: &[],
            saves: &[2],
        },
        saved: OLD,
        lives: &[&[
            Step::Gather(&[FIXLETS]),
            Step::Gather(&TWO),
            Step::Turn(1000),
            Step::Show(Shown::Rows(7)),
            Step::Show(Shown::Rows(8)),
            Step::Show(Shown::Attempts),
            Step::Gather(&["site actionsite 2\n"]),
            Step::Turn(1001),
            Step::Show(Shown::Saved),
        ]],
        wanted: "pocket fault\nrows 1, cleared\nno rows\nattempt 1 900 fixed 900 - - - -\nidle\nagent 2\ncomputer pc1\nnext 1\naction 7\nattempt 1 900 fixed 900 1000 - - -\nend\n",
    },
    Story {
        faults: Faults {
            looks: &[],
            acts: &[],
            saves: &[2],
        },
        saved: OLD,
        lives: &[&[
            Step::Gather(&[FIXLETS]),
            Step::Gather(&[ACTION, OPEN]),
            Step::Turn(1000),
            Step::Show(Shown::Rows(7)),
            Step::Show(Shown::Attempts),
            Step::Turn(1001),
            Step::Show(Shown::Attempts),
        ]],
        wanted: "pocket fault\nrows 1, cleared\nattempt 1 900 fixed 900 - - - -\nidle\nattempt 1 900 fixed 900 1000 - - -\n",
    },
];
