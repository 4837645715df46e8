// Series of attempts: what is done once, again, and how success is judged.
use crate::played::{SOUND, Step};
use crate::shown::Shown;
use crate::sites::{ACTION, OPEN};
use crate::stories::Story;

/// A fixlet that is relevant while there is no file `/etc/done`, and makes it.
const MAKES: &str = "site desk 1
fixlet 1
title Makes
relevance not exists file \"/etc/done\"
success relevance
| appendfile x
| move \"__appendfile\" \"/etc/done\"
end
";

const AGAIN: &str =
    "members stop\ntarget all\nstart none\nuntil none\nhours none\ndays 1111111\nretries 1 10\nreapply again 1 100\nstate open\nend\n";

const WHILE: &str =
    "members stop\ntarget all\nstart none\nuntil none\nhours none\ndays 1111111\nretries 1 10\nreapply while 1 100\nstate open\nend\n";

pub(crate) const CLEARED: Story = Story {
    faults: SOUND,
    saved: "",
    lives: &[&[
        Step::Gather(&[MAKES]),
        Step::Gather(&[ACTION, AGAIN]),
        Step::Turn(1000),
        Step::Turn(1050),
        Step::Delete("/etc/done"),
        Step::Turn(1099),
        Step::Turn(1100),
        Step::Turn(1200),
        Step::Delete("/etc/done"),
        Step::Turn(9000),
    ]],
    wanted: "began 7 fixed, append __appendfile, move __appendfile /etc/done
idle
idle
began 7 fixed, append __appendfile, move __appendfile /etc/done
idle
idle
",
};

pub(crate) const NOT_CLEARED: [Story; 2] = [
    Story {
        faults: SOUND,
        saved: "",
        lives: &[&[
            Step::Gather(&[MAKES]),
            Step::Gather(&[ACTION, AGAIN]),
            Step::Turn(1000),
            Step::Delete("/etc/done"),
            Step::Turn(2000),
        ]],
        wanted: "began 7 fixed, append __appendfile, move __appendfile /etc/done\nidle\n",
    },
    Story {
        faults: SOUND,
        saved: "",
        lives: &[&[
            Step::Gather(&[MAKES]),
            Step::Gather(&[ACTION, WHILE]),
            Step::Turn(1000),
            Step::Delete("/etc/done"),
            Step::Turn(2000),
        ]],
        wanted: "began 7 fixed, append __appendfile, move __appendfile /etc/done\nbegan 7 fixed, append __appendfile, move __appendfile /etc/done\n",
    },
];

/// Without a clause none is untrue; a clause that errs is.
pub(crate) const JUDGED: [Story; 2] = [
    Story {
        faults: SOUND,
        saved: "",
        lives: &[&[
            Step::Gather(&[
                "site desk 1\nfixlet 1\ntitle Never met\nsuccess relevance\n| folder create /t\nend\n",
            ]),
            Step::Gather(&[ACTION, OPEN]),
            Step::Turn(1000),
        ]],
        wanted: "began 7 failed 0 0 49, make /t\n",
    },
    Story {
        faults: SOUND,
        saved: "",
        lives: &[&[
            Step::Gather(&[
                "site desk 1\nfixlet 1\ntitle Errs\nrelevance size of file \"/etc/agentd/conf\" > 0\nsuccess relevance\n| delete /etc/agentd/conf\nend\n",
            ]),
            Step::Gather(&[ACTION, OPEN]),
            Step::Turn(1000),
        ]],
        wanted: "began 7 fixed, delete /etc/agentd/conf\n",
    },
];

/// An action that a newer site lacks has no tally, and keeps its rows. If it returns, its tally is made of its rows.
pub(crate) const RETURNS: Story = Story {
    faults: SOUND,
    saved: "agent 2\ncomputer pc1\nnext 1\naction 7\nattempt 1 1000 failed 1000 - - 0 1\nattempt 2 1060 failed 1060 - - 0 1\nend\n",
    lives: &[&[
        Step::Show(Shown::Owed(7, 2000)),
        Step::Gather(&[ACTION, OPEN]),
        Step::Show(Shown::Owed(7, 2000)),
        Step::Show(Shown::Owed(8, 2000)),
        Step::Gather(&["site actionsite 2\n"]),
        Step::Show(Shown::Owed(7, 2000)),
        Step::Show(Shown::Rows(7)),
        Step::Gather(&[
            "site actionsite 3\naction 7\nissued 900\ncontent desk 1\n",
            OPEN,
        ]),
        Step::Show(Shown::Owed(7, 2000)),
    ]],
    wanted: "no tally\nnot owed\nno tally\nno tally\nrows 2\nnot owed\n",
};
