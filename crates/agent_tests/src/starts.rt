// When an action begins: its start, end, hours and days, and the computers that it targets.
use crate::played::{SOUND, Step};
use crate::shown::Shown;
use crate::sites::{ACTION, FAILED, FAILING, OPEN};
use crate::stories::Story;

/// Actions, the moment of a turn, which is 76 minutes past midnight of a Thursday at 1000, and what it comes to.
pub(crate) const ROWS: [Story; 17] = [
    Story {
        faults: SOUND,
        saved: "",
        lives: &[&[
            Step::Gather(&[FAILING]),
            Step::Gather(&[
                ACTION,
                "members stop\ntarget all\nstart 1000\nuntil 2000\nhours none\ndays 1111111\nretries 1 60\nreapply never\nstate open\nend\n",
            ]),
            Step::Turn(999),
        ]],
        wanted: "idle\n",
    },
    Story {
        faults: SOUND,
        saved: "",
        lives: &[&[
            Step::Gather(&[FAILING]),
            Step::Gather(&[
                ACTION,
                "members stop\ntarget all\nstart 1000\nuntil 2000\nhours none\ndays 1111111\nretries 1 60\nreapply never\nstate open\nend\n",
            ]),
            Step::Turn(1000),
        ]],
        wanted: FAILED,
    },
    Story {
        faults: SOUND,
        saved: "",
        lives: &[&[
            Step::Gather(&[FAILING]),
            Step::Gather(&[
                ACTION,
                "members stop\ntarget all\nstart 1000\nuntil 2000\nhours none\ndays 1111111\nretries 1 60\nreapply never\nstate open\nend\n",
            ]),
            Step::Turn(2000),
        ]],
        wanted: "idle\n",
    },
    Story {
        faults: SOUND,
        saved: "",
        lives: &[&[
            Step::Gather(&[FAILING]),
            Step::Gather(&[
                ACTION,
                "members stop\ntarget all\nstart 3600\nuntil none\ntime client\nhours none\ndays 1111111\nretries 1 60\nreapply never\nstate open\nend\n",
            ]),
            Step::Turn(0),
        ]],
        wanted: FAILED,
    },
    Story {
        faults: SOUND,
        saved: "",
        lives: &[&[
            Step::Gather(&[FAILING]),
            Step::Gather(&[
                ACTION,
                "members stop\ntarget all\nstart 3600\nuntil none\nhours none\ndays 1111111\nretries 1 60\nreapply never\nstate open\nend\n",
            ]),
            Step::Turn(0),
        ]],
        wanted: "idle\n",
    },
    Story {
        faults: SOUND,
        saved: "",
        lives: &[&[
            Step::Gather(&[FAILING]),
            Step::Gather(&[
                ACTION,
                "members stop\ntarget all\nstart none\nuntil 4600\ntime client\nhours none\ndays 1111111\nretries 1 60\nreapply never\nstate open\nend\n",
            ]),
            Step::Turn(999),
        ]],
        wanted: FAILED,
    },
    Story {
        faults: SOUND,
        saved: "",
        lives: &[&[
            Step::Gather(&[FAILING]),
            Step::Gather(&[
                ACTION,
                "members stop\ntarget all\nstart none\nuntil 4600\ntime client\nhours none\ndays 1111111\nretries 1 60\nreapply never\nstate open\nend\n",
            ]),
            Step::Turn(1000),
        ]],
        wanted: "idle\n",
    },
    Story {
        faults: SOUND,
        saved: "",
        lives: &[&[
            Step::Gather(&[FAILING]),
            Step::Gather(&[
                ACTION,
                "members stop\ntarget computer pc2\ntarget computer pc1\nstart none\nuntil none\nhours none\ndays 1111111\nretries 1 60\nreapply never\nstate open\nend\n",
            ]),
            Step::Turn(1000),
        ]],
        wanted: FAILED,
    },
    Story {
        faults: SOUND,
        saved: "",
        lives: &[&[
            Step::Gather(&[FAILING]),
            Step::Gather(&[
                ACTION,
                "members stop\ntarget computer pc2\nstart none\nuntil none\nhours none\ndays 1111111\nretries 1 60\nreapply never\nstate open\nend\n",
            ]),
            Step::Turn(1000),
        ]],
        wanted: "idle\n",
    },
    Story {
        faults: SOUND,
        saved: "",
        lives: &[&[
            Step::Gather(&[FAILING]),
            Step::Gather(&[
                ACTION,
                "members stop\ntarget where exists folder \"/etc\"\nstart none\nuntil none\nhours none\ndays 1111111\nretries 1 60\nreapply never\nstate open\nend\n",
            ]),
            Step::Turn(1000),
        ]],
        wanted: FAILED,
    },
    Story {
        faults: SOUND,
        saved: "",
        lives: &[&[
            Step::Gather(&[FAILING]),
            Step::Gather(&[
                ACTION,
                "members stop\ntarget where 1/0 = 1\nstart none\nuntil none\nhours none\ndays 1111111\nretries 1 60\nreapply never\nstate open\nend\n",
            ]),
            Step::Turn(1000),
        ]],
        wanted: "idle\n",
    },
    Story {
        faults: SOUND,
        saved: "",
        lives: &[&[
            Step::Gather(&[FAILING]),
            Step::Gather(&[
                ACTION,
                "members stop\ntarget all\nstart none\nuntil none\nhours none\ndays 1111111\nretries 1 60\nreapply never\nstate stopped\nend\n",
            ]),
            Step::Turn(1000),
        ]],
        wanted: "idle\n",
    },
    Story {
        faults: SOUND,
        saved: "",
        lives: &[&[
            Step::Gather(&[FAILING]),
            Step::Gather(&[
                ACTION,
                "members stop\ntarget all\nstart none\nuntil none\nhours 76 77\ndays 1111111\nretries 1 60\nreapply never\nstate open\nend\n",
            ]),
            Step::Turn(1000),
        ]],
        wanted: FAILED,
    },
    Story {
        faults: SOUND,
        saved: "",
        lives: &[&[
            Step::Gather(&[FAILING]),
            Step::Gather(&[
                ACTION,
                "members stop\ntarget all\nstart none\nuntil none\nhours 60 76\ndays 1111111\nretries 1 60\nreapply never\nstate open\nend\n",
            ]),
            Step::Turn(1000),
        ]],
        wanted: "idle\n",
    },
    Story {
        faults: SOUND,
        saved: "",
        lives: &[&[
            Step::Gather(&[FAILING]),
            Step::Gather(&[
                ACTION,
                "members stop\ntarget all\nstart none\nuntil none\nhours 1320 77\ndays 0010000\nretries 1 60\nreapply never\nstate open\nend\n",
            ]),
            Step::Turn(1000),
        ]],
        wanted: FAILED,
    },
    Story {
        faults: SOUND,
        saved: "",
        lives: &[&[
            Step::Gather(&[FAILING]),
            Step::Gather(&[
                ACTION,
                "members stop\ntarget all\nstart none\nuntil none\nhours 1320 76\ndays 0010000\nretries 1 60\nreapply never\nstate open\nend\n",
            ]),
            Step::Turn(1000),
        ]],
        wanted: "idle\n",
    },
    Story {
        faults: SOUND,
        saved: "",
        lives: &[&[
            Step::Gather(&[FAILING]),
            Step::Gather(&[
                ACTION,
                "members stop\ntarget all\nstart none\nuntil none\nhours 1320 77\ndays 0001000\nretries 1 60\nreapply never\nstate open\nend\n",
            ]),
            Step::Turn(1000),
        ]],
        wanted: "idle\n",
    },
];

pub(crate) const NOT_GATHERED: [Story; 3] = [
    Story {
        faults: SOUND,
        saved: "",
        lives: &[&[
            Step::Gather(&[ACTION, OPEN]),
            Step::Turn(1000),
            Step::Show(Shown::Looks),
        ]],
        wanted: "idle\nlooks 0\n",
    },
    Story {
        faults: SOUND,
        saved: "",
        lives: &[&[
            Step::Gather(&[
                "site desk 1\nfixlet 2\ntitle Other\nrelevance exists folder \"/etc\"\nsuccess lines\nend\n",
            ]),
            Step::Gather(&[ACTION, OPEN]),
            Step::Turn(1000),
            Step::Show(Shown::Looks),
        ]],
        wanted: "idle\nlooks 0\n",
    },
    Story {
        faults: SOUND,
        saved: "",
        lives: &[&[
            Step::Gather(&[
                "site desk 1\nfixlet 1\ntitle No script\nrelevance exists folder \"/etc\"\nsuccess lines\n| no command\nend\n",
            ]),
            Step::Gather(&[ACTION, OPEN]),
            Step::Turn(1000),
            Step::Show(Shown::Looks),
        ]],
        wanted: "idle\nlooks 0\n",
    },
];

pub(crate) const CLAUSES: [Story; 4] = [
    Story {
        faults: SOUND,
        saved: "",
        lives: &[&[
            Step::Gather(&[
                "site desk 1\nfixlet 1\ntitle Three\nrelevance exists folder \"/etc\"\nrelevance false\nrelevance exists folder \"/etc\"\nsuccess lines\nend\n",
            ]),
            Step::Gather(&[ACTION, OPEN]),
            Step::Turn(1000),
            Step::Show(Shown::Looks),
        ]],
        wanted: "idle\nlooks 1\n",
    },
    Story {
        faults: SOUND,
        saved: "",
        lives: &[&[
            Step::Gather(&[
                "site desk 1\nfixlet 1\ntitle Plural\nrelevance (true; true)\nsuccess lines\nend\n",
            ]),
            Step::Gather(&[ACTION, OPEN]),
            Step::Turn(1000),
        ]],
        wanted: "idle\n",
    },
    Story {
        faults: SOUND,
        saved: "",
        lives: &[&[
            Step::Gather(&[
                "site desk 1\nfixlet 1\ntitle A number\nrelevance 1\nsuccess lines\nend\n",
            ]),
            Step::Gather(&[ACTION, OPEN]),
            Step::Turn(1000),
        ]],
        wanted: "idle\n",
    },
    Story {
        faults: SOUND,
        saved: "",
        lives: &[&[
            Step::Gather(&[
                "site desk 1\nfixlet 1\ntitle Refused\nrelevance )\nsuccess lines\nend\n",
            ]),
            Step::Gather(&[ACTION, OPEN]),
            Step::Turn(1000),
        ]],
        wanted: "idle\n",
    },
];
