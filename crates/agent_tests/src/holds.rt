// Attempts that are held while other things change.
use crate::played::{Faults, SOUND, Step};
use crate::sites::{ACTION, OPEN, WAITS};
use crate::stories::Story;

/// What it comes to to be held, whatever happens.
const HELD: &str =
    "began 7 held 0 1, start slow\nwent on 7 held 0 1\nwent on 7 held 0 1\nwent on 7 fixed\nidle\n";

/// The action is stopped, is for another computer and over, or is gone, or its fixlet has another script.
pub(crate) const ROWS: [Story; 4] = [
    Story {
        faults: SOUND,
        saved: "",
        lives: &[&[
            Step::Gather(&[WAITS]),
            Step::Gather(&[ACTION, OPEN]),
            Step::Turn(1000),
            Step::Gather(&[
                "site actionsite 2\naction 7\nissued 900\ncontent desk 1\nmembers stop\ntarget all\nstart none\nuntil none\nhours none\ndays 1111111\nretries 1 60\nreapply never\nstate stopped\nend\n",
            ]),
            Step::Turn(1001),
            Step::Turn(1002),
            Step::Turn(1003),
            Step::Turn(1004),
        ]],
        wanted: HELD,
    },
    Story {
        faults: SOUND,
        saved: "",
        lives: &[&[
            Step::Gather(&[WAITS]),
            Step::Gather(&[ACTION, OPEN]),
            Step::Turn(1000),
            Step::Gather(&[
                "site actionsite 2\naction 7\nissued 900\ncontent desk 1\nmembers stop\ntarget computer pc2\nstart none\nuntil 1001\nhours none\ndays 1111111\nretries 1 60\nreapply never\nstate open\nend\n",
            ]),
            Step::Turn(1001),
            Step::Turn(1002),
            Step::Turn(1003),
            Step::Turn(1004),
        ]],
        wanted: HELD,
    },
    Story {
        faults: SOUND,
        saved: "",
        lives: &[&[
            Step::Gather(&[WAITS]),
            Step::Gather(&[ACTION, OPEN]),
            Step::Turn(1000),
            Step::Gather(&["site actionsite 2\n"]),
            Step::Turn(1001),
            Step::Turn(1002),
            Step::Turn(1003),
            Step::Turn(1004),
        ]],
        wanted: HELD,
    },
    Story {
        faults: SOUND,
        saved: "",
        lives: &[&[
            Step::Gather(&[WAITS]),
            Step::Gather(&[ACTION, OPEN]),
            Step::Turn(1000),
            Step::Gather(&[
                "site desk 2\nfixlet 1\ntitle Waits\nsuccess lines\n| folder create /t\nend\n",
            ]),
            Step::Turn(1001),
            Step::Turn(1002),
            Step::Turn(1003),
            Step::Turn(1004),
        ]],
        wanted: HELD,
    },
];

/// A fixlet that waits while a folder is there. The third look fails.
pub(crate) const PAUSES: Story = Story {
    faults: Faults {
        looks: &[3],
        acts: &[],
        saves: &[],
    },
    saved: "",
    lives: &[&[
        Step::Gather(&[
            "site desk 1\nfixlet 1\ntitle Pauses\nsuccess lines\n| pause while {exists folder \"/etc\"}\nend\n",
        ]),
        Step::Gather(&[ACTION, OPEN]),
        Step::Turn(1000),
        Step::Turn(1001),
        Step::Turn(1002),
        Step::Turn(1003),
    ]],
    wanted: "began 7 held 0 1\nwent on 7 held 0 1\nwent on 7 failed 0 1 43\nidle\n",
};

/// The agent is opened again while no site has its action: the attempt is broken, and tried again when the action has returned.
pub(crate) const RETURNS: Story = Story {
    faults: SOUND,
    saved: "",
    lives: &[
        &[
            Step::Gather(&[WAITS]),
            Step::Gather(&[ACTION, OPEN]),
            Step::Turn(1000),
        ],
        &[
            Step::Turn(1005),
            Step::Gather(&[WAITS]),
            Step::Gather(&[ACTION, OPEN]),
            Step::Turn(1064),
            Step::Turn(1065),
        ],
    ],
    wanted: "began 7 held 0 1, start slow\ninterrupted 7\nidle\nbegan 7 held 0 1, start slow\n",
};
