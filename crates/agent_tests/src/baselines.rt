// Baselines: components that are passed over, that fail and that are held.
use crate::played::{Faults, SOUND, Step};
use crate::shown::Shown;
use crate::stories::Story;

/// Three fixlets, of which the first isn't relevant and the second fails.
const PARTS: &str = "site desk 1
fixlet 1
title No
relevance false
success lines
| delete /x
end
fixlet 2
title Fails
relevance true
success lines
| copy \"/no\" \"/y\"
end
fixlet 3
title Makes
relevance true
success lines
| folder create /t
end
baseline 4
title All
";

/// The first lines of the site of one action, whose content is the baseline 4 of the site desk, and its other lines where it stops at a
/// failure, and where it doesn't.
const ACTION: &str = "site actionsite 1
action 7
issued 900
content desk 4
";

const STOP: &str = "members stop
target all
start none
until none
hours none
days 1111111
retries 0 0
reapply never
state open
end
";

const ALL: &str = "members all
target all
start none
until none
hours none
days 1111111
retries 0 0
reapply never
state open
end
";

pub(crate) const ROWS: [Story; 7] = [
    Story {
        faults: SOUND,
        saved: "",
        lives: &[&[
            Step::Gather(&[PARTS, "component 1\ncomponent 2\ncomponent 3\nend\n"]),
            Step::Gather(&[ACTION, STOP]),
            Step::Turn(1000),
        ]],
        wanted: "began 7 failed 2 1 42 NoSuchFile, copy /no /y\n",
    },
    Story {
        faults: SOUND,
        saved: "",
        lives: &[&[
            Step::Gather(&[PARTS, "component 1\ncomponent 2\ncomponent 3\nend\n"]),
            Step::Gather(&[ACTION, ALL]),
            Step::Turn(1000),
        ]],
        wanted: "began 7 failed 2 1 42 NoSuchFile, copy /no /y, make /t\n",
    },
    Story {
        faults: SOUND,
        saved: "",
        lives: &[&[
            Step::Gather(&[PARTS, "component 1\nend\n"]),
            Step::Gather(&[ACTION, STOP]),
            Step::Turn(1000),
        ]],
        wanted: "idle\n",
    },
    Story {
        faults: SOUND,
        saved: "",
        lives: &[&[
            Step::Gather(&[PARTS, "component 3\nend\n"]),
            Step::Gather(&[ACTION, STOP]),
            Step::Turn(1000),
        ]],
        wanted: "began 7 fixed, make /t\n",
    },
    Story {
        faults: SOUND,
        saved: "",
        lives: &[&[
            Step::Gather(&[PARTS, "component 3\ncomponent 3\nend\n"]),
            Step::Gather(&[ACTION, STOP]),
            Step::Turn(1000),
        ]],
        wanted: "began 7 fixed, make /t, make /t\n",
    },
    Story {
        faults: SOUND,
        saved: "",
        lives: &[&[
            Step::Gather(&[PARTS, "component 2\ncomponent 2\nend\n"]),
            Step::Gather(&[ACTION, ALL]),
            Step::Turn(1000),
        ]],
        wanted: "began 7 failed 1 1 42 NoSuchFile, copy /no /y, copy /no /y\n",
    },
    Story {
        faults: SOUND,
        saved: "",
        lives: &[&[
            Step::Gather(&[
                PARTS,
                "component 1\ncomponent 1\ncomponent 2\ncomponent 3\nend\n",
            ]),
            Step::Gather(&[ACTION, STOP]),
            Step::Turn(1000),
        ]],
        wanted: "began 7 failed 3 1 42 NoSuchFile, copy /no /y\n",
    },
];

/// The baseline's own clause is asked once. The components up to the first relevant one are asked before it begins, and each is asked
/// when its turn comes.
pub(crate) const ASKED: [Story; 2] = [
    Story {
        faults: SOUND,
        saved: "",
        lives: &[&[
            Step::Gather(&[
                "site desk 1\nfixlet 1\ntitle No\nrelevance exists file \"/no\"\nsuccess lines\nend\n",
                "fixlet 2\ntitle Yes\nrelevance exists folder \"/etc\"\nsuccess lines\n| folder create /t\nend\n",
                "baseline 4\ntitle All\nrelevance exists folder \"/etc\"\ncomponent 1\ncomponent 2\ncomponent 2\nend\n",
            ]),
            Step::Gather(&[ACTION, STOP]),
            Step::Turn(1000),
            Step::Show(Shown::Looks),
        ]],
        wanted: "began 7 fixed, make /t, make /t\nlooks 6\n",
    },
    Story {
        faults: SOUND,
        saved: "",
        lives: &[&[
            Step::Gather(&[PARTS, "relevance false\ncomponent 3\nend\n"]),
            Step::Gather(&[ACTION, STOP]),
            Step::Turn(1000),
        ]],
        wanted: "idle\n",
    },
];

/// Two fixlets that wait, of which the second wants an exit code that it doesn't get, and a baseline of both.
const WAITS: &str = "site desk 1
fixlet 1
title Waits
success lines
| wait slow
| folder create /first
end
fixlet 2
title Waits in vain
success clause exit code of action = 0
| wait slow
end
baseline 4
title Both
component 1
component 2
end
";

/// The same with other scripts.
const OTHERS: &str = "site desk 2
fixlet 1
title Waits
success lines
| delete /other
end
fixlet 2
title Waits in vain
success lines
| delete /other
end
baseline 4
title Both
component 2
end
";

pub(crate) const HELD: Story = Story {
    faults: SOUND,
    saved: "",
    lives: &[&[
        Step::Gather(&[WAITS]),
        Step::Gather(&[ACTION, STOP]),
        Step::Turn(1000),
        Step::Gather(&[OTHERS]),
        Step::Turn(1001),
        Step::Turn(1002),
        Step::Turn(1003),
        Step::Turn(1004),
        Step::Turn(1005),
        Step::Turn(1006),
        Step::Turn(1007),
        Step::Show(Shown::Attempts),
    ]],
    wanted: "began 7 held 1 1, start slow
went on 7 held 1 1
went on 7 held 1 1
went on 7 held 2 1, make /first, start slow
went on 7 held 2 1
went on 7 held 2 1
went on 7 failed 2 0 49
idle
attempt 1 1000 failed 1006 - 7 2 0
",
};

/// A fixlet that waits, one that is relevant from the moment 1200 on, and a baseline of both.
const LATER: &str = "site desk 1
fixlet 1
title Waits
success lines
| wait slow
end
fixlet 2
title From 1200 on
relevance now > (\"Thu, 01 Jan 1970 00:19:59 +0000\" as time)
success lines
| folder create /t
end
baseline 4
title Both
component 1
component 2
end
";

/// A component's relevance is asked at the moment of the turn that comes to it.
pub(crate) const MOMENTS: [Story; 2] = [
    Story {
        faults: SOUND,
        saved: "",
        lives: &[&[
            Step::Gather(&[LATER]),
            Step::Gather(&[ACTION, STOP]),
            Step::Turn(1000),
            Step::Turn(1001),
            Step::Turn(1002),
            Step::Turn(1199),
        ]],
        wanted: "began 7 held 1 1, start slow\nwent on 7 held 1 1\nwent on 7 held 1 1\nwent on 7 fixed\n",
    },
    Story {
        faults: SOUND,
        saved: "",
        lives: &[&[
            Step::Gather(&[LATER]),
            Step::Gather(&[ACTION, STOP]),
            Step::Turn(1000),
            Step::Turn(1001),
            Step::Turn(1002),
            Step::Turn(1200),
        ]],
        wanted: "began 7 held 1 1, start slow\nwent on 7 held 1 1\nwent on 7 held 1 1\nwent on 7 fixed, make /t\n",
    },
];

/// Two fixlets that make a folder of the date at which their action was issued, the first of which waits before, and a baseline of both.
const DATES: &str = "site desk 1
fixlet 1
title Waits
success lines
| wait slow
| folder create /{parameter \"action issue date\" of action}
end
fixlet 2
title Comes in a later turn
success lines
| folder create /{parameter \"action issue date\" of action}
end
baseline 4
title Both
component 1
component 2
end
";

/// The date is told in the offset in which the attempt began, also in a component that begins in a later turn at another offset.
pub(crate) const ISSUED: Story = Story {
    faults: SOUND,
    saved: "",
    lives: &[&[
        Step::Gather(&[DATES]),
        Step::Gather(&[ACTION, STOP]),
        Step::Turn(1000),
        Step::TurnAt120(1001),
        Step::TurnAt120(1002),
        Step::TurnAt120(1003),
    ]],
    wanted: "began 7 held 1 1, start slow
went on 7 held 1 1
went on 7 held 1 1
went on 7 fixed, make /Thu, 01 Jan 1970 01:15:00 +0100, make /Thu, 01 Jan 1970 01:15:00 +0100
",
};

/// A fixlet that looks, and a baseline of it.
const LOOKS: &str = "site desk 1
fixlet 1
title Looks
relevance exists folder \"/etc\"
success lines
| folder create /a
end
baseline 4
title One
component 1
end
";

/// The first look is the baseline's, the second the component's own.
pub(crate) const FAULTS: [Story; 2] = [
    Story {
        faults: Faults {
            looks: &[2],
            acts: &[],
            saves: &[],
        },
        saved: "",
        lives: &[&[
            Step::Gather(&[LOOKS]),
            Step::Gather(&[ACTION, STOP]),
            Step::Turn(1000),
        ]],
        wanted: "began 7 failed 1 0 43\n",
    },
    Story {
        faults: Faults {
            looks: &[1],
            acts: &[],
            saves: &[],
        },
        saved: "",
        lives: &[&[
            Step::Gather(&[LOOKS]),
            Step::Gather(&[ACTION, STOP]),
            Step::Turn(1000),
            Step::Show(Shown::Rows(7)),
            Step::Turn(1001),
        ]],
        wanted: "machine fault\nno rows\nbegan 7 fixed, make /a\n",
    },
];
