// The notes of rows: where an attempt failed, and an exit code.
use crate::played::{Faults, SOUND, Step};
use crate::shown::Shown;
use crate::stories::Story;

/// Fixlets: one that ends with 7, one without a program, one that fails behind an exit code, one that isn't relevant, one that looks, one
/// whose success isn't met, and one that fails without an exit code.
const FIXLETS: &str = "site desk 1
fixlet 1
title Seven
success lines
| wait quick
end
fixlet 2
title None
success lines
| folder create /t
end
fixlet 3
title Fails
success lines
| wait quick
| delete /etc
end
fixlet 4
title No
relevance false
success lines
| wait quick
end
fixlet 5
title Looks
relevance exists folder \"/etc\"
success lines
end
fixlet 6
title Not met
success clause exit code of action = 0
| wait quick
end
fixlet 7
title Fails at once
success lines
| delete /etc
end
baseline 9
title Some
";

/// The first lines of the site of one action, whose content is the baseline, or the fixlet 6; and the other lines, where it stops at a
/// failure, and where it doesn't.
const ACTION: &str = "site actionsite 1
action 7
issued 900
content desk 9
";

const ALONE: &str = "site actionsite 1
action 7
issued 900
content desk 6
";

const STOP: &str = "members stop
target all
start none
until none
hours none
days 1111111
retries 0 0
reapply never
state open
end
";

const ALL: &str = "members all
target all
start none
until none
hours none
days 1111111
retries 0 0
reapply never
state open
end
";

pub(crate) const ROWS: [Story; 12] = [
    Story {
        faults: SOUND,
        saved: "",
        lives: &[&[
            Step::Gather(&[FIXLETS, "component 2\ncomponent 1\nend\n"]),
            Step::Gather(&[ACTION, STOP]),
            Step::Turn(1000),
            Step::Show(Shown::Attempts),
        ]],
        wanted: "began 7 fixed, make /t, start quick\nattempt 1 1000 fixed 1000 - 7 - -\n",
    },
    Story {
        faults: SOUND,
        saved: "",
        lives: &[&[
            Step::Gather(&[FIXLETS, "component 1\ncomponent 2\nend\n"]),
            Step::Gather(&[ACTION, STOP]),
            Step::Turn(1000),
            Step::Show(Shown::Attempts),
        ]],
        wanted: "began 7 fixed, start quick, make /t\nattempt 1 1000 fixed 1000 - - - -\n",
    },
    Story {
        faults: SOUND,
        saved: "",
        lives: &[&[
            Step::Gather(&[FIXLETS, "component 1\ncomponent 4\nend\n"]),
            Step::Gather(&[ACTION, STOP]),
            Step::Turn(1000),
            Step::Show(Shown::Attempts),
        ]],
        wanted: "began 7 fixed, start quick\nattempt 1 1000 fixed 1000 - 7 - -\n",
    },
    Story {
        faults: SOUND,
        saved: "",
        lives: &[&[
            Step::Gather(&[FIXLETS, "component 4\ncomponent 3\nend\n"]),
            Step::Gather(&[ACTION, STOP]),
            Step::Turn(1000),
            Step::Show(Shown::Attempts),
        ]],
        wanted: "began 7 failed 2 2 42 NotAFile, start quick, delete /etc\nattempt 1 1000 failed 1000 - 7 2 2\n",
    },
    Story {
        faults: SOUND,
        saved: "",
        lives: &[&[
            Step::Gather(&[FIXLETS, "component 3\ncomponent 2\nend\n"]),
            Step::Gather(&[ACTION, ALL]),
            Step::Turn(1000),
            Step::Show(Shown::Attempts),
        ]],
        wanted: "began 7 failed 1 2 42 NotAFile, start quick, delete /etc, make /t\nattempt 1 1000 failed 1000 - 7 1 2\n",
    },
    Story {
        faults: SOUND,
        saved: "",
        lives: &[&[
            Step::Gather(&[FIXLETS, "component 7\ncomponent 1\nend\n"]),
            Step::Gather(&[ACTION, ALL]),
            Step::Turn(1000),
            Step::Show(Shown::Attempts),
        ]],
        wanted: "began 7 failed 1 1 42 NotAFile, delete /etc, start quick\nattempt 1 1000 failed 1000 - - 1 1\n",
    },
    Story {
        faults: SOUND,
        saved: "",
        lives: &[&[
            Step::Gather(&[FIXLETS, "component 6\ncomponent 2\nend\n"]),
            Step::Gather(&[ACTION, STOP]),
            Step::Turn(1000),
            Step::Show(Shown::Attempts),
        ]],
        wanted: "began 7 failed 1 0 49, start quick\nattempt 1 1000 failed 1000 - 7 1 0\n",
    },
    Story {
        faults: SOUND,
        saved: "",
        lives: &[&[
            Step::Gather(&[FIXLETS, "component 6\ncomponent 2\nend\n"]),
            Step::Gather(&[ACTION, ALL]),
            Step::Turn(1000),
            Step::Show(Shown::Attempts),
        ]],
        wanted: "began 7 failed 1 0 49, start quick, make /t\nattempt 1 1000 failed 1000 - 7 1 0\n",
    },
    Story {
        faults: Faults {
            looks: &[1],
            acts: &[],
            saves: &[],
        },
        saved: "",
        lives: &[&[
            Step::Gather(&[FIXLETS, "component 1\ncomponent 5\nend\n"]),
            Step::Gather(&[ACTION, STOP]),
            Step::Turn(1000),
            Step::Show(Shown::Attempts),
        ]],
        wanted: "began 7 failed 2 0 43, start quick\nattempt 1 1000 failed 1000 - - 2 0\n",
    },
    Story {
        faults: Faults {
            looks: &[1],
            acts: &[],
            saves: &[],
        },
        saved: "",
        lives: &[&[
            Step::Gather(&[FIXLETS, "component 1\ncomponent 5\ncomponent 3\nend\n"]),
            Step::Gather(&[ACTION, ALL]),
            Step::Turn(1000),
            Step::Show(Shown::Attempts),
        ]],
        wanted: "began 7 failed 2 0 43, start quick, start quick, delete /etc\nattempt 1 1000 failed 1000 - - 2 0\n",
    },
    Story {
        faults: Faults {
            looks: &[1],
            acts: &[],
            saves: &[],
        },
        saved: "",
        lives: &[&[
            Step::Gather(&[FIXLETS, "component 3\ncomponent 5\nend\n"]),
            Step::Gather(&[ACTION, ALL]),
            Step::Turn(1000),
            Step::Show(Shown::Attempts),
        ]],
        wanted: "began 7 failed 1 2 42 NotAFile, start quick, delete /etc\nattempt 1 1000 failed 1000 - 7 1 2\n",
    },
    Story {
        faults: SOUND,
        saved: "",
        lives: &[&[
            Step::Gather(&[FIXLETS, "component 1\nend\n"]),
            Step::Gather(&[ALONE, STOP]),
            Step::Turn(1000),
            Step::Show(Shown::Attempts),
        ]],
        wanted: "began 7 failed 0 0 49, start quick\nattempt 1 1000 failed 1000 - 7 0 0\n",
    },
];
