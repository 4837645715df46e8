// Attempts that want files, and agents of several actions.
use crate::played::{File, SOUND, Step};
use crate::shown::Shown;
use crate::sites::{ACTION, OPEN};
use crate::stories::Story;

/// A fixlet that fetches the file `abc` twice.
const FETCHES: &str = "site desk 1
fixlet 1
title Fetches
success lines
| prefetch p sha1:a9993e364706816aba3e25717850c26c9cd0d89d size:3 http://host/p sha256:ba7816bf8f01cfea414140de5dae2223b00361a396177a9cb410ff61f20015ad
| prefetch q sha1:a9993e364706816aba3e25717850c26c9cd0d89d size:3 http://host/q sha256:ba7816bf8f01cfea414140de5dae2223b00361a396177a9cb410ff61f20015ad
end
";

pub(crate) const WANTED: [Story; 2] = [
    Story {
        faults: SOUND,
        saved: "",
        lives: &[&[
            Step::Gather(&[FETCHES]),
            Step::Gather(&[ACTION, OPEN]),
            Step::Supply(File::Abc),
            Step::Turn(1000),
            Step::Supply(File::Other),
            Step::Supply(File::Abc),
            Step::Supply(File::Absent),
            Step::Turn(1001),
            Step::Turn(1002),
            Step::Supply(File::Abc),
            Step::Turn(1003),
            Step::Show(Shown::Outbox),
        ]],
        wanted: "not wanted\nbegan 7 wants 186\nnot wanted\ntaken\nnot wanted\nwent on 7 wants 186, place p\nwent on 7 wants 186\ntaken\nwent on 7 fixed, place q\noutbox 2, last 2 of 1, 7 1 fixed\n",
    },
    Story {
        faults: SOUND,
        saved: "",
        lives: &[&[
            Step::Gather(&[FETCHES]),
            Step::Gather(&[ACTION, OPEN]),
            Step::Turn(1000),
            Step::Supply(File::Abc),
            Step::Turn(1001),
            Step::Supply(File::Absent),
            Step::Turn(1002),
        ]],
        wanted: "began 7 wants 186\ntaken\nwent on 7 wants 186, place p\ntaken\nwent on 7 failed 0 2 47\n",
    },
];

/// Content 9 isn't gathered, content 2 waits, and content 1 makes a folder.
pub(crate) const LEAST: Story = Story {
    faults: SOUND,
    saved: "",
    lives: &[&[
        Step::Gather(&[
            "site desk 1\nfixlet 1\ntitle One\nsuccess lines\n| folder create /one\nend\nfixlet 2\ntitle Two\nsuccess lines\n| wait slow\nend\n",
        ]),
        Step::Gather(&[
            "site actionsite 1\naction 3\nissued 900\ncontent desk 9\n",
            OPEN,
            "action 5\nissued 900\ncontent desk 2\n",
            OPEN,
            "action 6\nissued 900\ncontent desk 1\n",
            OPEN,
        ]),
        Step::Turn(1000),
        Step::Turn(1001),
        Step::Turn(1002),
        Step::Turn(1003),
        Step::Turn(1004),
        Step::Turn(1005),
        Step::Show(Shown::Outbox),
    ]],
    wanted: "began 5 held 0 1, start slow\nwent on 5 held 0 1\nwent on 5 held 0 1\nwent on 5 fixed\nbegan 6 fixed, make /one\nidle\noutbox 3, last 3 of 1, 6 1 fixed\n",
};
