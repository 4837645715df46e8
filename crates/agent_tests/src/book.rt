// All stories that are told of agents.
use crate::stories::{Story, plays};
use crate::{baselines, files, holds, marks, notes, reports, saving, series, starts, stops, turns};
use std::test::Fail;

/// What some stories are about, and these.
const BOOK: [(&str, &[Story]); 37] = [
    ("components are run in order", &baselines::ROWS),
    (
        "a component is asked when its turn comes",
        &baselines::ASKED,
    ),
    ("a held baseline keeps its content", &[baselines::HELD]),
    (
        "a component is asked at the moment of its turn",
        &baselines::MOMENTS,
    ),
    ("the date of an action stays", &[baselines::ISSUED]),
    (
        "a machine fault in a component fails it",
        &baselines::FAULTS,
    ),
    ("files are wanted one after another", &files::WANTED),
    (
        "the least due action begins while none is held",
        &[files::LEAST],
    ),
    ("a held attempt goes on as it began", &holds::ROWS),
    ("a pause is asked in each turn", &[holds::PAUSES]),
    (
        "a broken attempt of no site is interrupted",
        &[holds::RETURNS],
    ),
    (
        "each ended action that is not relevant is marked",
        &[marks::ALL],
    ),
    (
        "a mark counts in its turn and is saved once",
        &marks::COUNTS,
    ),
    ("marks fall with what comes after them", &marks::FALLS),
    (
        "a row tells where it failed first and the last exit",
        &notes::ROWS,
    ),
    ("the number behind the last is not used", &reports::NUMBERS),
    ("an old text is reported and saved anew", &[reports::OLD]),
    (
        "a beginning that cannot be saved adds no row",
        &saving::BEGINNINGS,
    ),
    ("reports that are not saved are hidden", &saving::HIDDEN),
    (
        "a broken attempt ends even where that is not saved",
        &saving::BROKEN,
    ),
    (
        "a settled report is saved in the next turn",
        &saving::SETTLED,
    ),
    ("a held attempt saves nothing", &[saving::HELD]),
    (
        "a success that cannot be judged is a failure",
        &[saving::UNJUDGED],
    ),
    ("it runs again once it was cleared", &[series::CLEARED]),
    (
        "only while it runs again without being cleared",
        &series::NOT_CLEARED,
    ),
    ("success is a clause that is not true", &series::JUDGED),
    ("a tally stands for the rows", &[series::RETURNS]),
    ("an action begins where it is due", &starts::ROWS),
    ("what has no script is not looked at", &starts::NOT_GATHERED),
    (
        "a clause is asked up to the first that is not true",
        &starts::CLAUSES,
    ),
    ("no stop, and no row is lost", &[stops::NEVER]),
    ("a stop before a save", &stops::BEFORE),
    ("a stop behind a save", &stops::BEHIND),
    ("a stopped agent begins again", &[stops::AGAIN]),
    ("the realistic fixlet is held and fixed", &[turns::FIXED]),
    ("a failing script is retried once", &[turns::FAILS]),
    ("an older site is not gathered", &[turns::OLDER]),
];

#[test]
fn stories_go_as_they_are_told(rt: HostRuntime) -> Result<(), Fail> {
    for (about, stories) in BOOK {
        plays(rt.alloc(), about, stories)?;
    }
    Ok(())
}
