// Conversations with a server: what it is asked, request by request, what it replies, and the tables at the end. Worked out by hand from
// the table of replies.
use crate::last_version::{LAST, begun};
use crate::talk::{AMPLE, Said, keeper, request, tables, told};
use crate::texts::*;
use desk_keep::{Keeper, MemoryKeeper};
use server_core::{Limits, Server, answer_all};
use server_text::Reply;
use std::alloc::Global;
use std::test::Fail;

/// A conversation with a server of these limits that has kept nothing, or the site of actions in a version with one action.
struct Talk {
    about: &'static str,
    limits: Limits,
    begun: Option<(u64, &'static str)>,
    rows: &'static [(Said, &'static str)],
    tables: &'static str,
}

const THREE_REPORTS: Limits = Limits {
    sites: 9,
    actions: 9,
    files: 9,
    computers: 9,
    reports: 3,
};

const ONE_ACTION: Limits = Limits {
    sites: 9,
    actions: 1,
    files: 9,
    computers: 9,
    reports: 9,
};

const FEW: Limits = Limits {
    sites: 1,
    actions: 2,
    files: 1,
    computers: 1,
    reports: 2,
};

/// The results of pc1, each of the report with the greatest number that has the action.
const RESULTS_OF_3: &str = "7 3 running 1100 - - - - 3\n9 1 interrupted 1100 1110 - - - 3\n";

const TALKS: [Talk; 10] = [
    Talk {
        about: "sites are published",
        limits: AMPLE,
        begun: None,
        rows: &[
            (Said::AskSites, ""),
            (Said::AskSite("desk", 0), "no such\n"),
            (Said::Publish(DESK_1), "ok\n"),
            (Said::Publish(DESK_1), "again\n"),
            (Said::Publish(DESK_2), "ok\n"),
            (Said::Publish(DESK_2), "again\n"),
            (Said::Publish(OTHER_DESK_2), "older 2\n"),
            (Said::Publish(DESK_1), "older 2\n"),
            (Said::Publish(TOOLS_1), "ok\n"),
            (Said::AskSites, "desk 2\ntools 1\n"),
            (Said::AskSite("desk", 1), DESK_2),
            (Said::AskSite("desk", 2), "same\n"),
            (Said::AskSite("desk", 3), "same\n"),
            (Said::AskSite("des", 0), "no such\n"),
        ],
        tables: "site desk 2 134, site tools 1 85, ",
    },
    Talk {
        about: "actions are issued and stopped",
        limits: AMPLE,
        begun: None,
        rows: &[
            (Said::AskSite("actionsite", 0), "no such\n"),
            (Said::Stop(7), "no such\n"),
            (Said::AskSites, ""),
            (Said::Act(ACTION_7), "ok\n"),
            (Said::Act(ACTION_7), "again\n"),
            (Said::Act(OTHER_7), ACTION_7_STANDS),
            (Said::Stop(7), "ok\n"),
            (Said::Stop(7), "again\n"),
            (Said::Stop(8), "no such\n"),
            (Said::AskSite("actionsite", 0), ACTIONS_OF_2),
            (Said::AskSite("actionsite", 1), ACTIONS_OF_2),
            (Said::AskSite("actionsite", 2), "same\n"),
            (Said::Act(ACTION_7), "again\n"),
            (Said::Act(OTHER_7), ACTION_7_STANDS),
            (Said::Act(STOPPED_7), "bad text 12\n"),
            (Said::Act(ACTION_10), "ok\n"),
            (Said::Act(ACTION_8), "ok\n"),
            (Said::AskSite("actionsite", 3), ACTIONS_OF_4),
            (Said::Act(WHERE_TRUE), "ok\n"),
            (Said::Publish(DESK_1), "ok\n"),
            (Said::AskSites, "actionsite 5\ndesk 1\n"),
        ],
        tables: "site actionsite 5 0, site desk 1 134, action 7 150 233, action 8 176 89, action 9 161 144, action 10 148 111, ",
    },
    Talk {
        about: "files are kept by their digests",
        limits: AMPLE,
        begun: None,
        rows: &[
            (Said::AskFile("abc"), "no such\n"),
            (Said::File("abc"), ABC_IS_KEPT),
            (Said::File("abc"), ABC_IS_KEPT),
            (Said::AskFile("abc"), "abc"),
            (Said::AskFile("abd"), "no such\n"),
        ],
        tables: "file 186 3, ",
    },
    Talk {
        about: "the report of the greatest number stands",
        limits: THREE_REPORTS,
        begun: None,
        rows: &[
            (Said::Results("pc1"), "no such\n"),
            (Said::Report(REPORT_1), "ok\n"),
            (Said::Report(REPORT_1), "again\n"),
            (Said::Report(REPORT_1), "again\n"),
            (Said::Results("pc1"), "7 1 fixed 1000 1010 - - - 1\n"),
            (Said::Report(REPORT_3), "ok\n"),
            (Said::Report(REPORT_2), "ok\n"),
            (Said::Report(OTHER_1), REPORT_1_STANDS),
            (Said::Report(REPORT_4), "full 3\n"),
            (Said::Report(REPORT_1), "again\n"),
            (Said::Results("pc1"), RESULTS_OF_3),
            (Said::Results("pc2"), "no such\n"),
        ],
        tables: "computer pc1, report pc1 1 202, report pc1 2 191, report pc1 3 250, result pc1 7 3 3, result pc1 9 1 3, ",
    },
    Talk {
        about: "reports of both forms are kept",
        limits: AMPLE,
        begun: None,
        rows: &[
            (Said::Report(REPORT_1), "ok\n"),
            (Said::Report(FORM_TWO), "ok\n"),
            (Said::Results("pc1"), "7 2 failed 1060 1060 3 0 9 2\n"),
            (Said::Report(FIXED_AT_PLACE), "bad text 4\n"),
            (Said::Report(REPORT_1), "again\n"),
            (Said::Report(OF_PC2), "ok\n"),
            (Said::Results("pc2"), ""),
        ],
        tables: "computer pc1, computer pc2, report pc1 1 202, report pc1 2 148, report pc2 1 51, result pc1 7 2 2, ",
    },
    Talk {
        about: "a bad text is told by its line",
        limits: AMPLE,
        begun: None,
        rows: &[
            (Said::Publish(""), "bad text 1\n"),
            (Said::Publish(NO_SITE), "bad text 1\n"),
            (Said::Publish(TWICE), "bad text 7\n"),
            (Said::Publish(WRONG_DIGEST), "bad text 7\n"),
            (Said::Publish(NO_QUESTION), "bad text 5\n"),
            (Said::Publish(PLURAL), "bad text 4\n"),
            (Said::Publish(NO_COMMAND), "bad text 6\n"),
            (Said::Publish(OPEN_IF), "bad text 6\n"),
            (Said::Publish(ACTIONSITE), "bad text 1\n"),
            (Said::Publish(WRONG_ACTIONSITE), "bad text 2\n"),
            (Said::Act(NO_ACTION), "bad text 4\n"),
            (Said::Act(WHERE_PLURAL), "bad text 5\n"),
            (Said::Act(WHERE_NUMBER), "bad text 5\n"),
            (Said::Act(WHERE_NONE), "bad text 5\n"),
            (Said::Act(STOPPED_7), "bad text 12\n"),
            (Said::Act(STOPPED_8), "bad text 14\n"),
            (Said::Report(FIXED_AT_PLACE), "bad text 4\n"),
        ],
        tables: "",
    },
    Talk {
        about: "a limit is told where it is met",
        limits: FEW,
        begun: None,
        rows: &[
            (Said::Act(ACTION_7), "ok\n"),
            (Said::Publish(DESK_1), "ok\n"),
            (Said::Publish(TOOLS_1), "full 1\n"),
            (Said::Publish(DESK_1), "again\n"),
            (Said::Publish(DESK_2), "ok\n"),
            (Said::Act(ACTION_8), "ok\n"),
            (Said::Act(ACTION_10), "full 2\n"),
            (Said::Act(ACTION_7), "again\n"),
            (Said::Act(OTHER_7), ACTION_7_STANDS),
            (Said::Stop(7), "ok\n"),
            (Said::File("abc"), ABC_IS_KEPT),
            (Said::File("abd"), "full 1\n"),
            (Said::File("abc"), ABC_IS_KEPT),
            (Said::Report(REPORT_1), "ok\n"),
            (Said::Report(REPORT_3), "ok\n"),
            (Said::Report(OF_PC2), "full 1\n"),
            (Said::Report(REPORT_2), "full 2\n"),
            (Said::Report(REPORT_1), "again\n"),
            (Said::Report(OTHER_1), REPORT_1_STANDS),
        ],
        tables: "site actionsite 3 0, site desk 2 134, action 7 150 233, action 8 176 89, file 186 3, computer pc1, report pc1 1 202, report pc1 3 250, result pc1 7 3 3, result pc1 9 1 3, ",
    },
    Talk {
        about: "the limit of actions comes before the last version",
        limits: ONE_ACTION,
        begun: Some((LAST, ACTION_7)),
        rows: &[
            (Said::Act(ACTION_8), "full 1\n"),
            (Said::Act(ACTION_7), "again\n"),
        ],
        tables: "site actionsite 9007199254740992 0, action 7 147 233, ",
    },
    Talk {
        about: "no version follows the last",
        limits: AMPLE,
        begun: Some((LAST - 1, ACTION_7)),
        rows: &[
            (Said::Act(ACTION_8), "ok\n"),
            (Said::AskSites, "actionsite 9007199254740992\n"),
            (Said::Act(ACTION_10), "full 9007199254740992\n"),
            (Said::Act(ACTION_7), "again\n"),
            (Said::Act(OTHER_7), ACTION_7_STANDS),
            (Said::Stop(7), "full 9007199254740992\n"),
            (Said::Stop(9), "no such\n"),
        ],
        tables: "site actionsite 9007199254740992 0, action 7 147 233, action 8 176 89, ",
    },
    Talk {
        about: "a stopped action is stopped again in the last version",
        limits: AMPLE,
        begun: Some((LAST, STOPPED_7)),
        rows: &[(Said::Stop(7), "again\n"), (Said::Act(ACTION_7), "again\n")],
        tables: "site actionsite 9007199254740992 0, action 7 150 233, ",
    },
];

/// Whether all requests are answered as said, and the tables are these at the end. Of an answer that isn't, it tells the request.
fn held<K: Keeper>(alloc: Global, keeper: &mut K, talk: &Talk) -> Result<Option<usize>, Fail> {
    for (at, (said, wanted)) in talk.rows.iter().enumerate() {
        if told(alloc, talk.limits, keeper, *said)?.as_str() != *wanted {
            return Ok(Some(at));
        }
    }
    if tables(alloc, keeper)?.as_str() != talk.tables {
        return Ok(Some(talk.rows.len()));
    }
    Ok(None)
}

/// A keeper as a conversation begins.
fn keeper_at(alloc: Global, talk: &Talk) -> Result<MemoryKeeper, Fail> {
    match talk.begun {
        Some((version, action)) => begun(alloc, version, action),
        None => keeper(alloc, &[], &[]),
    }
}

#[test]
fn conversations_are_held(rt: HostRuntime) -> Result<(), Fail> {
    let alloc = rt.alloc();
    for talk in &TALKS {
        let mut keeper = keeper_at(alloc, talk)?;
        assert_eq!(rt;
            (talk.about, held(alloc, &mut keeper, talk)?),
            (talk.about, None)
        );
    }
    Ok(())
}

#[test]
fn a_list_of_requests_is_answered(rt: HostRuntime) -> Result<(), Fail> {
    let alloc = rt.alloc();
    let mut keeper = keeper(alloc, &[], &[])?;
    let mut requests = Vec::new(alloc);
    for said in [Said::Act(ACTION_7), Said::Stop(7), Said::Stop(7)] {
        requests.push(request(alloc, said)?)?;
    }
    let replies = answer_all(
        alloc,
        &Server::new(Limits::of_the_desk()),
        &mut keeper,
        requests.as_slice(),
    )?;
    assert!(rt; matches!(replies.as_slice(), [Reply::Ok, Reply::Ok, Reply::Again]));
    Ok(())
}
