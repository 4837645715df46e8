// Rows of rounds of agents, by hand: what comes of each exchange, and what is printed, asked and left to report.
use crate::site_texts::{ACTION, FETCHES, LISTED, LOOKS, MAKES};

/// An exchange is told as `upstream` says.
pub(crate) struct Row {
    pub(crate) name: &'static str,
    /// What comes of the exchanges before one, what comes of it, each in turn, and what comes of those behind it. Those behind these fail.
    pub(crate) before: &'static [&'static str],
    pub(crate) any_of: &'static [&'static str],
    pub(crate) behind: &'static [&'static str],
    pub(crate) fails: Fails,
    /// Whether there is a second upstream.
    pub(crate) has_second: bool,
    pub(crate) rounds: u32,
    /// The lines that are printed, and how a round ended that isn't whole; then the method and the path of each request, behind its upstream
    /// where one was opened, and the number of each posted report; then the numbers of the reports that the agent has.
    pub(crate) wanted: &'static str,
}

/// What fails: the first call of the clock, the first save or the first look.
#[derive(Clone, Copy)]
pub(crate) enum Fails {
    Nothing,
    Clock,
    Save,
    Look,
}

/// What comes of sites and of the turn.
pub(crate) const TURNS: [Row; 9] = [
    Row {
        name: "a link that never answers",
        before: &[],
        any_of: &[""],
        behind: &[],
        fails: Fails::Nothing,
        has_second: false,
        rounds: 1,
        wanted: "link: no answer\nturn pc1 1000: idle\nGET /sites HTTP/1.1\n",
    },
    Row {
        name: "bytes that are no reply",
        before: &[],
        any_of: &["x"],
        behind: &[],
        fails: Fails::Nothing,
        has_second: false,
        rounds: 1,
        wanted: "link: bad answer\nturn pc1 1000: idle\nGET /sites HTTP/1.1\n",
    },
    Row {
        name: "nothing is listed",
        before: &[],
        any_of: &["200 "],
        behind: &[],
        fails: Fails::Nothing,
        has_second: false,
        rounds: 1,
        wanted: "turn pc1 1000: idle\nGET /sites HTTP/1.1\n",
    },
    Row {
        name: "a bad answer to a site",
        before: &[LISTED],
        any_of: &["404 "],
        behind: &[MAKES],
        fails: Fails::Nothing,
        has_second: false,
        rounds: 1,
        wanted: "link: bad answer\nturn pc1 1000: idle\nGET /sites HTTP/1.1\nGET /sites/actionsite/0 HTTP/1.1\nGET /sites/desk/0 HTTP/1.1\n",
    },
    Row {
        name: "no answer to a site",
        before: &[LISTED],
        any_of: &[""],
        behind: &[MAKES],
        fails: Fails::Nothing,
        has_second: false,
        rounds: 1,
        wanted: "link: no answer\nturn pc1 1000: idle\nGET /sites HTTP/1.1\nGET /sites/actionsite/0 HTTP/1.1\n",
    },
    Row {
        name: "a look that fails",
        before: &[LISTED, ACTION],
        any_of: &[LOOKS],
        behind: &[],
        fails: Fails::Look,
        has_second: false,
        rounds: 1,
        wanted: "turn pc1 1000: machine fault\nGET /sites HTTP/1.1\nGET /sites/actionsite/0 HTTP/1.1\nGET /sites/desk/0 HTTP/1.1\n",
    },
    Row {
        name: "a clock that fails",
        before: &[],
        any_of: &["500 "],
        behind: &[],
        fails: Fails::Clock,
        has_second: false,
        rounds: 1,
        wanted: "link: bad answer\nclock fault\nGET /sites HTTP/1.1\n",
    },
    Row {
        name: "a save that fails",
        before: &[LISTED, ACTION],
        any_of: &[MAKES],
        behind: &[],
        fails: Fails::Save,
        has_second: false,
        rounds: 1,
        wanted: "pocket fault\nGET /sites HTTP/1.1\nGET /sites/actionsite/0 HTTP/1.1\nGET /sites/desk/0 HTTP/1.1\n",
    },
    Row {
        name: "the round after a save that failed",
        before: &[LISTED, ACTION, MAKES],
        any_of: &["200 "],
        behind: &["200 ok\n"],
        fails: Fails::Save,
        has_second: false,
        rounds: 2,
        wanted: "pocket fault\nturn pc1 1001: began 7, fixed\nGET /sites HTTP/1.1\nGET /sites/actionsite/0 HTTP/1.1\nGET /sites/desk/0 HTTP/1.1\nGET /sites HTTP/1.1\nPOST /reports HTTP/1.1\nseq 1\n",
    },
];

/// What comes of requests for files.
pub(crate) const FILES: [Row; 7] = [
    Row {
        name: "a file that comes, twice",
        before: &[LISTED, ACTION, FETCHES, "200 abc"],
        any_of: &["200 abc"],
        behind: &["200 ok\n", "200 ok\n"],
        fails: Fails::Nothing,
        has_second: false,
        rounds: 1,
        wanted: "turn pc1 1000: began 7, fixed\nGET /sites HTTP/1.1\nGET /sites/actionsite/0 HTTP/1.1\nGET /sites/desk/0 HTTP/1.1\nGET /files/ba7816bf8f01cfea414140de5dae2223b00361a396177a9cb410ff61f20015ad HTTP/1.1\nGET /files/ba7816bf8f01cfea414140de5dae2223b00361a396177a9cb410ff61f20015ad HTTP/1.1\nPOST /reports HTTP/1.1\nseq 1\nPOST /reports HTTP/1.1\nseq 2\n",
    },
    Row {
        name: "a file that isn't served",
        before: &[LISTED, ACTION, FETCHES],
        any_of: &["404 gone"],
        behind: &["200 ok\n", "200 ok\n"],
        fails: Fails::Nothing,
        has_second: false,
        rounds: 1,
        wanted: "turn pc1 1000: began 7, failed at line 1 cause 47 ba7816bf8f01cfea414140de5dae2223b00361a396177a9cb410ff61f20015ad\nGET /sites HTTP/1.1\nGET /sites/actionsite/0 HTTP/1.1\nGET /sites/desk/0 HTTP/1.1\nGET /files/ba7816bf8f01cfea414140de5dae2223b00361a396177a9cb410ff61f20015ad HTTP/1.1\nPOST /reports HTTP/1.1\nseq 1\nPOST /reports HTTP/1.1\nseq 2\n",
    },
    Row {
        name: "no answer for a file",
        before: &[LISTED, ACTION, FETCHES],
        any_of: &[""],
        behind: &["200 ok\n"],
        fails: Fails::Nothing,
        has_second: false,
        rounds: 1,
        wanted: "link: no answer\nturn pc1 1000: began 7, wants ba7816bf8f01cfea414140de5dae2223b00361a396177a9cb410ff61f20015ad\nGET /sites HTTP/1.1\nGET /sites/actionsite/0 HTTP/1.1\nGET /sites/desk/0 HTTP/1.1\nGET /files/ba7816bf8f01cfea414140de5dae2223b00361a396177a9cb410ff61f20015ad HTTP/1.1\nPOST /reports HTTP/1.1\nseq 1\n",
    },
    Row {
        name: "a bad answer for a file",
        before: &[LISTED, ACTION, FETCHES],
        any_of: &["500 abc"],
        behind: &["200 ok\n"],
        fails: Fails::Nothing,
        has_second: false,
        rounds: 1,
        wanted: "link: bad answer\nturn pc1 1000: began 7, wants ba7816bf8f01cfea414140de5dae2223b00361a396177a9cb410ff61f20015ad\nGET /sites HTTP/1.1\nGET /sites/actionsite/0 HTTP/1.1\nGET /sites/desk/0 HTTP/1.1\nGET /files/ba7816bf8f01cfea414140de5dae2223b00361a396177a9cb410ff61f20015ad HTTP/1.1\nPOST /reports HTTP/1.1\nseq 1\n",
    },
    Row {
        name: "the second file doesn't come, and comes in the next round",
        before: &[LISTED, ACTION, FETCHES, "200 abc"],
        any_of: &[""],
        behind: &["200 ok\n", LISTED, "200 abc", "200 ok\n"],
        fails: Fails::Nothing,
        has_second: false,
        rounds: 2,
        wanted: "link: no answer\nturn pc1 1000: began 7, wants ba7816bf8f01cfea414140de5dae2223b00361a396177a9cb410ff61f20015ad\nturn pc1 1001: went on 7, fixed\nGET /sites HTTP/1.1\nGET /sites/actionsite/0 HTTP/1.1\nGET /sites/desk/0 HTTP/1.1\nGET /files/ba7816bf8f01cfea414140de5dae2223b00361a396177a9cb410ff61f20015ad HTTP/1.1\nGET /files/ba7816bf8f01cfea414140de5dae2223b00361a396177a9cb410ff61f20015ad HTTP/1.1\nPOST /reports HTTP/1.1\nseq 1\nGET /sites HTTP/1.1\nGET /files/ba7816bf8f01cfea414140de5dae2223b00361a396177a9cb410ff61f20015ad HTTP/1.1\nPOST /reports HTTP/1.1\nseq 2\n",
    },
    Row {
        name: "a link that dies before a file is wanted",
        before: &[LISTED, ACTION, FETCHES],
        any_of: &[""],
        behind: &[],
        fails: Fails::Nothing,
        has_second: false,
        rounds: 1,
        wanted: "link: no answer\nturn pc1 1000: began 7, wants ba7816bf8f01cfea414140de5dae2223b00361a396177a9cb410ff61f20015ad\nlink: no answer\nGET /sites HTTP/1.1\nGET /sites/actionsite/0 HTTP/1.1\nGET /sites/desk/0 HTTP/1.1\nGET /files/ba7816bf8f01cfea414140de5dae2223b00361a396177a9cb410ff61f20015ad HTTP/1.1\nPOST /reports HTTP/1.1\nseq 1\nhas 1\n",
    },
    Row {
        name: "a round over a link that answers no more",
        before: &[LISTED, ACTION, FETCHES],
        any_of: &[""],
        behind: &[],
        fails: Fails::Nothing,
        has_second: false,
        rounds: 2,
        wanted: "link: no answer\nturn pc1 1000: began 7, wants ba7816bf8f01cfea414140de5dae2223b00361a396177a9cb410ff61f20015ad\nlink: no answer\nlink: no answer\nlink: no answer\nturn pc1 1001: went on 7, wants ba7816bf8f01cfea414140de5dae2223b00361a396177a9cb410ff61f20015ad\nlink: no answer\nGET /sites HTTP/1.1\nGET /sites/actionsite/0 HTTP/1.1\nGET /sites/desk/0 HTTP/1.1\nGET /files/ba7816bf8f01cfea414140de5dae2223b00361a396177a9cb410ff61f20015ad HTTP/1.1\nPOST /reports HTTP/1.1\nseq 1\nGET /sites HTTP/1.1\nGET /files/ba7816bf8f01cfea414140de5dae2223b00361a396177a9cb410ff61f20015ad HTTP/1.1\nPOST /reports HTTP/1.1\nseq 1\nhas 1\n",
    },
];

/// What comes of posted reports.
pub(crate) const REPORTS: [Row; 4] = [
    Row {
        name: "a report is dropped",
        before: &[LISTED, ACTION, MAKES],
        any_of: &["200 ok\n", "200 again\n", "200 stored\n"],
        behind: &[],
        fails: Fails::Nothing,
        has_second: false,
        rounds: 1,
        wanted: "turn pc1 1000: began 7, fixed\nGET /sites HTTP/1.1\nGET /sites/actionsite/0 HTTP/1.1\nGET /sites/desk/0 HTTP/1.1\nPOST /reports HTTP/1.1\nseq 1\n",
    },
    Row {
        name: "a report is kept",
        before: &[LISTED, ACTION, MAKES],
        any_of: &[
            "200 carried\n",
            "409 conflict ba7816bf8f01cfea414140de5dae2223b00361a396177a9cb410ff61f20015ad\n",
            "507 full 3\n",
        ],
        behind: &[],
        fails: Fails::Nothing,
        has_second: false,
        rounds: 1,
        wanted: "turn pc1 1000: began 7, fixed\nGET /sites HTTP/1.1\nGET /sites/actionsite/0 HTTP/1.1\nGET /sites/desk/0 HTTP/1.1\nPOST /reports HTTP/1.1\nseq 1\nhas 1\n",
    },
    Row {
        name: "a bad answer to a report",
        before: &[LISTED, ACTION, FETCHES, "404 "],
        any_of: &[
            // no reply
            "x",
            // no LF
            "200 ok",
            // another word
            "200 same\n",
            // upper case
            "409 conflict BA7816BF8F01CFEA414140DE5DAE2223B00361A396177A9CB410FF61F20015AD\n",
            // a leading zero
            "507 full 03\n",
            // a bad text
            "400 bad text 1\n",
            // another status
            "409 stored\n",
        ],
        behind: &["200 ok\n"],
        fails: Fails::Nothing,
        has_second: false,
        rounds: 1,
        wanted: "turn pc1 1000: began 7, failed at line 1 cause 47 ba7816bf8f01cfea414140de5dae2223b00361a396177a9cb410ff61f20015ad\nlink: bad answer\nGET /sites HTTP/1.1\nGET /sites/actionsite/0 HTTP/1.1\nGET /sites/desk/0 HTTP/1.1\nGET /files/ba7816bf8f01cfea414140de5dae2223b00361a396177a9cb410ff61f20015ad HTTP/1.1\nPOST /reports HTTP/1.1\nseq 1\nPOST /reports HTTP/1.1\nseq 2\nhas 1\n",
    },
    Row {
        name: "no answer to a report",
        before: &[LISTED, ACTION, FETCHES, "404 "],
        any_of: &[""],
        behind: &["200 ok\n"],
        fails: Fails::Nothing,
        has_second: false,
        rounds: 1,
        wanted: "turn pc1 1000: began 7, failed at line 1 cause 47 ba7816bf8f01cfea414140de5dae2223b00361a396177a9cb410ff61f20015ad\nlink: no answer\nGET /sites HTTP/1.1\nGET /sites/actionsite/0 HTTP/1.1\nGET /sites/desk/0 HTTP/1.1\nGET /files/ba7816bf8f01cfea414140de5dae2223b00361a396177a9cb410ff61f20015ad HTTP/1.1\nPOST /reports HTTP/1.1\nseq 1\nhas 1\nhas 2\n",
    },
];
