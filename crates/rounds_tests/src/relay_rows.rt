// Rows of upstream rounds of relays, by hand: what a relay has, what its upstream gives, and what is printed, asked and kept then.

/// An exchange is told as `upstream` says.
pub(crate) struct Row {
    pub(crate) name: &'static str,
    /// The kept site, as a text without its digest. Empty: none is kept.
    pub(crate) site: &'static str,
    /// The queued reports.
    pub(crate) reports: &'static [&'static str],
    /// What comes of the exchanges before one, what comes of it, each in turn, and what comes of those behind it. Those behind these fail.
    pub(crate) before: &'static [&'static str],
    pub(crate) any_of: &'static [&'static str],
    pub(crate) behind: &'static [&'static str],
    /// The lines that are printed, then the method and the path of each request and the number of each posted report, then what is kept.
    pub(crate) wanted: &'static str,
}

pub(crate) const ONE: &str = "report 1\ncomputer pc1\nseq 1\nrow 7 1 fixed 1000 1010\nend\n";

/// Another report of its key.
pub(crate) const OTHER: &str = "report 1\ncomputer pc1\nseq 1\nrow 7 1 failed 1000 1010\nend\n";

const TWO: &str = "report 1\ncomputer pc1\nseq 2\nend\n";

/// What comes of the request for the list of sites.
pub(crate) const LISTS: [Row; 4] = [
    Row {
        name: "nothing is listed",
        site: "",
        reports: &[],
        before: &[],
        any_of: &["200 "],
        behind: &[],
        wanted: "GET /sites HTTP/1.1\n",
    },
    Row {
        name: "a link that never answers, and nothing queued",
        site: "",
        reports: &[],
        before: &[],
        any_of: &[""],
        behind: &[],
        wanted: "link: no answer\nGET /sites HTTP/1.1\n",
    },
    Row {
        name: "a bad answer to the list of sites",
        site: "",
        reports: &[ONE],
        before: &[],
        any_of: &[
            // no reply
            "x",
            // another status
            "404 ",
            // a leading zero
            "200 desk 01\n",
            // version 0
            "200 desk 0\n",
            // a version above 2^53
            "200 desk 9007199254740993\n",
            // no LF
            "200 desk 1",
            // a name twice
            "200 a 1\na 2\n",
            // names in another order
            "200 b 1\na 1\n",
            // two spaces
            "200 desk  1\n",
            // a name of no form
            "200 de/sk 1\n",
            // a name alone
            "200 desk\n",
            // an empty line
            "200 \n",
            // something behind the version
            "200 desk 1 \n",
        ],
        behind: &["200 ok\n"],
        wanted: "link: bad answer\nGET /sites HTTP/1.1\nPOST /reports HTTP/1.1\nseq 1\n",
    },
    Row {
        name: "no answer to the list of sites",
        site: "",
        reports: &[ONE],
        before: &[],
        any_of: &[""],
        behind: &["200 ok\n"],
        wanted: "link: no answer\nGET /sites HTTP/1.1\nPOST /reports HTTP/1.1\nseq 1\n",
    },
];

/// What comes of requests for sites.
pub(crate) const SITES: [Row; 8] = [
    Row {
        name: "a site that isn't kept is asked for with 0",
        site: "",
        reports: &[],
        before: &["200 desk 3\n"],
        any_of: &["site desk 3\n"],
        behind: &[],
        wanted: "GET /sites HTTP/1.1\nGET /sites/desk/0 HTTP/1.1\nkeeps desk 3\n",
    },
    Row {
        name: "a newer one with the kept version",
        site: "site desk 1\n",
        reports: &[],
        before: &["200 desk 3\n"],
        any_of: &["site desk 3\n"],
        behind: &[],
        wanted: "GET /sites HTTP/1.1\nGET /sites/desk/1 HTTP/1.1\nkeeps desk 3\n",
    },
    Row {
        name: "the kept version isn't asked for",
        site: "site desk 1\n",
        reports: &[],
        before: &[],
        any_of: &["200 desk 1\n"],
        behind: &[],
        wanted: "GET /sites HTTP/1.1\nkeeps desk 1\n",
    },
    Row {
        name: "what leaves the kept site",
        site: "site desk 1\n",
        reports: &[],
        before: &["200 desk 3\n"],
        any_of: &[
            // same
            "200 same\n",
            // a site that isn't newer
            "site desk 1\n",
        ],
        behind: &[],
        wanted: "GET /sites HTTP/1.1\nGET /sites/desk/1 HTTP/1.1\nkeeps desk 1\n",
    },
    Row {
        name: "a site of another version than the listed one",
        site: "site desk 1\n",
        reports: &[],
        before: &["200 desk 3\n"],
        any_of: &["site desk 2\n"],
        behind: &[],
        wanted: "GET /sites HTTP/1.1\nGET /sites/desk/1 HTTP/1.1\nkeeps desk 2\n",
    },
    Row {
        name: "sites in the order of the list",
        site: "",
        reports: &[],
        before: &["200 a 1\nb 9007199254740992\n", "site a 1\n"],
        any_of: &["site b 9007199254740992\n"],
        behind: &[],
        wanted: "GET /sites HTTP/1.1\nGET /sites/a/0 HTTP/1.1\nGET /sites/b/0 HTTP/1.1\nkeeps a 1\nkeeps b 9007199254740992\n",
    },
    Row {
        name: "a bad answer to a site",
        site: "",
        reports: &[],
        before: &["200 a 3\nb 1\n"],
        any_of: &[
            // another site
            "site other 3\n",
            // a wrong digest
            "200 site a 3\ndigest 0000000000000000000000000000000000000000000000000000000000000000\n",
            // no site
            "200 same",
            // another status
            "404 no such\n",
            // same with another status
            "404 same\n",
            // no reply
            "HTTP/1.1 200 OK\r\n\r\n",
        ],
        behind: &["site b 1\n"],
        wanted: "link: bad answer\nGET /sites HTTP/1.1\nGET /sites/a/0 HTTP/1.1\nGET /sites/b/0 HTTP/1.1\nkeeps b 1\n",
    },
    Row {
        name: "no answer to a site",
        site: "",
        reports: &[ONE],
        before: &["200 a 3\nb 1\n"],
        any_of: &[""],
        behind: &["200 ok\n"],
        wanted: "link: no answer\nGET /sites HTTP/1.1\nGET /sites/a/0 HTTP/1.1\nPOST /reports HTTP/1.1\nseq 1\n",
    },
];

/// What comes of posted reports.
pub(crate) const REPORTS: [Row; 5] = [
    Row {
        name: "a report is posted, and no longer queued",
        site: "",
        reports: &[ONE, TWO],
        before: &["200 "],
        any_of: &[
            "200 ok\n",
            "200 again\n",
            "409 conflict ca8a7375b560d8fb822012ab1e72147b172b6f77ade2ee68d8ff63bfaf69806e\n",
        ],
        behind: &["200 ok\n"],
        wanted: "GET /sites HTTP/1.1\nPOST /reports HTTP/1.1\nseq 1\nPOST /reports HTTP/1.1\nseq 2\n",
    },
    Row {
        name: "full leaves a report queued",
        site: "",
        reports: &[ONE, TWO],
        before: &["200 "],
        any_of: &["507 full 18446744073709551615\n"],
        behind: &["200 ok\n"],
        wanted: "GET /sites HTTP/1.1\nPOST /reports HTTP/1.1\nseq 1\nPOST /reports HTTP/1.1\nseq 2\nqueued 1\n",
    },
    Row {
        name: "a bad answer to a report",
        site: "",
        reports: &[ONE, TWO],
        before: &["200 "],
        any_of: &[
            "200 stored\n",
            "200 carried\n",
            // no LF
            "200 ok",
            // a space
            "200 ok \n",
            // no digest
            "409 conflict \n",
            // upper case
            "409 conflict CA8A7375b560d8fb822012ab1e72147b172b6f77ade2ee68d8ff63bfaf69806e\n",
            // a leading zero
            "507 full 01\n",
            // a limit above 64 bits
            "507 full 18446744073709551616\n",
            // another status
            "409 ok\n",
            // another status
            "200 full 3\n",
            // a bad text
            "400 bad text 1\n",
            // no reply
            "x",
        ],
        behind: &["200 ok\n"],
        wanted: "link: bad answer\nGET /sites HTTP/1.1\nPOST /reports HTTP/1.1\nseq 1\nPOST /reports HTTP/1.1\nseq 2\nqueued 1\n",
    },
    Row {
        name: "no answer to a report",
        site: "",
        reports: &[ONE, TWO],
        before: &["200 "],
        any_of: &[""],
        behind: &["200 ok\n"],
        wanted: "link: no answer\nGET /sites HTTP/1.1\nPOST /reports HTTP/1.1\nseq 1\nqueued 1\nqueued 2\n",
    },
    Row {
        name: "a link that never answers",
        site: "",
        reports: &[ONE, TWO],
        before: &[],
        any_of: &[""],
        behind: &[],
        wanted: "link: no answer\nlink: no answer\nGET /sites HTTP/1.1\nPOST /reports HTTP/1.1\nseq 1\nqueued 1\nqueued 2\n",
    },
];
