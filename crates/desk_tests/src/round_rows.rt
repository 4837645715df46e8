// Runs of relays and agents, and words that ask for nothing.

/// What a peer says that asks for the list of sites.
const SITES: &str = "GET /sites HTTP/1.1\r\nHost: desk\r\n\r\n";

/// What a peer says that asks for the file `abc`.
const ABC: &str =
    "GET /files/ba7816bf8f01cfea414140de5dae2223b00361a396177a9cb410ff61f20015ad HTTP/1.1\r\nHost: desk\r\n\r\n";

/// What an upstream replies that has it.
const HAS_ABC: &str = "HTTP/1.1 200 OK\r\nContent-Length: 3\r\n\r\nabc";

/// What an upstream replies that has no sites.
const NONE: &str = "HTTP/1.1 200 OK\r\nContent-Length: 0\r\n\r\n";

/// A run of a relay or an agent, what the peers say in turn, what the upstream replies as long as it does, the text in the pocket, where
/// there is one, the number of the status with which it ends, and what it prints. The clock gives 1000 and then 2000. The door's calls,
/// the pocket's loads, the sink's writes and the link's exchanges that fail are counted from 1.
#[derive(Clone, Copy)]
pub(crate) struct Row {
    pub words: &'static [&'static str],
    pub says: &'static [&'static str],
    pub replies: &'static [&'static str],
    pub saved: &'static str,
    pub fails: Fails,
    pub status: u8,
    pub wanted: &'static [u8],
}

/// Which calls fail.
#[derive(Clone, Copy)]
pub(crate) struct Fails {
    pub door: &'static [u32],
    pub loads: &'static [u32],
    pub writes: &'static [u32],
    pub exchanges: &'static [u32],
}

pub(crate) const NEVER: Fails = Fails {
    door: &[],
    loads: &[],
    writes: &[],
    exchanges: &[],
};

/// Worked out by hand from the tables of commands and statuses, and the rules of rounds in docs/HTTP.md.
pub(crate) const ROWS: [Row; 16] = [
    Row {
        words: &["relay", "8081", "u", "1"],
        says: &[SITES],
        replies: &[],
        saved: "",
        fails: NEVER,
        status: 0,
        wanted: b"link: no answer\nanswered 200\nlink: no answer\n",
    },
    Row {
        words: &["relay", "8081", "u", "2"],
        says: &[SITES],
        replies: &[NONE, "x"],
        saved: "",
        fails: NEVER,
        status: 8,
        wanted: b"answered 200\nlink: bad answer\n",
    },
    // A cache keeps the file, so that the last reply is that to the round.
    Row {
        words: &["relay", "8081", "u", "2", "1"],
        says: &[ABC, ABC],
        replies: &[NONE, HAS_ABC, NONE, NONE],
        saved: "",
        fails: NEVER,
        status: 0,
        wanted: b"answered 200\nanswered 200\n",
    },
    Row {
        words: &["relay", "8081", "u", "2"],
        says: &[ABC, ABC],
        replies: &[NONE, HAS_ABC, NONE, NONE],
        saved: "",
        fails: NEVER,
        status: 0,
        wanted: b"answered 200\nanswered 502\nlink: no answer\n",
    },
    Row {
        words: &["relay", "1", "u", "1"],
        says: &[SITES],
        replies: &[],
        saved: "",
        fails: Fails {
            door: &[1],
            loads: &[],
            writes: &[],
            exchanges: &[],
        },
        status: 8,
        wanted: b"",
    },
    Row {
        words: &["relay", "1", "u", "1"],
        says: &[SITES],
        replies: &[],
        saved: "",
        fails: Fails {
            door: &[],
            loads: &[],
            writes: &[2],
            exchanges: &[],
        },
        status: 4,
        wanted: b"link: no answer\n",
    },
    Row {
        words: &["agent", "u", "p", "w", "pc1", "0", "1"],
        says: &[],
        replies: &[],
        saved: "",
        fails: NEVER,
        status: 0,
        wanted: b"link: no answer\nturn pc1 1000: idle\n",
    },
    Row {
        words: &["agent", "u", "p", "w", "pc1", "-840", "2"],
        says: &[],
        replies: &["x", NONE],
        saved: "",
        fails: NEVER,
        status: 0,
        wanted: b"link: bad answer\nturn pc1 1000: idle\nturn pc1 2000: idle\n",
    },
    Row {
        words: &["agent", "u", "p", "w", "pc1", "840", "3"],
        says: &[],
        replies: &[NONE, NONE],
        saved: "",
        fails: NEVER,
        status: 5,
        wanted: b"turn pc1 1000: idle\nturn pc1 2000: idle\n",
    },
    Row {
        words: &["agent", "u", "p", "w", "pc1", "0", "1"],
        says: &[],
        replies: &[],
        saved: "agent 3\n",
        fails: NEVER,
        status: 2,
        wanted: b"bad pocket 1\n",
    },
    Row {
        words: &["agent", "u", "p", "w", "pc1", "0", "1"],
        says: &[],
        replies: &[],
        saved: "agent 1\ncomputer pc2\n",
        fails: Fails {
            door: &[],
            loads: &[],
            writes: &[1],
            exchanges: &[],
        },
        status: 4,
        wanted: b"",
    },
    Row {
        words: &["agent", "u", "p", "w", "pc1", "0", "1"],
        says: &[],
        replies: &[],
        saved: "agent 1\ncomputer pc2\n",
        fails: NEVER,
        status: 2,
        wanted: b"bad pocket 2\n",
    },
    Row {
        words: &["agent", "u", "p", "w", "pc1", "0", "1"],
        says: &[],
        replies: &[],
        saved: "",
        fails: Fails {
            door: &[],
            loads: &[1],
            writes: &[],
            exchanges: &[],
        },
        status: 6,
        wanted: b"",
    },
    // The second upstream is asked the same, and says that it has no sites.
    Row {
        words: &["agent", "u", "p", "w", "pc1", "0", "1", "v"],
        says: &[],
        replies: &[NONE],
        saved: "",
        fails: Fails {
            door: &[],
            loads: &[],
            writes: &[],
            exchanges: &[1],
        },
        status: 0,
        wanted: b"link: second\nturn pc1 1000: idle\n",
    },
    // Neither answers, in the first round and in the second one.
    Row {
        words: &["agent", "u", "p", "w", "pc1", "0", "2", "v"],
        says: &[],
        replies: &[],
        saved: "",
        fails: NEVER,
        status: 0,
        wanted: b"link: second\nlink: no answer\nturn pc1 1000: idle\nlink: second\nlink: no answer\nturn pc1 2000: idle\n",
    },
    Row {
        words: &["agent", "u", "p", "w", "pc1", "0", "2"],
        says: &[],
        replies: &[],
        saved: "",
        fails: Fails {
            door: &[],
            loads: &[],
            writes: &[2],
            exchanges: &[],
        },
        status: 4,
        wanted: b"link: no answer\nturn pc1 1000: idle\n",
    },
];

/// Words that ask for nothing: an empty text, an offset or a number out of its range or spelled otherwise, a name that is none, a word too
/// few or too many.
pub(crate) const NO_COMMANDS: [&[&str]; 18] = [
    &["relay", "0", "u", "1"],
    &["relay", "8081", "", "1"],
    &["relay", "8081", "u", "01"],
    &["relay", "8081", "u", "1", "c"],
    &["relay", "8081", "u", "1", "0"],
    &["relay", "8081", "u", "1", "65"],
    &["relay", "8081", "u", "1", "01"],
    &["relay", "8081", "u", "1", "1", "1"],
    &["agent", "", "p", "w", "pc1", "0", "1"],
    &["agent", "u", "", "w", "pc1", "0", "1"],
    &["agent", "u", "p", "", "pc1", "0", "1"],
    &["agent", "u", "p", "w", "a b", "0", "1"],
    &["agent", "u", "p", "w", "pc1", "-0", "1"],
    &["agent", "u", "p", "w", "pc1", "841", "1"],
    &["agent", "u", "p", "w", "pc1", "0", "0"],
    &["agent", "u", "p", "w", "pc1", "0"],
    &["agent", "u", "p", "w", "pc1", "0", "1", ""],
    &["agent", "u", "p", "w", "pc1", "0", "1", "v", "v"],
];
