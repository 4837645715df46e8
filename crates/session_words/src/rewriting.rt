// The words of the tables.
ghost use Rattle.std.specs.Prelude.{◌≡◌, bytes_eq, find, map, option_map};
ghost use Rattle.session_words.specs.Inside.{is_in_folder, shown_rewriting, shown_row};
ghost use Rattle.session_words.specs.Replaced.{rewriting_of, rewritings};

/// What words become.
#[derive(Clone, Copy)]
pub(crate) enum Rewriting {
    /// Where they have no object: these words of the folder at this path.
    InFolder {
        words: &'static str,
        path: &'static str,
    },
    /// Where they have an object: these words of it.
    OverObject(&'static str),
    /// Where they have an object and no argument: these words with this number, of the object.
    Numbered {
        words: &'static str,
        number: u32,
    },
}

impl Rewriting {
    /// Whether the words become those of a folder.
    pub(crate) fn is_in_folder(&self) -> bool
        ensures { result ≡ is_in_folder (shown_rewriting self.now) }
    {
        match self {
            Rewriting::InFolder { .. } => true,
            Rewriting::OverObject(_) => false,
            Rewriting::Numbered { .. } => false,
        }
    }
}

/// Words of the tables, and what they become.
pub(crate) struct Row {
    words: &'static str,
    becomes: Rewriting,
}

static ROWS: [Row; 12] = [
    Row {
        words: "bes computer",
        becomes: Rewriting::InFolder {
            words: "folder",
            path: "/computers",
        },
    },
    Row {
        words: "bes computers",
        becomes: Rewriting::InFolder {
            words: "folders",
            path: "/computers",
        },
    },
    Row {
        words: "bes action",
        becomes: Rewriting::InFolder {
            words: "file",
            path: "/actions",
        },
    },
    Row {
        words: "bes actions",
        becomes: Rewriting::InFolder {
            words: "files",
            path: "/actions",
        },
    },
    Row {
        words: "bes site",
        becomes: Rewriting::InFolder {
            words: "file",
            path: "/sites",
        },
    },
    Row {
        words: "bes sites",
        becomes: Rewriting::InFolder {
            words: "files",
            path: "/sites",
        },
    },
    Row {
        words: "result",
        becomes: Rewriting::OverObject("file"),
    },
    Row {
        words: "results",
        becomes: Rewriting::OverObject("files"),
    },
    Row {
        words: "status",
        becomes: Rewriting::Numbered {
            words: "line",
            number: 1,
        },
    },
    Row {
        words: "statuses",
        becomes: Rewriting::Numbered {
            words: "lines",
            number: 1,
        },
    },
    Row {
        words: "attempt",
        becomes: Rewriting::Numbered {
            words: "line",
            number: 2,
        },
    },
    Row {
        words: "attempts",
        becomes: Rewriting::Numbered {
            words: "lines",
            number: 2,
        },
    },
];

#[tactic(auto, unfolding(crate::specs::Replaced::rewritings))]
fn rows() -> &'static [Row]
    ensures { map shown_row result.now ≡ rewritings }
{
    &ROWS
}

impl Row {
    /// Whether it is the row of these words.
    fn is_of(&self, words: &str) -> bool
        ensures { result ≡ bytes_eq words.now (shown_row self.now).0 }
    {
        words == self.words
    }
}

/// The first of these rows that is of these words.
fn row_of(rows: &'static [Row], words: &str) -> Option<&'static Row>
    ensures { option_map (λ r. r.now) result ≡ find (λ r. bytes_eq words.now (shown_row r).0) rows.now }
{
    rows.iter().find(|row| row.is_of(words))
}

/// What these words become, if they are words of the tables.
pub(crate) fn rewriting_of(words: &str) -> Option<Rewriting>
    ensures { option_map shown_rewriting result ≡ rewriting_of words.now }
{
    match row_of(rows(), words) {
        Some(row) => Some(row.becomes),
        None => None,
    }
}
