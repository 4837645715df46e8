ghost use Rattle.std.specs.Prelude.{◌≡◌, ◌↔◌, IsTrue};
ghost use Rattle.act_rules.specs.Notes.{no_note};

/// How an attempt ended. Failed and Interrupted both count as failure.
#[derive(Clone, Copy)]
pub enum Outcome {
    Fixed,
    Failed,
    Interrupted,
}

/// What else is told of an attempt that has ended.
#[derive(Clone, Copy)]
pub struct Note {
    /// The exit code of its last program, if that had one.
    pub exit: Option<i64>,
    /// Where it failed: the number of the component, 0 where there are none, and the line of its script.
    pub place: Option<(u32, u32)>,
}

/// The empty note.
pub const NO_NOTE: Note = Note {
    exit: None,
    place: None,
};

impl Note {
    /// Whether it is the empty one.
    pub fn is_empty(self) -> bool
        ensures { IsTrue result ↔ (self ≡ no_note) }
    {
        self.exit.is_none() && self.place.is_none()
    }
}

/// One attempt of an action. Moments are seconds since 1970-01-01 00:00:00 UTC, from 0 to 2^37.
#[derive(Clone, Copy)]
pub struct Row {
    /// The number of the attempt, counted from 1.
    pub number: u32,
    /// The moment at which it began.
    pub begun: i64,
    /// When and how it ended. None while it runs.
    pub end: Option<(i64, Outcome)>,
    /// The moment at which the content was seen not to be relevant after the end.
    pub cleared: Option<i64>,
    pub note: Note,
}

/// How the attempts of an action stand.
#[derive(Clone, Copy)]
pub enum Status {
    NotBegun,
    Running,
    Ended(Outcome),
}
