/// Whether a closed series is followed by another one. At most `limit` series follow the first, each at least `wait`
/// seconds after the end of the one before.
#[derive(Clone, Copy, Debug)]
pub enum Reapply {
    Never,
    /// Once the content was seen not to be relevant after the end.
    Again { limit: u32, wait: i64 },
    /// While the content is relevant.
    While { limit: u32, wait: i64 },
}

/// The minutes of a day at which an action may begin: at or after `from` and before `to`, over midnight where `to` is less
/// than `from`.
#[derive(Clone, Copy, Debug)]
pub struct Hours {
    /// From 0 to 1439.
    pub from: u32,
    /// From 1 to 1440, the end of the day.
    pub to: u32,
}

/// When an action may begin, and how often.
#[derive(Clone, Copy, Debug)]
pub struct Rules {
    /// The moment at which its window opens. None for no such moment.
    pub start: Option<i64>,
    /// The moment at which its window closes. None for no such moment.
    pub until: Option<i64>,
    /// Whether these two are of the client's local time, in place of UTC.
    pub client: bool,
    /// The hours in local time. None for the whole day.
    pub hours: Option<Hours>,
    /// The weekdays in local time, from Monday. Hours that go over midnight belong to the day on which they open.
    pub days: [bool; 7],
    /// How many attempts may follow the failure of the first in a series, from 0 to 99.
    pub retries: u32,
    /// The seconds between a failure and the next attempt, from 0 to 2^31.
    pub wait: i64,
    pub reapply: Reapply,
}
