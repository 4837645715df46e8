/// What becomes of a report that was handed on.
#[derive(Clone, Copy)]
pub enum Verdict {
    /// The server holds it.
    Stored,
    /// A relay carries it.
    Carried,
    /// Another report of this computer and number is held, with this digest.
    Conflict([u8; 32]),
    /// There is no room, by this limit.
    Full(u64),
}

/// What becomes of a site that was handed on.
#[derive(Clone, Copy)]
pub enum Gathered {
    /// It is kept.
    New,
    /// It isn't newer than the kept version, which is this one.
    Older(u64),
    /// Want of memory. Nothing is changed.
    Memory,
}
