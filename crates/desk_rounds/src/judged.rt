/// What an upstream says of a report that was posted to it.
#[derive(Clone, Copy)]
pub enum Judged {
    /// A server has accepted it.
    Ok,
    /// A server had accepted it before.
    Again,
    /// A relay knows that the server holds it.
    Stored,
    /// A relay has it in its queue.
    Carried,
    /// Another report of this computer and number is held, or queued, which has this SHA-256.
    Conflict([u8; 32]),
    /// There is no room, by this limit.
    Full(u64),
}

/// Who posts reports.
#[derive(Clone, Copy)]
pub enum Asker {
    Agent,
    Relay,
}
