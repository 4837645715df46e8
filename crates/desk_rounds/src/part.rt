/// What comes next in a round.
#[derive(Clone, Copy)]
pub enum Next {
    /// The next item of the part, where it has one more, and else the next part.
    Item,
    /// The next part.
    Part,
    /// Nothing: there is no memory.
    Memory,
}
