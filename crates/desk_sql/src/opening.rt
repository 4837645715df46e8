/// What is done where the file of a keeper is missing, or holds nothing.
#[derive(Clone, Copy)]
pub enum Opening {
    /// It is made, and its tables.
    Make,
    /// It is refused, and nothing is made.
    Find,
}
