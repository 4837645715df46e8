/// The form of a report's text.
#[derive(Clone, Copy)]
pub enum Form {
    /// Rows without notes.
    One,
    /// Rows with the exit code and the place of a failure.
    Two,
}
