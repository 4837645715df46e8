use crate::Held;

/// What is handed down to a part of a question, where there is such a value.
#[derive(Clone, Copy)]
pub struct Scope<'a> {
    /// What `it` stands for.
    pub it: Option<&'a Held>,
    /// The argument of the head around it.
    pub argument: Option<&'a Held>,
    /// The value to its left, which a sign or a tuple joins with its own.
    pub left: Option<&'a Held>,
}
