/// What a value is cast to, in the order of the casts' table.
#[derive(Clone, Copy)]
pub enum Cast {
    /// `as string`
    Str,
    /// `as integer`
    Integer,
    /// `as version`
    Version,
    /// `as boolean`
    Boolean,
    /// `as time`
    Time,
    /// `as lowercase`
    Lowercase,
    /// `as uppercase`
    Uppercase,
    /// `as trimmed string`
    Trimmed,
}
