use rel_value::PropertyId;

/// What a name asks for: a property of an object, or all values of an object taken together.
#[derive(Clone, Copy)]
pub enum Head {
    Property(PropertyId),
    Aggregate(Aggregate),
}

/// What is made of all values of an object, in the order of the aggregates' table.
#[derive(Clone, Copy)]
pub enum Aggregate {
    /// `number of`
    Number,
    /// `sum of`
    Sum,
    /// `maximum of`
    Maximum,
    /// `minimum of`
    Minimum,
    /// `conjunction of`
    Conjunction,
    /// `disjunction of`
    Disjunction,
    /// `concatenation of`
    Concatenation,
}
