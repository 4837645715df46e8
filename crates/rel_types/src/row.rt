ghost use Rattle.std.specs.Prelude.{◌≡◌, find, option_map};
ghost use Rattle.std.specs.List.{list_any};
ghost use Rattle.rel_types.specs.Tables.{shown_asked, shown_row};
ghost use Rattle.rel_types.specs.Rows.{admits, are_words, fits, takes};

use crate::Head;
use crate::given::Given;
use crate::scalar::Scalar;

/// What a row asks of an argument or an object.
#[derive(Clone, Copy)]
pub(crate) enum Asked {
    /// A value of one of these kinds.
    OneOf(&'static [Scalar]),
    /// Nothing, or a value of one of these kinds.
    NoneOr(&'static [Scalar]),
    /// A tuple of two integers.
    Integers,
    /// A value of any kind.
    Anything,
}

pub(crate) const NOTHING: Asked = Asked::NoneOr(&[]);

pub(crate) const TEXT: Asked = Asked::OneOf(&[Scalar::Text]);

pub(crate) const TEXT_OR_NOTHING: Asked = Asked::NoneOr(&[Scalar::Text]);

pub(crate) const ACTION_OR_NOTHING: Asked = Asked::NoneOr(&[Scalar::Action]);

pub(crate) const FILE: Asked = Asked::OneOf(&[Scalar::File]);

pub(crate) const FOLDER: Asked = Asked::OneOf(&[Scalar::Folder]);

pub(crate) const FILE_OR_FOLDER: Asked = Asked::OneOf(&[Scalar::File, Scalar::Folder]);

pub(crate) const PART: Asked = Asked::OneOf(&[Scalar::Part]);

pub(crate) const VERSIONED: Asked = Asked::OneOf(&[Scalar::Package, Scalar::System]);
/// The kinds of what has a name.
pub(crate) const NAMED: Asked = Asked::OneOf(&[
    Scalar::File,
    Scalar::Folder,
    Scalar::Setting,
    Scalar::Process,
    Scalar::Package,
    Scalar::System,
]);

/// A row of a table of names.
pub(crate) struct Row {
    pub(crate) head: Head,
    pub(crate) singular: &'static str,
    /// The words for any number of values, if there are such words.
    pub(crate) plural: Option<&'static str>,
    pub(crate) argument: Asked,
    pub(crate) object: Asked,
    pub(crate) gives: Scalar,
}

impl Asked {
    fn admits(self, given: Given) -> bool
        ensures { result ≡ admits (shown_asked self) given }
    {
        match (self, given) {
            (Asked::OneOf(kinds), Given::Scalar(scalar)) => any_takes(kinds, scalar),
            (Asked::NoneOr(kinds), Given::Scalar(scalar)) => any_takes(kinds, scalar),
            (Asked::NoneOr(_), Given::Nothing) => true,
            (Asked::Integers, Given::Integers) => true,
            (Asked::Anything, Given::Nothing) => false,
            (Asked::Anything, _) => true,
            _ => false,
        }
    }
}

fn any_takes(kinds: &[Scalar], scalar: Scalar) -> bool
    ensures { result ≡ list_any (λ wanted. takes wanted scalar) kinds.now }
{
    kinds.iter().any(|wanted| wanted.takes(scalar))
}

impl Row {
    /// Whether the words are those for any number of values.
    pub(crate) fn is_plural(&self, words: &str) -> bool
        ensures { result ≡ are_words words.now (shown_row self.now).plural }
    {
        match self.plural {
            Some(plural) => plural == words,
            None => false,
        }
    }

    /// Whether this is the row of these words, argument and object.
    fn fits(&self, words: &str, argument: Given, object: Given) -> bool
        ensures { result ≡ fits words.now argument object (shown_row self.now) }
    {
        (self.singular == words || self.is_plural(words))
            && self.argument.admits(argument)
            && self.object.admits(object)
    }
}

/// The first of these rows that is the row of these words, argument and object.
pub(crate) fn first_row(
    rows: &'static [Row],
    words: &str,
    argument: Given,
    object: Given,
) -> Option<&'static Row>
    ensures { option_map (λ r. r.now) result ≡ find (λ r. fits words.now argument object (shown_row r)) rows.now }
{
    rows.iter().find(|row| row.fits(words, argument, object))
}
