ghost use Rattle.std.specs.Prelude.{◌≡◌, map};
ghost use Rattle.rel_types.specs.Rows.{given_by, given_kind, given_list, given_pair, is_integer, kind_list};
ghost use Rattle.rel_types.specs.Views.{shown_lent};
ghost use Rattle.rel_value.specs.Views.{shown_kind, shown_kinds};

use crate::scalar::Scalar;
use rel_value::{Kind, Kinds};

/// What stands as an argument or an object, as far as the tables of names tell it apart.
#[derive(Clone, Copy)]
pub(crate) enum Given {
    Nothing,
    Scalar(Scalar),
    /// A tuple of two integers.
    Integers,
    /// Any other tuple.
    Tuple,
}

impl Given {
    pub(crate) fn by(kind: Option<&Kind>) -> Given
        ensures { result ≡ given_by (shown_lent kind.entry) }
    {
        match kind {
            Some(kind) => Given::of(kind),
            None => Given::Nothing,
        }
    }

    fn of(kind: &Kind) -> Given
        ensures { result ≡ given_kind (shown_kind kind.now) }
    {
        match kind {
            Kind::Boolean => Given::Scalar(Scalar::Boolean),
            Kind::Integer => Given::Scalar(Scalar::Integer),
            Kind::Text => Given::Scalar(Scalar::Text),
            Kind::Part => Given::Scalar(Scalar::Part),
            Kind::Time => Given::Scalar(Scalar::Time),
            Kind::Interval => Given::Scalar(Scalar::Interval),
            Kind::Version => Given::Scalar(Scalar::Version),
            Kind::File => Given::Scalar(Scalar::File),
            Kind::Folder => Given::Scalar(Scalar::Folder),
            Kind::Client => Given::Scalar(Scalar::Client),
            Kind::Setting => Given::Scalar(Scalar::Setting),
            Kind::Process => Given::Scalar(Scalar::Process),
            Kind::Package => Given::Scalar(Scalar::Package),
            Kind::System => Given::Scalar(Scalar::System),
            Kind::Action => Given::Scalar(Scalar::Action),
            Kind::Tuple(kinds) => Given::of_kinds(parts_of(kinds)),
        }
    }

    fn of_kinds(kinds: &[Kind]) -> Given
        ensures { result ≡ given_list (map shown_kind kinds.now) }
    {
        match kinds {
            [first, second] => Given::of_pair(first, second),
            _ => Given::Tuple,
        }
    }

    fn of_pair(first: &Kind, second: &Kind) -> Given
        ensures { result ≡ given_pair (shown_kind first.now) (shown_kind second.now) }
    {
        if is_integer(first) && is_integer(second) {
            Given::Integers
        } else {
            Given::Tuple
        }
    }
}

fn is_integer(kind: &Kind) -> bool
    ensures { result ≡ is_integer (shown_kind kind.now) }
{
    match kind {
        Kind::Integer => true,
        _ => false,
    }
}

/// The kinds of a tuple's parts.
pub(crate) fn parts_of(kinds: &Kinds) -> &[Kind]
    ensures { map shown_kind result.now ≡ kind_list (shown_kinds kinds.now) }
{
    kinds.as_slice()
}
