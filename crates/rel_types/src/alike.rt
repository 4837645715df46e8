ghost use Rattle.std.specs.Prelude.{◌≡◌};
ghost use Rattle.rel_types.specs.Alike.{same_kind, same_kinds};
ghost use Rattle.rel_value.specs.Views.{shown_kind, shown_kinds};

use rel_value::{Kind, Kinds};

/// Whether two kinds are the same. A text and a part of one are not.
#[cycle(alike)]
pub(crate) fn same_kind(one: &Kind, other: &Kind) -> bool
    ensures { result ≡ same_kind (shown_kind one.now) (shown_kind other.now) }
{
    match (one, other) {
        (Kind::Boolean, Kind::Boolean) => true,
        (Kind::Integer, Kind::Integer) => true,
        (Kind::Text, Kind::Text) => true,
        (Kind::Part, Kind::Part) => true,
        (Kind::Time, Kind::Time) => true,
        (Kind::Interval, Kind::Interval) => true,
        (Kind::Version, Kind::Version) => true,
        (Kind::File, Kind::File) => true,
        (Kind::Folder, Kind::Folder) => true,
        (Kind::Client, Kind::Client) => true,
        (Kind::Setting, Kind::Setting) => true,
        (Kind::Process, Kind::Process) => true,
        (Kind::Package, Kind::Package) => true,
        (Kind::System, Kind::System) => true,
        (Kind::Action, Kind::Action) => true,
        (Kind::Tuple(ones), Kind::Tuple(others)) => same_kinds(ones, others),
        _ => false,
    }
}

#[cycle(alike)]
fn same_kinds(ones: &Kinds, others: &Kinds) -> bool
    ensures { result ≡ same_kinds (shown_kinds ones.now) (shown_kinds others.now) }
{
    let lefts = ones.as_slice();
    let rights = others.as_slice();
    if lefts.len() != rights.len() {
        return false;
    }
    for (number, one) in lefts.iter().enumerate() {
        if !same_kind(one, &rights[number]) {
            return false;
        }
    }
    true
}
