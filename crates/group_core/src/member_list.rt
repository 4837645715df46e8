// The names of members, in strictly ascending byte order.
ghost use Rattle.std.specs.Prelude.{◌≡◌, ◌<◌, length, vec_capacity};
ghost use Rattle.std.specs.Ordering.{nat_cmp};
ghost use Rattle.std.specs.Cmp.Lexicographic.{slice_cmp};
ghost use Rattle.group_core.specs.Keeping.{with_or_without};
ghost use Rattle.group_core.specs.Lists.{Ascends, HasPlace, itself, with_one, without};

use rel_lexer::Text;
use std::cmp::Ordering;

/// Puts a name, for which there is room, where it isn't there, or takes it out, where it is.
pub(crate) fn put_or_take(names: &mut Vec<Text>, name: Text, put: bool)
    requires ascends { Ascends itself names.old.items }
    requires room { length names.old.items < vec_capacity names.old }
    ensures { names.new.items ≡ with_or_without put name names.old.items }
{
    if put {
        put_name(names, name);
        return;
    }
    take_name(names, name.as_str());
}

/// Puts a name, for which there is room, where it isn't there.
fn put_name(names: &mut Vec<Text>, name: Text)
    requires ascends { Ascends itself names.old.items }
    requires room { length names.old.items < vec_capacity names.old }
    ensures { names.new.items ≡ with_one itself name names.old.items }
{
    match place_of(names.as_slice(), name.as_str()) {
        Ok(_) => {}
        Err(place) => {
            // there is room
            let _ = names.insert(place, name);
        }
    }
}

/// Takes a name out, where it is there.
fn take_name(names: &mut Vec<Text>, name: &str)
    requires { Ascends itself names.old.items }
    ensures { names.new.items ≡ without itself name.now names.old.items }
{
    match place_of(names.as_slice(), name) {
        Ok(place) => {
            names.remove(place);
        }
        Err(_) => {}
    }
}

/// The place of this name, or the one where it would stand.
fn place_of(names: &[Text], name: &str) -> Result<usize, usize>
    requires { Ascends itself names.now }
    ensures { HasPlace itself names.now name.now result }
{
    names.binary_search_by(|other| name_order(other, name))
}

/// The order of the two, byte by byte.
fn name_order(name: &Text, other: &str) -> Ordering
    ensures { result ≡ slice_cmp nat_cmp name.now other.now }
{
    name.as_str().cmp(other)
}
