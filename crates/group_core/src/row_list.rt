// The rows of a computer, in strictly ascending byte order of their properties.
ghost use Rattle.std.specs.Prelude.{◌≡◌, ◌+◌, ◌<◌, ◌≤◌, length, IsOk, OnOk, OnErr, option_copied, vec_capacity};
ghost use Rattle.std.specs.Ordering.{nat_cmp};
ghost use Rattle.std.specs.Cmp.Lexicographic.{slice_cmp};
ghost use Rattle.group_core.specs.Lists.{Ascends, HasPlace, one_of, row_name, with_all, with_one};

use crate::kept_row::KeptRow;
use std::alloc::AllocError;
use std::cmp::Ordering;

/// The row of this property.
pub(crate) fn row_of<'a>(rows: &'a [KeptRow], property: &str) -> Option<&'a KeptRow>
    requires { Ascends row_name rows.now }
    ensures { option_copied result ≡ one_of row_name property.now rows.now }
{
    match place_of(rows, property) {
        Ok(place) => Some(&rows[place]),
        Err(_) => None,
    }
}

/// Puts a row, in the place of that of its property. Where there is room it takes no memory, whose want is the error; then nothing has
/// changed.
pub(crate) fn put_row(rows: &mut Vec<KeptRow>, row: KeptRow) -> Result<(), AllocError>
    requires { Ascends row_name rows.old.items }
    ensures ok { OnOk result (rows.new.items ≡ with_one row_name row rows.old.items) }
    ensures err { OnErr result (rows.new.items ≡ rows.old.items) }
    ensures room { length rows.old.items < vec_capacity rows.old → IsOk result }
    ensures capacity { vec_capacity rows.old ≤ vec_capacity rows.new }
{
    match place_of(rows.as_slice(), row.row.property.as_str()) {
        Ok(place) => {
            rows[place] = row;
            Ok(())
        }
        Err(place) => Ok(rows.insert(place, row)?),
    }
}

/// Puts rows for which there is room.
pub(crate) fn put_all(rows: &mut Vec<KeptRow>, fresh: Vec<KeptRow>)
    requires ascends { Ascends row_name rows.old.items }
    requires room { length rows.old.items + length fresh.items ≤ vec_capacity rows.old }
    ensures { rows.new.items ≡ with_all row_name fresh.items rows.old.items }
{
    for row in fresh {
        // there is room
        let _ = put_row(rows, row);
    }
}

/// The place of the row of this property, or the one where it would stand.
fn place_of(rows: &[KeptRow], property: &str) -> Result<usize, usize>
    requires { Ascends row_name rows.now }
    ensures { HasPlace row_name rows.now property.now result }
{
    rows.binary_search_by(|kept| property_order(kept, property))
}

/// The order of the row's property to this one, byte by byte.
fn property_order(kept: &KeptRow, property: &str) -> Ordering
    ensures { result ≡ slice_cmp nat_cmp kept.now.row.property property.now }
{
    kept.row.property.as_str().cmp(property)
}
