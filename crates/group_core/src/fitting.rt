ghost use Rattle.std.specs.Prelude.{◌≡◌, option_copied};
ghost use Rattle.group_core.specs.Keeping.{can_change, is_turned};
ghost use Rattle.group_core.specs.Lists.{Ascends, one_of, row_name};
ghost use Rattle.group_core.specs.Members.{fits, has_value, passes, row_passes};
ghost use Rattle.group_text.specs.Tests.{property_of};

use crate::kept_row::KeptRow;
use crate::row_list::row_of;
use group_text::{Group, Test};
use rel_lexer::Text;

/// Whether the rows of a computer fit a group: all of its tests hold of them, or any.
pub(crate) fn fits(group: &Group, rows: &[KeptRow]) -> bool
    requires { Ascends row_name rows.now }
    ensures { result ≡ fits (λ property. one_of row_name property rows.now) group.now }
{
    let tests = group.tests.as_slice();
    if group.any {
        return tests.iter().any(|test| passes(test, rows));
    }
    tests.iter().all(|test| passes(test, rows))
}

/// Whether a test holds of the row of its property.
fn passes(test: &Test, rows: &[KeptRow]) -> bool
    requires { Ascends row_name rows.now }
    ensures { result ≡ passes test.now (one_of row_name (property_of test.now) rows.now) }
{
    match row_of(rows, test.property().as_str()) {
        None => false,
        Some(kept) => row_passes(test, kept),
    }
}

/// Whether a test holds of a row.
fn row_passes(test: &Test, kept: &KeptRow) -> bool
    ensures { result ≡ row_passes test.now kept.now }
{
    match test {
        Test::Has(_, text) => has_value(kept, text),
        Test::Lacks(_, text) => !has_value(kept, text),
        Test::Error(_) => kept.row.error,
    }
}

/// Whether the row has this text among its values.
fn has_value(kept: &KeptRow, text: &Text) -> bool
    ensures { result ≡ has_value kept.now text.now }
{
    kept.row
        .values
        .as_slice()
        .iter()
        .any(|value| value.as_str() == text.as_str())
}

/// Whether a group can gain or lose the computer of these rows where newer ones replace some of them: one of its tests is turned, or it has
/// no test.
pub(crate) fn can_change(group: &Group, rows: &[KeptRow], newer: &[KeptRow]) -> bool
    requires { Ascends row_name rows.now }
    ensures { result ≡ can_change rows.now newer.now group.now }
{
    let tests = group.tests.as_slice();
    tests.is_empty() || tests.iter().any(|test| is_turned(test, rows, newer))
}

/// Whether a test comes to something else by the newer row of its property, if there is one, than by these rows.
fn is_turned(test: &Test, rows: &[KeptRow], newer: &[KeptRow]) -> bool
    requires { Ascends row_name rows.now }
    ensures { result ≡ is_turned rows.now newer.now test.now }
{
    let Some(row) = newer_of(newer, test.property()) else {
        return false;
    };
    passes(test, rows) != row_passes(test, row)
}

/// The row of this property among rows that need not be in order.
fn newer_of<'a>(newer: &'a [KeptRow], property: &Text) -> Option<&'a KeptRow>
    ensures { option_copied result ≡ one_of row_name property.now newer.now }
{
    newer
        .iter()
        .find(|kept| kept.row.property.as_str() == property.as_str())
}
