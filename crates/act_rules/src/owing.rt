ghost use Rattle.std.specs.Prelude.{IsTrue, ◌↔◌};
ghost use Rattle.desk_base.specs.Moments.{IsMoment};
ghost use Rattle.act_rules.specs.Owed.{IsOwed};

use crate::rows::Rows;
use crate::rule::Rules;
use crate::tally::Tally;

/// Whether a run is owed after these rows. It counts them all: where a tally is kept, `Tally::owed` answers the same at
/// once. The moment is in seconds since 1970-01-01 00:00:00 UTC, from 0 to 2^37.
pub fn owed(rules: &Rules, rows: &Rows, moment: i64) -> bool
    requires { IsMoment moment }
    ensures { IsTrue result ↔ IsOwed rules.now rows.now.rows moment }
{
    Tally::of(rules.retries, rows).owed(rules, rows.as_slice().last(), moment)
}
