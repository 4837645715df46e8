ghost use Rattle.std.specs.Prelude.{◌≡◌, IsTrue, ◌↔◌, IfSome, IsSomeAnd};
ghost use Rattle.desk_base.specs.Moments.{IsMoment};
ghost use Rattle.act_rules.specs.Rows.{last_row, HasEnded};

use act_rules::{
    Hours, NO_NOTE, Outcome, Reapply, Row, Rows, Rules, Status, Tally, a_tally_counts_ended_rows,
    lawful_rows, lawful_rows_stay_lawful, owed, status, window,
};
use desk_base::LAST_MOMENT;
use std::test::Fail;

/// Rules without conditions.
fn free_rules() -> Rules {
    Rules {
        start: None,
        until: None,
        client: false,
        hours: None,
        days: [true; 7],
        retries: 0,
        wait: 0,
        reapply: Reapply::Never,
    }
}

fn is_moment(moment: i64) -> bool
    ensures { IsTrue result ↔ IsMoment moment }
{
    moment >= 0 && moment <= LAST_MOMENT
}

/// Whether the window holds, where the moment and the offset are in their ranges.
fn holds(rules: &Rules, moment: i64, offset: i64) -> bool {
    is_moment(moment) && offset >= -840 && offset <= 840 && window(rules, moment, offset)
}

/// Hours over midnight belong to the day on which they open, and a start may be in client time.
#[test]
fn windows_hold(rt: HostRuntime) {
    let mut monday = [false; 7];
    monday[0] = true;
    let night = Rules {
        hours: Some(Hours {
            from: 1320,
            to: 120,
        }),
        days: monday,
        ..free_rules()
    };
    let nights = [424799, 424800, 439140, 439200, 349200].map(|moment| holds(&night, moment, 0));
    assert_eq!(rt; nights, [false, true, true, false, false]);
    let client = Rules {
        start: Some(3600),
        client: true,
        ..free_rules()
    };
    assert_eq!(rt; holds(&client, 0, 60), true);
    assert_eq!(rt; holds(&client, 7199, -60), false);
    assert_eq!(rt; holds(&client, 7200, -60), true);
}

fn may_begin(rows: &Rows) -> bool
    ensures ended { IsTrue result → IfSome (last_row rows.now.rows) HasEnded }
    ensures running { ¬ IsTrue result → IsSomeAnd (last_row rows.now.rows) (λ row. row.end ≡ None) }
{
    match rows.as_slice().last() {
        None => true,
        Some(last) => last.end.is_some(),
    }
}

/// Begins an attempt, where none runs, with its room taken before.
fn begin(rows: &mut Rows) -> Option<()> {
    let count = rows.as_slice().len();
    if count > 100 || !may_begin(rows) {
        return None;
    }
    rows.reserve().ok()?;
    let row = Row {
        number: count as u32 + 1,
        begun: 0,
        end: None,
        cleared: None,
        note: NO_NOTE,
    };
    rows.push(row).unwrap();
    Some(())
}

/// Ends the attempt that runs.
fn end(rows: &mut Rows, moment: i64, outcome: Outcome) -> Option<()> {
    if !is_moment(moment) || may_begin(rows) {
        return None;
    }
    rows.end(moment, outcome, NO_NOTE);
    Some(())
}

fn may_clear(rows: &Rows) -> bool
    ensures ended { IsTrue result → IsSomeAnd (last_row rows.now.rows) HasEnded }
    ensures unmarked { IsTrue result → IsSomeAnd (last_row rows.now.rows) (λ row. row.cleared ≡ None) }
{
    match rows.as_slice().last() {
        None => false,
        Some(last) => last.end.is_some() && last.cleared.is_none(),
    }
}

/// Clears the last attempt, where it has ended and isn't cleared.
fn clear(rows: &mut Rows, moment: i64) -> Option<()> {
    if !is_moment(moment) || !may_clear(rows) {
        return None;
    }
    rows.clear(moment);
    Some(())
}

/// Whether a run is owed, if the kept tally and one made anew say the same.
fn owes(rules: &Rules, rows: &Rows, tally: &Tally, moment: i64) -> Option<bool> {
    if !is_moment(moment) {
        return None;
    }
    let kept = tally.owed(rules, rows.as_slice().last(), moment);
    if kept != owed(rules, rows, moment) {
        return None;
    }
    Some(kept)
}

/// One retry after ten seconds, and once more after a clearing: what is owed before and after each change.
fn worked_row(rows: &mut Rows) -> Option<[bool; 6]> {
    let rules = Rules {
        retries: 1,
        wait: 10,
        reapply: Reapply::Again { limit: 1, wait: 0 },
        ..free_rules()
    };
    let mut tally = Tally::of(1, rows);
    let first = owes(&rules, rows, &tally, 0)?;
    begin(rows)?;
    end(rows, 80, Outcome::Failed)?;
    tally.end(Outcome::Failed);
    let early = owes(&rules, rows, &tally, 89)?;
    let retry = owes(&rules, rows, &tally, 90)?;
    begin(rows)?;
    end(rows, 100, Outcome::Fixed)?;
    tally.end(Outcome::Fixed);
    let uncleared = owes(&rules, rows, &tally, 200)?;
    clear(rows, 150)?;
    let again = owes(&rules, rows, &tally, 150)?;
    begin(rows)?;
    let running = owes(&rules, rows, &tally, LAST_MOMENT)?;
    Some([first, early, retry, uncleared, again, running])
}

#[test]
fn a_worked_row_by_its_tally(rt: HostRuntime) -> Result<(), Fail> {
    let mut rows = Rows::new(rt.alloc());
    let answers = worked_row(&mut rows).ok_or("no rows")?;
    assert_eq!(rt; answers, [true, false, true, false, true, false]);
    assert_eq!(rt; rows.copy()?.as_slice().len(), 3);
    assert_eq!(rt; matches!(status(&rows), Status::Running), true);
    Ok(())
}

#[test]
fn laws_hold() {
    lawful_rows();
    lawful_rows_stay_lawful();
    a_tally_counts_ended_rows();
}
