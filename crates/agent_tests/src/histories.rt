// Attempts that begin, end, are cleared and are reported.
use act_rules::{Note, Outcome, Row};
use agent_text::{Histories, changed_histories_can_be_saved};
use std::test::Fail;

/// The row of the first attempt, which began at 1000.
const FIRST: Row = Row {
    number: 1,
    begun: 1000,
    end: None,
    cleared: None,
    note: Note {
        exit: None,
        place: None,
    },
};

/// What is noted of a failure in line 3.
const FAILURE: Note = Note {
    exit: None,
    place: Some((0, 3)),
};

#[test]
fn an_attempt_goes_through_its_states(rt: HostRuntime) -> Result<(), Fail> {
    changed_histories_can_be_saved();
    let mut histories = Histories::new(rt.alloc());
    assert_eq!(rt; histories.rows(7).is_none(), true);
    histories.begin(rt.alloc(), 7, FIRST)?;
    histories.end(7, 1060, Outcome::Failed, FAILURE);
    histories.clear(7, 1070);
    let copy = histories.copy()?;
    let rows = copy.rows(7).ok_or("no rows")?;
    let row = rows.as_slice().first().ok_or("no row")?;
    assert_eq!(rt; matches!(row.end, Some((1060, Outcome::Failed))), true);
    assert_eq!(rt; row.cleared, Some(1070));
    let history = copy.as_slice().first().ok_or("no history")?;
    assert_eq!(rt; history.pending, true);
    histories.report(1);
    let history = histories.as_slice().first().ok_or("no history")?;
    let again = history.copy()?;
    assert_eq!(rt; again.pending, false);
    Ok(())
}
