use act_rules::{NO_NOTE, Outcome};
use desk_base::{Bytes, Room};
use line_forms::{Fields, Lines};
use report_text::{
    Form, MOST_ROWS, ReportError, ReportRows, a_report_is_read_again, digest, fill_end, fill_note,
    fill_row_fields, is_note_at, one_report, outcome_field, read_attempt, read_end, read_form,
    read_outcome, read_report, read_row, read_row_fields, read_seq, report_size, reports_are_short,
    take_note, take_report, take_row, take_rows, write_report, write_row_fields,
};
use std::alloc::Global;
use std::test::Fail;

/// A report of form One.
const ONE: &[u8] = b"report 1\ncomputer pc1\nseq 1\nrow 7 1 fixed 1000 1010\nend\n";

/// A report of form Two.
const TWO: &[u8] = b"report 2\ncomputer pc1\nseq 2\nrow 7 2 failed 1060 1060 3 0 9\nend\n";

/// The number of the first bad line of a text, 0 where it is a report.
fn bad_line(alloc: Global, text: &[u8]) -> Option<u32> {
    match read_report(alloc, text) {
        Ok(_) => Some(0),
        Err(ReportError::BadReport(line)) => Some(line),
        Err(_) => None,
    }
}

#[test]
fn reports_are_read_to_their_first_bad_line(rt: HostRuntime) {
    let alloc = rt.alloc();
    let form_one = b"report 1\ncomputer pc1\nseq 1\nrow 7 1 fixed 1000 1010 - - -\nend\n";
    assert_eq!(rt; bad_line(alloc, form_one), Some(4));
    assert_eq!(rt;
        bad_line(alloc, b"report 1\ncomputer pc1\nseq 01\nend\n"),
        Some(3)
    );
    assert_eq!(rt;
        bad_line(alloc, b"report 1\ncomputer pc1\nseq 1\nend\nend\n"),
        Some(5)
    );
    assert_eq!(rt; bad_line(alloc, b"report 1\ncomputer pc1\nseq 1"), Some(3));
    assert_eq!(rt; bad_line(alloc, b""), Some(1));
}

/// The SHA-256 of the text of form One, by another program.
const DIGEST: [u8; 32] = [
    0xca, 0x8a, 0x73, 0x75, 0xb5, 0x60, 0xd8, 0xfb, 0x82, 0x20, 0x12, 0xab, 0x1e, 0x72, 0x14, 0x7b,
    0x17, 0x2b, 0x6f, 0x77, 0xad, 0xe2, 0xee, 0x68, 0xd8, 0xff, 0x63, 0xbf, 0xaf, 0x69, 0x80, 0x6e,
];

#[test]
fn a_report_is_written_as_it_was_read(rt: HostRuntime) -> Result<(), Fail> {
    let Ok(report) = read_report(rt.alloc(), ONE) else {
        return Err("no report".into());
    };
    let copy = report.copy()?;
    assert_eq!(rt; write_report(rt.alloc(), &copy)?.as_slice(), ONE);
    assert_eq!(rt; digest(rt.alloc(), &copy)? == DIGEST, true);
    Ok(())
}

#[test]
fn a_report_is_taken_from_a_longer_text(rt: HostRuntime) -> Result<(), Fail> {
    let mut lines = Lines::new(TWO);
    let Some(report) = take_report(rt.alloc(), &mut lines)? else {
        return Err("no report".into());
    };
    assert_eq!(rt; lines.number(), 6);
    assert_eq!(rt; take_report(rt.alloc(), &mut lines)?.is_none(), true);
    let rows = report.rows.into_vec();
    assert_eq!(rt;
        rows.as_slice().first().ok_or("no row")?.note.place,
        Some((0, 9))
    );
    assert_eq!(rt; ReportRows::from_vec(rows).as_slice().len(), 1);
    Ok(())
}

#[test]
fn fields_of_a_row_are_read(rt: HostRuntime) {
    assert_eq!(rt; read_attempt(b"0"), None);
    assert_eq!(rt; read_attempt(b"4294967295"), Some(u32::MAX));
    assert_eq!(rt;
        matches!(read_outcome(b"failed"), Some(Outcome::Failed)),
        true
    );
    assert_eq!(rt;
        matches!(read_end(b"fixed", b"5"), Some(Some((5, Outcome::Fixed)))),
        true
    );
    assert_eq!(rt; read_end(b"running", b"5").is_none(), true);
    assert_eq!(rt; matches!(read_form(b"report 2"), Some(Form::Two)), true);
    assert_eq!(rt; read_seq(b"seq 07"), None);
}

#[test]
fn a_note_is_taken_from_its_fields(rt: HostRuntime) {
    let mut fields = Fields::new(b"-1 0 9 more");
    let note = take_note(Form::Two, &mut fields);
    assert_eq!(rt; note.map(|note| note.exit), Some(Some(-1)));
    assert_eq!(rt; note.map(|note| note.place), Some(Some((0, 9))));
    assert_eq!(rt; fields.take_field(), Some(b"more".as_slice()));
    let failed = Some((1060, Outcome::Failed));
    assert_eq!(rt; note.map(|note| is_note_at(failed, note)), Some(true));
    assert_eq!(rt; is_note_at(failed, NO_NOTE), false);
    let mut half = Fields::new(b"1 - 9");
    assert_eq!(rt; take_note(Form::Two, &mut half).is_none(), true);
}

#[test]
fn rows_are_taken_as_far_as_they_go(rt: HostRuntime) -> Result<(), Fail> {
    let text = b"row 7 1 running 5 -\nrow 9 1 running 5 -\nrow 9 2 running 6 -\n";
    let mut lines = Lines::new(text);
    let rows = take_rows(rt.alloc(), Form::One, &mut lines)?;
    assert_eq!(rt; rows.as_slice().len(), 2);
    assert_eq!(rt; lines.number(), 3);
    assert_eq!(rt; report_size(MOST_ROWS), Some(56_608));
    Ok(())
}

#[test]
fn a_row_is_taken_from_its_fields(rt: HostRuntime) {
    let mut fields = Fields::new(b"7 2 failed 1060 1060 3 0 9 2");
    let row = take_row(Form::Two, &mut fields);
    assert_eq!(rt; row.map(|row| row.action), Some(7));
    assert_eq!(rt; fields.take_field(), Some(b"2".as_slice()));
    assert_eq!(rt; read_row(Form::One, b"row 7 1 running 0 -").is_some(), true);
    assert_eq!(rt;
        read_row_fields(Form::One, b"7 1 running 0 - -").is_none(),
        true
    );
    assert_eq!(rt; outcome_field(None), b"running".as_slice());
}

#[test]
fn fields_are_written_into_given_room(rt: HostRuntime) -> Result<(), Fail> {
    let mut room = Room::with_capacity(rt.alloc(), 7)?;
    fill_end(None, &mut room);
    fill_note(NO_NOTE, &mut room);
    assert_eq!(rt; room.as_slice(), b"- - - -".as_slice());
    Ok(())
}

#[test]
fn the_fields_of_a_row_are_written_into_given_room_and_behind_bytes(
    rt: HostRuntime,
) -> Result<(), Fail> {
    reports_are_short();
    let row = read_row_fields(Form::Two, b"7 2 failed 1060 1061 3 0 9").ok_or("no row")?;
    let mut room = Room::with_capacity(rt.alloc(), 108)?;
    fill_row_fields(Form::Two, &row, &mut room);
    assert_eq!(rt; room.as_slice(), b"7 2 failed 1060 1061 3 0 9".as_slice());
    let mut bytes = Bytes::from_slice(rt.alloc(), b"row ")?;
    write_row_fields(&row, &mut bytes)?;
    assert_eq!(rt;
        bytes.as_slice(),
        b"row 7 2 failed 1060 1061 3 0 9".as_slice()
    );
    Ok(())
}

#[test]
fn laws_hold() {
    one_report();
    a_report_is_read_again();
}
