use desk_base::{Bytes, Room};
use line_forms::{
    Fields, LineForm, Lines, after_word, fill_content, fill_digest, fill_ended_line, fill_field,
    first_field, last_part, one_first_bad_line, read_content, read_digest, read_i64, read_id,
    read_moment, read_name, read_number, read_offset, read_part, read_path, read_rest, read_u32,
    read_version, version_numbers, write_content, write_digest, write_field, write_line,
    write_number, write_signed_number,
};
use std::test::Fail;

#[test]
fn numbers_end_at_their_bounds(rt: HostRuntime) {
    let ids = ["0", "1", "9007199254740992", "9007199254740993", "01", "+1"].map(|text| read_id(
        text.as_bytes(),
    ));
    assert_eq!(rt; ids, [None, Some(1), Some(1 << 53), None, None, None]);
    let moments = ["137438953472", "137438953473", "-1"].map(|text| read_moment(text.as_bytes()));
    assert_eq!(rt; moments, [Some(1 << 37), None, None]);
    let offsets = ["-840", "841", "-0"].map(|text| read_offset(text.as_bytes()));
    assert_eq!(rt; offsets, [Some(-840), None, None]);
    assert_eq!(rt; read_number(b"10", 9), None);
    assert_eq!(rt; read_u32(b"4294967295"), Some(u32::MAX));
    assert_eq!(rt; read_i64(b"-9223372036854775808"), Some(i64::MIN));
}

#[test]
fn texts_are_read_as_they_are(rt: HostRuntime) -> Result<(), Fail> {
    assert_eq!(rt; read_name(b"agentd-1.2_x"), Some("agentd-1.2_x"));
    assert_eq!(rt; read_rest(b"a b"), Some("a b"));
    assert_eq!(rt; read_content(b"| a  b"), Some("a  b"));
    let paths = ["/", "/a b/.b/c..", "a", "//", "/a/", "a/./b"].map(|text| read_path(
        text.as_bytes(),
    ).is_some());
    assert_eq!(rt; paths, [true, true, true, false, false, false]);
    assert_eq!(rt; read_part(b"a/b"), None);
    assert_eq!(rt; last_part(b"/a/b").ok_or("no slash")?.rest, b"b".as_slice());
    assert_eq!(rt; read_version(b"01.2"), Some("01.2"));
    let numbers = version_numbers(b"01.2.0.4294967295").ok_or("no version")?;
    assert_eq!(rt; numbers.as_slice(), [1, 2, 0, 4294967295].as_slice());
    Ok(())
}

#[test]
fn fields_are_taken_in_turn(rt: HostRuntime) -> Result<(), Fail> {
    assert_eq!(rt;
        first_field(b"row  7").ok_or("no field")?.rest,
        b" 7".as_slice()
    );
    assert_eq!(rt;
        after_word(b"title  a b", b"title"),
        Some(b" a b".as_slice())
    );
    let mut fields = Fields::new(b"7 x");
    assert_eq!(rt; fields.take_field(), Some(b"7".as_slice()));
    assert_eq!(rt; fields.take_field(), Some(b"x".as_slice()));
    assert_eq!(rt; fields.is_over(), true);
    Ok(())
}

/// The SHA-256 of nothing, by FIPS 180-4.
const DIGEST: &str = "e3b0c44298fc1c149afbf4c8996fb92427ae41e4649b934ca495991b7852b855";

#[test]
fn fields_and_lines_are_written(rt: HostRuntime) -> Result<(), Fail> {
    let alloc = rt.alloc();
    let mut out = Bytes::new(alloc);
    write_content(alloc, b"a b", &mut out)?;
    write_line(alloc, b"", &mut out)?;
    write_field(alloc, b"row", &mut out)?;
    write_number(u64::MAX, &mut out)?;
    write_signed_number(-840, &mut out)?;
    assert_eq!(rt;
        out.as_slice(),
        b"| a b\nrow 18446744073709551615-840".as_slice()
    );
    let mut digits = Bytes::new(alloc);
    write_digest(
        &read_digest(DIGEST.as_bytes()).ok_or("no digest")?,
        &mut digits,
    )?;
    assert_eq!(rt; digits.as_slice(), DIGEST.as_bytes());
    Ok(())
}

#[test]
fn fields_and_lines_are_written_into_given_room(rt: HostRuntime) -> Result<(), Fail> {
    let digest = read_digest(DIGEST.as_bytes()).ok_or("no digest")?;
    let mut room = Room::with_capacity(rt.alloc(), 10)?;
    fill_content(b"a b", &mut room);
    fill_ended_line(b"", &mut room);
    fill_field(b"row", &mut room);
    assert_eq!(rt; room.as_slice(), b"| a b\nrow ".as_slice());
    let mut digits = Room::with_capacity(rt.alloc(), 64)?;
    fill_digest(&digest, &mut digits);
    assert_eq!(rt; digits.as_slice(), DIGEST.as_bytes());
    Ok(())
}

#[test]
fn a_cursor_goes_over_lines(rt: HostRuntime) {
    let mut lines = Lines::new(b"world\nname pc1\nend\n");
    assert_eq!(rt; lines.take_exactly(b"name pc1"), false);
    assert_eq!(rt; lines.take_exactly(b"world"), true);
    assert_eq!(rt; lines.rest_ahead(b"name"), Some(b"pc1".as_slice()));
    lines.skip_line();
    assert_eq!(rt; lines.line_ahead(), Some(b"end".as_slice()));
    assert_eq!(rt; lines.number(), 3);
    assert_eq!(rt; lines.is_over(), false);
}

/// The one text `end`.
struct End;

impl LineForm for End {
    ghost use Rattle.std.specs.Prelude.{◌≡◌, [], ◌∷◌, codes};

    ghost are_good = { λ lines. lines ≡ codes "end" ∷ [] };
}

#[test]
fn the_law_holds_at_a_form() {
    one_first_bad_line::<End>();
}
