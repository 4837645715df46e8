// Texts that are read as what an agent saved, or refused at a line. The wanted answers are those of the format's description.
ghost use Rattle.agent_text.specs.SavedTexts.{IsSaved};

use agent_text::{
    Made, MadeReports, Saved, SavedError, a_saved_text_is_read_again, fill_saved, one_saved,
    read_saved, saved_size, saved_texts_are_short,
};
use desk_base::{Bytes, Room};
use line_forms::read_name;
use rel_lexer::Text;
use std::alloc::Global;
use std::mem::drop;
use std::test::Fail;

/// The text that is saved of what was read. None is want of memory.
fn written(alloc: Global, saved: &Saved) -> Option<Bytes>
    requires { IsSaved saved.now }
{
    saved_texts_are_short();
    let made = Made::new(alloc);
    let reports = MadeReports {
        reports: saved.reports.as_slice(),
        made: &made,
    };
    let size = saved_size(&saved.histories, reports)?;
    let mut room = Room::with_capacity(alloc, size).ok()?;
    fill_saved(
        &saved.computer,
        saved.next,
        &saved.histories,
        reports,
        &mut room,
    );
    Some(room.into_bytes())
}

/// Appends the text that is saved of a copy of what was read. None is want of memory.
fn copied(alloc: Global, saved: &Saved, out: &mut Bytes) -> Option<()>
    requires { IsSaved saved.now }
{
    let copy = saved.copy().ok()?;
    let text = written(alloc, &copy);
    drop(copy);
    out.extend(text?.as_slice()).ok()
}

/// Appends what the agent of pc1 reads in this text: the text that it would save, or the line at which it is bad.
fn read(alloc: Global, text: &[u8], out: &mut Bytes) -> Option<()> {
    let computer = Text::from_str(alloc, read_name(b"pc1")?).ok()?;
    match read_saved(alloc, &computer, text) {
        Ok(saved) => {
            let done = copied(alloc, &saved, out);
            drop(saved);
            done
        }
        Err(SavedError::BadLine(line)) => {
            let said = format!(in alloc; "line {line}").ok()?;
            out.extend(said.as_bytes()).ok()
        }
        Err(SavedError::Memory) => None,
    }
}

/// Whether the agent of pc1 reads this text so.
fn is_read_as(alloc: Global, text: &[u8], wanted: &[u8]) -> Option<bool> {
    let mut out = Bytes::new(alloc);
    read(alloc, text, &mut out)?;
    Some(out.as_slice() == wanted)
}

/// Texts of form Two, which are written again as they are.
const SAME: [&str; 6] = [
    "agent 2\ncomputer pc1\nnext 1\naction 7\nattempt 1 1000 fixed 1000 1005 0 - -\nattempt 2 1060 interrupted 1070 1080 - - -\nattempt 3 1090 running - - - - -\nend\n",
    "agent 2\ncomputer pc1\nnext 1\nend\n",
    "agent 2\ncomputer pc1\nnext 9007199254740992\nend\n",
    "agent 2\ncomputer pc1\nnext 3\naction 7\nattempt 1 1000 failed 1000 - - 0 3\nattempt 2 1060 running - - - - -\npending 7\nreport 2\ncomputer pc1\nseq 1\nrow 7 1 failed 1000 1000 - 0 3\nend\nend\n",
    "agent 2\ncomputer pc1\nnext 9\naction 7\nattempt 1 1000 failed 1000 1010 -3 - -\nattempt 2 1060 interrupted 1070 - - - -\nattempt 3 1060 fixed 1070 1080 0 - -\naction 8\nattempt 1 0 failed 137438953472 - - 4294967295 0\npending 7\npending 8\nend\n",
    "agent 2\ncomputer pc1\nnext 4\nreport 1\ncomputer pc1\nseq 1\nrow 7 1 fixed 1000 1010\nend\nreport 2\ncomputer pc1\nseq 3\nend\nend\n",
];

/// How many of these texts are read as the second ones, up to the first that isn't.
fn read_so(alloc: Global, rows: &[(&str, &str)]) -> Option<usize> {
    for (at, (text, wanted)) in rows.iter().enumerate() {
        if !is_read_as(alloc, text.as_bytes(), wanted.as_bytes())? {
            return Some(at);
        }
    }
    Some(rows.len())
}

#[test]
fn texts_are_written_again(rt: HostRuntime) -> Result<(), Fail> {
    one_saved();
    a_saved_text_is_read_again();
    for text in SAME {
        let same = is_read_as(rt.alloc(), text.as_bytes(), text.as_bytes());
        assert_eq!(rt; same, Some(true));
    }
    Ok(())
}

/// A text of form One, and the same in form Two.
const OLD: &str =
    "agent 1\ncomputer pc1\nnext 2\naction 7\nattempt 1 1000 failed 1000 -\nattempt 2 1060 fixed 1070 1080\npending 7\nreport 1\ncomputer pc1\nseq 1\nrow 7 1 failed 1000 1000\nend\nend\n";

const NEW: &str =
    "agent 2\ncomputer pc1\nnext 2\naction 7\nattempt 1 1000 failed 1000 - - - -\nattempt 2 1060 fixed 1070 1080 - - -\npending 7\nreport 1\ncomputer pc1\nseq 1\nrow 7 1 failed 1000 1000\nend\nend\n";

#[test]
fn an_old_text_is_written_anew(rt: HostRuntime) {
    assert_eq!(rt; read_so(rt.alloc(), &[(OLD, NEW)]), Some(1));
}

/// What stands behind the first three lines, and the line that is bad.
const BAD: [(&str, &str); 24] = [
    ("", "line 4"),
    ("end", "line 4"),
    ("end\nmore\n", "line 5"),
    ("action 0\n", "line 4"),
    ("action 7\nend\n", "line 5"),
    ("action 7\nattempt 2 0 fixed 0 - - - -\n", "line 5"),
    ("action 7\nattempt 1 0 running - 5 - - -\n", "line 5"),
    (
        "action 7\nattempt 1 0 running - - - - -\nattempt 2 0 fixed 0 - - - -\n",
        "line 6",
    ),
    ("action 7\nattempt 1 0 running - - 0 - -\n", "line 5"),
    ("action 7\nattempt 1 0 fixed 0 - - 0 1\n", "line 5"),
    ("action 7\nattempt 1 0 failed 0 - - 0 -\n", "line 5"),
    ("action 7\nattempt 1 0 failed 0 - - - 1\n", "line 5"),
    ("action 7\nattempt 1 0 interrupted 0 - 0 - -\n", "line 5"),
    ("action 7\nattempt 1 0 fixed 0 -\n", "line 5"),
    (
        "action 7\nattempt 1 0 fixed 0 - - - -\naction 7\n",
        "line 6",
    ),
    (
        "action 7\nattempt 1 0 fixed 0 - - - -\naction 6\n",
        "line 6",
    ),
    ("pending 7\n", "line 4"),
    (
        "action 7\nattempt 1 0 fixed 0 - - - -\npending 7\npending 7\n",
        "line 7",
    ),
    ("report 2\ncomputer pc2\n", "line 5"),
    ("report 2\ncomputer pc1\nseq 3\n", "line 6"),
    (
        "report 2\ncomputer pc1\nseq 1\nrow 7 1 fixed 0 0 - - -\nrow 6 1 fixed 0 0 - - -\n",
        "line 8",
    ),
    (
        "report 2\ncomputer pc1\nseq 1\nend\nreport 2\ncomputer pc1\nseq 1\n",
        "line 10",
    ),
    ("report 2\ncomputer pc1\nseq 2\nend\nreport 2\n", "line 8"),
    (
        "report 2\ncomputer pc1\nseq 1\nrow 7 1 failed 0 0 - - -\n",
        "line 7",
    ),
];

/// Whether the text with these lines behind the first three is read so.
fn ends_so(alloc: Global, rest: &str, wanted: &str) -> Option<bool> {
    let text = format!(in alloc; "agent 2\ncomputer pc1\nnext 3\n{rest}").ok()?;
    is_read_as(alloc, text.as_bytes(), wanted.as_bytes())
}

#[test]
fn the_first_bad_line_is_told(rt: HostRuntime) -> Result<(), Fail> {
    for (rest, wanted) in BAD {
        let same = ends_so(rt.alloc(), rest, wanted);
        assert_eq!(rt; same, Some(true));
    }
    Ok(())
}

/// First lines that are bad, and which of them is.
const BAD_FIRST: [(&str, &str); 9] = [
    ("", "line 1"),
    ("agent 3\n", "line 1"),
    ("agent 2\ncomputer pc2\n", "line 2"),
    ("agent 2\ncomputer \n", "line 2"),
    ("agent 2\ncomputer pc1\nnext 0\n", "line 3"),
    ("agent 2\ncomputer pc1\nnext 9007199254740993\n", "line 3"),
    (
        "agent 1\ncomputer pc1\nnext 2\naction 7\nattempt 1 0 fixed 0 - - - -\n",
        "line 5",
    ),
    ("agent 1\ncomputer pc1\nnext 2\nreport 2\n", "line 4"),
    ("agent 2\ncomputer pc1\nnext 1\nreport 2\n", "line 4"),
];

#[test]
fn the_first_lines_are_looked_at(rt: HostRuntime) {
    assert_eq!(rt; read_so(rt.alloc(), &BAD_FIRST), Some(9));
}

/// A report of 501 rows.
fn long_report(alloc: Global) -> Option<String> {
    let first = "agent 2\ncomputer pc1\nnext 3\nreport 1\ncomputer pc1\nseq 1\n";
    let mut text = String::from_str(alloc, first).ok()?;
    for action in 1..502 {
        let line = format!(in alloc; "row {action} 1 fixed 0 0\n").ok()?;
        text.push_str(line.as_str()).ok()?;
    }
    Some(text)
}

/// 1,001 reports.
fn many_reports(alloc: Global) -> Option<String> {
    let mut text = String::from_str(alloc, "agent 2\ncomputer pc1\nnext 2000\n").ok()?;
    for seq in 1..1002 {
        let lines = format!(in alloc; "report 1\ncomputer pc1\nseq {seq}\nend\n").ok()?;
        text.push_str(lines.as_str()).ok()?;
    }
    Some(text)
}

#[test]
fn the_limits_are_kept(rt: HostRuntime) -> Result<(), Fail> {
    let alloc = rt.alloc();
    let rows = long_report(alloc).ok_or("no memory")?;
    assert_eq!(rt; is_read_as(alloc, rows.as_bytes(), b"line 507"), Some(true));
    let reports = many_reports(alloc).ok_or("no memory")?;
    assert_eq!(rt;
        is_read_as(alloc, reports.as_bytes(), b"line 4004"),
        Some(true)
    );
    Ok(())
}
