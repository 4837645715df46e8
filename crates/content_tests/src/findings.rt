use crate::sites::sealed;
use desk_base::Bytes;
use fix_site::{a_site_has_few_lines, read_site};
use rel_lexer::Place;
use site_check::{
    PieceRefusal, QuestionFault, check_site, question_fault, refusal_of_site, say_finding,
};
use std::alloc::Global;
use std::test::Fail;

/// What is said of the site with these lines before the last.
fn said(alloc: Global, body: &[u8]) -> Result<Bytes, Fail> {
    let text = sealed(alloc, body)?;
    let mut out = Bytes::new(alloc);
    say_finding(alloc, &check_site(alloc, text.as_slice()), &mut out)?;
    Ok(out)
}

/// A site whose only question gives a number.
const BODY: &[u8] = b"site desk 1\nfixlet 1\ntitle T\nrelevance 1\nsuccess lines\nend\n";

#[test]
fn a_finding_is_said(rt: HostRuntime) -> Result<(), Fail> {
    let line = said(rt.alloc(), BODY)?;
    assert_eq!(rt;
        line.as_slice() == b"24 line 4 kind 14 (0..1)\n".as_slice(),
        true
    );
    Ok(())
}

/// The number and the place of a fault; all 0 where there is none.
fn shown(fault: Option<QuestionFault>) -> (u32, u32, u32) {
    let Some(
        QuestionFault {
            kind,
            place: Place { from, to },
        },
    ) = fault
    else {
        return (0, 0, 0);
    };
    (u32::from(kind.number()), from, to)
}

#[test]
fn a_question_asks_for_one_truth(rt: HostRuntime) -> Result<(), Fail> {
    let rows = [
        ("1 = 1", (0, 0, 0)),
        ("1", (14, 0, 1)),
        ("names of files of folder \"/\"", (13, 0, 28)),
        ("true and", (6, 8, 8)),
    ];
    for (text, wanted) in rows {
        assert_eq!(rt; shown(question_fault(rt.alloc(), text)?) == wanted, true);
    }
    Ok(())
}

/// The line of a refusal.
fn line(refusal: PieceRefusal) -> u32 {
    match refusal {
        PieceRefusal::Question { line, .. } | PieceRefusal::Script { line, .. } => line,
    }
}

/// The line of the first piece that is refused in the site of this text.
fn refused_line(alloc: Global, text: &[u8]) -> Result<Option<u32>, Fail> {
    let Ok(site) = read_site(alloc, text) else {
        return Err("no site".into());
    };
    a_site_has_few_lines();
    Ok(refusal_of_site(alloc, &site)?.map(line))
}

#[test]
fn a_site_that_was_read_is_refused(rt: HostRuntime) -> Result<(), Fail> {
    let text = sealed(rt.alloc(), BODY)?;
    assert_eq!(rt; refused_line(rt.alloc(), text.as_slice())?, Some(4));
    Ok(())
}
