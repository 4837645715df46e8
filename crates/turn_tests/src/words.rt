// The words for what becomes of a report.
use report_text::Verdict;
use server_text::Reply;
use std::test::Fail;
use turn_lines::{reply_word, verdict_word};

#[test]
fn each_verdict_has_its_word(rt: HostRuntime) -> Result<(), Fail> {
    let rows = [
        (Verdict::Stored, "stored"),
        (Verdict::Carried, "carried"),
        (Verdict::Conflict([0; 32]), "conflict"),
        (Verdict::Full(10000), "full"),
    ];
    for (verdict, wanted) in rows {
        assert_eq!(rt; verdict_word(&verdict), wanted);
    }
    Ok(())
}

#[test]
fn replies_to_reports_have_words(rt: HostRuntime) -> Result<(), Fail> {
    assert_eq!(rt; reply_word(&Reply::Ok), Some("ok"));
    assert_eq!(rt; reply_word(&Reply::Again), Some("again"));
    assert_eq!(rt; reply_word(&Reply::Conflict([0; 32])), Some("conflict"));
    assert_eq!(rt; reply_word(&Reply::Full(2000000)), Some("full"));
    assert_eq!(rt; reply_word(&Reply::NoSuch), None);
    Ok(())
}
