use rel_lexer::Text;
use script_text::{Line, Part2, PartList, Script, Statement, Template, read_script};
use std::alloc::Global;
use std::test::Fail;

/// The script of these lines, which LFs separate.
fn script_of(alloc: Global, text: &str) -> Result<Script, Fail> {
    let mut lines = Vec::new(alloc);
    for line in text.split('\n') {
        lines.push(Text::from_str(alloc, line)?)?;
    }
    let lines = lines.as_slice();
    if lines.len() > 10_000 {
        return Err("too many lines".into());
    }
    match read_script(alloc, lines) {
        Ok(script) => Ok(script),
        Err(_) => Err("no script".into()),
    }
}

/// The texts of parts, those of expressions in brackets, each with a `|` behind it.
fn print(parts: &PartList, out: &mut Text) -> Result<(), Fail> {
    for part in parts.as_slice() {
        match part {
            Part2::Plain(text) => out.push(text.as_str())?,
            Part2::Expression(text) => {
                out.push("[")?;
                out.push(text.as_str())?;
                out.push("]")?;
            }
        }
        out.push("|")?;
    }
    Ok(())
}

/// The template of a line that has one, and is no `run`.
fn path_of(statement: &Statement) -> Option<&Template> {
    match statement {
        Statement::Do {
            what: Line::Delete(path),
            ..
        } => Some(path),
        _ => None,
    }
}

/// A copy of a script has its files, and its statements in their arms.
#[test]
fn a_script_is_a_tree(rt: HostRuntime) -> Result<(), Fail> {
    let script = script_of(
        rt.alloc(),
        "prefetch p sha1:da39a3ee5e6b4b0d3255bfef95601890afd80709 size:3 http://host/p sha256:ba7816bf8f01cfea414140de5dae2223b00361a396177a9cb410ff61f20015ad\nif {a}\nrun x\nelseif {b}\ncreatefile until E\nrun y\n E\nE\nelse\nwait z\nendif",
    )?;
    let copy = script.copy()?;
    let file = copy.prefetches.as_slice().first().ok_or("no file")?;
    assert_eq!(rt;
        (file.line, file.size, file.sha1[0], file.sha256[31]) == (1, 3, 0xda, 0xad),
        true
    );
    assert_eq!(rt; file.url.as_str(), "http://host/p");
    let Some(Statement::If { arms, other }) = copy.statements.as_slice().first() else {
        return Err("no if".into());
    };
    assert_eq!(rt; other.as_slice().len(), 1);
    let Some(arm) = arms.as_slice().last() else {
        return Err("no arm".into());
    };
    assert_eq!(rt; arm.line, 4);
    assert_eq!(rt; arm.test.as_str(), "b");
    let Some(
        Statement::Do {
            line,
            what: Line::Create(lines),
        },
    ) = arm.body.as_slice().first()
    else {
        return Err("no file is created".into());
    };
    assert_eq!(rt; *line, 5);
    assert_eq!(rt; lines.as_slice().len(), 2);
    Ok(())
}

/// Quotes around a path are taken off; of a doubled brace one is left.
#[test]
fn templates_have_parts(rt: HostRuntime) -> Result<(), Fail> {
    let rows = [
        ("delete a{{b{c}d}", "a{b|[c]|d}|"),
        ("delete {{{x}", "{|[x]|"),
        ("delete \"a b\"", "a b|"),
        ("delete \"", "\"|"),
        ("delete \"\"", ""),
        ("delete \"a\" {\"}\"}", "\"a\" |[\"}\"]|"),
        ("delete \"{\"\"}\"", "[\"\"]|"),
    ];
    for (line, parts) in rows {
        let script = script_of(rt.alloc(), line)?;
        let first = script.statements.as_slice().first().ok_or("no line")?;
        let path = path_of(first).ok_or("no path")?;
        let mut out = Text::from_str(rt.alloc(), "")?;
        print(&path.parts, &mut out)?;
        assert_eq!(rt; out.as_str(), parts);
    }
    Ok(())
}
