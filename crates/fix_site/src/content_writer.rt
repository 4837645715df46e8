ghost use Rattle.std.specs.Prelude.{◌≡◌, ◌∷◌, ◌++◌, OnOk, map, decimal};
ghost use Rattle.line_forms.specs.Lines.{lines_text, ended_line};
ghost use Rattle.line_forms.specs.Contents as held;
ghost use Rattle.fix_site.specs.Contents.{fixlet_line, baseline_line, fixlet_rest, baseline_rest, relevance_line, component_line, success_line};

use crate::baseline::Baseline;
use crate::fixlet::{Fixlet, Success};
use crate::ids::Ids;
use crate::texts::Texts;
use desk_base::Bytes;
use line_forms::write_number;
use rel_lexer::Text;
use std::alloc::AllocError;

/// Appends a line: this word, which ends with a space, and a text.
pub(crate) fn write_rest(word: &[u8], text: &Text, out: &mut Bytes) -> Result<(), AllocError>
    ensures { OnOk result (out.new ≡ out.old ++ ended_line (word.now ++ text.now)) }
{
    out.extend(word)?;
    out.extend(text.as_str().as_bytes())?;
    out.push(b'\n')
}

/// Appends a line: this word, which ends with a space, and an id.
pub(crate) fn write_id(word: &[u8], id: u64, out: &mut Bytes) -> Result<(), AllocError>
    ensures { OnOk result (out.new ≡ out.old ++ ended_line (word.now ++ decimal id)) }
{
    out.extend(word)?;
    write_number(id, out)?;
    out.push(b'\n')
}

/// Appends the lines of a fixlet.
pub(crate) fn add_fixlet(fixlet: &Fixlet, out: &mut Bytes) -> Result<(), AllocError>
    ensures { OnOk result (out.new ≡ out.old
        ++ lines_text (fixlet_line fixlet.now.id ∷ fixlet_rest fixlet.now)) }
{
    write_id(b"fixlet ", fixlet.id, out)?;
    write_rest(b"title ", &fixlet.title, out)?;
    add_relevance(&fixlet.relevance, out)?;
    add_success(&fixlet.success, out)?;
    add_script(&fixlet.script, out)?;
    out.extend(b"end\n")
}

/// Appends the lines of a baseline.
pub(crate) fn add_baseline(baseline: &Baseline, out: &mut Bytes) -> Result<(), AllocError>
    ensures { OnOk result (out.new ≡ out.old
        ++ lines_text (baseline_line baseline.now.id ∷ baseline_rest baseline.now)) }
{
    write_id(b"baseline ", baseline.id, out)?;
    write_rest(b"title ", &baseline.title, out)?;
    add_relevance(&baseline.relevance, out)?;
    add_components(&baseline.components, out)?;
    out.extend(b"end\n")
}

fn add_relevance(questions: &Texts, out: &mut Bytes) -> Result<(), AllocError>
    ensures { OnOk result (out.new ≡ out.old ++ lines_text (map relevance_line questions.now)) }
{
    for question in questions.as_slice() {
        write_rest(b"relevance ", question, out)?;
    }
    Ok(())
}

fn add_success(success: &Success, out: &mut Bytes) -> Result<(), AllocError>
    ensures { OnOk result (out.new ≡ out.old ++ ended_line (success_line success.now)) }
{
    match success {
        Success::Lines => out.extend(b"success lines\n"),
        Success::Relevance => out.extend(b"success relevance\n"),
        Success::Clause(question) => write_rest(b"success clause ", question, out),
    }
}

fn add_script(script: &Texts, out: &mut Bytes) -> Result<(), AllocError>
    ensures { OnOk result (out.new ≡ out.old ++ lines_text (map held.content_line script.now)) }
{
    for line in script.as_slice() {
        add_script_line(line, out)?;
    }
    Ok(())
}

fn add_script_line(line: &Text, out: &mut Bytes) -> Result<(), AllocError>
    ensures { OnOk result (out.new ≡ out.old ++ ended_line (held.content_line line.now)) }
{
    if line.as_str().is_empty() {
        return out.extend(b"|\n");
    }
    write_rest(b"| ", line, out)
}

fn add_components(components: &Ids, out: &mut Bytes) -> Result<(), AllocError>
    ensures { OnOk result (out.new ≡ out.old ++ lines_text (map component_line components.now)) }
{
    for component in components.as_slice() {
        write_id(b"component ", *component, out)?;
    }
    Ok(())
}
