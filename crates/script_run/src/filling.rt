// Filling the templates of a line.
ghost use Rattle.std.specs.Prelude.{◌≡◌, List, [], ◌∷◌, ◌++◌, MatchResult};
ghost use Rattle.script_text.specs.declared.template.Part2.{Part2};
ghost use Rattle.script_text.specs.declared.template.Template.{Template};
ghost use Rattle.script_run.specs.Fills.{AsksText, FillsParts, FillsTemplate, FillsTwo, FillsLines, FillsFile, asks_after};

use crate::Cause;
use crate::asking::say;
use crate::broken::Broken;
use crate::kept::Kept;
use bf_machine::Machine;
use rel_eval::OneText;
use rel_lexer::Text;
use script_text::{Part2, Template, TemplateList};
use std::alloc::Global;

/// The text of an expression.
fn said<M: Machine>(
    alloc: Global,
    machine: &mut M,
    kept: &Kept,
    expression: &Text,
) -> Result<Text, Broken>
    ensures { AsksText kept.now.scene expression.now (M.told machine.old) result (M.told machine.new) }
{
    match say(alloc, machine, kept, expression) {
        OneText::Text(text) => Ok(text),
        OneText::Error(kind, place) => Err(Broken::Failed(Cause::Relevance(kind, place))),
        OneText::Failed(_) => Err(Broken::Failed(Cause::MachineFault)),
        OneText::Memory => Err(Broken::Memory),
    }
}

/// Appends what a part stands for.
fn fill_part<M: Machine>(
    alloc: Global,
    machine: &mut M,
    kept: &Kept,
    part: &Part2,
    out: &mut Text,
) -> Result<(), Broken>
    ensures { (parts : List Part2) → FillsParts kept.now.scene (part.now ∷ parts) parts out.old
        (M.told machine.old) result (M.told machine.new) out.new }
{
    match part {
        Part2::Plain(plain) => append(out, plain.as_str()),
        Part2::Expression(expression) => {
            let text = said(alloc, machine, kept, expression)?;
            append(out, text.as_str())
        }
    }
}

fn append(out: &mut Text, more: &str) -> Result<(), Broken>
    ensures { MatchResult result (λ _. out.new ≡ out.old ++ more.now) (λ broken. broken ≡ Broken.Memory) }
{
    out.push(more)?;
    Ok(())
}

/// Appends the text of a template.
fn fill<M: Machine>(
    alloc: Global,
    machine: &mut M,
    kept: &Kept,
    template: &Template,
    out: &mut Text,
) -> Result<(), Broken>
    ensures { FillsParts kept.now.scene template.now.parts [] out.old (M.told machine.old) result (M.told machine.new) out.new }
{
    for part in template.parts.as_slice() {
        fill_part(alloc, machine, kept, part, out)?;
    }
    Ok(())
}

/// The text of a template.
pub(crate) fn filled<M: Machine>(
    alloc: Global,
    machine: &mut M,
    kept: &Kept,
    template: &Template,
) -> Result<Text, Broken>
    ensures { FillsTemplate kept.now.scene template.now (M.told machine.old) result (M.told machine.new) }
{
    let mut text = Text::from_str(alloc, "")?;
    fill(alloc, machine, kept, template, &mut text)?;
    Ok(text)
}

/// The texts of two templates.
#[derive(Drop)]
pub struct Both {
    pub(crate) first: Text,
    pub(crate) second: Text,
}

/// The texts of two templates, from the left.
pub(crate) fn two<M: Machine>(
    alloc: Global,
    machine: &mut M,
    kept: &Kept,
    first: &Template,
    second: &Template,
) -> Result<Both, Broken>
    ensures { FillsTwo kept.now.scene first.now second.now (M.told machine.old) result (M.told machine.new) }
{
    let first = filled(alloc, machine, kept, first)?;
    let second = filled(alloc, machine, kept, second)?;
    Ok(Both { first, second })
}

/// Appends a template's text as a line.
fn fill_line<M: Machine>(
    alloc: Global,
    machine: &mut M,
    kept: &Kept,
    template: &Template,
    out: &mut Text,
) -> Result<(), Broken>
    ensures { (templates : List Template) → FillsLines kept.now.scene (template.now ∷ templates) templates out.old
        (M.told machine.old) result (M.told machine.new) out.new }
{
    fill(alloc, machine, kept, template, out)?;
    append(out, "\n")
}

/// The texts of templates, each with a line end behind it.
pub(crate) fn lined<M: Machine>(
    alloc: Global,
    machine: &mut M,
    kept: &Kept,
    templates: &TemplateList,
) -> Result<Text, Broken>
    ensures { FillsFile kept.now.scene templates.now (M.told machine.old) result (M.told machine.new) }
{
    let mut text = Text::from_str(alloc, "")?;
    for template in templates.as_slice() {
        fill_line(alloc, machine, kept, template, &mut text)?;
    }
    Ok(text)
}

/// Whether a line is midway behind a template, where it was before it or not: an expression is asked by then.
pub(crate) fn midway_behind(midway: bool, template: &Template) -> bool
    ensures { result ≡ asks_after midway template.now.parts }
{
    for part in template.parts.as_slice() {
        if let Part2::Expression(_) = part {
            return true;
        }
    }
    midway
}
