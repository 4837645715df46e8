// What a line on files is to do, once its expressions are asked.
ghost use Rattle.script_text.specs.declared.line.Line.TheVariants as Line;
ghost use Rattle.script_run.specs.Fills.{PreparesLine};

use crate::broken::Broken;
use crate::filling::{filled, lined, two};
use crate::kept::Kept;
use crate::lines::{Prepared, does};
use bf_machine::{Command, Machine};
use desk_base::Bytes;
use rel_lexer::Text;
use script_text::{Template, TemplateList};
use std::alloc::Global;

/// A file of lines is written.
pub(crate) fn creates<M: Machine>(
    alloc: Global,
    machine: &mut M,
    kept: &Kept,
    lines: &TemplateList,
) -> Result<Prepared, Broken>
    ensures { PreparesLine kept.now.scene (Line.Create lines.now) (M.told machine.old) result (M.told machine.new) }
{
    let text = lined(alloc, machine, kept, lines)?;
    let path = Text::from_str(alloc, "__createfile")?;
    let content = Bytes::from_slice(alloc, text.as_str().as_bytes())?;
    Ok(does(Command::Write(path, content)))
}

/// A line is appended to a file.
pub(crate) fn appends<M: Machine>(
    alloc: Global,
    machine: &mut M,
    kept: &Kept,
    template: &Template,
) -> Result<Prepared, Broken>
    ensures { PreparesLine kept.now.scene (Line.Append template.now) (M.told machine.old) result (M.told machine.new) }
{
    let mut text = filled(alloc, machine, kept, template)?;
    text.push("\n")?;
    let path = Text::from_str(alloc, "__appendfile")?;
    let content = Bytes::from_slice(alloc, text.as_str().as_bytes())?;
    Ok(does(Command::Append(path, content)))
}

/// A file is deleted.
pub(crate) fn deletes<M: Machine>(
    alloc: Global,
    machine: &mut M,
    kept: &Kept,
    path: &Template,
) -> Result<Prepared, Broken>
    ensures { PreparesLine kept.now.scene (Line.Delete path.now) (M.told machine.old) result (M.told machine.new) }
{
    let path = filled(alloc, machine, kept, path)?;
    Ok(does(Command::Delete(path)))
}

/// A folder is made.
pub(crate) fn makes<M: Machine>(
    alloc: Global,
    machine: &mut M,
    kept: &Kept,
    path: &Template,
) -> Result<Prepared, Broken>
    ensures { PreparesLine kept.now.scene (Line.FolderCreate path.now) (M.told machine.old) result (M.told machine.new) }
{
    let path = filled(alloc, machine, kept, path)?;
    Ok(does(Command::MakeFolder(path)))
}

/// A folder is removed.
pub(crate) fn removes<M: Machine>(
    alloc: Global,
    machine: &mut M,
    kept: &Kept,
    path: &Template,
) -> Result<Prepared, Broken>
    ensures { PreparesLine kept.now.scene (Line.FolderDelete path.now) (M.told machine.old) result (M.told machine.new) }
{
    let path = filled(alloc, machine, kept, path)?;
    Ok(does(Command::DropFolder(path)))
}

/// A file is copied.
pub(crate) fn copies<M: Machine>(
    alloc: Global,
    machine: &mut M,
    kept: &Kept,
    from: &Template,
    to: &Template,
) -> Result<Prepared, Broken>
    ensures { PreparesLine kept.now.scene (Line.Copy from.now to.now) (M.told machine.old) result (M.told machine.new) }
{
    let both = two(alloc, machine, kept, from, to)?;
    Ok(does(Command::Copy(both.first, both.second)))
}

/// A file is moved.
pub(crate) fn moves<M: Machine>(
    alloc: Global,
    machine: &mut M,
    kept: &Kept,
    from: &Template,
    to: &Template,
) -> Result<Prepared, Broken>
    ensures { PreparesLine kept.now.scene (Line.Move from.now to.now) (M.told machine.old) result (M.told machine.new) }
{
    let both = two(alloc, machine, kept, from, to)?;
    Ok(does(Command::Move(both.first, both.second)))
}
