ghost use Rattle.std.specs.Prelude.{OnOk};
ghost use Rattle.line_forms.specs.Versions.{IsVersion};
ghost use Rattle.bf_world.specs.Sound.{IsSoundProgram};
ghost use Rattle.world_text.specs.Drafts.{IsSoundPending};
ghost use Rattle.world_text.specs.Rows.{Adds, AddsFields, AddsGives};
ghost use Rattle.world_text.specs.Readings.{Takes, ContentAt, Gives};

use crate::draft::{Draft, Pending};
use crate::fault::Fault;
use crate::fields::read_versioned;
use crate::kind::{Kind, kind_of};
use crate::thing::add_thing;
use bf_world::{PackageRow, Program};
use line_forms::{first_field, read_content};
use rel_lexer::Text;
use std::alloc::Global;

impl Draft {
    /// Adds what a line between the head and `end` says. After an error the draft is not to be used.
    pub(crate) fn add_line(&mut self, alloc: Global, line: &[u8]) -> Result<(), Fault>
        requires { IsSoundPending self.old.pending }
        ensures adds { Takes (Adds self.old line.now) self.new result }
        ensures sound { OnOk result (IsSoundPending self.new.pending) }
    {
        if let Some(content) = read_content(line) {
            return self.add_content(content);
        }
        let Some(cut) = first_field(line) else {
            return Err(Fault::Bad);
        };
        let Some(kind) = kind_of(cut.first) else {
            return Err(Fault::Bad);
        };
        self.add_fields(alloc, kind, cut.rest)
    }

    /// Adds a line of content, behind the line of a file or another such line.
    fn add_content(&mut self, line: &str) -> Result<(), Fault>
        requires { IsSoundPending self.old.pending }
        ensures adds { Takes (ContentAt self.old line.now) self.new result }
        ensures sound { OnOk result (IsSoundPending self.new.pending) }
    {
        match &mut self.pending {
            Pending::File { content, .. } => {
                content.extend(line.as_bytes())?;
                content.push(b'\n')?;
                Ok(())
            }
            Pending::Nothing => Err(Fault::Bad),
            Pending::Program { .. } => Err(Fault::Bad),
        }
    }

    /// Adds what follows the word of a line of this kind.
    fn add_fields(&mut self, alloc: Global, kind: Kind, rest: &[u8]) -> Result<(), Fault>
        requires { IsSoundPending self.old.pending }
        ensures adds { Takes (AddsFields kind self.old rest.now) self.new result }
        ensures sound { OnOk result (IsSoundPending self.new.pending) }
    {
        if let Kind::Gives = kind {
            return self.add_gives(alloc, rest);
        }
        self.settle()?;
        match add_thing(alloc, kind, &mut self.world, rest) {
            Ok(pending) => {
                self.pending = pending;
                Ok(())
            }
            Err(fault) => Err(fault),
        }
    }

    /// Adds `gives VERSION REST`, behind the line of a program or another such line.
    fn add_gives(&mut self, alloc: Global, rest: &[u8]) -> Result<(), Fault>
        requires { IsSoundPending self.old.pending }
        ensures adds { Takes (AddsGives self.old rest.now) self.new result }
        ensures sound { OnOk result (IsSoundPending self.new.pending) }
    {
        let Some(package) = read_versioned(rest) else {
            return Err(Fault::Bad);
        };
        let name = Text::from_str(alloc, package.name)?;
        let version = Text::from_str(alloc, package.version)?;
        match &mut self.pending {
            Pending::Program { program, .. } => give(program, PackageRow { name, version }),
            Pending::Nothing => Err(Fault::Bad),
            Pending::File { .. } => Err(Fault::Bad),
        }
    }
}

/// Appends a package to those that a program gives.
fn give(program: &mut Program, row: PackageRow) -> Result<(), Fault>
    requires program { IsSoundProgram program.old }
    requires version { IsVersion row.version }
    ensures gives { Gives program.old row program.new result }
    ensures sound { OnOk result (IsSoundProgram program.new) }
{
    program.gives.push(row)?;
    Ok(())
}
