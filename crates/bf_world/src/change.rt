ghost use Rattle.std.specs.Prelude.{◌≡◌, ◌++◌, ◌∷◌, [], ◌+◌, ◌^◌, ◌<◌, length, All, OnOk, OnErr, IfOk};
ghost use Rattle.std.specs.Map.{values_of};
ghost use Rattle.line_forms.specs.Paths.{IsPath};
ghost use Rattle.line_forms.specs.Versions.{IsVersion};
ghost use Rattle.bf_world.specs.Sound.{IsSoundNode, IsSoundProgram};
ghost use Rattle.desk_base.specs.Moments.{IsMoment};
ghost use Rattle.bf_world.specs.Maps.{put, without};
ghost use Rattle.bf_world.specs.Places.{with_node, without_node};
ghost use Rattle.bf_world.specs.Done.{given};

use crate::{Node, PackageRow, Program, Run, SettingValue, TextMap, World};
use rel_lexer::Text;
use std::alloc::AllocError;

impl World {
    /// Puts something at a path. An error is want of memory, here and below, and then nothing is changed.
    pub fn set_node(&mut self, path: &str, node: Node) -> Result<(), AllocError>
        requires path { IsPath path.now }
        requires sound { IsSoundNode node }
        ensures ok { OnOk result (self.new ≡ with_node path.now node self.old) }
        ensures err { OnErr result (self.new ≡ self.old) }
    {
        self.paths.put(self.alloc, path, node)
    }

    /// Takes away what is at a path.
    pub(crate) fn remove_node(&mut self, path: &str)
        ensures { self.new ≡ without_node path.now self.old }
    {
        self.paths.remove(path);
    }

    pub fn set_setting(&mut self, name: &str, setting: SettingValue) -> Result<(), AllocError>
        requires { IsMoment setting.date }
        ensures ok { OnOk result (self.new ≡ record self.old { settings = put name.now setting self.old.settings }) }
        ensures err { OnErr result (self.new ≡ self.old) }
    {
        self.settings.put(self.alloc, name, setting)
    }

    pub(crate) fn remove_setting(&mut self, name: &str)
        ensures { self.new ≡ record self.old { settings = without name.now self.old.settings } }
    {
        self.settings.remove(name);
    }

    pub fn set_package(&mut self, name: &str, version: Text) -> Result<(), AllocError>
        requires { IsVersion version }
        ensures ok { OnOk result (self.new ≡ record self.old { packages = put name.now version self.old.packages }) }
        ensures err { OnErr result (self.new ≡ self.old) }
    {
        self.packages.put(self.alloc, name, version)
    }

    pub fn set_process(&mut self, name: &str) -> Result<(), AllocError>
        ensures ok { OnOk result (self.new ≡ record self.old { processes = put name.now tt self.old.processes }) }
        ensures err { OnErr result (self.new ≡ self.old) }
    {
        self.processes.put(self.alloc, name, ())
    }

    pub fn set_program(&mut self, line: &str, program: Program) -> Result<(), AllocError>
        requires { IsSoundProgram program }
        ensures ok { OnOk result (self.new ≡ record self.old { programs = put line.now program self.old.programs }) }
        ensures err { OnErr result (self.new ≡ self.old) }
    {
        self.programs.put(self.alloc, line, program)
    }

    /// Starts a program, with these packages afterwards.
    pub(crate) fn add_started(
        &mut self,
        run: Run,
        packages: TextMap<Text>,
    ) -> Result<(), AllocError>
        requires versions { All IsVersion (values_of packages) }
        requires room { length self.old.started + 1 < 2 ^ 32 }
        ensures ok { OnOk result (self.new ≡ record self.old { packages = packages; started = self.old.started ++ run ∷ [] }) }
        ensures err { OnErr result (self.new ≡ self.old) }
    {
        self.started.push(run)?;
        self.packages = packages;
        Ok(())
    }

    /// The versions with those that are given.
    pub(crate) fn packages_with(&self, gives: &[PackageRow]) -> Result<TextMap<Text>, AllocError>
        ensures { IfOk result (λ versions. versions ≡ given gives.now self.now.packages) }
    {
        let mut packages = self.packages.copy(self.alloc)?;
        for row in gives {
            packages.put(self.alloc, row.name.as_str(), row.version.copy()?)?;
        }
        Ok(packages)
    }
}
