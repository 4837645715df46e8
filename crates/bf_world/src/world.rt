ghost use Rattle.std.specs.Prelude.{◌≡◌, IfOk};
ghost use Rattle.desk_base.specs.Moments.{IsMoment};
ghost use Rattle.line_forms.specs.Versions.{IsVersion};
ghost use Rattle.line_forms.specs.Numbers.{IsOffset};
ghost use Rattle.bf_world.specs.Worlds.{bare};

use crate::{Node, Program, Run, SettingValue, TextMap};
use rel_lexer::Text;
use std::alloc::{AllocError, Global};
use std::marker::Model;

/// A described machine. Contracts see what is where on it.
#[derive(Drop)]
pub struct World {
    pub(crate) alloc: Global,
    pub(crate) name: Text,
    pub(crate) system: Text,
    pub(crate) version: Text,
    pub(crate) offset: i64,
    pub(crate) moment: i64,
    pub(crate) paths: TextMap<Node>,
    pub(crate) packages: TextMap<Text>,
    pub(crate) processes: TextMap<()>,
    pub(crate) settings: TextMap<SettingValue>,
    pub(crate) programs: TextMap<Program>,
    pub(crate) started: Vec<Run>,
}

impl Model for World {
    ghost use Rattle.bf_world.specs.Worlds.{WorldState};

    ghost Value = { WorldState };

    ghost use Rattle.bf_world.specs.Views.{world_state, IsSoundInside};

    ghost view = { world_state };

    ghost invariant = { IsSoundInside };
}

impl World {
    /// A machine with nothing on it: its name, its operating system with a version, its offset in minutes east of UTC, and a
    /// moment in seconds since 1970-01-01 00:00:00 UTC.
    pub fn new(
        alloc: Global,
        name: Text,
        system: Text,
        version: Text,
        offset: i64,
        moment: i64,
    ) -> World
        requires version { IsVersion version }
        requires offset { IsOffset offset }
        requires moment { IsMoment moment }
        ensures { result ≡ bare name system version offset moment }
    {
        World {
            alloc,
            name,
            system,
            version,
            offset,
            moment,
            paths: TextMap::new(alloc),
            packages: TextMap::new(alloc),
            processes: TextMap::new(alloc),
            settings: TextMap::new(alloc),
            programs: TextMap::new(alloc),
            started: Vec::new(alloc),
        }
    }

    /// The same world once more. The error is want of memory.
    pub fn copy(&self) -> Result<World, AllocError>
        ensures { IfOk result (λ world. world ≡ self.now) }
    {
        let alloc = self.alloc;
        let world = World {
            alloc,
            name: self.name.copy()?,
            system: self.system.copy()?,
            version: self.version.copy()?,
            offset: self.offset,
            moment: self.moment,
            paths: self.paths.copy(alloc)?,
            packages: self.packages.copy(alloc)?,
            processes: self.processes.copy(alloc)?,
            settings: self.settings.copy(alloc)?,
            programs: self.programs.copy(alloc)?,
            started: self.started.as_slice().to_vec(alloc)?,
        };
        Ok(world)
    }

    /// The computer's name.
    pub fn name(&self) -> &Text
        ensures { result.now ≡ self.now.name }
    {
        &self.name
    }

    /// Minutes east of UTC, from -840 to 840.
    pub fn offset(&self) -> i64
        ensures told { result ≡ self.now.offset }
        ensures in_range { IsOffset result }
    {
        self.offset
    }

    /// Seconds since 1970-01-01 00:00:00 UTC, from 0 to 137,438,953,472 (2^37).
    pub fn moment(&self) -> i64
        ensures { result ≡ self.now.moment }
    {
        self.moment
    }
}
