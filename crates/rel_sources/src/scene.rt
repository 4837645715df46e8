ghost use Rattle.std.specs.Prelude.{◌≡◌, IfOk};

use crate::Pairs;
use std::alloc::AllocError;
use std::marker::Model;

/// What a question knows beside the machine. Contracts see a plain record.
#[derive(Drop)]
pub struct Scene {
    /// Seconds since 1970-01-01 00:00:00 UTC, from 0 to 137,438,953,472 (2^37).
    pub moment: i64,
    /// Minutes east of UTC, from -840 to 840.
    pub offset: i64,
    /// The parameters of the action that runs.
    pub parameters: Pairs,
    /// The exit code of the last program that the action waited for.
    pub exit: Option<i64>,
}

impl Model for Scene {
    ghost use Rattle.rel_sources.specs.Scenes.{IsScene, PlainScene};

    ghost Value = { PlainScene };

    ghost view = { λ s. record { moment = s.moment; offset = s.offset; parameters = s.parameters; exit = s.exit } };

    ghost invariant = { λ s. IsScene s.moment s.offset };
}

impl Scene {
    /// The same scene once more. The error is want of memory.
    pub fn copy(&self) -> Result<Scene, AllocError>
        ensures { IfOk result (λ scene. scene ≡ self.now) }
    {
        let parameters = self.parameters.copy()?;
        Ok(Scene {
            moment: self.moment,
            offset: self.offset,
            parameters,
            exit: self.exit,
        })
    }
}
