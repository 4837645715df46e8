ghost use Rattle.std.specs.Prelude.{◌≡◌, []};
ghost use Rattle.script_run.specs.Asking.{scene_of};
ghost use Rattle.script_run.specs.ScriptWalks.{given_known};
ghost use Rattle.desk_base.specs.Moments.{IsMoment};
ghost use Rattle.line_forms.specs.Numbers.{IsOffset};

use rel_inspect::{Pairs, Scene};
use std::alloc::Global;
use std::marker::Model;

/// When something is asked: the moment, in seconds since 1970-01-01 00:00:00 UTC, and the offset in minutes east of UTC. What is
/// asked then knows no parameters and no exit code.
#[derive(Drop)]
pub struct Time {
    scene: Scene,
}

impl Model for Time {
    ghost use Rattle.script_run.specs.Asking.{When, when_of};
    ghost use Rattle.agent_attempt.specs.Times.{IsTime};

    ghost Value = { When };

    ghost view = { λ t. when_of t.scene };

    ghost invariant = { λ t. IsTime t.scene };
}

impl Time {
    /// This moment and offset. It takes no memory.
    pub fn new(alloc: Global, moment: i64, offset: i64) -> Time
        requires moment { IsMoment moment }
        requires offset { IsOffset offset }
        ensures { result ≡ record { moment = moment; offset = offset } }
    {
        Time {
            scene: Scene {
                moment,
                offset,
                parameters: Pairs::new(alloc),
                exit: None,
            },
        }
    }

    /// The moment.
    pub fn moment(&self) -> i64
        ensures value { result ≡ self.now.moment }
        ensures moment { IsMoment result }
    {
        self.scene.moment
    }

    /// The offset.
    pub fn offset(&self) -> i64
        ensures value { result ≡ self.now.offset }
        ensures offset { IsOffset result }
    {
        self.scene.offset
    }

    /// What is known to what is asked then.
    pub(crate) fn scene(&self) -> &Scene
        ensures { result.now ≡ scene_of self.now (given_known []) }
    {
        &self.scene
    }
}
