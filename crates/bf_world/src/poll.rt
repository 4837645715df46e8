ghost use Rattle.std.specs.Prelude.{◌≡◌, ◌<◌, length, Some};
ghost use Rattle.bf_world.specs.Polled.{polled};

use crate::{Polled, World};

impl World {
    /// Polls the program of this number. It takes no memory.
    pub fn poll(&mut self, number: u32) -> Polled
        requires { number < length self.old.started }
        ensures { polled self.old number ≡ Some (record { answer = result; after = self.new }) }
    {
        let run = &mut self.started[number as usize];
        if run.left == 0 {
            return Polled::Exited(i64::from(run.exit));
        }
        run.left -= 1;
        Polled::Running
    }

    /// How many programs were started.
    pub fn started(&self) -> u32
        ensures { result ≡ length self.now.started }
    {
        self.started.len() as u32
    }
}
