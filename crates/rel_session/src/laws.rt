// What holds of every run.
ghost use Rattle.std.specs.Prelude.{◌≡◌, ℕ, ℤ, List, Some};
ghost use Rattle.bf_world.specs.Worlds.{WorldState};
ghost use Rattle.rel_session.specs.Sessions.{Run, Runs, Session};

use crate::Reader;

/// Where no look fails, what lines write and look up is fixed by the told world, the session before them and the moments.
pub fn one_run<R: Reader>()
    ensures { (w : WorldState) (offset : ℤ) (s : Session) (lines : List (List ℕ)) (moments : List ℤ) (a b : Run)
        → Runs R.reads (Some w) offset s lines moments a → Runs R.reads (Some w) offset s lines moments b → a.faults ≡ 0 → b.faults ≡ 0
        → a ≡ b }
{}
