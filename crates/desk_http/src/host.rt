use desk_base::Bytes;
use route_rules::Asking;

/// What a host answers.
#[derive(Drop)]
pub enum Called {
    /// A status, from 100 to 999, and a body.
    Answer(u16, Bytes),
    /// Want of memory.
    Memory,
}

/// What answers calls.
pub trait Site2 {
    ghost use Rattle.std.specs.Prelude.{◌≡◌, ℕ, List};
    ghost use Rattle.route_rules.specs.declared.method.Asking.{Asking};
    ghost use Rattle.desk_http.specs.declared.host.Called.{Called};
    ghost use Rattle.desk_http.specs.Calling.{HasStatus};

    /// What it tells of its state.
    ghost Told: { Type 0 };

    ghost told: { Self → Told };

    /// The references that it holds.
    ghost holds: { Self → List ℕ };

    /// Which answer, and which new state, a call may give, by its method, its path and its body.
    ghost calls: { Told → Asking → List ℕ → List ℕ → Called → Told → Type 0 };

    fn call(&mut self, asking: Asking, path: &[u8], body: &[u8]) -> Called
        ensures calls { calls (told self.old) asking path.now body.now result (told self.new) }
        ensures status { HasStatus result }
        ensures holds { holds self.new ≡ holds self.old };
}
