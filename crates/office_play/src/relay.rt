use rel_lexer::Text;
use relay_core::Relay;
use std::marker::Model;

/// A relay of an office. Contracts see its name and what it keeps.
#[derive(Drop)]
pub(crate) struct PlayedRelay {
    pub(crate) name: Text,
    pub(crate) relay: Relay,
}

impl Model for PlayedRelay {
    ghost use Rattle.std.specs.Prelude.{List, ℕ};
    ghost use Rattle.relay_core.specs.Relays.{RelayState};

    ghost Value = { List ℕ × RelayState };

    ghost view = { λ r. (r.name, r.relay) };
}
