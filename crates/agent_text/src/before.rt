use crate::history::History;
use std::marker::Model;

/// What stood of an action before it was changed: its history, if it had one.
#[derive(Drop)]
pub struct Before {
    pub(crate) action: u64,
    pub(crate) history: Option<History>,
}

impl Model for Before {
    ghost use Rattle.std.specs.Option.{option_map};
    ghost use Rattle.agent_text.specs.Histories.{shown_history};
    ghost use Rattle.agent_text.specs.Befores.{IsBefore, PlainBefore};
    ghost use Rattle.agent_text.specs.KeptTexts.{KeepsTextIf};

    ghost Value = { PlainBefore };

    ghost view = { λ b. record { action = b.action; history = option_map shown_history b.history } };

    ghost invariant = { λ b. IsBefore (record { action = b.action; history = option_map shown_history b.history }) × KeepsTextIf b.history };
}
