ghost use Rattle.std.specs.Prelude.{◌≡◌, MatchOption};
ghost use Rattle.office_text.specs.declared.word.Word.{Word};
ghost use Rattle.office_text.specs.OrderReadings.{keyword};

/// The word of an order that is one line.
#[derive(Clone, Copy)]
pub(crate) enum Word {
    Stop,
    Relay,
    Gather,
    Turn,
    Restart,
    Send,
    Push,
    Deliver,
    Report,
    Forward,
    Forget,
    Measure,
    Members,
}

/// The word that this field is.
pub(crate) fn word_of(field: &[u8]) -> Option<Word>
    ensures { MatchOption result ((word : Word) → ¬ (field.now ≡ keyword word)) (λ word. field.now ≡ keyword word) }
{
    match field {
        b"stop" => Some(Word::Stop),
        b"relay" => Some(Word::Relay),
        b"gather" => Some(Word::Gather),
        b"turn" => Some(Word::Turn),
        b"restart" => Some(Word::Restart),
        b"send" => Some(Word::Send),
        b"push" => Some(Word::Push),
        b"deliver" => Some(Word::Deliver),
        b"report" => Some(Word::Report),
        b"forward" => Some(Word::Forward),
        b"forget" => Some(Word::Forget),
        b"measure" => Some(Word::Measure),
        b"members" => Some(Word::Members),
        _ => None,
    }
}
