// What the words of the command line spell.
ghost use Rattle.std.specs.Prelude.{◌≡◌, ◌≢◌, ◌↔◌, ℕ, ◌<◌, List, [], ◌∷◌, length, decimal, map, IfSome, IsTrue, MatchOption};
ghost use Rattle.std.specs.declared.option.Option.{Option};
ghost use Rattle.relay_cache.specs.CachedFiles.{IsRoom};
ghost use Rattle.desk_top.specs.declared.command.RelayWords.{RelayWords};
ghost use Rattle.desk_top.specs.declared.command.ServeWords.{ServeWords};
ghost use Rattle.desk_top.specs.declared.command.SessionWords.{SessionWords};
ghost use Rattle.desk_top.specs.Commands.{Asks, IsOneTo, room_words, with_others, with_three};

use crate::command::{DeskCommand, RelayWords, ServeWords, SessionWords};
use line_forms::read_number;
use rel_lexer::Text;

/// The most computers that `make` makes.
const MOST_COMPUTERS: u64 = 2_000;

/// The last port.
const LAST_PORT: u64 = 65_535;

/// The most conversations that `serve` and `relay` hold, and the most rounds that `agent` makes.
pub(crate) const MOST_STEPS: u64 = 1_000_000;

/// The most files that a relay keeps.
const MOST_FILES: u64 = 64;

pub(crate) fn are_spelled(words: &[Text], spelled: &[&str]) -> bool
    ensures { IsTrue result ↔ (words.now ≡ map (λ word. word.now) spelled.now) }
{
    match (words.split_first(), spelled.split_first()) {
        (None, None) => true,
        (Some((word, words)), Some((first, spelled))) => {
            word.as_str() == *first && are_spelled(words, spelled)
        }
        _ => false,
    }
}

/// How many computers the words ask `make` for.
pub(crate) fn number_to_make(words: &[Text]) -> Option<u32>
    ensures { MatchOption result ((number : ℕ) → ¬ Asks words.now (DeskCommand.Make number))
        (λ number. Asks words.now (DeskCommand.Make number)) }
{
    let Some((word, words)) = words.split_first() else {
        return None;
    };
    let Some((number, words)) = words.split_first() else {
        return None;
    };
    if !words.is_empty() {
        return None;
    }
    if word.as_str() != "make" {
        return None;
    }
    let Some(number) = read_number(number.as_str().as_bytes(), MOST_COMPUTERS) else {
        return None;
    };
    if number == 0 {
        return None;
    }
    Some(number as u32)
}

/// Three words, and the others behind them.
#[derive(Clone, Copy)]
pub(crate) struct FirstThree<'a> {
    pub first: &'a Text,
    pub second: &'a Text,
    pub third: &'a Text,
    pub others: &'a [Text],
}

pub(crate) fn first_three<'a>(words: &'a [Text]) -> Option<FirstThree<'a>>
    ensures { MatchOption result (length words.now < 3)
        (λ three. words.now ≡ three.first.now ∷ three.second.now ∷ three.third.now ∷ three.others.now) }
{
    let Some((first, words)) = words.split_first() else {
        return None;
    };
    let Some((second, words)) = words.split_first() else {
        return None;
    };
    let Some((third, others)) = words.split_first() else {
        return None;
    };
    Some(FirstThree {
        first,
        second,
        third,
        others,
    })
}

/// The words behind the first one, where that is this one.
pub(crate) fn behind<'a>(words: &'a [Text], command: &str) -> Option<&'a [Text]>
    ensures { MatchOption result ((others : List (List ℕ)) → words.now ≢ command.now ∷ others)
        (λ others. words.now ≡ command.now ∷ others.now) }
{
    let Some((word, others)) = words.split_first() else {
        return None;
    };
    if word.as_str() != command {
        return None;
    }
    Some(others)
}

/// What stands behind a command, where that is the first of four words or more.
#[tactic(auto, using(crate::proofs::WordsOfRelay::too_few))]
fn three_and_others<'a>(words: &'a [Text], command: &str) -> Option<FirstThree<'a>>
    ensures { MatchOption result
        ((first second third : List ℕ) (others : List (List ℕ)) → words.now ≢ with_others command.now first second third others)
        (λ three. words.now ≡ with_others command.now three.first.now three.second.now three.third.now three.others.now) }
{
    match behind(words, command) {
        Some(words) => first_three(words),
        None => None,
    }
}

/// What stands behind a command, where that is the first of four words.
fn three_behind<'a>(words: &'a [Text], command: &str) -> Option<FirstThree<'a>>
    ensures { MatchOption result
        ((first second third : List ℕ) → words.now ≢ with_three command.now first second third)
        (λ three. words.now ≡ with_three command.now three.first.now three.second.now three.third.now) }
{
    let Some(three) = three_and_others(words, command) else {
        return None;
    };
    if !three.others.is_empty() {
        return None;
    }
    Some(three)
}

/// What the words ask `serve` for.
#[tactic(auto, using(crate::proofs::WordsOfServe::no_words, crate::proofs::WordsOfServe::no_port, crate::proofs::WordsOfServe::no_count, crate::proofs::WordsOfServe::no_keep, crate::proofs::WordsOfServe::asks_serve))]
pub(crate) fn what_to_serve<'a>(words: &'a [Text]) -> Option<ServeWords<'a>>
    ensures { MatchOption result ((asked : ServeWords) → ¬ Asks words.now (DeskCommand.Serve asked))
        (λ asked. Asks words.now (DeskCommand.Serve asked)) }
{
    let Some(behind) = three_behind(words, "serve") else {
        return None;
    };
    let Some(port) = number_up_to(behind.first, LAST_PORT) else {
        return None;
    };
    let Some(count) = number_up_to(behind.third, MOST_STEPS) else {
        return None;
    };
    if behind.second.as_str().is_empty() {
        return None;
    }
    Some(ServeWords {
        port: port as u16,
        keep: behind.second,
        count: count as u32,
    })
}

/// What the words ask `relay` for.
#[tactic(auto, using(crate::proofs::WordsOfRelay::no_words, crate::proofs::WordsOfRelay::no_port, crate::proofs::WordsOfRelay::no_count, crate::proofs::WordsOfRelay::no_upstream, crate::proofs::WordsOfRelay::no_room, crate::proofs::WordsOfRelay::asks_relay))]
pub(crate) fn what_to_relay<'a>(words: &'a [Text]) -> Option<RelayWords<'a>>
    ensures { MatchOption result ((asked : RelayWords) → ¬ Asks words.now (DeskCommand.Relay asked))
        (λ asked. Asks words.now (DeskCommand.Relay asked)) }
{
    let Some(behind) = three_and_others(words, "relay") else {
        return None;
    };
    let Some(port) = number_up_to(behind.first, LAST_PORT) else {
        return None;
    };
    let Some(count) = number_up_to(behind.third, MOST_STEPS) else {
        return None;
    };
    if behind.second.as_str().is_empty() {
        return None;
    }
    let Some(room) = room_in(behind.others) else {
        return None;
    };
    Some(RelayWords {
        port: port as u16,
        upstream: behind.second,
        count: count as u32,
        room,
    })
}

/// The number of files, from 1 to 64, that the last word spells, or no number where there is no word. None if there are other words.
#[tactic(auto, using(crate::proofs::WordsOfRelay::too_many, crate::proofs::WordsOfRelay::no_number, crate::proofs::WordsOfRelay::has_room))]
fn room_in(words: &[Text]) -> Option<Option<u32>>
    ensures { MatchOption result ((room : Option ℕ) → IfSome room IsRoom → words.now ≢ room_words room)
        (λ room. IfSome room IsRoom × (words.now ≡ room_words room)) }
{
    let Some((word, others)) = words.split_first() else {
        return Some(None);
    };
    if !others.is_empty() {
        return None;
    }
    match number_up_to(word, MOST_FILES) {
        Some(room) => Some(Some(room as u32)),
        None => None,
    }
}

/// What the words ask `session` for.
#[tactic(auto, using(crate::proofs::WordsOfSession::no_words, crate::proofs::WordsOfSession::no_keep, crate::proofs::WordsOfSession::more_words, crate::proofs::WordsOfSession::empty_keep, crate::proofs::WordsOfSession::asks_session))]
pub(crate) fn what_to_question<'a>(words: &'a [Text]) -> Option<SessionWords<'a>>
    ensures { MatchOption result ((asked : SessionWords) → ¬ Asks words.now (DeskCommand.Session asked))
        (λ asked. Asks words.now (DeskCommand.Session asked)) }
{
    let Some(words) = behind(words, "session") else {
        return None;
    };
    let Some((keep, others)) = words.split_first() else {
        return None;
    };
    if !others.is_empty() {
        return None;
    }
    if keep.as_str().is_empty() {
        return None;
    }
    Some(SessionWords { keep })
}

/// The number from 1 to `most` that a word spells.
pub(crate) fn number_up_to(word: &Text, most: u64) -> Option<u64>
    ensures { MatchOption result ((number : ℕ) → IsOneTo most number → word.now ≢ decimal number)
        (λ number. IsOneTo most number × (word.now ≡ decimal number)) }
{
    let Some(number) = read_number(word.as_str().as_bytes(), most) else {
        return None;
    };
    if number == 0 {
        return None;
    }
    Some(number)
}
