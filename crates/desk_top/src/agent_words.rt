// What the words behind `agent` spell.
ghost use Rattle.std.specs.Prelude.{◌≡◌, ◌≢◌, ◌↔◌, ℕ, List, decimal, IfSome, IsTrue, MatchOption};
ghost use Rattle.std.specs.declared.option.Option.{Option};
ghost use Rattle.std.specs.Fmt.{signed_decimal};
ghost use Rattle.line_forms.specs.Numbers.{IsOffset};
ghost use Rattle.desk_top.specs.declared.command.AgentWords.{AgentWords};
ghost use Rattle.desk_top.specs.Commands.{Asks, IsNamed, NamesPlaces, agent_words, second_words};
ghost use denote.Ref.{Bor};

use crate::command::{AgentWords, DeskCommand};
use crate::words::{MOST_STEPS, behind, first_three, number_up_to};
use line_forms::{read_name, read_offset};
use rel_lexer::Text;

/// The six words behind `agent`, and the others behind them.
#[derive(Clone, Copy)]
struct BehindAgent<'a> {
    upstream: &'a Text,
    pocket: &'a Text,
    work: &'a Text,
    name: &'a Text,
    offset: &'a Text,
    count: &'a Text,
    others: &'a [Text],
}

/// What stands behind `agent`, where that is the first of seven words or more.
#[tactic(auto, using(crate::proofs::WordsOfAgent::no_places_behind, crate::proofs::WordsOfAgent::no_values_behind))]
fn behind_agent<'a>(words: &'a [Text]) -> Option<BehindAgent<'a>>
    ensures { MatchOption result
        ((upstream pocket work name offset count : List ℕ) (last : List (List ℕ))
        → words.now ≢ agent_words upstream pocket work name offset count last)
        (λ it. words.now ≡ agent_words it.upstream.now it.pocket.now it.work.now it.name.now it.offset.now it.count.now it.others.now) }
{
    let Some(words) = behind(words, "agent") else {
        return None;
    };
    let Some(places) = first_three(words) else {
        return None;
    };
    let Some(values) = first_three(places.others) else {
        return None;
    };
    Some(BehindAgent {
        upstream: places.first,
        pocket: places.second,
        work: places.third,
        name: values.first,
        offset: values.second,
        count: values.third,
        others: values.others,
    })
}

/// What the words ask `agent` for.
#[tactic(auto, using(crate::proofs::WordsOfAgent::no_words, crate::proofs::WordsOfAgent::no_count, crate::proofs::WordsOfAgent::no_offset, crate::proofs::WordsOfAgent::no_places, crate::proofs::WordsOfAgent::no_second, crate::proofs::WordsOfAgent::asks_agent))]
pub(crate) fn what_to_round<'a>(words: &'a [Text]) -> Option<AgentWords<'a>>
    ensures { MatchOption result ((asked : AgentWords) → ¬ Asks words.now (DeskCommand.Agent asked))
        (λ asked. Asks words.now (DeskCommand.Agent asked)) }
{
    let Some(behind) = behind_agent(words) else {
        return None;
    };
    let Some(count) = number_up_to(behind.count, MOST_STEPS) else {
        return None;
    };
    let Some(offset) = read_offset(behind.offset.as_str().as_bytes()) else {
        return None;
    };
    if !names_places(&behind) {
        return None;
    }
    let Some(second) = second_in(behind.others) else {
        return None;
    };
    Some(AgentWords {
        upstream: behind.upstream,
        pocket: behind.pocket,
        work: behind.work,
        name: behind.name,
        offset,
        count: count as u32,
        second,
    })
}

/// The second upstream that the last word names, or none where there is no word. None if there are other words.
#[tactic(auto, using(crate::proofs::WordsOfAgent::too_many, crate::proofs::WordsOfAgent::not_named, crate::proofs::WordsOfAgent::has_second))]
fn second_in<'a>(words: &'a [Text]) -> Option<Option<&'a Text>>
    ensures { MatchOption result ((second : Option (Bor (List ℕ))) → IfSome second IsNamed → words.now ≢ second_words second)
        (λ second. IfSome second IsNamed × (words.now ≡ second_words second)) }
{
    let Some((word, others)) = words.split_first() else {
        return Some(None);
    };
    if !others.is_empty() {
        return None;
    }
    if word.as_str().is_empty() {
        return None;
    }
    Some(Some(word))
}

/// Whether the places are named and the name is that of a computer.
fn names_places(behind: &BehindAgent) -> bool
    ensures { IsTrue result ↔ NamesPlaces behind.now.upstream.now behind.now.pocket.now behind.now.work.now behind.now.name.now }
{
    !behind.upstream.as_str().is_empty()
        && !behind.pocket.as_str().is_empty()
        && !behind.work.as_str().is_empty()
        && read_name(behind.name.as_str().as_bytes()).is_some()
}
