ghost use Rattle.std.specs.Prelude.{◌≡◌, [], option_map};
ghost use Rattle.rel_types.specs.Casts.{cast_of};
ghost use Rattle.rel_types.specs.Outcomes.{Answers};
ghost use Rattle.rel_types.specs.Tables.{shown_cast_taken, shown_casted};
ghost use Rattle.rel_types.specs.Typing.{one_more_cast, typed_casts};
ghost use Rattle.rel_value.specs.Views.{shown_kind};

use crate::ask::not_defined;
use crate::cast_words::cast_named;
use crate::{CastStep, CastSteps, TypeError};
use rel_grammar::{CastList, CastTo};
use rel_value::{Cast, Kind, cast_kind};
use std::alloc::Global;

/// A cast, and the kind that it gives.
#[derive(Drop)]
pub(crate) struct CastTaken {
    pub(crate) cast: Cast,
    pub(crate) kind: Kind,
}

/// Casts, and the kind that the last gives.
#[derive(Drop)]
pub(crate) struct Casted {
    pub(crate) kind: Kind,
    pub(crate) steps: CastSteps,
}

/// What these casts make of a value of this kind.
pub(crate) fn casts(alloc: Global, from: Kind, casts: &CastList) -> Result<Casted, TypeError>
    ensures { Answers shown_casted (typed_casts (record { kind = shown_kind from; steps = [] }) casts.now) result }
{
    let mut done = Casted {
        kind: from,
        steps: CastSteps::new(alloc),
    };
    for cast in casts.as_slice() {
        done = one_more_cast(alloc, done, cast)?;
    }
    Ok(done)
}

/// The casts with one more.
#[tactic(auto, unfolding(crate::specs::Typing::one_more_cast, crate::specs::Outcomes::defined, crate::specs::Outcomes::after, crate::specs::Outcomes::Fails))]
fn one_more_cast(alloc: Global, before: Casted, cast: &CastTo) -> Result<Casted, TypeError>
    ensures { Answers shown_casted (one_more_cast (shown_casted before) cast.now) result }
{
    let Some(taken) = cast_of(&before.kind, cast.words.as_str()) else {
        return Err(not_defined(alloc, cast.place, cast.words.as_str()));
    };
    let mut steps = before.steps;
    steps.push(CastStep {
        place: cast.place,
        cast: taken.cast,
    })?;
    Ok(Casted {
        kind: taken.kind,
        steps,
    })
}

/// What a cast of these words makes of a value of this kind, if it has a row for it.
#[tactic(auto, unfolding(crate::specs::Casts::cast_of))]
fn cast_of(from: &Kind, words: &str) -> Option<CastTaken>
    ensures { option_map shown_cast_taken result ≡ cast_of (shown_kind from.now) words.now }
{
    let Some(cast) = cast_named(words) else {
        return None;
    };
    match cast_kind(cast, from) {
        Some(kind) => Some(CastTaken { cast, kind }),
        None => None,
    }
}
