ghost use Rattle.std.specs.Prelude.{MatchOption, List, ℕ};
ghost use Rattle.world_text.specs.Readings.{AreThree, IsVersioned};

use line_forms::{first_field, read_rest, read_version};

/// Two fields and the rest behind them.
#[derive(Clone, Copy)]
pub(crate) struct Three<'a> {
    pub(crate) first: &'a [u8],
    pub(crate) second: &'a [u8],
    pub(crate) rest: &'a [u8],
}

/// A name with a version, as of a package or an operating system.
#[derive(Clone, Copy)]
pub(crate) struct Versioned<'a> {
    pub(crate) version: &'a str,
    pub(crate) name: &'a str,
}

/// Cuts two fields off.
pub(crate) fn three_fields(text: &[u8]) -> Option<Three<'_>>
    ensures { MatchOption result
        ((first second rest : List ℕ) → ¬ AreThree text.now first second rest)
        (λ t. AreThree text.now t.first.now t.second.now t.rest.now) }
{
    let Some(cut) = first_field(text) else {
        return None;
    };
    let Some(next) = first_field(cut.rest) else {
        return None;
    };
    Some(Three {
        first: cut.first,
        second: next.first,
        rest: next.rest,
    })
}

/// Reads `VERSION REST`.
pub(crate) fn read_versioned(text: &[u8]) -> Option<Versioned<'_>>
    ensures { MatchOption result
        ((version name : List ℕ) → ¬ IsVersioned text.now version name)
        (λ p. IsVersioned text.now p.version.now p.name.now) }
{
    let Some(cut) = first_field(text) else {
        return None;
    };
    let Some(version) = read_version(cut.first) else {
        return None;
    };
    let Some(name) = read_rest(cut.rest) else {
        return None;
    };
    Some(Versioned { version, name })
}
