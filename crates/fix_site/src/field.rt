ghost use Rattle.std.specs.Prelude.{◌≡◌, ℕ, ℤ, List, ◌∷◌, [], decimal, MatchOption};
ghost use Rattle.std.specs.Fmt.{signed_decimal};
ghost use Rattle.line_forms.specs.FieldLists.{fields_of, line_of};
ghost use Rattle.line_forms.specs.Names.{IsName};
ghost use Rattle.line_forms.specs.Readers.{Spells};
ghost use Rattle.line_forms.specs.Numbers.{IsId};
ghost use Rattle.fix_site.specs.RuleLines.{IsCount, IsWait};
ghost use Rattle.fix_site.specs.Readings.{named_fields, counted_fields};

use line_forms::{Fields, read_i64, read_id, read_name, read_number};

/// The most retries, and the highest limit of a reapplication.
const MOST_RETRIES: u64 = 99;

/// The longest wait, in seconds.
const LONGEST_WAIT: i64 = 2_147_483_648;

/// Two fields of a line.
#[derive(Clone, Copy)]
pub(crate) struct Pair<'a> {
    pub first: &'a [u8],
    pub second: &'a [u8],
}

/// A name and an id, two fields of a line.
#[derive(Clone, Copy)]
pub(crate) struct Named<'a> {
    pub name: &'a str,
    pub id: u64,
}

/// A count and a wait in seconds, two fields of a line.
#[derive(Clone, Copy)]
pub(crate) struct Counted {
    pub count: u32,
    pub wait: i64,
}

/// Reads a number of retries, or a limit of reapplication: from 0 to 99.
pub(crate) fn read_count(text: &[u8]) -> Option<u32>
    ensures { Spells IsCount decimal text.now result }
{
    read_number(text, MOST_RETRIES).map(|count| count as u32)
}

/// Reads a wait in seconds: from 0 to 2,147,483,648.
pub(crate) fn read_wait(text: &[u8]) -> Option<i64>
    ensures { Spells IsWait signed_decimal text.now result }
{
    let wait = read_i64(text)?;
    if wait < 0 || wait > LONGEST_WAIT {
        return None;
    }
    Some(wait)
}

/// Reads two fields, and no more.
pub(crate) fn read_pair(text: &[u8]) -> Option<Pair<'_>>
    ensures { MatchOption result ((a b : List ℕ) → ¬ (fields_of text.now ≡ a ∷ b ∷ []))
        (λ pair. fields_of text.now ≡ pair.first.now ∷ pair.second.now ∷ []) }
{
    let mut fields = Fields::new(text);
    let first = fields.take_field()?;
    let second = fields.take_field()?;
    if !fields.is_over() {
        return None;
    }
    Some(Pair { first, second })
}

/// Reads two fields: a name and an id.
pub(crate) fn read_named(text: &[u8]) -> Option<Named<'_>>
    ensures { MatchOption result
        ((name : List ℕ) (id : ℕ) → IsName name → IsId id → ¬ (text.now ≡ line_of (named_fields name id)))
        (λ named. IsName named.name.now × IsId named.id × (text.now ≡ line_of (named_fields named.name.now named.id))) }
{
    let Some(pair) = read_pair(text) else {
        return None;
    };
    let Some(name) = read_name(pair.first) else {
        return None;
    };
    let Some(id) = read_id(pair.second) else {
        return None;
    };
    Some(Named { name, id })
}

/// Reads two fields: a count and a wait.
pub(crate) fn read_counted(text: &[u8]) -> Option<Counted>
    ensures { MatchOption result
        ((count : ℕ) (wait : ℤ) → IsCount count → IsWait wait → ¬ (text.now ≡ line_of (counted_fields count wait)))
        (λ c. IsCount c.count × IsWait c.wait × (text.now ≡ line_of (counted_fields c.count c.wait))) }
{
    let Some(pair) = read_pair(text) else {
        return None;
    };
    let Some(count) = read_count(pair.first) else {
        return None;
    };
    let Some(wait) = read_wait(pair.second) else {
        return None;
    };
    Some(Counted { count, wait })
}
