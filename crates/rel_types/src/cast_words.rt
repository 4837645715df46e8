ghost use Rattle.std.specs.Prelude.{◌≡◌, find, map, option_map};
ghost use Rattle.std.specs.Str.{bytes_eq};
ghost use Rattle.rel_types.specs.Casts.{cast_named, cast_rows};
ghost use Rattle.rel_types.specs.Tables.{shown_cast_row};

use rel_value::Cast;

/// A cast and the words after `as`.
pub(crate) struct CastRow {
    pub(crate) cast: Cast,
    pub(crate) words: &'static str,
}

static CASTS: [CastRow; 8] = [
    CastRow {
        cast: Cast::Str,
        words: "string",
    },
    CastRow {
        cast: Cast::Integer,
        words: "integer",
    },
    CastRow {
        cast: Cast::Version,
        words: "version",
    },
    CastRow {
        cast: Cast::Boolean,
        words: "boolean",
    },
    CastRow {
        cast: Cast::Time,
        words: "time",
    },
    CastRow {
        cast: Cast::Lowercase,
        words: "lowercase",
    },
    CastRow {
        cast: Cast::Uppercase,
        words: "uppercase",
    },
    CastRow {
        cast: Cast::Trimmed,
        words: "trimmed string",
    },
];

/// The casts with their words.
#[tactic(auto, unfolding(crate::specs::Casts::cast_rows))]
fn cast_rows() -> &'static [CastRow]
    ensures { map shown_cast_row result.now ≡ cast_rows }
{
    &CASTS
}

/// The first of these rows that is the row of these words.
fn row_named(rows: &'static [CastRow], words: &str) -> Option<&'static CastRow>
    ensures { option_map (λ r. r.now) result ≡ find (λ r. bytes_eq (shown_cast_row r).words words.now) rows.now }
{
    rows.iter().find(|row| row.words == words)
}

/// The cast of these words.
pub(crate) fn cast_named(words: &str) -> Option<Cast>
    ensures { result ≡ cast_named words.now }
{
    match row_named(cast_rows(), words) {
        Some(row) => Some(row.cast),
        None => None,
    }
}
