//! Values: their kinds, operators, casts and texts.
#![tactic(auto)]

mod arithmetic;
mod calendar;
mod cast_name;
mod casts;
mod compare;
mod fault;
mod kind;
mod laws;
mod limit;
mod operand;
mod property;
mod relation;
mod row_kinds;
mod rows;
mod signs;
mod sort;
mod spelling;
mod texts;
mod time_read;
mod time_text;
mod trim;
mod value;
mod version;

pub use cast_name::Cast;
pub use casts::cast;
pub use fault::ValueFault;
pub use kind::{Kind, Kinds};
pub use laws::{casts_keep_kinds, signs_keep_kinds, times_are_read_as_written};
pub use property::PropertyId;
pub use rows::{binary_kind, cast_kind, has_cast, has_negation, has_row, negated_kind};
pub use signs::{binary, negate};
pub use texts::text;
pub use value::{Value, Values};
pub use version::Version;
