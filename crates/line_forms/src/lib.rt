//! What all texts made of lines share: the lines, their fields, and what a field spells.
#![tactic(auto)]

mod around;
mod bad_line;
mod content;
mod cut;
mod digest;
mod field_cursor;
mod fields;
mod filling;
mod lines;
mod name;
mod number;
mod path;
mod taking;
mod version;

pub use bad_line::{LineForm, one_first_bad_line};
pub use content::{one_content, read_content, write_content};
pub use cut::{Cut, a_text_is_its_pieces};
pub use digest::{one_digest, read_digest, write_digest};
pub use field_cursor::{Fields, a_line_is_its_fields};
pub use fields::{after_word, first_field, one_first_field, write_field};
pub use filling::{fill_content, fill_digest, fill_ended_line, fill_field};
pub use lines::{
    Ahead, Lines, a_cursor_stands_behind_its_lines, lines_are_read_again, lines_make_the_text,
    write_line,
};
pub use name::{read_name, read_rest};
pub use number::{
    LAST_ID, one_number, one_signed_number, read_i64, read_id, read_moment, read_number,
    read_offset, read_u32, write_number, write_signed_number,
};
pub use path::{a_path_is_its_parts, last_part, read_part, read_path};
pub use version::{VersionNumbers, a_version_is_its_numbers, read_version, version_numbers};
