ghost use Rattle.std.specs.Prelude.{◌≡◌, map};
ghost use Rattle.std.specs.Option.{option_copied, option_map};
ghost use Rattle.rel_value.specs.Views.{shown};
ghost use Rattle.rel_inspect.specs.Facets.{offered, IsSoundOffer};
ghost use Rattle.rel_inspect.specs.Offered.{path_name, text_in, integer_in, file_in, folder_in, path_in, name_in, version_in, value_in, date_in, preceding_in, following_in, parts_in, bounds_in};

use bf_world::last_name;
use rel_lexer::Text;
use rel_value::{Value, Version};

/// The text; a part stands for its own bytes.
pub(crate) fn text_in(value: Option<&Value>) -> Option<&str>
    requires { IsSoundOffer (offered value) }
    ensures { option_copied result ≡ text_in (offered value.entry) }
{
    match value? {
        Value::Text(text) => Some(text.as_str()),
        Value::Part { whole, from, to } => Some(&whole.as_str()[*from as usize..*to as usize]),
        _ => None,
    }
}

pub(crate) fn integer_in(value: Option<&Value>) -> Option<i64>
    ensures { result ≡ integer_in (offered value.entry) }
{
    match value? {
        Value::Integer(number) => Some(*number),
        _ => None,
    }
}

/// The path of a file.
pub(crate) fn file_in(value: Option<&Value>) -> Option<&Text>
    ensures { option_copied result ≡ file_in (offered value.entry) }
{
    match value? {
        Value::File(path) => Some(path),
        _ => None,
    }
}

/// The path of a folder.
pub(crate) fn folder_in(value: Option<&Value>) -> Option<&Text>
    ensures { option_copied result ≡ folder_in (offered value.entry) }
{
    match value? {
        Value::Folder(path) => Some(path),
        _ => None,
    }
}

/// The path of a file or folder.
pub(crate) fn path_in(value: Option<&Value>) -> Option<&str>
    ensures { option_copied result ≡ path_in (offered value.entry) }
{
    match value? {
        Value::File(path) => Some(path.as_str()),
        Value::Folder(path) => Some(path.as_str()),
        _ => None,
    }
}

/// The name: of a file or folder the last part of its path, and of `/` it is `/`.
pub(crate) fn name_in(value: Option<&Value>) -> Option<&str>
    ensures { option_copied result ≡ name_in (offered value.entry) }
{
    match value? {
        Value::File(path) => Some(path_name(path.as_str())),
        Value::Folder(path) => Some(path_name(path.as_str())),
        Value::Setting { name, .. } => Some(name.as_str()),
        Value::Process(name) => Some(name.as_str()),
        Value::Package { name, .. } => Some(name.as_str()),
        Value::System { name, .. } => Some(name.as_str()),
        _ => None,
    }
}

fn path_name(path: &str) -> &str
    ensures { result.now ≡ path_name path.now }
{
    if path == "/" { path } else { last_name(path) }
}

/// The version of a package or system.
pub(crate) fn version_in(value: Option<&Value>) -> Option<&Version>
    ensures { option_copied result ≡ version_in (offered value.entry) }
{
    match value? {
        Value::Package { version, .. } => Some(version),
        Value::System { version, .. } => Some(version),
        _ => None,
    }
}

/// The value of a setting.
pub(crate) fn value_in(value: Option<&Value>) -> Option<&str>
    ensures { option_copied result ≡ value_in (offered value.entry) }
{
    match value? {
        Value::Setting { value, .. } => Some(value.as_str()),
        _ => None,
    }
}

/// The date of a setting.
pub(crate) fn date_in(value: Option<&Value>) -> Option<i64>
    ensures { result ≡ date_in (offered value.entry) }
{
    match value? {
        Value::Setting { date, .. } => Some(*date),
        _ => None,
    }
}

/// What stands before a part in its text.
pub(crate) fn preceding_in(value: Option<&Value>) -> Option<&str>
    requires { IsSoundOffer (offered value) }
    ensures { option_copied result ≡ preceding_in (offered value.entry) }
{
    match value? {
        Value::Part { whole, from, .. } => Some(&whole.as_str()[..*from as usize]),
        _ => None,
    }
}

/// What stands behind a part in its text.
pub(crate) fn following_in(value: Option<&Value>) -> Option<&str>
    requires { IsSoundOffer (offered value) }
    ensures { option_copied result ≡ following_in (offered value.entry) }
{
    match value? {
        Value::Part { whole, to, .. } => Some(&whole.as_str()[*to as usize..]),
        _ => None,
    }
}

/// The parts of a tuple.
pub(crate) fn parts_in(value: Option<&Value>) -> Option<&[Value]>
    ensures { option_map (map shown) (option_copied result) ≡ parts_in (offered value.entry) }
{
    match value? {
        Value::Tuple(parts) => Some(parts.as_slice()),
        _ => None,
    }
}

/// The two integers of a tuple.
#[derive(Clone, Copy)]
pub(crate) struct Bounds {
    pub(crate) from: i64,
    pub(crate) to: i64,
}

pub(crate) fn bounds_in(value: Option<&Value>) -> Option<Bounds>
    ensures { result ≡ bounds_in (offered value.entry) }
{
    match parts_in(value)? {
        [Value::Integer(from), Value::Integer(to)] => Some(Bounds {
            from: *from,
            to: *to,
        }),
        _ => None,
    }
}
