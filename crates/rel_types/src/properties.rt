ghost use Rattle.std.specs.Prelude.{◌≡◌, map};
ghost use Rattle.rel_types.specs.Properties.{property_rows};
ghost use Rattle.rel_types.specs.Tables.{shown_row};

use crate::Head;
use crate::row::{
    ACTION_OR_NOTHING, Asked, FILE, FILE_OR_FOLDER, FOLDER, NAMED, NOTHING, PART, Row, TEXT,
    TEXT_OR_NOTHING, VERSIONED,
};
use crate::scalar::Scalar;
use rel_value::PropertyId;

macro_rules! property {
    ($property:expr, $singular:expr, $plural:expr, $argument:expr, $object:expr, $gives:expr) => {
        Row {
            head: Head::Property($property),
            singular: $singular,
            plural: $plural,
            argument: $argument,
            object: $object,
            gives: $gives,
        }
    };
}

static PROPERTIES: [Row; 42] = [
    property!(
        PropertyId::True,
        "true",
        None,
        NOTHING,
        NOTHING,
        Scalar::Boolean
    ),
    property!(
        PropertyId::False,
        "false",
        None,
        NOTHING,
        NOTHING,
        Scalar::Boolean
    ),
    property!(
        PropertyId::Second,
        "second",
        Some("seconds"),
        NOTHING,
        NOTHING,
        Scalar::Interval
    ),
    property!(
        PropertyId::Minute,
        "minute",
        Some("minutes"),
        NOTHING,
        NOTHING,
        Scalar::Interval
    ),
    property!(
        PropertyId::Hour,
        "hour",
        Some("hours"),
        NOTHING,
        NOTHING,
        Scalar::Interval
    ),
    property!(
        PropertyId::Day,
        "day",
        Some("days"),
        NOTHING,
        NOTHING,
        Scalar::Interval
    ),
    property!(
        PropertyId::Now,
        "now",
        Some("nows"),
        NOTHING,
        NOTHING,
        Scalar::Time
    ),
    property!(
        PropertyId::FileAt,
        "file",
        Some("files"),
        TEXT,
        NOTHING,
        Scalar::File
    ),
    property!(
        PropertyId::FolderAt,
        "folder",
        Some("folders"),
        TEXT,
        NOTHING,
        Scalar::Folder
    ),
    property!(
        PropertyId::FileNamed,
        "file",
        Some("files"),
        TEXT,
        FOLDER,
        Scalar::File
    ),
    property!(
        PropertyId::FolderNamed,
        "folder",
        Some("folders"),
        TEXT,
        FOLDER,
        Scalar::Folder
    ),
    property!(
        PropertyId::File,
        "file",
        Some("files"),
        NOTHING,
        FOLDER,
        Scalar::File
    ),
    property!(
        PropertyId::Folder,
        "folder",
        Some("folders"),
        NOTHING,
        FOLDER,
        Scalar::Folder
    ),
    property!(
        PropertyId::Descendant,
        "descendant",
        Some("descendants"),
        NOTHING,
        FOLDER,
        Scalar::File
    ),
    property!(
        PropertyId::Name,
        "name",
        Some("names"),
        NOTHING,
        NAMED,
        Scalar::Text
    ),
    property!(
        PropertyId::Pathname,
        "pathname",
        Some("pathnames"),
        NOTHING,
        FILE_OR_FOLDER,
        Scalar::Text
    ),
    property!(
        PropertyId::Size,
        "size",
        Some("sizes"),
        NOTHING,
        FILE,
        Scalar::Integer
    ),
    property!(
        PropertyId::ModificationTime,
        "modification time",
        Some("modification times"),
        NOTHING,
        FILE,
        Scalar::Time
    ),
    property!(
        PropertyId::Line,
        "line",
        Some("lines"),
        NOTHING,
        FILE,
        Scalar::Text
    ),
    property!(
        PropertyId::LineAt,
        "line",
        Some("lines"),
        Asked::OneOf(&[Scalar::Integer]),
        FILE,
        Scalar::Text
    ),
    property!(
        PropertyId::LineContaining,
        "line containing",
        Some("lines containing"),
        TEXT,
        FILE,
        Scalar::Text
    ),
    property!(
        PropertyId::Sha1,
        "sha1",
        Some("sha1s"),
        NOTHING,
        FILE,
        Scalar::Text
    ),
    property!(
        PropertyId::Sha256,
        "sha256",
        Some("sha256s"),
        NOTHING,
        FILE,
        Scalar::Text
    ),
    property!(
        PropertyId::OperatingSystem,
        "operating system",
        Some("operating systems"),
        NOTHING,
        NOTHING,
        Scalar::System
    ),
    property!(
        PropertyId::ComputerName,
        "computer name",
        Some("computer names"),
        NOTHING,
        NOTHING,
        Scalar::Text
    ),
    property!(
        PropertyId::Process,
        "process",
        Some("processes"),
        TEXT_OR_NOTHING,
        NOTHING,
        Scalar::Process
    ),
    property!(
        PropertyId::Package,
        "package",
        Some("packages"),
        TEXT_OR_NOTHING,
        NOTHING,
        Scalar::Package
    ),
    property!(
        PropertyId::Version,
        "version",
        Some("versions"),
        NOTHING,
        VERSIONED,
        Scalar::Version
    ),
    property!(
        PropertyId::Client,
        "client",
        Some("clients"),
        NOTHING,
        NOTHING,
        Scalar::Client
    ),
    property!(
        PropertyId::Action,
        "action",
        Some("actions"),
        NOTHING,
        NOTHING,
        Scalar::Action
    ),
    property!(
        PropertyId::Setting,
        "setting",
        Some("settings"),
        TEXT_OR_NOTHING,
        Asked::OneOf(&[Scalar::Client]),
        Scalar::Setting
    ),
    property!(
        PropertyId::Value,
        "value",
        Some("values"),
        NOTHING,
        Asked::OneOf(&[Scalar::Setting]),
        Scalar::Text
    ),
    property!(
        PropertyId::EffectiveDate,
        "effective date",
        Some("effective dates"),
        NOTHING,
        Asked::OneOf(&[Scalar::Setting]),
        Scalar::Time
    ),
    property!(
        PropertyId::IntegerIn,
        "integer in",
        Some("integers in"),
        Asked::Integers,
        NOTHING,
        Scalar::Integer
    ),
    property!(
        PropertyId::Length,
        "length",
        Some("lengths"),
        NOTHING,
        TEXT,
        Scalar::Integer
    ),
    property!(
        PropertyId::First,
        "first",
        Some("firsts"),
        TEXT,
        TEXT,
        Scalar::Part
    ),
    property!(
        PropertyId::Last,
        "last",
        Some("lasts"),
        TEXT,
        TEXT,
        Scalar::Part
    ),
    property!(
        PropertyId::PrecedingText,
        "preceding text",
        Some("preceding texts"),
        NOTHING,
        PART,
        Scalar::Text
    ),
    property!(
        PropertyId::FollowingText,
        "following text",
        Some("following texts"),
        NOTHING,
        PART,
        Scalar::Text
    ),
    property!(
        PropertyId::SubstringSeparatedBy,
        "substring separated by",
        Some("substrings separated by"),
        TEXT,
        TEXT,
        Scalar::Text
    ),
    property!(
        PropertyId::Parameter,
        "parameter",
        Some("parameters"),
        TEXT,
        ACTION_OR_NOTHING,
        Scalar::Text
    ),
    property!(
        PropertyId::ExitCode,
        "exit code",
        Some("exit codes"),
        NOTHING,
        Asked::OneOf(&[Scalar::Action]),
        Scalar::Integer
    ),
];

/// The properties but for `item`: the words for one value and for any number of them, what they ask of the argument
/// and of the object, and what they give.
#[tactic(auto, unfolding(crate::specs::Properties::property_rows))]
pub(crate) fn properties() -> &'static [Row]
    ensures { map shown_row result.now ≡ property_rows }
{
    &PROPERTIES
}
