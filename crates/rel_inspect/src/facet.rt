ghost use Rattle.std.specs.Prelude.{◌≡◌};
ghost use Rattle.bf_world.specs.Answers.{IsGoodAnswer};
ghost use Rattle.sha1.specs.Sha1.{sha1};
ghost use Rattle.sha2.specs.Sha256.{sha256};
ghost use Rattle.rel_sources.specs.declared.scene.Scene.{Scene};
ghost use Rattle.rel_sources.specs.Draws.{item_in, IsSoundItem};
ghost use Rattle.rel_sources.specs.Rows.{file_item, folder_item, size_item, modified_item, system_item, name_item, digest_item, lines_of, numbered, text_item_of};
ghost use Rattle.rel_inspect.specs.Facets.{IsSoundOnce, once_item, facet_item};

use crate::once::{Once, Sought};
use bf_world::Answer;
use rel_lexer::Text;
use rel_sources::HeldItem;
use rel_value::{Value, Version};

/// What is asked of one thing that a look shows.
#[derive(Drop)]
pub(crate) enum Facet {
    /// The file of this path.
    File(Text),
    /// The folder of this path.
    Folder(Text),
    Size,
    Modified,
    /// The line of this number, counted from 1.
    LineAt(i64),
    Sha1,
    Sha256,
    System,
    ComputerName,
}

impl Facet {
    /// What the answer of a look gives. It takes no memory.
    pub(crate) fn of(self, answer: Answer) -> Once
        requires { IsGoodAnswer answer }
        ensures item { (s : Scene) → once_item result s ≡ facet_item self answer }
        ensures sound { IsSoundOnce result }
    {
        match self {
            Facet::File(path) => Once::Held(file_held(path, answer)),
            Facet::Folder(path) => Once::Held(folder_held(path, answer)),
            Facet::Size => Once::Held(size_held(answer)),
            Facet::Modified => Once::Held(modified_held(answer)),
            Facet::LineAt(number) => line_once(number, answer),
            Facet::Sha1 => sha1_once(answer),
            Facet::Sha256 => sha256_once(answer),
            Facet::System => Once::Held(system_held(answer)),
            Facet::ComputerName => Once::Held(name_held(answer)),
        }
    }
}

fn file_held(path: Text, answer: Answer) -> HeldItem
    ensures item { item_in result ≡ file_item path answer }
    ensures sound { IsSoundItem (item_in result) }
{
    match answer {
        Answer::File { .. } => HeldItem::Value(Value::File(path)),
        _ => HeldItem::Nothing,
    }
}

fn folder_held(path: Text, answer: Answer) -> HeldItem
    ensures item { item_in result ≡ folder_item path answer }
    ensures sound { IsSoundItem (item_in result) }
{
    match answer {
        Answer::Folder => HeldItem::Value(Value::Folder(path)),
        _ => HeldItem::Nothing,
    }
}

fn size_held(answer: Answer) -> HeldItem
    ensures item { item_in result ≡ size_item answer }
    ensures sound { IsSoundItem (item_in result) }
{
    match answer {
        Answer::File { size, .. } => HeldItem::Value(Value::Integer(size)),
        _ => HeldItem::Nothing,
    }
}

fn modified_held(answer: Answer) -> HeldItem
    requires { IsGoodAnswer answer }
    ensures item { item_in result ≡ modified_item answer }
    ensures sound { IsSoundItem (item_in result) }
{
    match answer {
        Answer::File { modified, .. } => HeldItem::Value(Value::Time(modified)),
        _ => HeldItem::Nothing,
    }
}

fn system_held(answer: Answer) -> HeldItem
    ensures item { item_in result ≡ system_item answer }
    ensures sound { IsSoundItem (item_in result) }
{
    match answer {
        Answer::System { name, version } => match Version::parse(&version) {
            Some(version) => HeldItem::Value(Value::System { name, version }),
            None => HeldItem::Nothing,
        },
        _ => HeldItem::Nothing,
    }
}

fn name_held(answer: Answer) -> HeldItem
    ensures item { item_in result ≡ name_item answer }
    ensures sound { IsSoundItem (item_in result) }
{
    match answer {
        Answer::Name(name) => HeldItem::text(name),
        _ => HeldItem::Nothing,
    }
}

fn line_once(number: i64, answer: Answer) -> Once
    ensures item { (s : Scene) → once_item result s ≡ text_item_of (numbered number (lines_of answer)) }
    ensures sound { IsSoundOnce result }
{
    match answer {
        Answer::Content(content) => Once::Sought(Sought::LineAt { number, content }),
        _ => Once::Held(HeldItem::Nothing),
    }
}

fn sha1_once(answer: Answer) -> Once
    ensures item { (s : Scene) → once_item result s ≡ digest_item sha1 answer }
    ensures sound { IsSoundOnce result }
{
    match answer {
        Answer::Content(content) => Once::Sought(Sought::Sha1(content)),
        _ => Once::Held(HeldItem::Nothing),
    }
}

fn sha256_once(answer: Answer) -> Once
    ensures item { (s : Scene) → once_item result s ≡ digest_item sha256 answer }
    ensures sound { IsSoundOnce result }
{
    match answer {
        Answer::Content(content) => Once::Sought(Sought::Sha256(content)),
        _ => Once::Held(HeldItem::Nothing),
    }
}
