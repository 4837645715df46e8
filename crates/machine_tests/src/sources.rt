// What no question shows: a described world's contents have no wrong bytes and end with LF, and a question has no parameters.
use desk_base::Bytes;
use rel_lexer::Text;
use rel_sources::{Drawn, HeldItem, ItemSource, Lines, Pairs, Scene, last_part, readable};
use rel_value::Value;
use std::alloc::Global;

fn text(alloc: Global, text: &str) -> Option<Text> {
    Text::from_str(alloc, text).ok()
}

/// Writes the texts that a source gives, up to its end, each in brackets, and `-` for each item without a value.
fn draw_all(alloc: Global, source: &mut ItemSource, words: &mut String) -> Option<()> {
    for _ in 0..10 {
        match source.draw(alloc) {
            Drawn::Item(held) => write(&held, words)?,
            Drawn::End => return Some(()),
            Drawn::Memory => return None,
        }
    }
    None
}

fn write(held: &HeldItem, words: &mut String) -> Option<()> {
    match held {
        HeldItem::Value(Value::Text(text)) => write_text(text.as_str(), words),
        HeldItem::Nothing => words.push_str("-").ok(),
        _ => None,
    }
}

fn write_text(text: &str, words: &mut String) -> Option<()> {
    words.push_str("[").ok()?;
    words.push_str(text).ok()?;
    words.push_str("]").ok()
}

/// Writes the lines of a content that contain a text.
fn write_lines(
    alloc: Global,
    wanted: Option<Text>,
    content: &[u8],
    words: &mut String,
) -> Option<()> {
    let content = Bytes::from_slice(alloc, content).ok()?;
    let mut source = ItemSource::Lines(Lines::new(wanted, content));
    draw_all(alloc, &mut source, words)
}

#[test]
fn a_last_line_may_have_no_line_feed(rt: HostRuntime) {
    let alloc = rt.alloc();
    let mut words = String::new(alloc);
    assert!(rt; write_lines(alloc, None, b"a\r\nb\n\nc\r", &mut words).is_some());
    assert_eq!(rt; words.as_str(), "[a][b][][c\r]");
}

/// Whether bytes are read as this text.
fn reads_as(alloc: Global, bytes: &[u8], wanted: &str) -> Option<bool> {
    let text = readable(alloc, bytes).ok()?;
    Some(text.as_str() == wanted)
}

#[test]
fn each_wrong_byte_is_marked(rt: HostRuntime) {
    assert_eq!(rt; reads_as(rt.alloc(), b"\xe2\x82A", "??A"), Some(true));
}

/// Where the rightmost part of a text with these bytes stands.
fn last_place(alloc: Global, wanted: &str) -> Option<(u32, u32)> {
    match last_part(alloc, wanted, "aaa").ok()? {
        HeldItem::Value(Value::Part { from, to, .. }) => Some((from, to)),
        _ => None,
    }
}

#[test]
fn the_rightmost_part_overlaps(rt: HostRuntime) {
    assert_eq!(rt; last_place(rt.alloc(), "aa"), Some((1, 3)));
}

/// A scene with the parameter `a`, which is `1`.
fn scene(alloc: Global) -> Option<Scene> {
    let mut parameters = Pairs::new(alloc);
    parameters.push(text(alloc, "a")?, text(alloc, "1")?).ok()?;
    Some(Scene {
        moment: 1000,
        offset: 0,
        parameters,
        exit: Some(3),
    })
}

/// Whether the parameter of this name is `1` in a copy of the scene.
fn is_copied(alloc: Global, name: &str) -> Option<bool> {
    let copy = scene(alloc)?.copy().ok()?;
    Some(copy.parameters.value_of(name)?.as_str() == "1")
}

#[test]
fn a_copied_scene_has_its_parameters(rt: HostRuntime) {
    assert_eq!(rt; is_copied(rt.alloc(), "a"), Some(true));
    assert_eq!(rt; is_copied(rt.alloc(), "aa"), None);
}
