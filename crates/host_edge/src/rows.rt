ghost use Rattle.std.specs.Prelude.{IfOk, IfSome};
ghost use Rattle.desk_base.specs.Moments.{IsMoment};
ghost use Rattle.line_forms.specs.Versions.{IsVersion};
ghost use Rattle.bf_world.specs.Answers.{IsGoodAnswer, HasAscendingNames};

use bf_world::{Answer, Key, SettingValue, World};
use line_forms::{Ahead, Lines, first_field, read_moment, read_name, read_rest, read_version};
use rel_lexer::Text;
use std::alloc::{AllocError, Global};

/// A version and the name of what has it, as a line spells them: `VERSION NAME`.
#[derive(Drop)]
struct Versioned<'a> {
    version: &'a str,
    name: &'a str,
}

/// A setting as a line spells it: `DATE NAME VALUE`.
#[derive(Drop)]
pub(crate) struct SettingLine<'a> {
    pub(crate) date: i64,
    pub(crate) name: &'a str,
    pub(crate) value: &'a str,
}

/// What a machine is of which nothing is known, and to which rows are added: `host`, with the system `0 unknown`.
pub(crate) fn bare_world(alloc: Global) -> Result<World, AllocError> {
    let name = Text::from_str(alloc, "host")?;
    let system = Text::from_str(alloc, "unknown")?;
    let version = Text::from_str(alloc, "0")?;
    Ok(World::new(alloc, name, system, version, 0, 0))
}

/// What the text of a file of the work folder spells to a look: the operating system, the computer's name, the packages, or else the
/// settings.
pub(crate) fn spelled(alloc: Global, key: &Key, text: &[u8]) -> Result<Answer, AllocError>
    ensures good { IfOk result IsGoodAnswer }
    ensures ascending { IfOk result HasAscendingNames }
{
    match key {
        Key::System => system_of(alloc, text),
        Key::ComputerName => computer_name_of(alloc, text),
        Key::Packages => packages_of(alloc, text),
        _ => settings_of(alloc, text),
    }
}

/// The operating system, of the text of the file `system`.
fn system_of(alloc: Global, text: &[u8]) -> Result<Answer, AllocError>
    ensures good { IfOk result IsGoodAnswer }
    ensures ascending { IfOk result HasAscendingNames }
{
    let Some(system) = read_system(text) else {
        return bare_world(alloc)?.look(&Key::System);
    };
    Ok(Answer::System {
        name: Text::from_str(alloc, system.name)?,
        version: Text::from_str(alloc, system.version)?,
    })
}

/// The computer's name, of the text of the file `name`.
fn computer_name_of(alloc: Global, text: &[u8]) -> Result<Answer, AllocError>
    ensures good { IfOk result IsGoodAnswer }
    ensures ascending { IfOk result HasAscendingNames }
{
    match read_computer_name(text) {
        Some(name) => Ok(Answer::Name(Text::from_str(alloc, name)?)),
        None => bare_world(alloc)?.look(&Key::ComputerName),
    }
}

/// The packages, of the text of the file `packages`. Of a name that stands twice the later line stands; lines of another form are passed
/// over.
fn packages_of(alloc: Global, text: &[u8]) -> Result<Answer, AllocError>
    ensures good { IfOk result IsGoodAnswer }
    ensures ascending { IfOk result HasAscendingNames }
{
    let mut world = bare_world(alloc)?;
    let mut lines = Lines::new(text);
    while let Ahead::Line(line) = lines.take_line() {
        if let Some(package) = read_versioned(line) {
            let version = Text::from_str(alloc, package.version)?;
            world.set_package(package.name, version)?;
        }
    }
    world.look(&Key::Packages)
}

/// The settings, of the text of the file `settings`, likewise.
fn settings_of(alloc: Global, text: &[u8]) -> Result<Answer, AllocError>
    ensures good { IfOk result IsGoodAnswer }
    ensures ascending { IfOk result HasAscendingNames }
{
    let mut world = bare_world(alloc)?;
    let mut lines = Lines::new(text);
    while let Ahead::Line(line) = lines.take_line() {
        if let Some(setting) = read_setting(line) {
            let value = Text::from_str(alloc, setting.value)?;
            let date = setting.date;
            world.set_setting(setting.name, SettingValue { value, date })?;
        }
    }
    world.look(&Key::Settings)
}

/// `VERSION NAME`
fn read_versioned(line: &[u8]) -> Option<Versioned<'_>>
    ensures { IfSome result (λ row. IsVersion row.version.now) }
{
    let cut = first_field(line)?;
    let Some(version) = read_version(cut.first) else {
        return None;
    };
    let name = read_rest(cut.rest)?;
    Some(Versioned { version, name })
}

/// The one line of a text, ended by an LF, as `VERSION NAME`.
fn read_system(text: &[u8]) -> Option<Versioned<'_>>
    ensures { IfSome result (λ row. IsVersion row.version.now) }
{
    read_versioned(text.strip_suffix(b"\n")?)
}

/// The one line of a text, ended by an LF, as a name.
fn read_computer_name(text: &[u8]) -> Option<&str> {
    read_name(text.strip_suffix(b"\n")?)
}

/// `DATE NAME VALUE`
pub(crate) fn read_setting(line: &[u8]) -> Option<SettingLine<'_>>
    ensures { IfSome result (λ setting. IsMoment setting.date) }
{
    let date = first_field(line)?;
    let name = first_field(date.rest)?;
    Some(SettingLine {
        date: read_moment(date.first)?,
        name: read_name(name.first)?,
        value: read_rest(name.rest)?,
    })
}
