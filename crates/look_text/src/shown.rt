ghost use Rattle.std.specs.Prelude.{◌≡◌, ◌++◌, OnOk, flat_map};
ghost use Rattle.line_forms.specs.Fields.{field_text};
ghost use Rattle.look_text.specs.Texts.{AppendsShown, answer_text, entry_text, file_text, row_text, setting_text, two_texts};

use bf_machine::Looked;
use bf_world::{Answer, Entry, PackageRow, SettingRow};
use desk_base::Bytes;
use line_forms::write_signed_number;
use rel_lexer::Text;
use std::alloc::AllocError;

/// Appends what a look shows, or `failed`. The error is want of memory, that of the look or here; then `words` is of no use.
pub fn write_looked(looked: &Looked, words: &mut Bytes) -> Result<(), AllocError>
    ensures { OnOk result (AppendsShown looked.now words.old words.new) }
{
    match looked {
        Looked::Answer(answer) => write_answer(answer, words),
        Looked::Failed => words.extend(b"failed"),
        Looked::Memory => Err(AllocError),
    }
}

/// Appends an answer: a file's bytes as they are, and names with a space behind each.
fn write_answer(answer: &Answer, words: &mut Bytes) -> Result<(), AllocError>
    ensures { OnOk result (words.new ≡ words.old ++ answer_text answer.now) }
{
    match answer {
        Answer::Nothing => words.extend(b"nothing"),
        Answer::Folder => words.extend(b"folder"),
        Answer::File { size, modified } => write_file(*size, *modified, words),
        Answer::Entries(entries) => write_entries(entries.as_slice(), words),
        Answer::Content(content) => words.extend(content.as_slice()),
        Answer::System { name, version } => write_two(name, version, words),
        Answer::Name(name) => words.extend(name.as_str().as_bytes()),
        Answer::Names(names) => write_names(names.as_slice(), words),
        Answer::Packages(packages) => write_packages(packages.as_slice(), words),
        Answer::Settings(settings) => write_settings(settings.as_slice(), words),
    }
}

/// Appends `file`, the size and the moment.
#[tactic(auto, unfolding(crate::specs::Texts::file_text))]
fn write_file(size: i64, modified: i64, words: &mut Bytes) -> Result<(), AllocError>
    ensures { OnOk result (words.new ≡ words.old ++ file_text size modified) }
{
    words.extend(b"file ")?;
    write_signed_number(size, words)?;
    words.push(b' ')?;
    write_signed_number(modified, words)
}

/// Appends a text with a space behind it.
fn write_spaced(text: &Text, words: &mut Bytes) -> Result<(), AllocError>
    ensures { OnOk result (words.new ≡ words.old ++ field_text text.now) }
{
    words.extend(text.as_str().as_bytes())?;
    words.push(b' ')
}

/// Appends two texts, each with a space behind it.
#[tactic(auto, unfolding(crate::specs::Texts::two_texts))]
fn write_two(first: &Text, second: &Text, words: &mut Bytes) -> Result<(), AllocError>
    ensures { OnOk result (words.new ≡ words.old ++ two_texts first.now second.now) }
{
    write_spaced(first, words)?;
    write_spaced(second, words)
}

fn write_entries(entries: &[Entry], words: &mut Bytes) -> Result<(), AllocError>
    ensures { OnOk result (words.new ≡ words.old ++ flat_map entry_text entries.now) }
{
    for entry in entries {
        write_entry(entry, words)?;
    }
    Ok(())
}

/// Appends the name of an entry, that of a folder with a `/` behind it.
#[tactic(auto, unfolding(crate::specs::Texts::entry_text))]
fn write_entry(entry: &Entry, words: &mut Bytes) -> Result<(), AllocError>
    ensures { OnOk result (words.new ≡ words.old ++ entry_text entry.now) }
{
    words.extend(entry.name.as_str().as_bytes())?;
    if entry.folder {
        words.extend(b"/ ")
    } else {
        words.extend(b" ")
    }
}

fn write_names(names: &[Text], words: &mut Bytes) -> Result<(), AllocError>
    ensures { OnOk result (words.new ≡ words.old ++ flat_map field_text names.now) }
{
    for name in names {
        write_spaced(name, words)?;
    }
    Ok(())
}

fn write_packages(packages: &[PackageRow], words: &mut Bytes) -> Result<(), AllocError>
    ensures { OnOk result (words.new ≡ words.old ++ flat_map row_text packages.now) }
{
    for package in packages {
        write_two(&package.name, &package.version, words)?;
    }
    Ok(())
}

fn write_settings(settings: &[SettingRow], words: &mut Bytes) -> Result<(), AllocError>
    ensures { OnOk result (words.new ≡ words.old ++ flat_map setting_text settings.now) }
{
    for setting in settings {
        write_setting(setting, words)?;
    }
    Ok(())
}

/// Appends a setting's name, its date and its value.
#[tactic(auto, unfolding(crate::specs::Texts::setting_text))]
fn write_setting(setting: &SettingRow, words: &mut Bytes) -> Result<(), AllocError>
    ensures { OnOk result (words.new ≡ words.old ++ setting_text setting.now) }
{
    write_spaced(&setting.name, words)?;
    write_signed_number(setting.date, words)?;
    words.push(b' ')?;
    write_spaced(&setting.value, words)
}
