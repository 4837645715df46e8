use crate::rows::read_setting;
use crate::undone::Undone;
use crate::{Host, HostMachine};
use bf_world::joined;
use desk_base::Bytes;
use edge_faults::Trouble;
use line_forms::{
    Ahead, Lines, read_name, read_rest, write_field, write_line, write_signed_number,
};
use std::alloc::{AllocError, Global};
use std::io::{Error, ErrorKind};
use std::mem::drop;

/// The file of the work folder in which the settings stand.
pub(crate) const SETTINGS: &str = "settings";

/// The commands on settings. All lines of the file that don't spell the setting stay as they stand.
impl<H: Host> HostMachine<H> {
    /// Sets a setting, where it has no value or one from before the date.
    pub(crate) fn put_setting(&self, name: &str, value: &str, date: i64) -> Result<(), Undone> {
        let text = self.text_of(SETTINGS)?;
        let done = self.put_into(text.as_slice(), name, value, date);
        drop(text);
        done
    }

    /// Sets a setting in the text of the file `settings`, likewise.
    fn put_into(&self, text: &[u8], name: &str, value: &str, date: i64) -> Result<(), Undone> {
        match date_in(text, name) {
            Some(kept) if kept >= date => return Ok(()),
            _ => {}
        }
        if !has_line(name, value) {
            return Err(no_line());
        }
        let lines = with(self.host.alloc(), text, name, value, date)?;
        let done = self.put_settings(lines.as_slice());
        drop(lines);
        done
    }

    /// Drops a setting, where it has a value from before the date.
    pub(crate) fn drop_setting(&self, name: &str, date: i64) -> Result<(), Undone> {
        let text = self.text_of(SETTINGS)?;
        let done = self.drop_from(text.as_slice(), name, date);
        drop(text);
        done
    }

    /// Drops a setting from the text of the file `settings`, likewise.
    fn drop_from(&self, text: &[u8], name: &str, date: i64) -> Result<(), Undone> {
        match date_in(text, name) {
            Some(kept) if kept < date => {}
            _ => return Ok(()),
        }
        let lines = without(self.host.alloc(), text, name)?;
        let done = self.put_settings(lines.as_slice());
        drop(lines);
        done
    }

    fn put_settings(&self, text: &[u8]) -> Result<(), Undone> {
        let place = joined(self.host.alloc(), self.work.as_str(), SETTINGS)?;
        let done = self.put_file(&place, text);
        drop(place);
        done
    }
}

fn no_line() -> Undone {
    let words = "the name or the value can't stand in a line";
    Undone::Trouble(Trouble::System(Error::new(ErrorKind::InvalidInput, words)))
}

/// Whether a line spells the setting of this name.
fn is_of(line: &[u8], name: &str) -> bool {
    match read_setting(line) {
        Some(setting) => setting.name == name,
        None => false,
    }
}

/// The date of the setting of this name in the text of the file `settings`: that of its last line, as a look sees them.
fn date_in(text: &[u8], name: &str) -> Option<i64> {
    let mut date = None;
    let mut lines = Lines::new(text);
    while let Ahead::Line(line) = lines.take_line() {
        if let Some(setting) = read_setting(line) {
            if setting.name == name {
                date = Some(setting.date);
            }
        }
    }
    date
}

/// Whether a name and a value can stand in a line of `settings`.
fn has_line(name: &str, value: &str) -> bool {
    read_name(name.as_bytes()).is_some() && read_rest(value.as_bytes()).is_some()
}

/// The lines of a text that don't spell the setting of this name, as they stand. Bytes that no LF ends are a last line, which gets one.
fn without(alloc: Global, text: &[u8], name: &str) -> Result<Bytes, AllocError> {
    let mut kept = Bytes::new(alloc);
    let mut lines = Lines::new(text);
    while let Ahead::Line(line) = lines.take_line() {
        if !is_of(line, name) {
            write_line(alloc, line, &mut kept)?;
        }
    }
    let last = unended(text);
    if !last.is_empty() && !is_of(last, name) {
        write_line(alloc, last, &mut kept)?;
    }
    Ok(kept)
}

/// What stands behind the last LF of a text.
fn unended(text: &[u8]) -> &[u8] {
    text.rsplit(|byte| *byte == b'\n').next().unwrap_or(text)
}

/// The same, and behind them the setting of this name.
fn with(
    alloc: Global,
    text: &[u8],
    name: &str,
    value: &str,
    date: i64,
) -> Result<Bytes, AllocError> {
    let mut lines = without(alloc, text, name)?;
    write_signed_number(date, &mut lines)?;
    lines.push(b' ')?;
    write_field(alloc, name.as_bytes(), &mut lines)?;
    write_line(alloc, value.as_bytes(), &mut lines)?;
    Ok(lines)
}
