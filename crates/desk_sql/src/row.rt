use crate::stop::Stop;
use desk_base::Bytes;
use line_forms::read_digest;
use rel_lexer::Text;
use std::alloc::Global;

/// What a row has in a column.
#[derive(Drop)]
pub enum Cell {
    Null,
    Number(i64),
    Text(Bytes),
    Bytes(Bytes),
    /// What no column of a keeper has, as a number with a fraction.
    Other,
}

/// A row that a query gave: what it has in each column.
#[derive(Drop)]
pub struct Row {
    cells: Vec<Cell>,
}

impl Row {
    /// The row of these. It takes no memory.
    pub fn new(cells: Vec<Cell>) -> Row {
        Row { cells }
    }

    /// The bytes of a text in a column.
    pub(crate) fn word(&self, at: usize) -> Result<&[u8], Stop> {
        match self.cells.get(at) {
            Some(Cell::Text(bytes)) => Ok(bytes.as_slice()),
            _ => Err(Stop::OtherForm),
        }
    }

    /// The text in a column.
    pub(crate) fn text(&self, alloc: Global, at: usize) -> Result<Text, Stop> {
        let Ok(text) = str::from_utf8(self.word(at)?) else {
            return Err(Stop::OtherForm);
        };
        Ok(Text::from_str(alloc, text)?)
    }

    /// The bytes in a column. They are taken out, since they may be many.
    pub(crate) fn take_bytes(&mut self, at: usize) -> Result<Bytes, Stop> {
        let Some(cell) = self.cells.get_mut(at) else {
            return Err(Stop::OtherForm);
        };
        match std::mem::replace(cell, Cell::Null) {
            Cell::Bytes(bytes) => Ok(bytes),
            _ => Err(Stop::OtherForm),
        }
    }

    /// The digest in a column, where it stands in hexadecimal digits.
    pub(crate) fn digest(&self, at: usize) -> Result<[u8; 32], Stop> {
        match read_digest(self.word(at)?) {
            Some(digest) => Ok(digest),
            None => Err(Stop::OtherForm),
        }
    }

    /// The number in a column, or none.
    pub(crate) fn number_or_null(&self, at: usize) -> Result<Option<i64>, Stop> {
        match self.cells.get(at) {
            Some(Cell::Number(number)) => Ok(Some(*number)),
            Some(Cell::Null) => Ok(None),
            _ => Err(Stop::OtherForm),
        }
    }

    /// The number in a column, which may be below 0.
    pub(crate) fn signed(&self, at: usize) -> Result<i64, Stop> {
        match self.number_or_null(at)? {
            Some(number) => Ok(number),
            None => Err(Stop::OtherForm),
        }
    }

    /// The number in a column.
    pub(crate) fn number(&self, at: usize) -> Result<u64, Stop> {
        match u64::try_from(self.signed(at)?) {
            Ok(number) => Ok(number),
            Err(_) => Err(Stop::OtherForm),
        }
    }
}
