ghost use Rattle.std.specs.Prelude.{◌≡◌, ◌<◌, ◌+◌, ◌^◌, [], length, map, IfOk, OnOk, OnErr, IfSome, IsSomeAnd, MatchOption, None, Some};
ghost use Rattle.std.specs.Option.{option_map};
ghost use Rattle.desk_base.specs.Moments.{IsMoment};
ghost use Rattle.line_forms.specs.Numbers.{IsId};
ghost use Rattle.act_rules.specs.Rows.{HasEnded, HasMoments, last_row};
ghost use Rattle.agent_text.specs.SavedRows.{IsSavedNote, IsSavedRow};
ghost use Rattle.agent_text.specs.Histories.{AreHistories, IsHistory, shown_history, rows_at, with_begun, with_cleared, with_ended, with_reported};
ghost use Rattle.agent_text.specs.Befores.{IsHistoryOf, before_of, with_before};
ghost use Rattle.agent_text.specs.KeptTexts.{AreKept, KeepsText, KeepsTextIf};
ghost use Rattle.agent_text.specs.MadeTexts.{nothing_made};
ghost use Rattle.agent_text.specs.PartReadings.{HasPlace};

use crate::before::Before;
use crate::history::History;
use crate::kept_histories::{KeptHistories, join};
use crate::made::Made;
use act_rules::{Note, Outcome, Row, Rows};
use std::alloc::{AllocError, Global};
use std::marker::Model;
use std::mem::{self, drop};

/// The attempts of actions, in strictly ascending order of their ids. Contracts see the list of the histories.
#[derive(Drop)]
pub struct Histories {
    list: Vec<History>,
    /// The lines of the first of them, as they are saved.
    made: Made,
}

impl Model for Histories {
    ghost use Rattle.std.specs.Prelude.{List, map};
    ghost use Rattle.agent_text.specs.Histories.{PlainHistory, shown_history};
    ghost use Rattle.agent_text.specs.KeptTexts.{AreKept};

    ghost Value = { List PlainHistory };

    ghost view = { λ h. map shown_history h.list.items };

    ghost invariant = { λ h. AreKept h.list.items h.made };
}

impl Histories {
    /// No attempts.
    pub fn new(alloc: Global) -> Histories
        ensures { result ≡ [] }
    {
        Histories {
            list: Vec::new(alloc),
            made: Made::new(alloc),
        }
    }

    /// The list of these histories.
    pub(crate) fn from_vec(list: Vec<History>) -> Histories
        requires { AreKept list.items nothing_made }
        ensures { result ≡ map shown_history list.items }
    {
        let made = Made::new(*list.allocator());
        Histories { list, made }
    }

    /// The histories.
    pub fn as_slice(&self) -> &[History]
        ensures value { map shown_history result.now ≡ self.now }
        ensures good { AreHistories self.now }
    {
        self.list.as_slice()
    }

    /// The histories and the bytes that are kept of them.
    pub(crate) fn kept(&self) -> KeptHistories<'_>
        ensures value { map shown_history result.list.now ≡ self.now }
        ensures kept { AreKept result.list.now result.made.now }
    {
        KeptHistories {
            list: self.list.as_slice(),
            made: &self.made,
        }
    }

    /// The same histories once more. The error is want of memory, here and below.
    pub fn copy(&self) -> Result<Histories, AllocError>
        ensures { IfOk result (λ copy. copy ≡ self.now) }
    {
        let mut list = Vec::new(*self.list.allocator());
        for history in self.list.as_slice() {
            list.push(history.copy()?)?;
        }
        let made = Made::new(*list.allocator());
        Ok(Histories { list, made })
    }

    /// The rows of an action, if it has any.
    pub fn rows(&self, action: u64) -> Option<&Rows>
        ensures value { MatchOption result (rows_at action self.now ≡ []) (λ rows. rows.now.rows ≡ rows_at action self.now) }
        ensures some { IfSome result (λ rows. 0 < length rows.now.rows) }
    {
        self.rows_near(action, 0)
    }

    /// The rows of an action, if it has any. This place is looked at first, so that they are found at once where its history stands
    /// there.
    pub fn rows_near(&self, action: u64, place: usize) -> Option<&Rows>
        ensures value { MatchOption result (rows_at action self.now ≡ []) (λ rows. rows.now.rows ≡ rows_at action self.now) }
        ensures some { IfSome result (λ rows. 0 < length rows.now.rows) }
    {
        match self.place_near(action, place) {
            Ok(place) => Some(&self.list[place].rows),
            Err(_) => None,
        }
    }

    /// The place of the history of this action, or the one where it would stand. This place is looked at first.
    fn place_near(&self, action: u64, place: usize) -> Result<usize, usize>
        ensures { HasPlace self.now action result }
    {
        if let Some(history) = self.list.as_slice().get(place)
            && history.action == action
        {
            return Ok(place);
        }
        self.place(action)
    }

    /// The place of the history of this action, or the one where it would stand.
    fn place(&self, action: u64) -> Result<usize, usize>
        ensures { HasPlace self.now action result }
    {
        self.list
            .as_slice()
            .binary_search_by(|history| history.action.cmp(&action))
    }

    /// An attempt of this action begins: a row that runs, with the next number. The action is pending then. At an error nothing
    /// has changed.
    pub fn begin(&mut self, alloc: Global, action: u64, row: Row) -> Result<(), AllocError>
        requires action { IsId action }
        requires ended { IfSome (last_row (rows_at action self.old)) HasEnded }
        requires few { length (rows_at action self.old) + 1 < 2 ^ 32 }
        requires number { row.number ≡ length (rows_at action self.old) + 1 }
        requires moments { HasMoments row }
        requires good { IsSavedRow row }
        ensures ok { OnOk result (self.new ≡ with_begun action row self.old) }
        ensures err { OnErr result (self.new ≡ self.old) }
    {
        match self.place(action) {
            Ok(place) => {
                self.made.leave(place);
                self.list[place].begin(row)
            }
            Err(place) => {
                let mut rows = Rows::new(alloc);
                rows.push(row)?;
                let history = History {
                    action,
                    rows,
                    pending: true,
                    text: None,
                };
                self.made.leave(place);
                Ok(self.list.insert(place, history)?)
            }
        }
    }

    /// The attempt of this action that runs ends. The action is pending then. It takes no memory.
    pub fn end(&mut self, action: u64, moment: i64, outcome: Outcome, note: Note)
        requires moment { IsMoment moment }
        requires running { IsSomeAnd (last_row (rows_at action self.old)) (λ row. row.end ≡ None) }
        requires note { IsSavedNote outcome note }
        ensures { self.new ≡ with_ended action moment outcome note self.old }
    {
        if let Ok(place) = self.place(action) {
            self.made.leave(place);
            self.list[place].end(moment, outcome, note);
        }
    }

    /// The last attempt of this action, which has ended, is cleared. It takes no memory.
    pub fn clear(&mut self, action: u64, moment: i64)
        requires moment { IsMoment moment }
        requires ended { IsSomeAnd (last_row (rows_at action self.old)) HasEnded }
        requires unmarked { IsSomeAnd (last_row (rows_at action self.old)) (λ row. row.cleared ≡ None) }
        ensures { self.new ≡ with_cleared action moment self.old }
    {
        if let Ok(place) = self.place(action) {
            self.made.leave(place);
            self.list[place].clear(moment);
        }
    }

    /// The first so many actions that are pending are reported. It takes no memory.
    pub fn report(&mut self, most: usize)
        ensures { self.new ≡ with_reported most self.old }
    {
        let mut left = most;
        for history in self.list.iter_mut() {
            if left > 0 && history.pending {
                history.pending = false;
                left -= 1;
            }
        }
    }

    /// What stands of an action, so that it can be put back.
    pub fn before(&self, action: u64) -> Result<Before, AllocError>
        ensures { IfOk result (λ before. before ≡ before_of action self.now) }
    {
        Ok(Before {
            action,
            history: self.copied(action)?,
        })
    }

    /// The history of an action once more, if it has one.
    fn copied(&self, action: u64) -> Result<Option<History>, AllocError>
        ensures found { IfOk result (λ found. option_map shown_history found ≡ (before_of action self.now).history) }
        ensures good { IfOk result (λ found. IfSome (option_map shown_history found) (IsHistoryOf action)) }
        ensures kept { IfOk result KeepsTextIf }
    {
        match self.place(action) {
            Ok(place) => Ok(Some(self.list[place].copy()?)),
            Err(_) => Ok(None),
        }
    }

    /// Puts back what stood of an action, in place of the history that it has now. It takes no memory.
    pub fn put_back(&mut self, before: Before)
        ensures { self.new ≡ with_before before self.old }
    {
        let Before { action, history } = before;
        match history {
            Some(history) => self.replace(history),
            None => self.remove(action),
        }
    }

    /// Puts this history in place of that of its action.
    fn replace(&mut self, history: History)
        requires good { IsHistory (shown_history history) }
        requires kept { KeepsText history }
        ensures { self.new ≡ with_before (record {
          action = history.action;
          history = Some (shown_history history);
        }) self.old }
    {
        if let Ok(place) = self.place(history.action) {
            self.made.leave(place);
            drop(mem::replace(&mut self.list[place], history));
        }
    }

    /// Drops the history of an action.
    fn remove(&mut self, action: u64)
        ensures { self.new ≡ with_before (record { action = action; history = None }) self.old }
    {
        if let Ok(place) = self.place(action) {
            self.made.leave(place);
            drop(self.list.remove(place));
        }
    }

    /// Makes the bytes of the lines of each history that has none, so that the text that is saved is put together by copying. At an error
    /// some may have none.
    pub fn keep_texts(&mut self, alloc: Global) -> Result<(), AllocError>
        ensures { self.new ≡ self.old }
    {
        for place in self.made.count()..self.list.len() {
            self.keep_text(alloc, place)?;
        }
        Ok(())
    }

    /// Makes the bytes of the lines of the history at this place, if it has none. They are joined to those of the histories before it,
    /// if these are joined, but for a pending history, which changes soon.
    fn keep_text(&mut self, alloc: Global, place: usize) -> Result<(), AllocError>
        requires { place < length self.old }
        ensures { self.new ≡ self.old }
    {
        self.list[place].keep_text(alloc)?;
        join(&self.list[place], place, &mut self.made)
    }
}
