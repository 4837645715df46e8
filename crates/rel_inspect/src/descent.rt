ghost use Rattle.std.specs.Prelude.{◌≡◌, ◌<◌, [], length, IfOk, OnOk, None, Some};
ghost use Rattle.std.specs.Option.{option_copied};
ghost use Rattle.bf_world.specs.declared.key.Key.{Key};
ghost use Rattle.bf_world.specs.Shown.{shown};
ghost use Rattle.bf_world.specs.Worlds.{WorldState};
ghost use Rattle.rel_sources.specs.Traces.{After, Look, Turn};
ghost use Rattle.rel_sources.specs.Rows.{entries_of};
ghost use Rattle.rel_inspect.specs.Below.{descendants};
ghost use Rattle.rel_sources.specs.Steps.{Moves, Falls, GivesSound};
ghost use Rattle.rel_inspect.specs.Descents.{descent_left, asked_below, files_ahead, Enters};

use bf_world::{Answer, EntryList, Key, joined};
use rel_lexer::Text;
use rel_sources::WalkEvent;
use rel_value::Value;
use std::alloc::{AllocError, Global};
use std::mem;

/// The most folders in which a folder stands that is entered.
const DEEPEST: usize = 1023;

/// A folder whose entries are walked.
#[derive(Drop)]
pub(crate) struct Level {
    path: Text,
    entries: EntryList,
    next: usize,
}

/// What the next event is.
#[derive(Drop)]
pub(crate) enum Ahead {
    /// The turn of the next entry.
    Turn,
    /// The file of this path, which had its turn.
    File(Text),
    /// The look at the entries of the top folder.
    Look(Key),
}

/// The files below a folder.
#[derive(Drop)]
pub(crate) struct Descent {
    ahead: Ahead,
    top: Level,
    /// The folders in which the top one stands, from the first.
    above: Vec<Level>,
}

impl Level {
    /// A folder whose entries aren't known yet. It takes no memory.
    fn new(alloc: Global, path: Text) -> Level
        ensures path { result.path ≡ path }
        ensures entries { result.entries ≡ [] }
        ensures next { result.next ≡ 0 }
    {
        Level {
            path,
            entries: EntryList::from_vec(Vec::new(alloc)),
            next: 0,
        }
    }
}

impl Descent {
    pub(crate) fn new(alloc: Global, path: &Text) -> Result<Descent, AllocError>
        ensures { IfOk result (λ d. (w : WorldState) → descent_left w d ≡ descendants w path.now) }
    {
        Ok(Descent {
            ahead: Ahead::Look(Key::List(path.copy()?)),
            top: Level::new(alloc, path.copy()?),
            above: Vec::new(alloc),
        })
    }

    /// The key of the look that is the next event, where a look is.
    pub(crate) fn key(&self) -> Option<&Key>
        ensures { option_copied result ≡ asked_below self.now }
    {
        match &self.ahead {
            Ahead::Look(key) => Some(key),
            _ => None,
        }
    }

    /// What is left with the answer of the look. It takes no memory.
    pub(crate) fn taken(self, alloc: Global, answer: Answer) -> Descent
        ensures left { (w : WorldState) (k : Key) → asked_below self ≡ Some k → answer ≡ shown w k
            → descent_left w self ≡ After (Look k) (descent_left w result) }
        ensures asks { asked_below result ≡ None }
        ensures files { files_ahead result ≡ 0 }
    {
        let Descent {
            ahead: _ahead,
            top,
            above,
        } = self;
        let Level {
            path,
            entries: _entries,
            next: _next,
        } = top;
        Descent {
            ahead: Ahead::Turn,
            top: Level {
                path,
                entries: entries_of(alloc, answer),
                next: 0,
            },
            above,
        }
    }

    /// An event that is no look.
    pub(crate) fn step(&mut self, alloc: Global) -> WalkEvent
        requires { asked_below self.old ≡ None }
        ensures moves { (w : WorldState) → Moves (descent_left w self.old) result (descent_left w self.new) }
        ensures falls { Falls result (files_ahead self.old) (files_ahead self.new) }
        ensures sound { GivesSound result }
    {
        match mem::replace(&mut self.ahead, Ahead::Turn) {
            Ahead::File(path) => WalkEvent::Given(Value::File(path)),
            Ahead::Look(_) => WalkEvent::Over,
            Ahead::Turn => self.turn(alloc),
        }
    }

    /// The turn of the next entry, where one is left.
    fn turn(&mut self, alloc: Global) -> WalkEvent
        requires { self.old.ahead ≡ Ahead.Turn }
        ensures moves { (w : WorldState) → Moves (descent_left w self.old) result (descent_left w self.new) }
        ensures falls { Falls result 0 (files_ahead self.new) }
        ensures sound { GivesSound result }
    {
        while self.top.next >= self.top.entries.as_slice().len() {
            match self.above.pop() {
                Some(level) => self.top = level,
                None => return WalkEvent::Over,
            }
        }
        match self.go_on(alloc) {
            Ok(()) => WalkEvent::Turned,
            Err(_) => WalkEvent::Memory,
        }
    }

    /// Goes on to the next entry of the top folder.
    fn go_on(&mut self, alloc: Global) -> Result<(), AllocError>
        requires ahead { self.old.ahead ≡ Ahead.Turn }
        requires some { self.old.top.next < length self.old.top.entries }
        ensures { OnOk result ((w : WorldState) → descent_left w self.old ≡ After Turn (descent_left w self.new)) }
    {
        let entry = &self.top.entries.as_slice()[self.top.next];
        let path = joined(alloc, self.top.path.as_str(), entry.name.as_str())?;
        let folder = entry.folder;
        self.top.next += 1;
        if !folder {
            self.ahead = Ahead::File(path);
            return Ok(());
        }
        if self.above.len() < DEEPEST {
            return self.enter(alloc, path);
        }
        Ok(())
    }

    /// Puts a folder at the top, whose entries are looked up next.
    fn enter(&mut self, alloc: Global, path: Text) -> Result<(), AllocError>
        ensures { OnOk result (Enters self.old path self.new) }
    {
        let key = Key::List(path.copy()?);
        let level = mem::replace(&mut self.top, Level::new(alloc, path));
        self.above.push(level)?;
        self.ahead = Ahead::Look(key);
        Ok(())
    }
}

/// The entries that a look showed. It takes no memory.
fn entries_of(alloc: Global, answer: Answer) -> EntryList
    ensures { result ≡ entries_of answer }
{
    match answer {
        Answer::Entries(entries) => entries,
        _ => EntryList::from_vec(Vec::new(alloc)),
    }
}
