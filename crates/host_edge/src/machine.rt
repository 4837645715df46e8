ghost use Rattle.std.specs.Prelude.{◌≡◌, ◌≢◌, [], None, IfOk};
ghost use Rattle.desk_base.specs.Counts.{CountsFaults};
ghost use Rattle.bf_machine.specs.Acts.{CountsStarted};
ghost use Rattle.bf_world.specs.declared.command.ProcessNo.{ProcessNo};
ghost use Rattle.bf_world.specs.Answers.{IsGoodAnswer, HasAscendingNames};
ghost use Rattle.host_edge.specs.Commands.{IsChange};
ghost use Rattle.std.proofs.Common.{rules};

use crate::Host;
use crate::change::{Deed, Transfer};
use crate::list::entries_at;
use crate::missing::tells_missing_packages;
use crate::place::{longest_name, place_of};
use crate::processes::processes;
use crate::programs::{Programs, start};
use crate::read::content_at;
use crate::rows::spelled;
use crate::settings::SETTINGS;
use crate::stat::stat;
use crate::undone::Undone;
use bf_machine::{Looked, Machine};
use bf_world::{Acted, Answer, Command, Key, Polled, ProcessNo, Reason, joined};
use desk_base::Bytes;
use edge_faults::{Faults, Trouble};
use rel_lexer::Text;
use std::alloc::{AllocError, Global};
use std::mem::drop;

/// The name of the machine in what is told on standard error.
pub(crate) const MACHINE: &str = "machine";

/// The file of the work folder in which the packages stand.
pub(crate) const PACKAGES: &str = "packages";

/// The machine that the program runs on.
#[derive(Drop)]
pub struct HostMachine<H: Host> {
    pub(crate) host: H,
    /// The work folder.
    pub(crate) work: Text,
    programs: Programs<H::Started>,
    faults: Faults<H>,
    /// Whether it was told that the file `packages` is missing.
    told_missing: bool,
}

impl<H: Host> HostMachine<H> {
    /// The machine, whose work folder is the current folder, with nothing started and no faults so far. The error is want of memory.
    pub fn new(alloc: Global, host: H) -> Result<HostMachine<H>, AllocError>
        ensures started { IfOk result (λ m. m.programs ≡ 0) }
        ensures faults { IfOk result (λ m. m.faults ≡ 0) }
    {
        let errors = host.clone()?;
        Ok(HostMachine {
            host,
            work: Text::from_str(alloc, ".")?,
            programs: Programs::none(alloc),
            faults: Faults::none(MACHINE, errors),
            told_missing: false,
        })
    }

    /// What a look answers.
    fn answer(&self, key: &Key) -> Result<Answer, Trouble>
        ensures good { IfOk result IsGoodAnswer }
        ensures ascending { IfOk result HasAscendingNames }
    {
        match key {
            Key::Stat(path) => self.stat(path),
            Key::List(path) => self.list(path),
            Key::Read(path) => self.read(path),
            Key::Processes => processes(&self.host),
            _ => self.spelled(key),
        }
    }

    /// Tells once that the file `packages` is missing, where a look wants it.
    fn tell_missing(&mut self, key: &Key)
        ensures programs { self.new.programs ≡ self.old.programs }
        ensures faults { self.new.faults ≡ self.old.faults }
    {
        match key {
            Key::Packages if !self.told_missing => {
                self.told_missing = tells_missing_packages(&self.host, self.work.as_str());
            }
            _ => {}
        }
    }

    /// What a file of the work folder spells.
    fn spelled(&self, key: &Key) -> Result<Answer, Trouble>
        ensures good { IfOk result IsGoodAnswer }
        ensures ascending { IfOk result HasAscendingNames }
    {
        let text = self.text_of(subject_of_key(key))?;
        let answer = spelled(self.host.alloc(), key, text.as_slice());
        drop(text);
        Ok(answer?)
    }

    /// Where a path lies. None where the text is no path.
    fn place(&self, path: &Text) -> Result<Option<Text>, AllocError> {
        place_of(self.host.alloc(), self.work.as_str(), path.as_str())
    }

    fn stat(&self, path: &Text) -> Result<Answer, Trouble>
        ensures good { IfOk result IsGoodAnswer }
        ensures ascending { IfOk result HasAscendingNames }
    {
        match self.place(path)? {
            Some(place) => stat(&self.host, place.as_str()),
            None => Ok(Answer::Nothing),
        }
    }

    fn list(&self, path: &Text) -> Result<Answer, Trouble>
        ensures good { IfOk result IsGoodAnswer }
        ensures ascending { IfOk result HasAscendingNames }
    {
        let Some(place) = self.place(path)? else {
            return Ok(Answer::Nothing);
        };
        let entries = entries_at(&self.host, place.as_str(), longest_name(path.as_str()));
        drop(place);
        match entries? {
            Some(entries) => Ok(Answer::Entries(entries)),
            None => Ok(Answer::Nothing),
        }
    }

    fn read(&self, path: &Text) -> Result<Answer, Trouble>
        ensures good { IfOk result IsGoodAnswer }
        ensures ascending { IfOk result HasAscendingNames }
    {
        let Some(place) = self.place(path)? else {
            return Ok(Answer::Nothing);
        };
        let content = content_at(&self.host, place.as_str());
        drop(place);
        match content? {
            Some(content) => Ok(Answer::Content(content)),
            None => Ok(Answer::Nothing),
        }
    }

    /// The bytes of a file of the work folder, none where it isn't there.
    pub(crate) fn text_of(&self, name: &str) -> Result<Bytes, Trouble> {
        let place = joined(self.host.alloc(), self.work.as_str(), name)?;
        let content = content_at(&self.host, place.as_str());
        drop(place);
        match content? {
            Some(text) => Ok(text),
            None => Ok(Bytes::new(self.host.alloc())),
        }
    }
}

impl<H: Host> HostMachine<H> {
    /// Does a command that starts no program.
    fn change(&self, command: &Command) -> Result<(), Undone>
        requires { IsChange command.now }
    {
        match command {
            Command::Write(path, content) => {
                self.change_at(path, Deed::Write(content.as_slice()))
            }
            Command::Append(path, content) => {
                self.change_at(path, Deed::Append(content.as_slice()))
            }
            Command::Delete(path) => self.change_at(path, Deed::Delete),
            Command::Copy(from, to) => self.transfer(Transfer::Copy, from, to),
            Command::Move(from, to) => self.transfer(Transfer::Move, from, to),
            Command::MakeFolder(path) => self.change_at(path, Deed::MakeFolder),
            Command::DropFolder(path) => self.change_at(path, Deed::DropFolder),
            Command::Start { .. } => unreachable!(),
            Command::Put { name, value, date } => {
                self.put_setting(name.as_str(), value.as_str(), *date)
            }
            Command::Drop { name, date } => self.drop_setting(name.as_str(), *date),
            Command::Place(name, content) => self.place_file(name.as_str(), content.as_slice()),
        }
    }

    /// What a command answers that starts no program.
    fn settled(&mut self, command: &Command, done: Result<(), Undone>) -> Acted
        ensures unstarted { (process : ProcessNo) → result ≢ Acted.Started process }
        ensures programs { self.new.programs ≡ self.old.programs }
        ensures counts { CountsFaults (result ≡ Acted.Failed) self.old.faults self.new.faults }
    {
        match done {
            Ok(()) => Acted::Done,
            Err(Undone::Refused(reason)) => Acted::Refused(reason),
            Err(Undone::Trouble(Trouble::Memory)) => Acted::Memory,
            Err(Undone::Trouble(Trouble::System(error))) => {
                self.faults.add("act", subject_of(command), error);
                Acted::Failed
            }
        }
    }

    /// Starts a program.
    fn start(&mut self, line: &str) -> Acted
        ensures started { CountsStarted self.old.programs self.new.programs result }
        ensures never_done { result ≢ Acted.Done }
        ensures never_failed { result ≢ Acted.Failed }
        ensures steady { self.new.faults ≡ self.old.faults }
    {
        match start(&mut self.programs, &self.host, self.work.as_str(), line) {
            Ok(Some(process)) => Acted::Started(process),
            Ok(None) => Acted::Refused(Reason::NotStarted),
            Err(_) => Acted::Memory,
        }
    }
}

impl<H: Host> Machine for HostMachine<H> {
    ghost told = { λ m. record {
      world = None;
      looked = None;
      acted = None;
      polled = None;
      started = m.programs;
      faults = m.faults;
      holds = [];
    } };

    fn open(&mut self, work: &Text) -> Result<(), AllocError> {
        self.work = work.copy()?;
        Ok(())
    }

    fn look(&mut self, key: &Key) -> Looked {
        self.tell_missing(key);
        match self.answer(key) {
            Ok(answer) => Looked::Answer(answer),
            Err(Trouble::Memory) => Looked::Memory,
            Err(Trouble::System(error)) => {
                self.faults.add("look", subject_of_key(key), error);
                Looked::Failed
            }
        }
    }

    fn act(&mut self, command: &Command, _moment: i64) -> Acted {
        self.programs.reap();
        match command {
            Command::Start { line, .. } => self.start(line.as_str()),
            other => {
                let done = self.change(other);
                self.settled(other, done)
            }
        }
    }

    fn poll(&mut self, process: ProcessNo) -> Polled {
        self.programs.reap();
        match self.programs.exit(process.0) {
            Ok(None) => Polled::Running,
            Ok(Some(exit)) => Polled::Exited(exit),
            Err(error) => {
                self.faults.add("poll", "a program", error);
                Polled::Failed
            }
        }
    }

    ghost counted = { Prim.search rules };
}

/// What a look that failed is told by: a path, or the name of the file that it reads.
fn subject_of_key(key: &Key) -> &str {
    match key {
        Key::Stat(path) | Key::List(path) | Key::Read(path) => path.as_str(),
        Key::System => "system",
        Key::ComputerName => "name",
        Key::Processes => "/proc",
        Key::Packages => PACKAGES,
        Key::Settings => SETTINGS,
    }
}

/// What a command that failed is told by. Its paths are paths, and so have no byte below 32.
fn subject_of(command: &Command) -> &str {
    match command {
        Command::Write(path, _) | Command::Append(path, _) => path.as_str(),
        Command::Delete(path) => path.as_str(),
        Command::Copy(_, to) | Command::Move(_, to) => to.as_str(),
        Command::MakeFolder(path) | Command::DropFolder(path) => path.as_str(),
        Command::Start { .. } => "sh",
        Command::Put { .. } | Command::Drop { .. } => SETTINGS,
        Command::Place(name, _) => name.as_str(),
    }
}
