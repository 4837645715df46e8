ghost use Rattle.std.specs.Prelude.{◌≡◌, ◌≢◌, ◌++◌, OnOk, OnErr, IfOk, None, false, length, ◌+◌, ◌^◌, ◌<◌};
ghost use Rattle.desk_base.specs.Moments.{IsMoment};
ghost use Rattle.line_forms.specs.Paths.{IsPath};
ghost use Rattle.bf_world.specs.Answers.{HasMoment};
ghost use Rattle.bf_world.specs.Maps.{at};
ghost use Rattle.bf_world.specs.Worlds.{WorldState};
ghost use Rattle.bf_world.specs.Paths.{joined};
ghost use Rattle.bf_world.specs.Places.{content_at, is_file};
ghost use Rattle.bf_world.specs.Done.{CountsStarted, FitsCommand, StartsByStart, answer_of, refusal, checks, done, Acts, after, with_file, with_folder, with_started, with_setting, without_setting, is_older, download};

use crate::path::joined;
use crate::{Acted, Command, Node, ProcessNo, Run, SettingValue, World};
use desk_base::Bytes;
use line_forms::a_path_is_its_parts;
use rel_lexer::Text;
use std::alloc::AllocError;

/// The folder in which fetched files are placed.
pub(crate) const DOWNLOAD: &str = "__Download";

impl World {
    /// Does a command at a moment. Want of memory changes nothing.
    #[tactic(auto, using(crate::proofs::StartedLemmas::by_start))]
    pub fn act(&mut self, command: &Command, moment: i64) -> Acted
        requires moment { IsMoment moment }
        requires date { HasMoment command.now }
        ensures acts { Acts self.old self.new result (done self.old command.now moment) }
        ensures started { CountsStarted (length self.old.started) (length self.new.started) result }
        ensures by_start { StartsByStart command.now (length self.old.started) (length self.new.started) }
        ensures fits { FitsCommand command.now result }
        ensures never { result ≢ Acted.Failed }
    {
        match self.refusal(command) {
            Ok(None) => {}
            Ok(Some(reason)) => return Acted::Refused(reason),
            Err(_) => return Acted::Memory,
        }
        let number = self.started();
        match self.change(command, moment) {
            Ok(()) => answer_of(command, number),
            Err(_) => Acted::Memory,
        }
    }

    /// Does a command that isn't refused.
    fn change(&mut self, command: &Command, moment: i64) -> Result<(), AllocError>
        requires moment { IsMoment moment }
        requires date { HasMoment command.now }
        requires unrefused { refusal (checks self.old command.now) ≡ None }
        ensures ok { OnOk result (self.new ≡ after self.old command.now moment) }
        ensures err { OnErr result (self.new ≡ self.old) }
    {
        // Proof: the target of a command that isn't refused is a path.
        a_path_is_its_parts();
        match command {
            Command::Write(path, content) => self.set_file(path.as_str(), content.copy()?, moment),
            Command::Append(path, content) => self.append(
                path.as_str(),
                content.as_slice(),
                moment,
            ),
            Command::Delete(path) => {
                self.remove_node(path.as_str());
                Ok(())
            }
            Command::Copy(from, to) => {
                let content = self.content(from.as_str())?;
                self.set_file(to.as_str(), content, moment)
            }
            Command::Move(from, to) => {
                let content = self.content(from.as_str())?;
                self.set_file(to.as_str(), content, moment)?;
                self.remove_node(from.as_str());
                Ok(())
            }
            Command::MakeFolder(path) => self.make_folder(path.as_str()),
            Command::DropFolder(path) => {
                self.remove_node(path.as_str());
                Ok(())
            }
            Command::Start { line, .. } => self.start(line.as_str()),
            Command::Put { name, value, date } => self.put_setting(name.as_str(), value, *date),
            Command::Drop { name, date } => {
                self.drop_setting(name.as_str(), *date);
                Ok(())
            }
            Command::Place(name, content) => self.place(name.as_str(), content.copy()?, moment),
        }
    }

    fn set_file(&mut self, path: &str, content: Bytes, moment: i64) -> Result<(), AllocError>
        requires path { IsPath path.now }
        requires moment { IsMoment moment }
        ensures ok { OnOk result (self.new ≡ with_file path.now content moment self.old) }
        ensures err { OnErr result (self.new ≡ self.old) }
    {
        self.set_node(
            path,
            Node::File {
                content,
                modified: moment,
            },
        )
    }

    /// The bytes of the file at a path, none where no file is there.
    fn content(&self, path: &str) -> Result<Bytes, AllocError>
        ensures { IfOk result (λ content. content ≡ content_at self.now path.now) }
    {
        if path == "/" {
            return Ok(Bytes::new(self.alloc));
        }
        match self.paths.get(path) {
            Some(Node::File { content, .. }) => Ok(content.copy()?),
            Some(Node::Folder) => Ok(Bytes::new(self.alloc)),
            None => Ok(Bytes::new(self.alloc)),
        }
    }

    fn append(&mut self, path: &str, more: &[u8], moment: i64) -> Result<(), AllocError>
        requires path { IsPath path.now }
        requires moment { IsMoment moment }
        ensures ok { OnOk result (self.new ≡ with_file path.now (content_at self.old path.now ++ more.now) moment self.old) }
        ensures err { OnErr result (self.new ≡ self.old) }
    {
        let mut content = self.content(path)?;
        content.extend(more)?;
        self.set_file(path, content, moment)
    }

    fn make_folder(&mut self, path: &str) -> Result<(), AllocError>
        requires { IsPath path.now }
        ensures ok { OnOk result (self.new ≡ with_folder path.now self.old) }
        ensures err { OnErr result (self.new ≡ self.old) }
    {
        if self.is_folder(path) {
            return Ok(());
        }
        self.set_node(path, Node::Folder)
    }

    /// The folder is made first, and taken away again where there is no memory for the file.
    fn place(&mut self, name: &str, content: Bytes, moment: i64) -> Result<(), AllocError>
        requires path { IsPath (joined download name.now) }
        requires moment { IsMoment moment }
        requires no_file { is_file self.old download ≡ false }
        ensures ok { OnOk result (self.new ≡ with_file (joined download name.now) content moment (with_folder download self.old)) }
        ensures err { OnErr result (self.new ≡ self.old) }
    {
        // Proof: the folder is at a path.
        a_path_is_its_parts();
        let path = joined(self.alloc, DOWNLOAD, name)?;
        if self.is_folder(DOWNLOAD) {
            return self.set_file(path.as_str(), content, moment);
        }
        self.set_node(DOWNLOAD, Node::Folder)?;
        match self.set_file(path.as_str(), content, moment) {
            Ok(()) => Ok(()),
            Err(error) => {
                self.remove_node(DOWNLOAD);
                Err(error)
            }
        }
    }

    /// Starts a program, where its line is known.
    fn start(&mut self, line: &str) -> Result<(), AllocError>
        requires { length self.old.started + 1 < 2 ^ 32 }
        ensures ok { OnOk result (self.new ≡ with_started (at line.now self.old.programs) self.old) }
        ensures err { OnErr result (self.new ≡ self.old) }
    {
        let Some(program) = self.programs.get(line) else {
            return Ok(());
        };
        let run = Run {
            left: program.polls,
            exit: program.exit,
        };
        let packages = self.packages_with(program.gives.as_slice())?;
        self.add_started(run, packages)
    }

    /// Whether a setting has no value, or one from before this moment.
    fn is_older(&self, name: &str, date: i64) -> bool
        ensures { result ≡ is_older (at name.now self.now.settings) date }
    {
        match self.settings.get(name) {
            None => true,
            Some(setting) => setting.date < date,
        }
    }

    fn put_setting(&mut self, name: &str, value: &Text, date: i64) -> Result<(), AllocError>
        requires { IsMoment date }
        ensures ok { OnOk result (self.new ≡ with_setting name.now (record { value = value.now; date = date }) self.old) }
        ensures err { OnErr result (self.new ≡ self.old) }
    {
        if !self.is_older(name, date) {
            return Ok(());
        }
        let value = value.copy()?;
        self.set_setting(name, SettingValue { value, date })
    }

    fn drop_setting(&mut self, name: &str, date: i64)
        ensures { self.new ≡ without_setting name.now date self.old }
    {
        if self.is_older(name, date) {
            self.remove_setting(name);
        }
    }
}

/// What a command answers that was done, with this number for a program that it started.
fn answer_of(command: &Command, number: u32) -> Acted
    ensures answer { (w : WorldState) → length w.started ≡ number → result ≡ answer_of w command.now }
    ensures fits { FitsCommand command.now result }
    ensures never { result ≢ Acted.Failed }
{
    match command {
        Command::Start { .. } => Acted::Started(ProcessNo(number)),
        Command::Write(_, _) => Acted::Done,
        Command::Append(_, _) => Acted::Done,
        Command::Delete(_) => Acted::Done,
        Command::Copy(_, _) => Acted::Done,
        Command::Move(_, _) => Acted::Done,
        Command::MakeFolder(_) => Acted::Done,
        Command::DropFolder(_) => Acted::Done,
        Command::Put { .. } => Acted::Done,
        Command::Drop { .. } => Acted::Done,
        Command::Place(_, _) => Acted::Done,
    }
}
