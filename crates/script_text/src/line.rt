ghost use Rattle.std.specs.Prelude.{◌≡◌, IfOk};

use crate::{Template, TemplateList};
use rel_lexer::Text;
use std::alloc::AllocError;

/// What one line of a script does, and a `createfile` with its lines.
#[derive(Drop)]
pub enum Line {
    /// The parameter of this name, without braces and quotes, gets this text.
    Parameter(Text, Template),
    /// The script fails here where the test is false.
    ContinueIf(Text),
    /// The script waits here while the test is true.
    PauseWhile(Text),
    /// The lines of the file.
    Create(TemplateList),
    /// A line for the appended file.
    Append(Template),
    /// A path.
    Delete(Template),
    /// From a path to a path.
    Copy(Template, Template),
    /// From a path to a path.
    Move(Template, Template),
    /// A path.
    FolderCreate(Template),
    /// A path.
    FolderDelete(Template),
    /// A command line.
    Run(Template),
    /// A command line.
    Wait(Template),
    /// A command line.
    RunHidden(Template),
    /// A command line.
    WaitHidden(Template),
    /// The name, the value and the date.
    Setting(Template, Template, Template),
    /// The name and the date.
    SettingDelete(Template, Template),
}

impl Line {
    /// The same line once more.
    pub fn copy(&self) -> Result<Line, AllocError>
        ensures { IfOk result (λ line. line ≡ self.now) }
    {
        Ok(match self {
            Line::Parameter(name, text) => Line::Parameter(name.copy()?, text.copy()?),
            Line::ContinueIf(test) => Line::ContinueIf(test.copy()?),
            Line::PauseWhile(test) => Line::PauseWhile(test.copy()?),
            Line::Create(lines) => Line::Create(lines.copy()?),
            Line::Append(text) => Line::Append(text.copy()?),
            Line::Delete(path) => Line::Delete(path.copy()?),
            Line::Copy(from, to) => Line::Copy(from.copy()?, to.copy()?),
            Line::Move(from, to) => Line::Move(from.copy()?, to.copy()?),
            Line::FolderCreate(path) => Line::FolderCreate(path.copy()?),
            Line::FolderDelete(path) => Line::FolderDelete(path.copy()?),
            Line::Run(command) => Line::Run(command.copy()?),
            Line::Wait(command) => Line::Wait(command.copy()?),
            Line::RunHidden(command) => Line::RunHidden(command.copy()?),
            Line::WaitHidden(command) => Line::WaitHidden(command.copy()?),
            Line::Setting(name, value, date) => {
                Line::Setting(name.copy()?, value.copy()?, date.copy()?)
            }
            Line::SettingDelete(name, date) => Line::SettingDelete(name.copy()?, date.copy()?),
        })
    }
}
