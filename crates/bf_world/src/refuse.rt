ghost use Rattle.std.specs.Prelude.{◌≡◌, IfOk};
ghost use Rattle.bf_world.specs.Maps.{at};
ghost use Rattle.bf_world.specs.Done.{refusal, checks, write_checks, delete_checks, copy_checks, make_checks, drop_checks, start_checks, place_checks};

use crate::path::{is_free, is_part, is_path, joined};
use crate::{Command, DOWNLOAD, Reason, World};
use std::alloc::AllocError;

/// The most programs that are started.
const MOST_STARTED: usize = 4_294_967_295;

impl World {
    /// Why a command isn't done, if so. The error is want of memory.
    pub(crate) fn refusal(&self, command: &Command) -> Result<Option<Reason>, AllocError>
        ensures { IfOk result (λ reason. reason ≡ refusal (checks self.now command.now)) }
    {
        match command {
            Command::Write(path, _) => Ok(self.refuses_write(path.as_str())),
            Command::Append(path, _) => Ok(self.refuses_write(path.as_str())),
            Command::Delete(path) => Ok(self.refuses_delete(path.as_str())),
            Command::Copy(from, to) => Ok(self.refuses_copy(from.as_str(), to.as_str())),
            Command::Move(from, to) => Ok(self.refuses_copy(from.as_str(), to.as_str())),
            Command::MakeFolder(path) => Ok(self.refuses_make(path.as_str())),
            Command::DropFolder(path) => self.refuses_drop(path.as_str()),
            Command::Start { line, .. } => Ok(self.refuses_start(line.as_str())),
            Command::Put { .. } => Ok(None),
            Command::Drop { .. } => Ok(None),
            Command::Place(name, _) => self.refuses_place(name.as_str()),
        }
    }

    fn refuses_write(&self, path: &str) -> Option<Reason>
        ensures { result ≡ refusal (write_checks self.now path.now) }
    {
        if !is_free(path) {
            return Some(Reason::BadPath);
        }
        if !self.has_parent(path) {
            return Some(Reason::NoSuchFolder);
        }
        if self.is_folder(path) {
            return Some(Reason::AlreadyThere);
        }
        None
    }

    fn refuses_delete(&self, path: &str) -> Option<Reason>
        ensures { result ≡ refusal (delete_checks self.now path.now) }
    {
        if !is_free(path) {
            return Some(Reason::BadPath);
        }
        if self.is_folder(path) {
            return Some(Reason::NotAFile);
        }
        None
    }

    fn refuses_copy(&self, from: &str, to: &str) -> Option<Reason>
        ensures { result ≡ refusal (copy_checks self.now from.now to.now) }
    {
        if !is_free(from) {
            return Some(Reason::BadPath);
        }
        if !is_free(to) {
            return Some(Reason::BadPath);
        }
        if !self.is_file(from) {
            return Some(Reason::NoSuchFile);
        }
        if self.is_file(to) || self.is_folder(to) {
            return Some(Reason::AlreadyThere);
        }
        if !self.has_parent(to) {
            return Some(Reason::NoSuchFolder);
        }
        None
    }

    fn refuses_make(&self, path: &str) -> Option<Reason>
        ensures { result ≡ refusal (make_checks self.now path.now) }
    {
        if !is_free(path) {
            return Some(Reason::BadPath);
        }
        if self.is_file(path) {
            return Some(Reason::AlreadyThere);
        }
        if !self.is_folder(path) && !self.has_parent(path) {
            return Some(Reason::NoSuchFolder);
        }
        None
    }

    fn refuses_drop(&self, path: &str) -> Result<Option<Reason>, AllocError>
        ensures { IfOk result (λ reason. reason ≡ refusal (drop_checks self.now path.now)) }
    {
        if !is_free(path) {
            return Ok(Some(Reason::BadPath));
        }
        if !self.is_folder(path) {
            return Ok(Some(Reason::NoSuchFolder));
        }
        if !self.entries(path)?.as_slice().is_empty() {
            return Ok(Some(Reason::NotEmpty));
        }
        Ok(None)
    }

    fn refuses_start(&self, line: &str) -> Option<Reason>
        ensures { result ≡ refusal (start_checks self.now (at line.now self.now.programs)) }
    {
        if self.programs.get(line).is_none() {
            return Some(Reason::NotStarted);
        }
        if self.started.len() >= MOST_STARTED {
            return Some(Reason::NotStarted);
        }
        None
    }

    fn refuses_place(&self, name: &str) -> Result<Option<Reason>, AllocError>
        ensures { IfOk result (λ reason. reason ≡ refusal (place_checks self.now name.now)) }
    {
        if !is_part(name) {
            return Ok(Some(Reason::BadPath));
        }
        let path = joined(self.alloc, DOWNLOAD, name)?;
        if !is_path(path.as_str()) {
            return Ok(Some(Reason::BadPath));
        }
        if self.is_file(DOWNLOAD) {
            return Ok(Some(Reason::AlreadyThere));
        }
        if self.is_folder(path.as_str()) {
            return Ok(Some(Reason::AlreadyThere));
        }
        Ok(None)
    }
}
