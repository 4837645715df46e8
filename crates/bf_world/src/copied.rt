ghost use Rattle.std.specs.Prelude.{◌≡◌, IfOk};

use crate::{Node, PackageList, Program, SettingValue};
use rel_lexer::Text;
use std::alloc::AllocError;

/// What can be had once more, as the same value.
pub(crate) trait Copied {
    /// The same value once more. The error is want of memory.
    fn copied(&self) -> Result<Self, AllocError>
        ensures { IfOk result (λ value. value ≡ self.now) };
}

impl Copied for () {
    fn copied(&self) -> Result<(), AllocError> {
        Ok(())
    }
}

impl Copied for Text {
    fn copied(&self) -> Result<Text, AllocError> {
        self.copy()
    }
}

impl Copied for SettingValue {
    fn copied(&self) -> Result<SettingValue, AllocError> {
        let value = self.value.copy()?;
        Ok(SettingValue {
            value,
            date: self.date,
        })
    }
}

impl Copied for Node {
    fn copied(&self) -> Result<Node, AllocError> {
        match self {
            Node::Folder => Ok(Node::Folder),
            Node::File { content, modified } => {
                let content = content.copy()?;
                Ok(Node::File {
                    content,
                    modified: *modified,
                })
            }
        }
    }
}

impl Copied for Program {
    fn copied(&self) -> Result<Program, AllocError> {
        let gives = self.gives.copy()?;
        Ok(Program {
            polls: self.polls,
            exit: self.exit,
            gives,
        })
    }
}
