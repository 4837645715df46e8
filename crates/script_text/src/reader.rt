ghost use Rattle.std.specs.Prelude.{◌≡◌, ◌↔◌, IsTrue, IfOk, MatchResult, None, Some, slice_get};
ghost use Rattle.std.specs.Option.{option_map};
ghost use Rattle.script_text.specs.declared.reader.Open.{Open};
ghost use Rattle.script_text.specs.Blocks.{Block, Created, at, is_command, no_lines};
ghost use Rattle.script_text.specs.Held.{Extends, ExtendsBy, Finishes, HasNumber, Misplaces, Refuses, Stands, closed_if, else_command, in_file, inside, shown_open};
ghost use Rattle.script_text.specs.Parts.{Around, Part, whole};
ghost use Rattle.script_text.specs.Trees.{more_arms};
ghost use Rattle.script_text.specs.Views.{shown_arms, shown_statements};
ghost use Rattle.script_text.specs.declared.command.Command.TheVariants.{EndIf, If};

use crate::command::{Command, read_line};
use crate::piece::whole_template;
use crate::{
    Arm, ArmList, Line, PrefetchList, Script, ScriptError, Statement, StatementList, TemplateList,
};
use rel_lexer::Text;
use std::alloc::{AllocError, Global};

/// How many `if`s stand inside of one another at most.
const DEEPEST: usize = 64;

/// What the lines so far make.
#[derive(Drop)]
pub(crate) struct Reader {
    prefetches: PrefetchList,
    /// The open `if`s, the outermost first.
    open: Vec<Open>,
    /// The statements inside of these so far.
    statements: StatementList,
    /// The open `createfile` after them.
    create: Option<OpenCreate>,
}

/// An open `if`.
#[derive(Drop)]
struct Open {
    line: u32,
    /// The statements before it.
    before: StatementList,
    /// The arms that are whole.
    arms: ArmList,
    /// The arm whose body is being read. After `else` there is none.
    arm: Option<Test>,
}

/// An `if` or `elseif`.
#[derive(Drop)]
struct Test {
    line: u32,
    test: Text,
}

/// An open `createfile`.
#[derive(Drop)]
struct OpenCreate {
    line: u32,
    word: Text,
    lines: TemplateList,
}

impl Reader {
    /// Before the first line.
    pub(crate) fn new(alloc: Global) -> Reader
        ensures { Stands (whole no_lines) result }
    {
        Reader {
            prefetches: PrefetchList::new(alloc),
            open: Vec::new(alloc),
            statements: StatementList::new(alloc),
            create: None,
        }
    }

    /// After this line too.
    pub(crate) fn with_line(
        mut self,
        alloc: Global,
        number: u32,
        line: &str,
    ) -> Result<Reader, ScriptError>
        ensures { (p : Part) → Stands p self → MatchResult result (λ r. Extends p number line.now r)
            (λ e. Refuses p number line.now e) }
    {
        if let Some(create) = self.create.take() {
            return self.with_content(alloc, create, number, line);
        }
        match read_line(alloc, line) {
            Ok(command) => self.with_command(alloc, number, command),
            Err(refusal) => Err(refusal.at(number)),
        }
    }

    /// After one more line of this `createfile`.
    fn with_content(
        mut self,
        alloc: Global,
        mut create: OpenCreate,
        number: u32,
        line: &str,
    ) -> Result<Reader, ScriptError>
        ensures { (a : Around) (k : Created) → self.create ≡ None → Stands (in_file a k) (record self { create = Some create }) →
            MatchResult result (λ r. Extends (in_file a k) number line.now r) (λ e. Refuses (in_file a k) number line.now e) }
    {
        if closes(line, &create.word) {
            self.statements.push(Statement::Do {
                line: create.line,
                what: Line::Create(create.lines),
            })?;
            return Ok(self);
        }
        match whole_template(alloc, line) {
            Ok(template) => create.lines.push(template)?,
            Err(refusal) => return Err(refusal.at(number)),
        }
        self.create = Some(create);
        Ok(self)
    }

    /// After this command, where no `createfile` is open.
    fn with_command(
        mut self,
        alloc: Global,
        number: u32,
        command: Command,
    ) -> Result<Reader, ScriptError>
        ensures { (a : Around) (b : Block) → Stands (inside a b) self →
            MatchResult result (λ r. ExtendsBy (inside a b) (at number (is_command command)) r)
            (λ e. Misplaces a number command e) }
    {
        match command {
            Command::Nothing => Ok(self),
            Command::Prefetch(source) => {
                self.prefetches.push(source.at(number))?;
                Ok(self)
            }
            Command::Do(what) => {
                self.statements.push(Statement::Do { line: number, what })?;
                Ok(self)
            }
            Command::Create(word) => {
                self.create = Some(OpenCreate {
                    line: number,
                    word,
                    lines: TemplateList::new(alloc),
                });
                Ok(self)
            }
            Command::If(test) => self.with_if(alloc, number, test),
            Command::ElseIf(test) => self.with_else(
                alloc,
                number,
                Some(Test { line: number, test }),
            ),
            Command::Else => self.with_else(alloc, number, None),
            Command::EndIf => self.with_end(alloc, number),
        }
    }

    fn with_if(self, alloc: Global, number: u32, test: Text) -> Result<Reader, ScriptError>
        ensures { (a : Around) (b : Block) → Stands (inside a b) self →
            MatchResult result (λ r. ExtendsBy (inside a b) (at number (is_command (If test))) r)
            (λ e. Misplaces a number (If test) e) }
    {
        let Reader {
            prefetches,
            mut open,
            statements,
            create,
        } = self;
        if open.len() == DEEPEST {
            return Err(ScriptError::NoCommand(number));
        }
        open.push(Open {
            line: number,
            before: statements,
            arms: ArmList::new(alloc),
            arm: Some(Test { line: number, test }),
        })?;
        Ok(Reader {
            prefetches,
            open,
            statements: StatementList::new(alloc),
            create,
        })
    }

    /// After an `elseif` with its test, or an `else` without one.
    fn with_else(self, alloc: Global, number: u32, arm: Option<Test>) -> Result<Reader, ScriptError>
        ensures { (a : Around) (b : Block) → Stands (inside a b) self → HasNumber arm number →
            MatchResult result (λ r. ExtendsBy (inside a b) (at number (is_command (else_command arm))) r)
            (λ e. Misplaces a number (else_command arm) e) }
    {
        let Reader {
            prefetches,
            mut open,
            statements,
            create,
        } = self;
        let Some(innermost) = open.pop() else {
            return Err(ScriptError::StrayElse(number));
        };
        let Open {
            line,
            before,
            arms,
            arm: last,
        } = innermost;
        let Some(last) = last else {
            return Err(ScriptError::StrayElse(number));
        };
        open.push(Open {
            line,
            before,
            arms: with_arm(arms, last, statements)?,
            arm,
        })?;
        Ok(Reader {
            prefetches,
            open,
            statements: StatementList::new(alloc),
            create,
        })
    }

    fn with_end(self, alloc: Global, number: u32) -> Result<Reader, ScriptError>
        ensures { (a : Around) (b : Block) → Stands (inside a b) self →
            MatchResult result (λ r. ExtendsBy (inside a b) (at number (is_command EndIf)) r) (λ e. Misplaces a number EndIf e) }
    {
        let Reader {
            prefetches,
            mut open,
            statements,
            create,
        } = self;
        let Some(innermost) = open.pop() else {
            return Err(ScriptError::StrayElse(number));
        };
        Ok(Reader {
            prefetches,
            open,
            statements: closed(alloc, innermost, statements)?,
            create,
        })
    }

    /// After the last line.
    pub(crate) fn finish(self) -> Result<Script, ScriptError>
        ensures { (p : Part) → Stands p self → Finishes p result }
    {
        let Reader {
            prefetches,
            open,
            statements,
            create,
        } = self;
        if let Some(line) = outermost_line(open.as_slice()) {
            return Err(ScriptError::IfNotClosed(line));
        }
        match create {
            Some(create) => Err(ScriptError::CreateNotClosed(create.line)),
            None => Ok(Script {
                prefetches,
                statements,
            }),
        }
    }
}

/// Whether a line is this word, byte for byte.
fn closes(line: &str, word: &Text) -> bool
    ensures { IsTrue result ↔ (line.now ≡ word.now) }
{
    line == word.as_str()
}

/// The number of the line of the outermost open `if`.
fn outermost_line(ifs: &[Open]) -> Option<u32>
    ensures { result ≡ option_map (λ (o : Open). o.line) (slice_get ifs.now 0) }
{
    let outermost = ifs.first()?;
    Some(outermost.line)
}

/// These arms and one more.
fn with_arm(mut arms: ArmList, test: Test, body: StatementList) -> Result<ArmList, AllocError>
    ensures { IfOk result (λ r. shown_arms r ≡ more_arms (shown_arms arms) test.line test.test (shown_statements body)) }
{
    let Test { line, test } = test;
    arms.push(Arm { line, test, body })?;
    Ok(arms)
}

/// The statements before an `if` and this `if`, whose last body is whole.
fn closed(alloc: Global, innermost: Open, body: StatementList) -> Result<StatementList, AllocError>
    ensures { IfOk result (λ r. shown_statements r ≡ closed_if (shown_open innermost) (shown_statements body)) }
{
    let Open {
        mut before,
        arms,
        arm,
        ..
    } = innermost;
    let statement = match arm {
        Some(last) => Statement::If {
            arms: with_arm(arms, last, body)?,
            other: StatementList::new(alloc),
        },
        None => Statement::If { arms, other: body },
    };
    before.push(statement)?;
    Ok(before)
}
