ghost use Rattle.std.specs.Prelude.{◌≡◌, IfOk};
ghost use Rattle.script_text.specs.Trees.{no_arms, no_statements, more_arms, more_statements};
ghost use Rattle.script_text.specs.Views.{arm_items, shown_arm, shown_arms, shown_statement, shown_statements, statement_items};

use crate::Line;
use rel_lexer::Text;
use std::alloc::{AllocError, Global};

/// A statement of a script.
#[cycle(tree)]
#[derive(Drop)]
pub enum Statement {
    /// The line with this number, counted from 1.
    Do { line: u32, what: Line },
    /// The body of the first arm whose test is true is done, and where there is none, the other body.
    If { arms: ArmList, other: StatementList },
}

/// An `if` or `elseif` and the statements below it.
#[cycle(tree)]
#[derive(Drop)]
pub struct Arm {
    /// The number of its line, counted from 1.
    pub line: u32,
    /// The expression in its braces.
    pub test: Text,
    pub body: StatementList,
}

/// Statements in their order.
#[cycle(tree)]
#[derive(Drop)]
pub struct StatementList {
    items: Vec<Statement>,
}

/// Arms in their order.
#[cycle(tree)]
#[derive(Drop)]
pub struct ArmList {
    items: Vec<Arm>,
}

impl Statement {
    /// The same statement once more.
    #[cycle(copy)]
    pub fn copy(&self) -> Result<Statement, AllocError>
        ensures { IfOk result (λ statement. shown_statement statement ≡ shown_statement self.now) }
    {
        match self {
            Statement::Do { line, what } => Ok(Statement::Do {
                line: *line,
                what: what.copy()?,
            }),
            Statement::If { arms, other } => Ok(Statement::If {
                arms: arms.copy()?,
                other: other.copy()?,
            }),
        }
    }
}

impl Arm {
    /// The same arm once more.
    #[cycle(copy)]
    pub fn copy(&self) -> Result<Arm, AllocError>
        ensures { IfOk result (λ arm. shown_arm arm ≡ shown_arm self.now) }
    {
        Ok(Arm {
            line: self.line,
            test: self.test.copy()?,
            body: self.body.copy()?,
        })
    }
}

impl StatementList {
    /// Takes no memory.
    pub fn from_vec(statements: Vec<Statement>) -> StatementList
        ensures { statement_items result ≡ statements.items }
    {
        StatementList { items: statements }
    }

    /// Takes no memory.
    pub fn into_vec(self) -> Vec<Statement>
        ensures { result.items ≡ statement_items self }
    {
        self.items
    }

    pub fn as_slice(&self) -> &[Statement]
        ensures { result.now ≡ statement_items self.now }
    {
        self.items.as_slice()
    }

    pub(crate) fn new(alloc: Global) -> StatementList
        ensures { shown_statements result ≡ no_statements }
    {
        StatementList {
            items: Vec::new(alloc),
        }
    }

    pub(crate) fn push(&mut self, statement: Statement) -> Result<(), AllocError>
        ensures { IfOk result (λ _. shown_statements self.new
            ≡ more_statements (shown_statements self.old) (shown_statement statement)) }
    {
        self.items.push(statement)?;
        Ok(())
    }

    /// The same statements once more.
    #[cycle(copy)]
    pub fn copy(&self) -> Result<StatementList, AllocError>
        ensures { IfOk result (λ list. shown_statements list ≡ shown_statements self.now) }
    {
        let mut copies = StatementList::new(*self.items.allocator());
        for statement in &self.items {
            copies.push(statement.copy()?)?;
        }
        Ok(copies)
    }
}

impl ArmList {
    /// Takes no memory.
    pub fn from_vec(arms: Vec<Arm>) -> ArmList
        ensures { arm_items result ≡ arms.items }
    {
        ArmList { items: arms }
    }

    /// Takes no memory.
    pub fn into_vec(self) -> Vec<Arm>
        ensures { result.items ≡ arm_items self }
    {
        self.items
    }

    pub fn as_slice(&self) -> &[Arm]
        ensures { result.now ≡ arm_items self.now }
    {
        self.items.as_slice()
    }

    pub(crate) fn new(alloc: Global) -> ArmList
        ensures { shown_arms result ≡ no_arms }
    {
        ArmList {
            items: Vec::new(alloc),
        }
    }

    pub(crate) fn push(&mut self, arm: Arm) -> Result<(), AllocError>
        ensures { IfOk result (λ _. shown_arms self.new
            ≡ more_arms (shown_arms self.old) (shown_arm arm).line (shown_arm arm).test (shown_arm arm).body) }
    {
        self.items.push(arm)?;
        Ok(())
    }

    /// The same arms once more.
    #[cycle(copy)]
    pub fn copy(&self) -> Result<ArmList, AllocError>
        ensures { IfOk result (λ list. shown_arms list ≡ shown_arms self.now) }
    {
        let mut copies = ArmList::new(*self.items.allocator());
        for arm in &self.items {
            copies.push(arm.copy()?)?;
        }
        Ok(copies)
    }
}
