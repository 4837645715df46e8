ghost use Rattle.std.specs.Prelude.{◌≡◌, IfOk, IsTrue, ◌↔◌};

use crate::test::Test;
use rel_lexer::Text;
use std::alloc::AllocError;
use std::marker::Model;

/// Tests in their order. Contracts see the list of them.
#[derive(Drop)]
pub struct Tests {
    items: Vec<Test>,
}

impl Model for Tests {
    ghost use Rattle.std.specs.Prelude.{List};
    ghost use Rattle.group_text.specs.declared.test.Test.{Test};

    ghost Value = { List Test };

    ghost view = { λ t. t.items.items };
}

impl Tests {
    /// The list of these tests. It takes no memory.
    pub fn from_vec(tests: Vec<Test>) -> Tests
        ensures { result ≡ tests.items }
    {
        Tests { items: tests }
    }

    /// The tests, to be changed. It takes no memory.
    pub fn into_vec(self) -> Vec<Test>
        ensures { result.items ≡ self }
    {
        self.items
    }

    /// The tests.
    pub fn as_slice(&self) -> &[Test]
        ensures { result.now ≡ self.now }
    {
        self.items.as_slice()
    }

    /// The same tests once more. The error is want of memory, here and below.
    pub fn copy(&self) -> Result<Tests, AllocError>
        ensures { IfOk result (λ tests. tests ≡ self.now) }
    {
        let mut copies = Vec::new(*self.items.allocator());
        for test in self.items.as_slice() {
            copies.push(test.copy()?)?;
        }
        Ok(Tests::from_vec(copies))
    }

    /// Whether the others are the same, in the same order.
    pub fn are(&self, others: &Tests) -> bool
        ensures { IsTrue result ↔ (self.now ≡ others.now) }
    {
        let tests = self.items.as_slice();
        let others = others.items.as_slice();
        if tests.len() != others.len() {
            return false;
        }
        for i in 0..tests.len() {
            if !tests[i].is(&others[i]) {
                return false;
            }
        }
        true
    }
}

/// Which machines belong together: those with a row for which all of the tests hold, or any of them.
#[derive(Drop)]
pub struct Group {
    /// 1 to 64 ASCII letters, digits, `-`, `_` and `.`.
    pub name: Text,
    /// Whether one test that holds is enough.
    pub any: bool,
    pub tests: Tests,
}

impl Group {
    /// The same group once more.
    pub fn copy(&self) -> Result<Group, AllocError>
        ensures { IfOk result (λ group. group ≡ self.now) }
    {
        Ok(Group {
            name: self.name.copy()?,
            any: self.any,
            tests: self.tests.copy()?,
        })
    }

    /// Whether the other one is the same: in its name, in how many tests are to hold, and in its tests.
    pub fn is(&self, other: &Group) -> bool
        ensures { IsTrue result ↔ (self.now ≡ other.now) }
    {
        self.any == other.any
            && self.name.as_str() == other.name.as_str()
            && self.tests.are(&other.tests)
    }
}
