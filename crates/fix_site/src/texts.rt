ghost use Rattle.std.specs.Prelude.{◌≡◌, IfOk};

use rel_lexer::Text;
use std::alloc::AllocError;
use std::marker::Model;

/// Texts in their order. Contracts see the list of them.
#[derive(Drop)]
pub struct Texts {
    items: Vec<Text>,
}

impl Model for Texts {
    ghost use Rattle.std.specs.Prelude.{List, ℕ};

    ghost Value = { List (List ℕ) };

    ghost view = { λ t. t.items.items };
}

impl Texts {
    /// The list of these texts. It takes no memory.
    pub fn from_vec(texts: Vec<Text>) -> Texts
        ensures { result ≡ texts.items }
    {
        Texts { items: texts }
    }

    /// The texts, to be changed. It takes no memory.
    pub fn into_vec(self) -> Vec<Text>
        ensures { result.items ≡ self }
    {
        self.items
    }

    /// The texts.
    pub fn as_slice(&self) -> &[Text]
        ensures { result.now ≡ self.now }
    {
        self.items.as_slice()
    }

    /// The same texts once more.
    pub fn copy(&self) -> Result<Texts, AllocError>
        ensures { IfOk result (λ texts. texts ≡ self.now) }
    {
        let mut copies = Vec::new(*self.items.allocator());
        for text in self.items.as_slice() {
            copies.push(text.copy()?)?;
        }
        Ok(Texts::from_vec(copies))
    }
}
