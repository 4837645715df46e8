ghost use Rattle.std.specs.Prelude.{◌≡◌, ◌∷◌, ◌++◌, [], IfOk};

use rel_lexer::Text;
use std::alloc::{AllocError, Global};
use std::marker::Model;

/// A part of a template.
#[derive(Drop)]
pub enum Part2 {
    /// It stands for itself: one byte or more. Two such parts never follow one another.
    Plain(Text),
    /// The text between the braces of an expression.
    Expression(Text),
}

impl Part2 {
    /// The same part once more.
    pub fn copy(&self) -> Result<Part2, AllocError>
        ensures { IfOk result (λ part. part ≡ self.now) }
    {
        match self {
            Part2::Plain(text) => Ok(Part2::Plain(text.copy()?)),
            Part2::Expression(text) => Ok(Part2::Expression(text.copy()?)),
        }
    }
}

/// Parts in their order. Contracts see the list of them.
#[derive(Drop)]
pub struct PartList {
    items: Vec<Part2>,
}

impl Model for PartList {
    ghost use Rattle.std.specs.Prelude.{List};
    ghost use Rattle.script_text.specs.declared.template.Part2.{Part2};

    ghost Value = { List Part2 };

    ghost view = { λ p. p.items.items };
}

impl PartList {
    /// Takes no memory.
    pub fn from_vec(parts: Vec<Part2>) -> PartList
        ensures { result ≡ parts.items }
    {
        PartList { items: parts }
    }

    /// Takes no memory.
    pub fn into_vec(self) -> Vec<Part2>
        ensures { result.items ≡ self }
    {
        self.items
    }

    pub fn as_slice(&self) -> &[Part2]
        ensures { result.now ≡ self.now }
    {
        self.items.as_slice()
    }

    /// The same parts once more.
    pub fn copy(&self) -> Result<PartList, AllocError>
        ensures { IfOk result (λ parts. parts ≡ self.now) }
    {
        let mut copies = Vec::new(*self.items.allocator());
        for part in self.items.as_slice() {
            copies.push(part.copy()?)?;
        }
        Ok(PartList::from_vec(copies))
    }
}

/// A text with expressions in it. An empty one has no part.
#[derive(Drop)]
pub struct Template {
    pub parts: PartList,
}

impl Template {
    /// The same template once more.
    pub fn copy(&self) -> Result<Template, AllocError>
        ensures { IfOk result (λ template. template ≡ self.now) }
    {
        Ok(Template {
            parts: self.parts.copy()?,
        })
    }
}

/// Templates in their order. Contracts see the list of them.
#[derive(Drop)]
pub struct TemplateList {
    items: Vec<Template>,
}

impl Model for TemplateList {
    ghost use Rattle.std.specs.Prelude.{List};
    ghost use Rattle.script_text.specs.declared.template.Template.{Template};

    ghost Value = { List Template };

    ghost view = { λ t. t.items.items };
}

impl TemplateList {
    pub(crate) fn new(alloc: Global) -> TemplateList
        ensures { result ≡ [] }
    {
        TemplateList {
            items: Vec::new(alloc),
        }
    }

    /// Takes no memory.
    pub fn from_vec(templates: Vec<Template>) -> TemplateList
        ensures { result ≡ templates.items }
    {
        TemplateList { items: templates }
    }

    /// Takes no memory.
    pub fn into_vec(self) -> Vec<Template>
        ensures { result.items ≡ self }
    {
        self.items
    }

    pub fn as_slice(&self) -> &[Template]
        ensures { result.now ≡ self.now }
    {
        self.items.as_slice()
    }

    pub(crate) fn push(&mut self, template: Template) -> Result<(), AllocError>
        ensures { IfOk result (λ _. self.new ≡ self.old ++ template ∷ []) }
    {
        self.items.push(template)?;
        Ok(())
    }

    /// The same templates once more.
    pub fn copy(&self) -> Result<TemplateList, AllocError>
        ensures { IfOk result (λ templates. templates ≡ self.now) }
    {
        let mut copies = Vec::new(*self.items.allocator());
        for template in self.items.as_slice() {
            copies.push(template.copy()?)?;
        }
        Ok(TemplateList::from_vec(copies))
    }
}
