ghost use Rattle.std.specs.Prelude.{◌≡◌, IfOk};
ghost use Rattle.rel_types.specs.Alike.{same_kind};
ghost use Rattle.rel_types.specs.Plans.{is_plural, kind_of};
ghost use Rattle.rel_types.specs.Views.{shown_node};
ghost use Rattle.rel_types.specs.WellTyped.{IsWellTyped};
ghost use Rattle.rel_value.specs.Views.{shown_kind};

use crate::Node;
use crate::alike::same_kind;
use rel_value::Kind;
use std::alloc::AllocError;

/// A question that is well typed: its tree, in which each name is resolved.
#[derive(Drop)]
pub struct Plan {
    pub(crate) root: Node,
    pub ghost well_typed: { IsWellTyped (shown_node root) },
}

/// The kind of what a question gives.
#[derive(Drop)]
pub struct Kind2<'a> {
    kind: &'a Kind,
}

impl Plan {
    ghost use Rattle.rel_types.specs.Shown.{shown_plan};

    /// The kind of the values that the question gives.
    pub fn kind(&self) -> Kind2<'_>
        ensures { shown_kind result.kind.now ≡ kind_of (shown_plan self.now) }
    {
        Kind2 {
            kind: &self.root.kind,
        }
    }

    /// Whether the question may give no value or several.
    pub fn is_plural(&self) -> bool
        ensures { result ≡ is_plural (shown_plan self.now) }
    {
        self.root.plural
    }

    /// The node of the whole question.
    pub fn root(&self) -> &Node
        ensures node { shown_node result.now ≡ shown_plan self.now }
        ensures well_typed { IsWellTyped (shown_node result.now) }
    {
        &self.root
    }

    /// The same plan once more. What it takes is from the memory that the plan is in.
    pub fn copy(&self) -> Result<Plan, AllocError>
        ensures { IfOk result (λ plan. shown_plan plan ≡ shown_plan self.now) }
    {
        let root = self.root.copy()?;
        Ok(Plan { root })
    }
}

impl<'a> Kind2<'a> {
    /// Whether it is this kind.
    pub fn is(&self, kind: &Kind) -> bool
        ensures { result ≡ same_kind (shown_kind self.now.kind.now) (shown_kind kind.now) }
    {
        same_kind(self.kind, kind)
    }

    pub fn as_kind(&self) -> &'a Kind
        ensures { result.now ≡ self.now.kind.now }
    {
        self.kind
    }
}
