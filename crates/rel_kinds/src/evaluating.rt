// What the plans that checking makes give, in every world and scene.
ghost use Rattle.std.specs.Prelude.{◌≡◌, false, Ok, Option};
ghost use Rattle.bf_world.specs.Worlds.{WorldState};
ghost use Rattle.rel_grammar.specs.Trees as tree;
ghost use Rattle.rel_value.specs.Plain.{Plain, PlainKind};
ghost use Rattle.rel_types.specs.Agreement.{Agrees};
ghost use Rattle.rel_types.specs.Plans.{PlainNode, is_plural, kind_of};
ghost use Rattle.rel_types.specs.Typing.{typed};
ghost use Rattle.rel_sources.specs.declared.scene.Scene.{Scene};
ghost use Rattle.rel_nodes.specs.Meaning.{mean};
ghost use Rattle.rel_kinds.specs.Giving.{GivesKind, GivesOne, IsThere};

use rel_types::plans_agree;

/// Each value of a plan has the plan's kind, where `it` stands for a value of the kind that the plan was checked with. So it is of
/// each part of a plan, and of what checking gives of a tree.
pub fn evaluations_keep_kinds()
    ensures parts { (around : Option PlainKind) (plan : PlainNode) → Agrees around plan → (it : Option Plain) → IsThere around it
        → (w : WorldState) (s : Scene) → GivesKind (kind_of plan) (mean w s plan it) }
    ensures plans { (around : Option PlainKind) (t : tree.Plain) (plan : PlainNode) → typed around t ≡ Ok plan
        → (it : Option Plain) → IsThere around it
        → (w : WorldState) (s : Scene) → GivesKind (kind_of plan) (mean w s plan it) }
{
    // Proof: a plan that checking makes is well typed.
    plans_agree();
}

/// A plan that is not plural gives exactly one value, which is the last event, or an error. So every sign, cast and `it` in it comes
/// to a value or a fault.
pub fn singular_plans_give_one()
    ensures parts { (around : Option PlainKind) (plan : PlainNode) → Agrees around plan → is_plural plan ≡ false
        → (it : Option Plain) → IsThere around it
        → (w : WorldState) (s : Scene) → GivesOne (mean w s plan it) }
    ensures plans { (around : Option PlainKind) (t : tree.Plain) (plan : PlainNode) → typed around t ≡ Ok plan
        → is_plural plan ≡ false → (it : Option Plain)
        → IsThere around it → (w : WorldState) (s : Scene) → GivesOne (mean w s plan it) }
{
    // Proof: a plan that checking makes is well typed.
    plans_agree();
}
