ghost use Rattle.std.specs.Prelude.{◌≡◌, Ok, Option};
ghost use Rattle.bf_world.specs.Worlds.{WorldState};
ghost use Rattle.rel_sources.specs.declared.scene.Scene.{Scene};
ghost use Rattle.rel_grammar.specs.Spans.{span_of_tree};
ghost use Rattle.rel_grammar.specs.Trees.{Plain};
ghost use Rattle.rel_types.specs.Plans.{PlainNode};
ghost use Rattle.rel_types.specs.Typing.{typed};
ghost use Rattle.rel_value.specs.Plain.{PlainKind};
ghost use Rattle.rel_trace.specs.Scopes.{Around};
ghost use Rattle.rel_nodes.specs.Meaning.{mean};
ghost use Rattle.rel_nodes.specs.Core.{core, core_of};
ghost use Rattle.rel_nodes.specs.Spans.{span_of_node};

/// The few forms of a plan mean what the plan means. The argument around it plays no part, since each form that asks for one has
/// its own.
pub fn few_forms_mean_the_same()
    ensures { (w : WorldState) (s : Scene) (n : PlainNode) (a : Around) → core w s (core_of n) a ≡ mean w s n a.it }
{}

/// A plan stands where its tree stands in the question.
pub fn plans_keep_spans()
    ensures { (around : Option PlainKind) (tree : Plain) (plan : PlainNode) → typed around tree ≡ Ok plan
        → span_of_node plan ≡ span_of_tree tree }
{}
