ghost use Rattle.std.specs.Prelude.{◌≡◌, Ok, Option};
ghost use Rattle.rel_grammar.specs.Trees.{Plain};
ghost use Rattle.rel_types.specs.Agreement.{Agrees};
ghost use Rattle.rel_types.specs.Plans.{PlainNode};
ghost use Rattle.rel_types.specs.Typing.{typed};
ghost use Rattle.rel_value.specs.Plain.{PlainKind};

/// In what checking gives, the kind and the number of each node are those that its parts give, and each part is what the part
/// around it asks for.
pub fn plans_agree()
    ensures { (it : Option PlainKind) (t : Plain) (n : PlainNode) → typed it t ≡ Ok n → Agrees it n }
{}
