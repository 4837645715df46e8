// What the rows of the tables of names promise.
ghost use Rattle.std.specs.Prelude.{◌≡◌, ℤ, All, Some};
ghost use Rattle.rel_lexer.specs.declared.place.Place.{Place};
ghost use Rattle.bf_world.specs.Worlds.{WorldState};
ghost use Rattle.rel_value.specs.declared.property.PropertyId.TheVariants.{Item};
ghost use Rattle.rel_value.specs.Plain.{Plain, PlainKind, integer, kind_of};
ghost use Rattle.rel_types.specs.Aggregates.{aggregate_rows};
ghost use Rattle.rel_types.specs.Heads.{item_kind};
ghost use Rattle.rel_types.specs.Properties.{property_rows};
ghost use Rattle.rel_sources.specs.declared.scene.Scene.{Scene};
ghost use Rattle.rel_inspect.specs.Props.{prop};
ghost use Rattle.rel_nodes.specs.Meaning.{placed};
ghost use Rattle.rel_kinds.specs.Giving.{GivesKind, GivesOne};
ghost use Rattle.rel_kinds.specs.Running.{RowGoesOn};
ghost use Rattle.rel_kinds.specs.RowPromises.{RowKeeps};
ghost use Rattle.rel_kinds.specs.Taking.{RowTakes};

/// What a row of the tables names gives values of the kind that the row says, in every world and scene. `item`, which has no row,
/// gives one value, of the kind of the part that its number names.
pub fn tables_keep_kinds()
    ensures properties { All RowKeeps property_rows }
    ensures aggregates { All RowKeeps aggregate_rows }
    ensures item { (n : ℤ) (v : Plain) (k : PlainKind) → item_kind (Some n) (Some (kind_of v)) ≡ Some k
        → (p : Place) (w : WorldState) (s : Scene)
        → GivesKind k (placed p (prop Item (Some (integer n)) (Some v) w s))
        × GivesOne (placed p (prop Item (Some (integer n)) (Some v) w s)) }
{}

/// With each further value of a kind that it asks for an aggregate comes to a value or a fault; it never stops without saying so.
pub fn aggregates_have_outcomes()
    ensures { All RowGoesOn aggregate_rows }
{}

/// A property takes each argument and each object of the kinds that its row asks for; it never passes one over as a value of another
/// kind.
pub fn properties_take_what_they_ask_for()
    ensures { All RowTakes property_rows }
{}
