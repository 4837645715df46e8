ghost use Rattle.std.specs.Prelude.{◌≡◌, ◌⊎◌, ℕ, List, [], Result, Ok, Err};
ghost use Rattle.line_forms.specs.LineStates.{lines_of, unended_of};
ghost use Rattle.bf_world.specs.Worlds.{WorldState};
ghost use Rattle.world_text.specs.declared.error.WorldError.{WorldError};
ghost use Rattle.world_text.specs.declared.error.WorldError.TheVariants.{Memory};
ghost use Rattle.world_text.specs.declared.draft.Draft.{Draft};
ghost use Rattle.world_text.specs.Rows.{Adds};
ghost use Rattle.world_text.specs.Fronts.{Splits};
ghost use Rattle.world_text.specs.Texts.{Head, IsHead, Describes, ReadsWorld};

/// Lines describe one world at most.
pub fn one_world()
    ensures { (lines : List (List ℕ)) (w v : WorldState) → Describes lines w → Describes lines v → v ≡ w }
{}

/// A line between the head and `end` adds one thing at most.
pub fn one_addition()
    ensures { (d a b : Draft) (line : List ℕ) → Adds d line a → Adds d line b → b ≡ a }
{}

/// A head has one text.
pub fn one_head_text()
    ensures { (lines other : List (List ℕ)) (head : Head) → IsHead lines head → IsHead other head → other ≡ lines }
{}

/// A text that describes a world is read as that, or want of memory stands in its place.
pub fn a_world_is_read()
    ensures { (text : List ℕ) (w : WorldState) (answer : Result WorldState WorldError) → unended_of text ≡ []
        → Describes (lines_of text) w → ReadsWorld text answer → (answer ≡ Ok w) ⊎ (answer ≡ Err Memory) }
{}

/// A text begins with one world's text.
pub fn one_front()
    ensures { (text world rest other left : List ℕ) → Splits text world rest → Splits text other left → world ≡ other }
{}
