// What holds of every text.
ghost use Rattle.std.specs.Prelude.{◌≡◌, List, ℕ};
ghost use Rattle.rel_eval.specs.Questions.{Reading, Reads};

/// A text is one thing: a question with one plan, or refused in one way. With `meaning`, which is a function of the plan, the world
/// and the scene, what a text gives is fixed.
pub fn one_plan()
    ensures { (text : List ℕ) (x y : Reading) → Reads text x → Reads text y → x ≡ y }
{}
