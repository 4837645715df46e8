ghost use Rattle.std.specs.Prelude.{◌≡◌, ℕ, List};
ghost use Rattle.line_forms.specs.BadLines.{IsTextOf, IsFirstBadLine};

/// A set of texts made of lines, as that of one format, for the law below: it holds of whatever set a type names.
pub trait LineForm {
    /// Which lists of lines, without their LFs, are a text of the set.
    ghost are_good: { List (List ℕ) → Type 0 };
}

/// A text has one first bad line at most, and a text of the set has none.
pub fn one_first_bad_line<F: LineForm>()
    ensures one { (text : List ℕ) (m n : ℕ) → IsFirstBadLine F.are_good text m
        → IsFirstBadLine F.are_good text n → m ≡ n }
    ensures none { (text : List ℕ) (n : ℕ) → IsTextOf F.are_good text
        → ¬ IsFirstBadLine F.are_good text n }
{}
