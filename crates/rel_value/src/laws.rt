ghost use Rattle.rel_lexer.specs.declared.operator.BinarySign.{BinarySign};
ghost use Rattle.rel_value.specs.declared.cast_name.Cast.{Cast};
ghost use Rattle.std.specs.Prelude.{◌≡◌, ◌↔◌, ℕ, ℤ, List, Some, pos};
ghost use Rattle.desk_base.specs.Moments.{IsMoment};
ghost use Rattle.line_forms.specs.Numbers.{IsOffset};
ghost use Rattle.rel_value.specs.Casts.{cast};
ghost use Rattle.rel_value.specs.Kinds.{IsOfKind, binary_kind, cast_kind, negated_kind, sort_of};
ghost use Rattle.rel_value.specs.Operands.{stance};
ghost use Rattle.rel_value.specs.Plain.{Plain, kind_of};
ghost use Rattle.rel_value.specs.Signs.{negated, op};
ghost use Rattle.rel_value.specs.Spellings.{time_text};
ghost use Rattle.rel_value.specs.TimesRead.{time_of};

/// A sign has a row exactly for the kinds that its table says, and gives a value of the kind that the table says, or a
/// fault.
pub fn signs_keep_kinds()
    ensures binary { (s : BinarySign) (a b : Plain) → IsOfKind (binary_kind s (kind_of a) (kind_of b)) (op s a b) }
    ensures negate { (a : Plain) → IsOfKind (negated_kind (sort_of (kind_of a))) (negated (stance a)) }
{}

/// The same of casts.
pub fn casts_keep_kinds()
    ensures { (to : Cast) (a : Plain) (offset : ℤ) → IsOfKind (cast_kind to (kind_of a)) (cast to a offset) }
{}

/// A text is read as a time exactly where it is the time text of that moment at some offset, and it is that of one moment at
/// most.
pub fn times_are_read_as_written()
    ensures read { (text : List ℕ) (moment : ℕ) → (time_of text ≡ Some moment)
        ↔ (IsMoment (pos moment) × ((offset : ℤ) × IsOffset offset × (text ≡ time_text (pos moment) offset))) }
    ensures one { (text : List ℕ) (m n offset other : ℤ) → IsMoment m → IsMoment n → IsOffset offset → IsOffset other
        → text ≡ time_text m offset → text ≡ time_text n other → m ≡ n }
{}
