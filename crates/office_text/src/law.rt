ghost use Rattle.std.specs.Prelude.{◌≡◌, ◌⊎◌, ℕ, List, [], Result, Ok, Err};
ghost use Rattle.line_forms.specs.LineStates.{lines_of, unended_of};
ghost use Rattle.office_text.specs.declared.error.OfficeError.{OfficeError};
ghost use Rattle.office_text.specs.declared.error.OfficeError.TheVariants.{Memory};
ghost use Rattle.office_text.specs.declared.order.Order.{Order};
ghost use Rattle.office_text.specs.Offices.{IsOffice, ReadsOffice};

/// Lines are those of one list of orders at most.
pub fn one_office()
    ensures { (lines : List (List ℕ)) (orders other : List Order) → IsOffice orders lines → IsOffice other lines
        → other ≡ orders }
{}

/// A text that is that of an office is read as its orders, or want of memory stands in their place.
pub fn an_office_is_read()
    ensures { (text : List ℕ) (orders : List Order) (answer : Result (List Order) OfficeError) → unended_of text ≡ []
        → IsOffice orders (lines_of text) → ReadsOffice text answer → (answer ≡ Ok orders) ⊎ (answer ≡ Err Memory) }
{}
