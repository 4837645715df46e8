ghost use Rattle.std.specs.Prelude.{◌≡◌, ℕ, ℤ, List, [], ◌∷◌, ◌++◌};
ghost use Rattle.act_rules.specs.declared.row.Row.{Row};
ghost use Rattle.act_rules.specs.declared.rule.Rules.{Rules};
ghost use Rattle.act_rules.specs.declared.tally.Tally.{Tally};
ghost use Rattle.act_rules.specs.Rows.{with_last};
ghost use Rattle.act_rules.specs.Series.{series};
ghost use Rattle.act_rules.specs.Owed.{IsOwed};
ghost use Rattle.act_rules.specs.Lawful.{AreLawful, AreBounded};
ghost use Rattle.act_rules.specs.Tallies.{StandsFor};

/// Rows that each began when a run was owed have no more series, and no more rows in a series, than the rules allow.
pub fn lawful_rows()
    ensures { (rules : Rules) (rows : List Row) → AreLawful rules rows
        → AreBounded rules (series rules.retries rows) }
{}

/// Rows stay lawful where one begins when a run is owed, and where the last one ends or is cleared.
pub fn lawful_rows_stay_lawful()
    ensures none { (rules : Rules) → AreLawful rules [] }
    ensures begun { (rules : Rules) (rows : List Row) (row : Row) → AreLawful rules rows
        → IsOwed rules rows row.begun → AreLawful rules (rows ++ row ∷ []) }
    ensures changed { (rules : Rules) (rows : List Row) (change : Row → Row)
        → ((row : Row) → (change row).begun ≡ row.begun) → AreLawful rules rows
        → AreLawful rules (with_last rows change) }
{}

/// A tally stands for the same rows with a last row that runs, and with their last row cleared.
pub fn a_tally_counts_ended_rows()
    ensures running { (tally : Tally) (retries : ℕ) (rows : List Row) (row : Row)
        → row.end ≡ None → StandsFor tally retries rows → StandsFor tally retries (rows ++ row ∷ []) }
    ensures cleared { (tally : Tally) (retries : ℕ) (rows : List Row) (moment : ℤ)
        → StandsFor tally retries rows
        → StandsFor tally retries (with_last rows (λ row. record row { cleared = Some moment })) }
{}
