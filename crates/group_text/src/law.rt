ghost use Rattle.std.specs.Prelude.{◌≡◌, ◌≢◌, ◌∷◌, [], ◌++◌, ℕ, List, All, codes};
ghost use Rattle.group_text.specs.declared.analysis.Analysis.{Analysis};
ghost use Rattle.group_text.specs.declared.group.Group.{Group};
ghost use Rattle.group_text.specs.Analyses.{IsAnalysis};
ghost use Rattle.group_text.specs.Groups.{IsGroup};

/// Lines are those of one analysis at most.
pub fn one_analysis()
    ensures { (lines : List (List ℕ)) (a other : Analysis) → IsAnalysis a lines → IsAnalysis other lines → other ≡ a }
{}

/// Lines are those of one group at most.
pub fn one_group()
    ensures { (lines : List (List ℕ)) (g other : Group) → IsGroup g lines → IsGroup other lines → other ≡ g }
{}

/// The last line of an analysis is `end`, and no other is. So it can be taken out of a longer text, up to the first such line.
pub fn an_analysis_ends_once()
    ensures { (lines : List (List ℕ)) (a : Analysis) → IsAnalysis a lines → (before : List (List ℕ))
        × (lines ≡ before ++ codes "end" ∷ []) × All (λ line. line ≢ codes "end") before }
{}

/// The same of a group.
pub fn a_group_ends_once()
    ensures { (lines : List (List ℕ)) (g : Group) → IsGroup g lines → (before : List (List ℕ))
        × (lines ≡ before ++ codes "end" ∷ []) × All (λ line. line ≢ codes "end") before }
{}
