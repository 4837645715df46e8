ghost use Rattle.std.specs.Prelude.{◌≡◌, ℕ, List};
ghost use Rattle.group_text.specs.declared.group.Group.{Group};
ghost use Rattle.group_sample.specs.declared.sample.Sample.{Sample};
ghost use Rattle.group_core.specs.Members.{AreMembers};

/// The members of a group are one list.
pub fn one_list_of_members()
    ensures { (samples : List Sample) (group : Group) (members others : List (List ℕ)) → AreMembers samples group members
        → AreMembers samples group others → others ≡ members }
{}
