ghost use Rattle.std.specs.Prelude.{◌≡◌, MatchOption};
ghost use Rattle.world_text.specs.declared.kind.Kind.{Kind};
ghost use Rattle.world_text.specs.Rows.{keyword};

/// A kind of line between a world's head and its `end`.
#[derive(Clone, Copy)]
pub(crate) enum Kind {
    Folder,
    File,
    Package,
    Process,
    Setting,
    Program,
    Gives,
}

/// The kind of line that begins with this word.
pub(crate) fn kind_of(word: &[u8]) -> Option<Kind>
    ensures { MatchOption result ((kind : Kind) → ¬ (word.now ≡ keyword kind)) (λ kind. word.now ≡ keyword kind) }
{
    match word {
        b"folder" => Some(Kind::Folder),
        b"file" => Some(Kind::File),
        b"package" => Some(Kind::Package),
        b"process" => Some(Kind::Process),
        b"setting" => Some(Kind::Setting),
        b"program" => Some(Kind::Program),
        b"gives" => Some(Kind::Gives),
        _ => None,
    }
}
