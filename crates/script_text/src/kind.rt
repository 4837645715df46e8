ghost use Rattle.std.specs.Prelude.{◌≡◌};
ghost use Rattle.std.specs.Option.{option_copied};
ghost use Rattle.script_text.specs.Forms.{words};
ghost use Rattle.script_text.specs.Readings.{first_word, second_word};

/// The kinds of command lines.
#[derive(Clone, Copy)]
pub(crate) enum Kind {
    Parameter,
    If,
    ElseIf,
    Else,
    EndIf,
    ContinueIf,
    PauseWhile,
    Create,
    Append,
    Delete,
    Copy,
    Move,
    FolderCreate,
    FolderDelete,
    Run,
    Wait,
    RunHidden,
    WaitHidden,
    Setting,
    SettingDelete,
    Prefetch,
}

/// All of them.
pub(crate) const KINDS: [Kind; 21] = [
    Kind::Parameter,
    Kind::If,
    Kind::ElseIf,
    Kind::Else,
    Kind::EndIf,
    Kind::ContinueIf,
    Kind::PauseWhile,
    Kind::Create,
    Kind::Append,
    Kind::Delete,
    Kind::Copy,
    Kind::Move,
    Kind::FolderCreate,
    Kind::FolderDelete,
    Kind::Run,
    Kind::Wait,
    Kind::RunHidden,
    Kind::WaitHidden,
    Kind::Setting,
    Kind::SettingDelete,
    Kind::Prefetch,
];

impl Kind {
    /// The word with which its lines begin, in lower case.
    pub(crate) fn word(self) -> &'static str
        ensures { result.now ≡ first_word (words self) }
    {
        match self {
            Kind::Parameter => "parameter",
            Kind::If => "if",
            Kind::ElseIf => "elseif",
            Kind::Else => "else",
            Kind::EndIf => "endif",
            Kind::ContinueIf => "continue",
            Kind::PauseWhile => "pause",
            Kind::Create => "createfile",
            Kind::Append => "appendfile",
            Kind::Delete => "delete",
            Kind::Copy => "copy",
            Kind::Move => "move",
            Kind::FolderCreate | Kind::FolderDelete => "folder",
            Kind::Run => "run",
            Kind::Wait => "wait",
            Kind::RunHidden => "runhidden",
            Kind::WaitHidden => "waithidden",
            Kind::Setting | Kind::SettingDelete => "setting",
            Kind::Prefetch => "prefetch",
        }
    }

    /// The word after that, in lower case, where there is one.
    pub(crate) fn second_word(self) -> Option<&'static str>
        ensures { option_copied result ≡ second_word (words self) }
    {
        match self {
            Kind::ContinueIf => Some("if"),
            Kind::PauseWhile => Some("while"),
            Kind::Create => Some("until"),
            Kind::FolderCreate => Some("create"),
            Kind::FolderDelete | Kind::SettingDelete => Some("delete"),
            _ => None,
        }
    }
}
