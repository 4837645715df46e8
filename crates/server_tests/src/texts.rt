// Texts that are handed to a server, and what it makes of them. The digests are of another program.

/// A site.
pub const DESK_1: &str =
    "site desk 1\nfixlet 1\ntitle T\nrelevance true\nsuccess lines\nend\ndigest 55cdb19b974df9367d17cee926b28f174fc515ed37be7c03b9e53c62324015f5\n";

/// Its next version.
pub const DESK_2: &str =
    "site desk 2\nfixlet 1\ntitle T\nrelevance true\nsuccess lines\nend\ndigest a866906f4c8c3f9057da836e4d4299f9b0ec93386e414c72ca246db4577f8af0\n";

/// Another text of that version.
pub const OTHER_DESK_2: &str =
    "site desk 2\nfixlet 1\ntitle U\nrelevance true\nsuccess lines\nend\ndigest 156f6413fb6ed35a5e48b7bb1b856eb3192cc97e05702c59442db35dab995ffe\n";

/// A site of nothing.
pub const TOOLS_1: &str =
    "site tools 1\ndigest 16530471d797ed915b576ccc83447208331661f72c2c3d0c4bb688ad716d880a\n";

/// Another one.
pub const KITS_1: &str =
    "site kits 1\ndigest b96d418cf4649d1bd57ab98766f88ed79ab161e581cec8b4ede49bb5dd607b7c\n";

/// No site: its first line is bad.
pub const NO_SITE: &str = "sit desk 1\n";

/// A site with an id twice, the second time on its seventh line.
pub const TWICE: &str =
    "site desk 3\nfixlet 1\ntitle T\nrelevance true\nsuccess lines\nend\nfixlet 1\ntitle T\nrelevance true\nsuccess lines\nend\ndigest ddc664b536cad8425bbf570cfdeba22e158fab76cd5645aad1dd25bf4870fa96\n";

/// A site of seven lines that states another digest.
pub const WRONG_DIGEST: &str =
    "site desk 3\nfixlet 1\ntitle T\nrelevance true\nsuccess lines\nend\ndigest 0000000000000000000000000000000000000000000000000000000000000000\n";

/// A site whose fifth line is no question.
pub const NO_QUESTION: &str =
    "site desk 3\nfixlet 1\ntitle T\nrelevance true\nrelevance 1 +\nsuccess lines\nend\ndigest d553939b9072e16021fe9caca1081ee9dde6df864b9b2249d17a7375ca607873\n";

/// A site whose fourth line asks for several truths.
pub const PLURAL: &str =
    "site desk 3\nfixlet 1\ntitle T\nsuccess clause (true; false)\nend\ndigest 52e1cd26f8057c292851258a6ac395e6055b5e6986a62d1050f414e78f85f503\n";

/// A site whose sixth line, the second of a script, is no command.
pub const NO_COMMAND: &str =
    "site desk 3\nfixlet 1\ntitle T\nsuccess lines\n| delete /x\n| foo\nend\ndigest 7fb7467efa4b15c053b8589c636fff47422819a4715b600da8163661c472606e\n";

/// A site with an `if` on its sixth line that isn't closed.
pub const OPEN_IF: &str =
    "site desk 3\nfixlet 1\ntitle T\nsuccess lines\n| delete /x\n| if {true}\n| delete /y\nend\ndigest 875f89105dc6ac715521c1986480ba2239246ee06dfe090fbd70450fed60b6e2\n";

/// A site that only the server makes.
pub const ACTIONSITE: &str =
    "site actionsite 3\ndigest 2b34d052043af261b0d5cc294f33bc93600c0f25aa4aefbbc7ad21b4646d2a93\n";

/// The same with another digest, on its second line.
pub const WRONG_ACTIONSITE: &str =
    "site actionsite 3\ndigest 0000000000000000000000000000000000000000000000000000000000000000\n";

/// An action.
pub const ACTION_7: &str =
    "action 7\nissued 900\ncontent desk 1\nmembers stop\ntarget all\nstart none\nuntil none\nhours none\ndays 1111111\nretries 1 60\nreapply never\nstate open\nend\n";

/// Another action of its id.
pub const OTHER_7: &str =
    "action 7\nissued 901\ncontent desk 1\nmembers stop\ntarget all\nstart none\nuntil none\nhours none\ndays 1111111\nretries 1 60\nreapply never\nstate open\nend\n";

/// An action for two computers.
pub const ACTION_8: &str =
    "action 8\nissued 900\ncontent desk 1\nmembers stop\ntarget computer pc1\ntarget computer pc2\nstart none\nuntil none\nhours none\ndays 1111111\nretries 1 60\nreapply never\nstate open\nend\n";

/// A third one.
pub const ACTION_10: &str =
    "action 10\nissued 900\ncontent desk 1\nmembers stop\ntarget all\nstart none\nuntil none\nhours none\ndays 1111111\nretries 1 60\nreapply never\nstate open\nend\n";

/// The first one, stopped; the state is on its twelfth line.
pub const STOPPED_7: &str =
    "action 7\nissued 900\ncontent desk 1\nmembers stop\ntarget all\nstart none\nuntil none\nhours none\ndays 1111111\nretries 1 60\nreapply never\nstate stopped\nend\n";

/// The second one in the client's time, stopped; the state is on its fourteenth line.
pub const STOPPED_8: &str =
    "action 8\nissued 900\ncontent desk 1\nmembers stop\ntarget computer pc1\ntarget computer pc2\nstart none\nuntil none\ntime client\nhours none\ndays 1111111\nretries 1 60\nreapply never\nstate stopped\nend\n";

/// No action: its fourth line is bad.
pub const NO_ACTION: &str =
    "action 7\nissued 900\ncontent desk 1\nmembers none\ntarget all\nstart none\nuntil none\nhours none\ndays 1111111\nretries 1 60\nreapply never\nstate open\nend\n";

/// An action for those of which a question is true.
pub const WHERE_TRUE: &str =
    "action 9\nissued 900\ncontent desk 1\nmembers stop\ntarget where exists true\nstart none\nuntil none\nhours none\ndays 1111111\nretries 1 60\nreapply never\nstate open\nend\n";

/// The same with a question that asks for several truths.
pub const WHERE_PLURAL: &str =
    "action 9\nissued 900\ncontent desk 1\nmembers stop\ntarget where (true; false)\nstart none\nuntil none\nhours none\ndays 1111111\nretries 1 60\nreapply never\nstate open\nend\n";

/// The same, stopped, with a question that asks for a number.
pub const WHERE_NUMBER: &str =
    "action 9\nissued 900\ncontent desk 1\nmembers stop\ntarget where 1\nstart none\nuntil none\nhours none\ndays 1111111\nretries 1 60\nreapply never\nstate stopped\nend\n";

/// The same with no question.
pub const WHERE_NONE: &str =
    "action 9\nissued 900\ncontent desk 1\nmembers stop\ntarget where 1 +\nstart none\nuntil none\nhours none\ndays 1111111\nretries 1 60\nreapply never\nstate open\nend\n";

/// What the server makes of the first action, stopped.
pub const ACTIONS_OF_2: &str =
    "site actionsite 2\naction 7\nissued 900\ncontent desk 1\nmembers stop\ntarget all\nstart none\nuntil none\nhours none\ndays 1111111\nretries 1 60\nreapply never\nstate stopped\nend\ndigest bebad27be746db85f525c3c454030a714dcd2ccdccadcf506e4df3437878bba7\n";

/// What it makes of three, the first stopped.
pub const ACTIONS_OF_4: &str =
    "site actionsite 4\naction 7\nissued 900\ncontent desk 1\nmembers stop\ntarget all\nstart none\nuntil none\nhours none\ndays 1111111\nretries 1 60\nreapply never\nstate stopped\nend\naction 8\nissued 900\ncontent desk 1\nmembers stop\ntarget computer pc1\ntarget computer pc2\nstart none\nuntil none\nhours none\ndays 1111111\nretries 1 60\nreapply never\nstate open\nend\naction 10\nissued 900\ncontent desk 1\nmembers stop\ntarget all\nstart none\nuntil none\nhours none\ndays 1111111\nretries 1 60\nreapply never\nstate open\nend\ndigest e0bfc8abb44cac3f1d1f04ef43c02a5e3aa43ef38e56412603527ffb1853cbb7\n";

/// A report.
pub const REPORT_1: &str = "report 1\ncomputer pc1\nseq 1\nrow 7 1 fixed 1000 1010\nend\n";

/// Another one of its number.
pub const OTHER_1: &str = "report 1\ncomputer pc1\nseq 1\nrow 7 1 failed 1000 1010\nend\n";

/// The second one.
pub const REPORT_2: &str = "report 1\ncomputer pc1\nseq 2\nrow 7 2 failed 1060 1060\nend\n";

/// The third one, of two actions.
pub const REPORT_3: &str =
    "report 1\ncomputer pc1\nseq 3\nrow 7 3 running 1100 -\nrow 9 1 interrupted 1100 1110\nend\n";

/// A report of nothing.
pub const REPORT_4: &str = "report 1\ncomputer pc1\nseq 4\nend\n";

/// A report with the exit code and the place of a failure.
pub const FORM_TWO: &str = "report 2\ncomputer pc1\nseq 2\nrow 7 2 failed 1060 1060 3 0 9\nend\n";

/// A row that is fixed has no place, so that its fourth line is bad.
pub const FIXED_AT_PLACE: &str =
    "report 2\ncomputer pc1\nseq 2\nrow 7 2 fixed 1060 1060 3 0 9\nend\n";

/// A report of another computer.
pub const OF_PC2: &str = "report 1\ncomputer pc2\nseq 1\nend\n";

/// That file is kept.
pub const ABC_IS_KEPT: &str =
    "ok ba7816bf8f01cfea414140de5dae2223b00361a396177a9cb410ff61f20015ad\n";

/// The file of no bytes is kept.
pub const NOTHING_IS_KEPT: &str =
    "ok e3b0c44298fc1c149afbf4c8996fb92427ae41e4649b934ca495991b7852b855\n";

/// Another action stands there, which came as the first one.
pub const ACTION_7_STANDS: &str =
    "conflict e9b9279d6f56f8b8605a13581cf8c83f4dbd9720f208d81a3129961e58abebad\n";

/// Another report stands there, which is the first one.
pub const REPORT_1_STANDS: &str =
    "conflict ca8a7375b560d8fb822012ab1e72147b172b6f77ade2ee68d8ff63bfaf69806e\n";
