// Texts of sites.

/// The realistic fixlet: it brings a daemon to a new version, and waits for the program that does so.
pub(crate) const REALISTIC: &str = "site desk 1
fixlet 1
title Bring agentd to 1.2
relevance exists packages whose (name of it = \"agentd\" and version of it < \"1.2\")
relevance not exists lines containing \"mode=new\" of file \"/etc/agentd/conf\"
success relevance
| delete __createfile
| createfile until EOF
| mode=new
| host={computer name}
| EOF
| delete /etc/agentd/conf
| copy \"__createfile\" \"/etc/agentd/conf\"
| wait upgrade agentd
| continue if {exit code of action = 0}
end
";

/// The same with a script whose third line fails.
pub(crate) const FAILING: &str = "site desk 1
fixlet 1
title Bring agentd to 1.2
relevance exists packages whose (name of it = \"agentd\" and version of it < \"1.2\")
relevance not exists lines containing \"mode=new\" of file \"/etc/agentd/conf\"
success relevance
| folder create /t
| appendfile hello
| copy \"__appendfile\" \"/etc/agentd/conf\"
end
";

/// What a turn comes to in which it begins.
pub(crate) const FAILED: &str =
    "began 7 failed 0 3 42 AlreadyThere, make /t, append __appendfile, copy __appendfile /etc/agentd/conf\n";

/// A fixlet that waits for a program which is polled three times.
pub(crate) const WAITS: &str = "site desk 1
fixlet 1
title Waits
success lines
| wait slow
end
";

/// The first lines of the site of one action, whose content is fixlet 1 of the site desk.
pub(crate) const ACTION: &str = "site actionsite 1
action 7
issued 900
content desk 1
";

/// The other lines of an action that is open to all at any time, and tried again once after 60 seconds.
pub(crate) const OPEN: &str = "members stop
target all
start none
until none
hours none
days 1111111
retries 1 60
reapply never
state open
end
";
