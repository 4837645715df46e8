// What the upstreams of agents list and serve.

/// The reply that lists the two sites.
pub(crate) const LISTED: &str = "200 actionsite 1\ndesk 1\n";

/// The site of one action, open to all at any time.
pub(crate) const ACTION: &str = "site actionsite 1
action 7
issued 900
content desk 1
members stop
target all
start none
until none
hours none
days 1111111
retries 0 0
reapply never
state open
end
";

/// A fixlet that fetches the file `abc` twice.
pub(crate) const FETCHES: &str = "site desk 1
fixlet 1
title Fetches
success lines
| prefetch p sha1:a9993e364706816aba3e25717850c26c9cd0d89d size:3 http://host/p sha256:ba7816bf8f01cfea414140de5dae2223b00361a396177a9cb410ff61f20015ad
| prefetch q sha1:a9993e364706816aba3e25717850c26c9cd0d89d size:3 http://host/q sha256:ba7816bf8f01cfea414140de5dae2223b00361a396177a9cb410ff61f20015ad
end
";

/// A fixlet that makes a folder.
pub(crate) const MAKES: &str = "site desk 1
fixlet 1
title Makes
success lines
| folder create /t
end
";

/// A fixlet that is relevant by a look.
pub(crate) const LOOKS: &str = "site desk 1
fixlet 1
title Looks
relevance not exists file \"/t\"
success lines
| folder create /t
end
";
