// The table of commands: how words ask for one, and the help, which has a line for each.
ghost use Rattle.std.specs.Prelude.{◌≡◌, ◌↔◌, IsTrue, MatchOption};
ghost use Rattle.desk_top.specs.Commands.{AskNoDevices, Asks, AsksSome, FindsKeeper, IsNoCommand, help_text};

use crate::agent_words::what_to_round;
use crate::words::{are_spelled, number_to_make, what_to_question, what_to_relay, what_to_serve};
use rel_lexer::Text;

/// What stands behind `serve`.
#[derive(Clone, Copy)]
pub struct ServeWords<'a> {
    /// The port of the door, from 1 to 65,535.
    pub port: u16,
    /// Where the keeper keeps its tables.
    pub keep: &'a Text,
    /// How many conversations are held, from 1 to 1,000,000.
    pub count: u32,
}

/// What stands behind `relay`.
#[derive(Clone, Copy)]
pub struct RelayWords<'a> {
    /// The port of the door, from 1 to 65,535.
    pub port: u16,
    /// Where the upstream is.
    pub upstream: &'a Text,
    /// How many conversations are held, from 1 to 1,000,000.
    pub count: u32,
    /// For how many files its cache has room, from 1 to 64. Without a number it has no cache.
    pub room: Option<u32>,
}

/// What stands behind `agent`.
#[derive(Clone, Copy)]
pub struct AgentWords<'a> {
    /// Where the upstream is.
    pub upstream: &'a Text,
    /// Where the pocket keeps its text.
    pub pocket: &'a Text,
    /// The work folder of the machine.
    pub work: &'a Text,
    /// The name of the computer.
    pub name: &'a Text,
    /// In minutes east of UTC, from -840 to 840.
    pub offset: i64,
    /// How many rounds are made, from 1 to 1,000,000.
    pub count: u32,
    /// Where the upstream is that a round turns to when an exchange fails. Without one it turns to none.
    pub second: Option<&'a Text>,
}

/// What stands behind `session`.
#[derive(Clone, Copy)]
pub struct SessionWords<'a> {
    /// Where a keeper keeps its tables.
    pub keep: &'a Text,
}

/// What the words of the command line can ask for.
#[derive(Clone, Copy)]
pub enum DeskCommand<'a> {
    /// Questions to this machine: each line of the source is one, or a command that begins with `:`.
    Qna,
    /// The same of a described world, whose text the source begins with.
    QnaWorld,
    /// What is wrong first with the site whose text the source is.
    Check,
    /// The play of the office whose text the source is.
    Office,
    /// The text of an office with so many computers, from 1 to 2,000.
    Make(u32),
    /// Conversations over the door, which a server answers from the keeper.
    Serve(ServeWords<'a>),
    /// Conversations over the door, which a relay answers, and rounds over the link to its upstream.
    Relay(RelayWords<'a>),
    /// Rounds of an agent over the machine, with an upstream.
    Agent(AgentWords<'a>),
    /// Questions over what a server has kept: each line of the source is one, or a command that begins with `:`.
    Session(SessionWords<'a>),
    /// The words of each command.
    Help,
}

/// The command that has these words.
#[tactic(auto, using(crate::proofs::WordsOfServe::no_command))]
pub(crate) fn command_of<'a>(words: &'a [Text]) -> Option<DeskCommand<'a>>
    ensures { MatchOption result (IsNoCommand words.now) (Asks words.now) }
{
    if are_spelled(words, &["qna"]) {
        return Some(DeskCommand::Qna);
    }
    if are_spelled(words, &["qna", "--world"]) {
        return Some(DeskCommand::QnaWorld);
    }
    if are_spelled(words, &["check"]) {
        return Some(DeskCommand::Check);
    }
    if are_spelled(words, &["office"]) {
        return Some(DeskCommand::Office);
    }
    if are_spelled(words, &["--help"]) {
        return Some(DeskCommand::Help);
    }
    let Some(number) = number_to_make(words) else {
        return command_with_devices(words);
    };
    Some(DeskCommand::Make(number))
}

/// The command over the door, the link or the keeper that has these words.
fn command_with_devices<'a>(words: &'a [Text]) -> Option<DeskCommand<'a>>
    ensures { MatchOption result (AskNoDevices words.now) (Asks words.now) }
{
    if let Some(asked) = what_to_serve(words) {
        return Some(DeskCommand::Serve(asked));
    }
    if let Some(asked) = what_to_relay(words) {
        return Some(DeskCommand::Relay(asked));
    }
    if let Some(asked) = what_to_round(words) {
        return Some(DeskCommand::Agent(asked));
    }
    match what_to_question(words) {
        Some(asked) => Some(DeskCommand::Session(asked)),
        None => None,
    }
}

/// Whether the words ask of what is kept, so that nothing is made where nothing is kept.
pub fn finds_keeper(words: &[Text]) -> bool
    ensures { IsTrue result ↔ AsksSome words.now FindsKeeper }
{
    what_to_question(words).is_some()
}

/// A line for each command. Words in capitals stand for its numbers and texts.
#[tactic(auto, unfolding(crate::specs::Commands::help_text))]
pub(crate) fn help() -> &'static [u8]
    ensures { result.now ≡ help_text }
{
    b"desk qna\ndesk qna --world\ndesk check\ndesk office\ndesk make N\ndesk serve PORT KEEP N\ndesk relay PORT UPSTREAM N\ndesk agent UPSTREAM POCKET WORK NAME OFFSET N\ndesk session KEEP\ndesk relay PORT UPSTREAM N CACHE\ndesk agent UPSTREAM POCKET WORK NAME OFFSET N SECOND\ndesk --help\n"
}
