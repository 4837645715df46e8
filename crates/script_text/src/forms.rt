// What follows the first words of a line, for each kind.
ghost use Rattle.std.specs.Prelude.{ℕ, List, MatchResult};
ghost use Rattle.script_text.specs.declared.command.Command.{Command};
ghost use Rattle.script_text.specs.declared.command.Command.TheVariants.{Do};
ghost use Rattle.script_text.specs.declared.command.Source.{Source};
ghost use Rattle.script_text.specs.declared.kind.Kind.TheVariants as the;
ghost use Rattle.script_text.specs.declared.template.Template.{Template};
ghost use Rattle.script_text.specs.Forms.{reads, form, bare_form, date_form, ended, pair_form, path_form, prefetch_form, rest_form, test_form, until_form};
ghost use Rattle.script_text.specs.Readings.{IsSimple, NotOfForm};

use crate::command::{Command, Source};
use crate::error::Refusal;
use crate::fields::{
    braced, ended, equals, field, gap, loose_equals, name_field, quoted_name, sha1_field,
    sha256_field, size_field, word,
};
use crate::kind::Kind;
use crate::piece::{path_of_line, quoted, rest_of_line};
use crate::{Line, Template};
use rel_lexer::Text;
use std::alloc::Global;

/// Reads what follows the first words of a line of this kind.
pub(crate) fn read_form(alloc: Global, kind: Kind, text: &str) -> Result<Command, Refusal>
    ensures { MatchResult result (λ c. form kind text.now (reads c)) (λ e. NotOfForm (form kind) text.now e) }
{
    match kind {
        Kind::Parameter => read_parameter(alloc, text),
        Kind::If => Ok(Command::If(read_test(alloc, text)?)),
        Kind::ElseIf => Ok(Command::ElseIf(read_test(alloc, text)?)),
        Kind::Else => read_bare(Command::Else, text),
        Kind::EndIf => read_bare(Command::EndIf, text),
        Kind::Create => Ok(Command::Create(read_until(alloc, text)?)),
        Kind::Prefetch => Ok(Command::Prefetch(read_prefetch(alloc, text)?)),
        Kind::Setting => read_setting(alloc, text),
        Kind::SettingDelete => read_setting_delete(alloc, text),
        _ => Ok(Command::Do(read_simple(alloc, kind, text)?)),
    }
}

/// Reads what follows the words of a line with one test, one rest or two templates.
fn read_simple(alloc: Global, kind: Kind, text: &str) -> Result<Line, Refusal>
    requires { IsSimple kind }
    ensures { MatchResult result (λ l. form kind text.now (reads (Do l))) (λ e. NotOfForm (form kind) text.now e) }
{
    match kind {
        Kind::ContinueIf => Ok(Line::ContinueIf(read_test(alloc, text)?)),
        Kind::PauseWhile => Ok(Line::PauseWhile(read_test(alloc, text)?)),
        Kind::Append => Ok(Line::Append(read_rest(alloc, text)?)),
        Kind::Delete => Ok(Line::Delete(read_path(alloc, text)?)),
        Kind::FolderCreate => Ok(Line::FolderCreate(read_path(alloc, text)?)),
        Kind::FolderDelete => Ok(Line::FolderDelete(read_path(alloc, text)?)),
        Kind::Run => Ok(Line::Run(read_rest(alloc, text)?)),
        Kind::Wait => Ok(Line::Wait(read_rest(alloc, text)?)),
        Kind::RunHidden => Ok(Line::RunHidden(read_rest(alloc, text)?)),
        Kind::WaitHidden => Ok(Line::WaitHidden(read_rest(alloc, text)?)),
        Kind::Copy => {
            let (from, to) = read_pair(alloc, text)?;
            Ok(Line::Copy(from, to))
        }
        Kind::Move => {
            let (from, to) = read_pair(alloc, text)?;
            Ok(Line::Move(from, to))
        }
        _ => Err(Refusal::NoCommand),
    }
}

fn read_bare(command: Command, text: &str) -> Result<Command, Refusal>
    ensures { MatchResult result (λ c. bare_form command text.now (reads c)) (λ e. NotOfForm (bare_form command) text.now e) }
{
    ended(text)?;
    Ok(command)
}

/// ` {E}`
fn read_test(alloc: Global, text: &str) -> Result<Text, Refusal>
    ensures { (make : List ℕ → Command) → MatchResult result (λ r. test_form make text.now (reads (make r)))
        (λ e. NotOfForm (test_form make) text.now e) }
{
    let (test, rest) = braced(gap(text)?)?;
    ended(rest)?;
    Ok(Text::from_str(alloc, test)?)
}

/// ` REST`
fn read_rest(alloc: Global, text: &str) -> Result<Template, Refusal>
    ensures { (make : Template → Command) → MatchResult result (λ r. rest_form make text.now (reads (make r)))
        (λ e. NotOfForm (rest_form make) text.now e) }
{
    rest_of_line(alloc, gap(text)?)
}

/// ` P`
fn read_path(alloc: Global, text: &str) -> Result<Template, Refusal>
    ensures { (make : Template → Command) → MatchResult result (λ r. path_form make text.now (reads (make r)))
        (λ e. NotOfForm (path_form make) text.now e) }
{
    path_of_line(alloc, gap(text)?)
}

/// ` Q Q`
fn read_pair(alloc: Global, text: &str) -> Result<(Template, Template), Refusal>
    ensures { (make : Template → Template → Command)
        → MatchResult result (λ r. pair_form make text.now (reads (make r.0 r.1))) (λ e. NotOfForm (pair_form make) text.now e) }
{
    let (first, rest) = quoted(alloc, gap(text)?)?;
    let (second, rest) = quoted(alloc, gap(rest)?)?;
    ended(rest)?;
    Ok((first, second))
}

/// ` WORD`
fn read_until(alloc: Global, text: &str) -> Result<Text, Refusal>
    ensures { (make : List ℕ → Command) → MatchResult result (λ r. until_form make text.now (reads (make r)))
        (λ e. NotOfForm (until_form make) text.now e) }
{
    let (word, rest) = field(gap(text)?)?;
    ended(rest)?;
    Ok(Text::from_str(alloc, word)?)
}

/// ` "name" = Q`
fn read_parameter(alloc: Global, text: &str) -> Result<Command, Refusal>
    ensures { MatchResult result (λ c. form the.Parameter text.now (reads c)) (λ e. NotOfForm (form the.Parameter) text.now e) }
{
    let (name, rest) = quoted_name(gap(text)?)?;
    let rest = gap(equals(gap(rest)?)?)?;
    let (value, rest) = quoted(alloc, rest)?;
    ended(rest)?;
    let name = Text::from_str(alloc, name)?;
    Ok(Command::Do(Line::Parameter(name, value)))
}

/// ` Q=Q on Q for client`
fn read_setting(alloc: Global, text: &str) -> Result<Command, Refusal>
    ensures { MatchResult result (λ c. form the.Setting text.now (reads c)) (λ e. NotOfForm (form the.Setting) text.now e) }
{
    let (name, rest) = quoted(alloc, gap(text)?)?;
    let (value, rest) = quoted(alloc, loose_equals(rest)?)?;
    let date = read_date(alloc, rest)?;
    Ok(Command::Do(Line::Setting(name, value, date)))
}

/// ` Q on Q for client`
fn read_setting_delete(alloc: Global, text: &str) -> Result<Command, Refusal>
    ensures { MatchResult result (λ c. form the.SettingDelete text.now (reads c))
        (λ e. NotOfForm (form the.SettingDelete) text.now e) }
{
    let (name, rest) = quoted(alloc, gap(text)?)?;
    let date = read_date(alloc, rest)?;
    Ok(Command::Do(Line::SettingDelete(name, date)))
}

/// ` on Q for client`
fn read_date(alloc: Global, text: &str) -> Result<Template, Refusal>
    ensures { (make : Template → Command) → MatchResult result
        (λ r. date_form (λ date. ended (make date)) text.now (reads (make r)))
        (λ e. NotOfForm (date_form (λ date. ended (make date))) text.now e) }
{
    let rest = gap(word("on", gap(text)?)?)?;
    let (date, rest) = quoted(alloc, rest)?;
    let rest = gap(word("for", gap(rest)?)?)?;
    ended(word("client", rest)?)?;
    Ok(date)
}

/// ` NAME sha1:HEX size:N URL sha256:HEX`
fn read_prefetch(alloc: Global, text: &str) -> Result<Source, Refusal>
    ensures { (make : Source → Command) → MatchResult result (λ r. prefetch_form make text.now (reads (make r)))
        (λ e. NotOfForm (prefetch_form make) text.now e) }
{
    let (name, rest) = name_field(gap(text)?)?;
    let (sha1, rest) = sha1_field(gap(rest)?)?;
    let (size, rest) = size_field(gap(rest)?)?;
    let (url, rest) = field(gap(rest)?)?;
    let (sha256, rest) = sha256_field(gap(rest)?)?;
    ended(rest)?;
    let name = Text::from_str(alloc, name)?;
    let url = Text::from_str(alloc, url)?;
    Ok(Source {
        name,
        sha1,
        size,
        url,
        sha256,
    })
}
