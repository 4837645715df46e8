// The bytes of the requests of a round. Each error is want of memory.
ghost use Rattle.std.specs.Prelude.{◌≡◌, IfOk};
ghost use Rattle.report_text.specs.Reports.{IsReport};
ghost use Rattle.desk_rounds.specs.Requests as asks;

use desk_base::{Bytes, decimal};
use desk_http::{Asking, ask_bytes};
use line_forms::write_digest;
use rel_lexer::Text;
use report_text::{Report, write_report};
use std::alloc::{AllocError, Global};

/// Which sites there are.
pub(crate) fn sites_request(alloc: Global) -> Result<Bytes, AllocError>
    ensures { IfOk result (λ request. request ≡ asks.sites_request) }
{
    ask_bytes(alloc, Asking::Get, b"/sites", b"")
}

/// The site of this name, where its version is above this one.
#[tactic(auto, unfolding(route_rules::specs::Routes::site_path))]
pub(crate) fn site_request(alloc: Global, name: &Text, version: u64) -> Result<Bytes, AllocError>
    ensures { IfOk result (λ request. request ≡ asks.site_request name.now version) }
{
    let mut path = Bytes::from_slice(alloc, b"/sites/")?;
    path.extend(name.as_str().as_bytes())?;
    path.push(b'/')?;
    decimal(version, &mut path)?;
    ask_bytes(alloc, Asking::Get, path.as_slice(), b"")
}

/// The file of this digest, its SHA-256.
#[tactic(auto, unfolding(route_rules::specs::Routes::file_path))]
pub(crate) fn file_request(alloc: Global, digest: &[u8; 32]) -> Result<Bytes, AllocError>
    ensures { IfOk result (λ request. request ≡ asks.file_request digest.now) }
{
    let mut path = Bytes::from_slice(alloc, b"/files/")?;
    write_digest(digest, &mut path)?;
    ask_bytes(alloc, Asking::Get, path.as_slice(), b"")
}

/// To keep this report.
pub(crate) fn report_request(alloc: Global, report: &Report) -> Result<Bytes, AllocError>
    requires { IsReport report.now }
    ensures { IfOk result (λ request. request ≡ asks.report_request report.now) }
{
    let text = write_report(alloc, report)?;
    ask_bytes(alloc, Asking::Post, b"/reports", text.as_slice())
}
