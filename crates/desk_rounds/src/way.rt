// Exchanges with an upstream, and with a second one where there is one.
ghost use Rattle.std.specs.Prelude.{◌≡◌, ◌++◌, MatchResult};
ghost use Rattle.desk_rounds.specs.Asking.{Said};
ghost use Rattle.desk_rounds.specs.Lines.{lines_text};
ghost use Rattle.desk_rounds.specs.Ways.{Exchanges, IsSwitched, OpensLink, TurnsBy, switched_now, way};

use crate::asking::Miss;
use desk_base::Bytes;
use desk_http::{Exchanged, Link};
use rel_lexer::Text;
use std::alloc::AllocError;

/// An upstream that each round begins with, and one that it turns to where an exchange fails.
#[derive(Drop)]
pub struct Upstreams {
    pub first: Text,
    pub second: Text,
}

/// Opens the link to the first of two upstreams, and answers the second. The error is want of memory, and changes nothing.
#[tactic(auto, using(crate::proofs::Opening::opened_none, crate::proofs::Opening::opened_some, crate::proofs::Opening::opened_short))]
pub(crate) fn open_first<L: Link>(
    link: &mut L,
    upstreams: &Option<Upstreams>,
) -> Result<Option<Text>, AllocError>
    ensures { OpensLink upstreams.now (L.told link.old) result (L.told link.new) }
{
    let Some(two) = upstreams else {
        return Ok(None);
    };
    let second = two.second.copy()?;
    link.open(&two.first)?;
    Ok(Some(second))
}

/// Asks the upstream that is open a request. Where the exchange fails, the second one is turned to, if there is one, and asked the same; in
/// `second` stands that one until it is turned to.
pub(crate) fn exchange<L: Link>(
    link: &mut L,
    second: &mut Option<Text>,
    request: &[u8],
) -> Exchanged
    ensures { Exchanges request.now (way (L.told link.old) second.old) result (way (L.told link.new) second.new) }
{
    match link.exchange(request) {
        Exchanged::Failed => turn(link, second, request),
        answer => answer,
    }
}

/// After an exchange that failed.
#[tactic(auto, using(crate::proofs::Saying::turned_none, crate::proofs::Saying::turned_some, crate::proofs::Saying::turned_short))]
fn turn<L: Link>(link: &mut L, second: &mut Option<Text>, request: &[u8]) -> Exchanged
    ensures { TurnsBy request.now second.old (L.told link.old) result (way (L.told link.new) second.new) }
{
    let Some(upstream) = second.take() else {
        return Exchanged::Failed;
    };
    match link.open(&upstream) {
        Ok(()) => link.exchange(request),
        Err(_) => Exchanged::Memory,
    }
}

/// What came of a request, once the line of the second upstream stands in `out`, where there was one before and it was turned to; or want
/// of memory.
pub(crate) fn said<V: Drop>(
    before: bool,
    second: &Option<Text>,
    came: Result<V, Miss>,
    out: &mut Bytes,
) -> Result<V, Miss>
    ensures { Said before second.now came result out.old out.new }
{
    match say_switched(before, second, out) {
        Ok(()) => came,
        Err(_) => Err(Miss::Memory),
    }
}

/// Appends the line of the second upstream, where there was one before and it was turned to. The error is want of memory, and appends
/// nothing.
#[tactic(auto, using(crate::proofs::Opening::not_before, crate::proofs::Opening::still_there, crate::proofs::Opening::line_said, crate::proofs::Opening::line_short))]
pub(crate) fn say_switched(
    before: bool,
    second: &Option<Text>,
    out: &mut Bytes,
) -> Result<(), AllocError>
    ensures { MatchResult result (λ _. out.new ≡ out.old ++ lines_text (switched_now before second.now))
        (λ _. IsSwitched before second.now × (out.new ≡ out.old)) }
{
    if !before {
        return Ok(());
    }
    if second.is_some() {
        return Ok(());
    }
    out.extend(b"link: second\n")?;
    Ok(())
}
