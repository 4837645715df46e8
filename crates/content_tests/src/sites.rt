use desk_base::Bytes;
use fix_site::{
    Block, Piece, Pieces, Site, a_site_has_few_lines, pieces, read_action, read_site, write_action,
    write_site,
};
use line_forms::write_digest;
use sha2::{Digest, Sha256};
use std::alloc::Global;
use std::test::Fail;

/// A site's lines before the last.
const BODY: &[u8] =
    b"site desk 1\nfixlet 1\ntitle T\nrelevance a\nrelevance b\nsuccess clause c\n| d\n|\nend\nfixlet 2\ntitle T\nsuccess lines\nend\nbaseline 3\ntitle T\nrelevance e\ncomponent 1\nend\n";

/// The text of a site with these lines, and the digest of them in a last one.
pub(crate) fn sealed(alloc: Global, body: &[u8]) -> Result<Bytes, Fail> {
    let digest = Sha256::digest(body);
    let mut text = Bytes::from_slice(alloc, body)?;
    text.extend(b"digest ")?;
    write_digest(&digest, &mut text)?;
    text.push(b'\n')?;
    Ok(text)
}

/// Whether a copy of the site that this text is has this text.
fn is_written_again(alloc: Global, text: &[u8]) -> Result<bool, Fail> {
    let Ok(site) = read_site(alloc, text) else {
        return Err("no site".into());
    };
    let copy = site.copy()?;
    let written = write_site(alloc, &copy)?;
    Ok(written.as_slice() == text)
}

#[test]
fn a_site_is_written_as_it_was_read(rt: HostRuntime) -> Result<(), Fail> {
    let text = sealed(rt.alloc(), BODY)?;
    assert_eq!(rt; is_written_again(rt.alloc(), text.as_slice())?, true);
    Ok(())
}

/// Whether an action of this text is written, once copied, with this text.
fn is_action_written_again(alloc: Global, text: &[u8]) -> Result<bool, Fail> {
    let Ok(action) = read_action(alloc, text) else {
        return Err("no action".into());
    };
    let copy = action.copy()?;
    let written = write_action(alloc, &copy)?;
    Ok(written.as_slice() == text)
}

#[test]
fn an_action_is_written_as_it_was_read(rt: HostRuntime) -> Result<(), Fail> {
    let text =
        b"action 22\nissued 1000\ncontent apps 4\nmembers stop\ntarget where true\nstart none\nuntil none\ntime client\nhours none\ndays 1111111\nretries 0 10\nreapply while 1 3600\nstate open\nend\n";
    assert_eq!(rt; is_action_written_again(rt.alloc(), text)?, true);
    Ok(())
}

/// The line of a piece, and how many lines of a script it has.
fn place(piece: &Piece) -> (u32, usize) {
    match piece {
        Piece::Relevance { line, .. } => (*line, 0),
        Piece::Script { line, lines } => (*line, lines.as_slice().len()),
    }
}

/// Whether the pieces and blocks of `BODY` are found.
fn are_found(site: &Site, list: &Pieces) -> bool {
    let places = [(4, 0), (5, 0), (6, 0), (7, 2), (16, 0)];
    let mut pieces = list.as_slice().iter().map(place);
    let fixlet = matches!(site.block(2), Some(Block::Fixlet(_)));
    let baseline = matches!(site.block(3), Some(Block::Baseline(_)));
    pieces.eq(places) && fixlet && baseline && site.block(4).is_none()
}

/// A copy of the pieces of a site that was read, and the site.
fn pieces_of_text(alloc: Global, text: &[u8]) -> Result<(Site, Pieces), Fail> {
    let Ok(site) = read_site(alloc, text) else {
        return Err("no site".into());
    };
    a_site_has_few_lines();
    let list = pieces(alloc, &site)?;
    let copy = list.copy()?;
    Ok((site, copy))
}

#[test]
fn pieces_and_blocks_are_found(rt: HostRuntime) -> Result<(), Fail> {
    let text = sealed(rt.alloc(), BODY)?;
    let (site, list) = pieces_of_text(rt.alloc(), text.as_slice())?;
    assert_eq!(rt; are_found(&site, &list), true);
    Ok(())
}
