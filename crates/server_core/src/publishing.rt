// Sites that are published.
ghost use Rattle.std.specs.Prelude.{◌≡◌, nat_le, true, IfOk, IfSome};
ghost use Rattle.fix_site.specs.Sites.{IsSite, site_text};
ghost use Rattle.server_text.specs.Entries.{Published};
ghost use Rattle.server_core.specs.Replies.{full_if, reply_to_site, site_count};
ghost use Rattle.server_core.specs.AcceptedTables.{site_at};
ghost use Rattle.server_core.specs.ServerParts.{Learns, Takes, is_plain};

use crate::keeping::put;
use crate::limits::Limits;
use crate::looking::{count_of, has_row, row_of};
use crate::stop::Stop;
use desk_base::Bytes;
use desk_keep::{Change, Find, Keeper, Table};
use fix_site::Site;
use rel_lexer::Text;
use server_text::Reply;
use std::alloc::Global;

/// Keeps a site, of which this is the text, if it is accepted.
pub(crate) fn publish_site<K: Keeper>(
    alloc: Global,
    keeper: &mut K,
    limits: Limits,
    site: Site,
    text: &Bytes,
) -> Result<Reply, Stop>
    requires good { IsSite site }
    requires text { text.now ≡ site_text site }
    ensures { Takes limits (Published site) (K.told keeper.old) result (K.told keeper.new) }
{
    if let Some(reply) = reply_to_site(alloc, keeper, limits, &site, text)? {
        return Ok(reply);
    }
    let row = Change::Site {
        name: site.name,
        version: site.version,
        text: text.copy()?,
    };
    put(keeper, &[row])?;
    Ok(Reply::Ok)
}

/// The reply to a site that isn't accepted.
fn reply_to_site<K: Keeper>(
    alloc: Global,
    keeper: &mut K,
    limits: Limits,
    site: &Site,
    text: &Bytes,
) -> Result<Option<Reply>, Stop>
    requires { text.now ≡ site_text site.now }
    ensures plain { IfOk result (λ reply. IfSome reply (λ reply. is_plain reply ≡ true)) }
    ensures learns { Learns (λ rows. reply_to_site limits rows site.now (site_at site.now.name rows))
        (K.told keeper.old) result (K.told keeper.new) }
{
    let find = Find::Site(site.name.copy()?);
    let Some(
        Change::Site {
            version,
            text: kept,
            ..
        },
    ) = row_of(keeper, &find)?
    else {
        return full_of_sites(alloc, keeper, limits);
    };
    if version == site.version && kept.as_slice() == text.as_slice() {
        return Ok(Some(Reply::Again));
    }
    if version >= site.version {
        return Ok(Some(Reply::Older(version)));
    }
    Ok(None)
}

/// Full, where no site of another name is taken.
fn full_of_sites<K: Keeper>(
    alloc: Global,
    keeper: &mut K,
    limits: Limits,
) -> Result<Option<Reply>, Stop>
    ensures plain { IfOk result (λ reply. IfSome reply (λ reply. is_plain reply ≡ true)) }
    ensures learns { Learns (λ rows. full_if (nat_le limits.sites (site_count rows)) limits.sites)
        (K.told keeper.old) result (K.told keeper.new) }
{
    if limits.sites <= site_count(alloc, keeper)? {
        return Ok(Some(Reply::Full(limits.sites)));
    }
    Ok(None)
}

/// How many sites are kept, `actionsite` aside.
fn site_count<K: Keeper>(alloc: Global, keeper: &mut K) -> Result<u64, Stop>
    ensures { Learns site_count (K.told keeper.old) result (K.told keeper.new) }
{
    let count = count_of(keeper, Table::Sites)?;
    let actionsite = Find::Site(Text::from_str(alloc, "actionsite")?);
    if has_row(keeper, &actionsite)? {
        return Ok(count.saturating_sub(1));
    }
    Ok(count)
}
