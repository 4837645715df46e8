// The lines of sites and of results.
ghost use Rattle.std.specs.Prelude.{◌≡◌, ◌++◌, OnOk, flat_map};
ghost use Rattle.server_text.specs.Bodies.{result_line, version_line};

use crate::site_versions::SiteVersion;
use desk_base::{Bytes, decimal};
use desk_keep::ResultRow;
use report_text::write_row_fields;
use std::alloc::AllocError;

/// Appends the lines of sites.
pub(crate) fn say_versions(sites: &[SiteVersion], out: &mut Bytes) -> Result<(), AllocError>
    ensures { OnOk result (out.new ≡ out.old ++ flat_map version_line sites.now) }
{
    for site in sites {
        say_version(site, out)?;
    }
    Ok(())
}

/// Appends the line of a site.
#[tactic(auto, unfolding(crate::specs::Bodies::version_line))]
fn say_version(site: &SiteVersion, out: &mut Bytes) -> Result<(), AllocError>
    ensures { OnOk result (out.new ≡ out.old ++ version_line site.now) }
{
    out.extend(site.name.as_str().as_bytes())?;
    out.push(b' ')?;
    decimal(site.version, out)?;
    out.push(b'\n')
}

/// Appends the lines of results.
pub(crate) fn say_rows(rows: &[ResultRow], out: &mut Bytes) -> Result<(), AllocError>
    ensures { OnOk result (out.new ≡ out.old ++ flat_map result_line rows.now) }
{
    for row in rows {
        say_row(row, out)?;
    }
    Ok(())
}

/// Appends the line of a result.
#[tactic(auto, unfolding(crate::specs::Bodies::result_line))]
fn say_row(row: &ResultRow, out: &mut Bytes) -> Result<(), AllocError>
    ensures { OnOk result (out.new ≡ out.old ++ result_line row.now) }
{
    write_row_fields(&row.row, out)?;
    out.push(b' ')?;
    decimal(row.seq, out)?;
    out.push(b'\n')
}
