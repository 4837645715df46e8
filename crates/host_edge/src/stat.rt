ghost use Rattle.std.specs.Prelude.{IfOk};
ghost use Rattle.bf_world.specs.Answers.{IsGoodAnswer, HasAscendingNames};

use crate::Host;
use crate::clock::nearest_moment;
use crate::kind::metadata_at;
use bf_world::Answer;
use edge_faults::Trouble;
use std::os::unix::fs::MetadataExt;

/// What stands at a place, links followed. What is neither file nor folder is nothing.
pub(crate) fn stat<H: Host>(host: &H, place: &str) -> Result<Answer, Trouble>
    ensures good { IfOk result IsGoodAnswer }
    ensures ascending { IfOk result HasAscendingNames }
{
    let Some(metadata) = metadata_at(host, place)? else {
        return Ok(Answer::Nothing);
    };
    if metadata.is_dir() {
        return Ok(Answer::Folder);
    }
    if !metadata.is_file() {
        return Ok(Answer::Nothing);
    }
    Ok(Answer::File {
        size: i64::try_from(metadata.len()).unwrap_or(i64::MAX),
        modified: nearest_moment(metadata.mtime()),
    })
}
