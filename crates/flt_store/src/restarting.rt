//! Which generation is stored after a save that failed, and the repair of the commit's copies.
ghost use Rattle.std.specs.Prelude.{◌≡◌, ◌-◌, length, IsFalse, IfOk, OnOk, Some};
ghost use Rattle.flt_flash.specs.Content.{bytes as holding};
ghost use Rattle.flt_flash.specs.Calls.{Follows};
ghost use Rattle.flt_nvm.specs.Driver.{driver_of, table_of};
ghost use Rattle.flt_store_model.specs.Holding.{Generation, Holds, IsSound};
ghost use Rattle.flt_image.specs.Table.{block_table};
ghost use Rattle.flt_store.specs.Restarting.{HasReadCopy, IsCommitFound, IsCommitRead, RepairsCopy, Restarts, WritesOtherCopy};
ghost use Rattle.flt_store.specs.Started.{AgreeButForCommit};

use flt_config::ValidConfig;
use flt_flash::{BlockFault, Blocks};
use flt_image::{Commit, get_commit};
use flt_nvm::{Got, Nvm};
use flt_store_model::COMMIT_ID;

/// Makes both copies of the commit hold what the first has, or the second where the first has no bytes or can't be read;
/// answers their commit, or none before the first save. It is kept apart from the saves that find the store settled: in line, each of them
/// would clear the room for the blocks that are read after it.
#[inline(never)]
pub(crate) fn restart<B: Blocks + Drop>(
    nvm: &mut Nvm<B>,
    config: &ValidConfig,
) -> Result<Option<Commit>, BlockFault>
    requires table { table_of nvm.old ≡ block_table }
    requires sound { (held : Generation) × (spare : Generation) × IsSound config.now (driver_of nvm.old).value held spare }
    ensures restarts { (held spare : Generation) → IsSound config.now (driver_of nvm.old).value held spare
        → Restarts config.now held spare (driver_of nvm.old) (driver_of nvm.new) result }
    ensures found { IfOk result (IsCommitFound config.now (driver_of nvm.old) (driver_of nvm.new)) }
    ensures commit_alone { AgreeButForCommit (driver_of nvm.old).value (driver_of nvm.new).value }
    ensures not_stale { OnOk result (IsFalse (driver_of nvm.new).is_stale) }
    ensures calls { Follows (driver_of nvm.old) (driver_of nvm.new) }
    ensures table { table_of nvm.new ≡ table_of nvm.old }
{
    let mut out = [0; 128];
    match nvm.read(COMMIT_ID, 0, &mut out)? {
        Got::Bytes { length, copy } => Ok(Some(repair_by(nvm, config, copy, &out[..length])?)),
        Got::Missing => Ok(None),
        Got::Invalid => Ok(None),
    }
}

/// Makes the other copy hold what this one has, and answers the commit that these bytes are.
fn repair_by<B: Blocks + Drop>(
    nvm: &mut Nvm<B>,
    config: &ValidConfig,
    copy: u8,
    bytes: &[u8],
) -> Result<Commit, BlockFault>
    requires table { table_of nvm.old ≡ block_table }
    requires has { HasReadCopy config.now (driver_of nvm.old).value copy bytes.now }
    ensures repairs { (g : Generation) → Holds config.now (driver_of nvm.old).value (holding bytes.now) g
        → RepairsCopy config.now g copy bytes.now (driver_of nvm.old) (driver_of nvm.new) result }
    ensures read { IfOk result (IsCommitRead config.now bytes.now) }
    ensures other { WritesOtherCopy config.now copy bytes.now (driver_of nvm.old) (driver_of nvm.new) result }
    ensures not_stale { OnOk result (IsFalse (driver_of nvm.new).is_stale) }
    ensures calls { Follows (driver_of nvm.old) (driver_of nvm.new) }
    ensures table { table_of nvm.new ≡ table_of nvm.old }
{
    let Some(commit) = get_commit(config, bytes) else {
        unreachable!()
    };
    nvm.repair(COMMIT_ID, copy, bytes)?;
    Ok(commit)
}
