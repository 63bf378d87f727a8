//! The writes of a save: the used blocks whose bytes changed, then both copies of the commit.
ghost use Rattle.std.specs.Prelude.{◌≡◌, ℕ, ◌≤◌, ◌<◌, ◌+◌, if◌then◌else◌, length, IsTrue, IsFalse, OnOk, Some};
ghost use Rattle.flt_flash.specs.Blocks.{record_pages};
ghost use Rattle.flt_nvm.specs.Driver.{driver_of, table_of};
ghost use Rattle.flt_store_model.specs.Layout.{first_part, parts, end_part};
ghost use Rattle.flt_store_model.specs.Form.{block_bytes};
ghost use Rattle.flt_store_model.specs.Holding.{Generation};
ghost use Rattle.flt_store_model.specs.Successor.{OnlyNewBlock, OnlyNewBlocks, is_moved, is_written};
ghost use Rattle.flt_image.specs.Blocks.{bytes_at};
ghost use Rattle.flt_image.specs.Table.{block_table};
ghost use Rattle.flt_store.specs.Cause.{StoreWrites};
ghost use Rattle.flt_store.specs.Cost.{Spends, SpendsOnBlock, written_sum};
ghost use Rattle.flt_store.specs.Saving.{AreWritable, CanSaveBehind, FormsNext, IsKnownCurrent, SpendsOnSave, WritesBehind, WritesGeneration, WritesOwn};
ghost use Rattle.flt_store.specs.Started.{next_generation};
ghost use Rattle.flt_store.specs.Writing.{AreWritten, IsBlockWritten};

use flt_config::{Persist, ValidConfig};
use flt_flash::{BlockFault, Blocks};
use flt_image::{Commit, StateBlocks, is_used, next_commit, put_commit};
use flt_nvm::Nvm;
use flt_store_model::{COMMIT_ID, END_PART, FIRST_PART};

/// The next commit names the block at another index than the current one.
fn is_moved(current: &Option<Commit>, next: &Commit, id: u16) -> bool
    requires first { first_part ≤ id }
    requires end { id < end_part }
    ensures { result ≡ is_moved current.now next.now id }
{
    match current {
        None => true,
        Some(commit) => commit.index_of(id) != next.index_of(id),
    }
}

fn is_written(config: &ValidConfig, current: &Option<Commit>, next: &Commit, id: u16) -> bool
    requires first { first_part ≤ id }
    requires end { id < end_part }
    ensures { result ≡ is_written config.now current.now next.now id }
{
    is_used(config, id) && is_moved(current, next, id)
}

/// Writes the block at the index at which the next commit names it, if that is another than the current one.
fn write_moved<B: Blocks + Drop>(
    nvm: &mut Nvm<B>,
    config: &ValidConfig,
    current: &Option<Commit>,
    next: &Commit,
    blocks: &StateBlocks,
    id: u16,
) -> Result<(), BlockFault>
    requires table { table_of nvm.old ≡ block_table }
    requires writable { AreWritable config.now current.now next.now (bytes_at blocks.now) }
    requires first { first_part ≤ id }
    requires end { id < end_part }
    ensures written { OnOk result (IsTrue (is_written config.now current.now next.now id) → IsBlockWritten next.now (bytes_at blocks.now) (driver_of nvm.new).value id) }
    ensures only { OnlyNewBlock config.now current.now next.now (bytes_at blocks.now) id (driver_of nvm.old).value (driver_of nvm.new).value }
    ensures own { WritesOwn config.now (driver_of nvm.old) (driver_of nvm.new) result }
    ensures spends { SpendsOnBlock config.now current.now next.now (bytes_at blocks.now) id (driver_of nvm.old) (driver_of nvm.new) }
    ensures table { table_of nvm.new ≡ table_of nvm.old }
{
    if is_written(config, current, next, id) {
        nvm.write(id, next.index_of(id), blocks.get(id))
    } else {
        Ok(())
    }
}

/// Writes those blocks in ascending order.
fn write_blocks<B: Blocks + Drop>(
    nvm: &mut Nvm<B>,
    config: &ValidConfig,
    current: &Option<Commit>,
    next: &Commit,
    blocks: &StateBlocks,
) -> Result<(), BlockFault>
    requires table { table_of nvm.old ≡ block_table }
    requires writable { AreWritable config.now current.now next.now (bytes_at blocks.now) }
    ensures written { OnOk result (AreWritten config.now current.now next.now (bytes_at blocks.now) (driver_of nvm.new).value) }
    ensures only { OnlyNewBlocks config.now current.now next.now (bytes_at blocks.now) (driver_of nvm.old).value (driver_of nvm.new).value }
    ensures own { WritesOwn config.now (driver_of nvm.old) (driver_of nvm.new) result }
    ensures spends { (most : ℕ) → IsFalse (driver_of nvm.old).is_stale → Spends most (driver_of nvm.old) (driver_of nvm.new)
        (written_sum config.now current.now next.now (λ id. record_pages (length (bytes_at blocks.now id))) parts)
        (written_sum config.now current.now next.now (λ id. most) parts) }
    ensures table { table_of nvm.new ≡ table_of nvm.old }
{
    for id in FIRST_PART..END_PART {
        write_moved(nvm, config, current, next, blocks, id)?;
    }
    Ok(())
}

/// Writes a generation: the blocks whose bytes are not those that were saved, or all where there is no commit, then the first
/// copy of its commit, then the second. The bytes of its blocks are put into `blocks`, in place of what is there.
pub(crate) fn write_generation<B: Blocks + Drop>(
    nvm: &mut Nvm<B>,
    config: &ValidConfig,
    state: &Persist,
    current: &Option<Commit>,
    saved: &StateBlocks,
    blocks: &mut StateBlocks,
) -> Result<Commit, BlockFault>
    requires table { table_of nvm.old ≡ block_table }
    requires can { CanSaveBehind config.now current.now state.now }
    ensures behind { (g : Generation) → IsKnownCurrent config.now (driver_of nvm.old).value current.now (bytes_at saved.now) g
        → WritesBehind config.now g (next_generation current.now state.now) (driver_of nvm.new).value result }
    ensures forms { FormsNext config.now current.now (bytes_at saved.now) state.now (bytes_at blocks.new) (driver_of nvm.new).value result }
    ensures spends { SpendsOnSave config.now current.now (bytes_at saved.now) (block_bytes state.now) (driver_of nvm.old) (driver_of nvm.new) }
    ensures writes { WritesGeneration (driver_of nvm.old) (driver_of nvm.new) result }
    ensures table { table_of nvm.new ≡ table_of nvm.old }
{
    blocks.put_all(config, state);
    let commit = next_commit(config, current, saved, blocks);
    write_blocks(nvm, config, current, &commit, blocks)?;
    nvm.write(COMMIT_ID, 0, &put_commit(&commit))?;
    Ok(commit)
}
