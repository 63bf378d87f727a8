//! The bytes of the blocks that a commit names.
ghost use Rattle.std.specs.Prelude.{◌≡◌, ◌≢◌, ◌≤◌, ℕ, [], length, IfNone, IfSome};
ghost use Rattle.flt_nvm.specs.Driver.{driver_of, table_of};
ghost use Rattle.flt_image.specs.Blocks.{bytes_at};
ghost use Rattle.flt_store_model.specs.Layout.{first_part};
ghost use Rattle.flt_store_model.specs.Form.{IsCommit};
ghost use Rattle.flt_restore.specs.Found.{held_content, Reads};
ghost use Rattle.flt_restore.specs.Needs.{IsNamedPart, IsReadable};
ghost use Rattle.flt_restore.specs.Learning.{AreLearned, IsLearned, part_in};

use crate::reading::{Held, read_content};
use flt_config::ValidConfig;
use flt_flash::Blocks;
use flt_image::{LONGEST, StateBlocks, is_used};
use flt_nvm::Nvm;
use flt_store_model::{Commit, END_PART, FIRST_PART};

/// The bytes that a block of a state may have; empty if it has none or too many.
fn part_in(held: &Held) -> &[u8]
    ensures bytes { result.now ≡ part_in (held_content held.now) }
    ensures short { length result.now ≤ LONGEST }
{
    match held {
        Held::Missing => &[],
        Held::Invalid => &[],
        Held::Bytes(bytes) => { if bytes.len() <= LONGEST { bytes } else { &[] } }
    }
}

/// Reads a used block at the index at which the commit names it.
fn read_block<B: Blocks + Drop>(
    nvm: &mut Nvm<B>,
    config: &ValidConfig,
    commit: &Commit,
    id: u16,
    blocks: &mut StateBlocks,
)
    requires readable { IsReadable nvm.old }
    requires part { IsNamedPart config.now commit.now id }
    ensures learned { IsLearned config.now (driver_of nvm.old) (driver_of nvm.new) commit.now id (bytes_at blocks.new id) }
    ensures others { (other : ℕ) → first_part ≤ other → other ≢ id → bytes_at blocks.new other ≡ bytes_at blocks.old other }
    ensures reads { Reads (driver_of nvm.old) (driver_of nvm.new) }
    ensures table { table_of nvm.new ≡ table_of nvm.old }
{
    if !is_used(config, id) {
        return;
    }
    match read_content(nvm, id, commit.index_of(id)) {
        Ok(held) => blocks.set(id, part_in(&held)),
        Err(_) => blocks.set(id, &[]),
    }
}

fn read_named_blocks<B: Blocks + Drop>(
    nvm: &mut Nvm<B>,
    config: &ValidConfig,
    commit: &Commit,
) -> StateBlocks
    requires readable { IsReadable nvm.old }
    requires form { IsCommit config.now commit.now }
    ensures learned { AreLearned config.now (driver_of nvm.old) (driver_of nvm.new) commit.now (bytes_at result) }
    ensures reads { Reads (driver_of nvm.old) (driver_of nvm.new) }
    ensures table { table_of nvm.new ≡ table_of nvm.old }
{
    let mut blocks = StateBlocks::unknown();
    for id in FIRST_PART..END_PART {
        read_block(nvm, config, commit, id, &mut blocks);
    }
    blocks
}

/// The bytes of the used blocks that a commit names. A block that can't be read in three tries is not known; without a commit
/// no block is read.
pub fn read_blocks<B: Blocks + Drop>(
    nvm: &mut Nvm<B>,
    config: &ValidConfig,
    commit: &Option<Commit>,
) -> StateBlocks
    requires readable { IsReadable nvm.old }
    requires form { IfSome commit.now (IsCommit config.now) }
    ensures none { IfNone commit.now ((id : ℕ) → bytes_at result id ≡ []) }
    ensures learned { IfSome commit.now (λ commit. AreLearned config.now (driver_of nvm.old) (driver_of nvm.new) commit (bytes_at result)) }
    ensures reads { Reads (driver_of nvm.old) (driver_of nvm.new) }
    ensures table { table_of nvm.new ≡ table_of nvm.old }
{
    match commit {
        None => StateBlocks::unknown(),
        Some(commit) => read_named_blocks(nvm, config, commit),
    }
}
