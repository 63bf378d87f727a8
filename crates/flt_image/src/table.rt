//! The table of the blocks of an image.
ghost use Rattle.std.specs.Prelude.{◌≡◌, ◌+◌, ◌^◌, ◌<◌, ◌++◌, OnOk, IfOk};
ghost use Rattle.flt_image.specs.Table.{rows, block_table};

use flt_config::ENTRIES;
use flt_nvm::{BlockCfg, Kind};
use flt_store_model::{
    APPLICATION_LENGTH, APPLICATIONS, COMMIT_ID, COMMIT_LENGTH, ENTRY_LENGTH, FIRST_APPLICATION,
    FIRST_ENTRY, FIRST_PART, FIRST_STATES, LATER_STATES, LATER_STATES_BLOCKS, MARK_ID, MARK_LENGTH,
    STATES_BLOCKS, STATES_LENGTH, SUMMARY_LENGTH,
};
use std::alloc::{AllocError, Global};

/// A part is at one of two indices.
const PART: Kind = Kind::Dataset(2);

/// Puts this many blocks of one kind and length after the others, with one identifier after another.
fn push_rows(
    table: &mut Vec<BlockCfg>,
    kind: Kind,
    length: u8,
    first: u16,
    count: u16,
) -> Result<(), AllocError>
    requires { first + count < 2 ^ 16 }
    ensures { OnOk result (table.new.items ≡ table.old.items ++ rows kind length first count) }
{
    for place in 0..count {
        table.push(BlockCfg {
            id: first + place,
            kind,
            length,
        })?;
    }
    Ok(())
}

/// The blocks of an image in ascending order: the mark, the commit, the parts of a generation, and the application blocks, each
/// with the most bytes that it holds.
#[tactic(auto, unfolding(crate::specs::Table::block_table))]
pub fn block_table(alloc: Global) -> Result<Vec<BlockCfg>, AllocError>
    ensures { IfOk result (λ table. table.items ≡ block_table) }
{
    let mut table = Vec::new(alloc);
    push_rows(&mut table, Kind::Native, MARK_LENGTH as u8, MARK_ID, 1)?;
    push_rows(
        &mut table,
        Kind::Redundant,
        COMMIT_LENGTH as u8,
        COMMIT_ID,
        1,
    )?;
    push_rows(&mut table, PART, SUMMARY_LENGTH as u8, FIRST_PART, 1)?;
    push_rows(
        &mut table,
        PART,
        STATES_LENGTH as u8,
        FIRST_STATES,
        STATES_BLOCKS,
    )?;
    push_rows(
        &mut table,
        PART,
        ENTRY_LENGTH as u8,
        FIRST_ENTRY,
        ENTRIES as u16,
    )?;
    push_rows(
        &mut table,
        PART,
        STATES_LENGTH as u8,
        LATER_STATES,
        LATER_STATES_BLOCKS,
    )?;
    push_rows(
        &mut table,
        Kind::Native,
        APPLICATION_LENGTH as u8,
        FIRST_APPLICATION,
        APPLICATIONS,
    )?;
    Ok(table)
}
