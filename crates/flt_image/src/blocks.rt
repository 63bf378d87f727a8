//! The bytes of the used blocks of a state, kept beside each other.
ghost use Rattle.std.specs.Prelude.{◌≡◌, ◌≤◌, IsTrue, length};
ghost use Rattle.flt_config.specs.Durable.{Fits};
ghost use Rattle.flt_store_model.specs.Form.{block_bytes, part_length};
ghost use Rattle.flt_store_model.specs.Layout.{is_used, part_of_block, parts};

use crate::block::put_block;
use crate::layout::is_used;
use crate::pushing::BlockBytes;
use arrayvec::ArrayVec;
use flt_config::{Persist, ValidConfig};
use flt_store_model::{END_PART, ENTRY_LENGTH, FIRST_PART, INDICES};

/// The most bytes of a block of a state: those of an entry.
pub const LONGEST: usize = ENTRY_LENGTH;

/// The bytes that are kept of one block.
type KeptBytes = ArrayVec<u8, LONGEST>;

/// The bytes of each block that a configuration may use; none of a block that is not known.
#[derive(Drop)]
pub struct StateBlocks {
    blocks: ArrayVec<KeptBytes, INDICES>,
    ghost size: { length blocks.items ≡ parts },
}

/// Puts these bytes in place of those that are there.
fn put_over(bytes: &[u8], kept: &mut KeptBytes)
    requires { length bytes.now ≤ LONGEST }
    ensures { kept.new.items ≡ bytes.now }
{
    kept.clear();
    kept.try_extend_from_slice(bytes).unwrap();
}

impl StateBlocks {
    ghost use Rattle.std.specs.Prelude.{◌≢◌, ◌<◌, ℕ, []};
    ghost use Rattle.flt_store_model.specs.Layout.{first_part, end_part};
    ghost use Rattle.flt_image.specs.Blocks.{bytes_at, AreBlocksOf};

    /// No block is known.
    pub fn unknown() -> StateBlocks
        ensures { (id : ℕ) → bytes_at result id ≡ [] }
    {
        let mut blocks = ArrayVec::new();
        for _id in FIRST_PART..END_PART {
            blocks.push(KeptBytes::new());
        }
        StateBlocks { blocks }
    }

    /// Gives each used block its bytes of a state that fits, in place of those that are there.
    pub fn put_all(&mut self, config: &ValidConfig, state: &Persist)
        requires { Fits config.now state.now }
        ensures { AreBlocksOf config.now state.now (bytes_at self.new) }
    {
        for id in FIRST_PART..END_PART {
            self.put_used(config, state, id);
        }
    }

    /// Gives a block its bytes of a state, where it is used.
    fn put_used(&mut self, config: &ValidConfig, state: &Persist, id: u16)
        requires first { first_part ≤ id }
        requires end { id < end_part }
        requires fits { Fits config.now state.now }
        ensures has_bytes { IsTrue (is_used config.now id) → bytes_at self.new id ≡ block_bytes state.now id }
        ensures size { IsTrue (is_used config.now id) → length (bytes_at self.new id) ≡ part_length (part_of_block id) }
        ensures others { (other : ℕ) → first_part ≤ other → other ≢ id → bytes_at self.new other ≡ bytes_at self.old other }
    {
        if is_used(config, id) {
            let mut bytes = BlockBytes::new();
            put_block(config, state, id, &mut bytes);
            self.set(id, &bytes);
        }
    }

    /// The bytes of a block.
    pub fn get(&self, id: u16) -> &[u8]
        requires first { first_part ≤ id }
        requires end { id < end_part }
        ensures { result.now ≡ bytes_at self.now id }
    {
        &self.blocks[(id - FIRST_PART) as usize]
    }

    /// Gives a block these bytes.
    pub fn set(&mut self, id: u16, bytes: &[u8])
        requires first { first_part ≤ id }
        requires end { id < end_part }
        requires short { length bytes.now ≤ LONGEST }
        ensures has_bytes { bytes_at self.new id ≡ bytes.now }
        ensures others { (other : ℕ) → first_part ≤ other → other ≢ id → bytes_at self.new other ≡ bytes_at self.old other }
    {
        put_over(bytes, &mut self.blocks[(id - FIRST_PART) as usize]);
    }
}
