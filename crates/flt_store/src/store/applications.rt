//! The application blocks.
ghost use Rattle.std.specs.Prelude.{◌≡◌, ◌≤◌, ◌<◌, ◌+◌, ◌++◌, length, IsFalse, IfOk, OnOk};
ghost use Rattle.flt_flash.specs.Content.{bytes as holding};
ghost use Rattle.flt_nvm.specs.Driver.{driver_of as driver_beneath, table_of};
ghost use Rattle.flt_flash.specs.Calls.{ReadsAlone, SameValues};
ghost use Rattle.flt_nvm.specs.Leaves.{FlashTakesThree, Gives, GotOf};
ghost use Rattle.flt_store_model.specs.Form.{application_length};
ghost use Rattle.flt_store_model.specs.Layout.{application_number};
ghost use Rattle.flt_image.specs.Table.{block_table};
ghost use Rattle.flt_store.specs.Applications.{CanPut};
ghost use Rattle.flt_store.specs.Cause.{StoreWrites};

use super::Store;
use crate::fault::PutFault;
use arrayvec::ArrayVec;
use flt_config::ApplicationBlock;
use flt_flash::{BlockFault, Blocks, FlashFailed};
use flt_nvm::{Got, Nvm};
use flt_store_model::{APPLICATION_LENGTH, FIRST_APPLICATION};

/// Puts the bytes after those that are there.
fn push_all(bytes: &[u8], out: &mut ArrayVec<u8, APPLICATION_LENGTH>)
    requires { length out.old.items + length bytes.now ≤ application_length }
    ensures { out.new.items ≡ out.old.items ++ bytes.now }
{
    out.try_extend_from_slice(bytes).unwrap();
}

fn write_application<B: Blocks + Drop>(
    nvm: &mut Nvm<B>,
    block: ApplicationBlock,
    bytes: &[u8],
) -> Result<(), BlockFault>
    requires table { table_of nvm.old ≡ block_table }
    requires can { CanPut bytes.now }
    ensures gives { Gives (driver_beneath nvm.old) (driver_beneath nvm.new) (application_number block) (holding bytes.now) (length bytes.now) result }
    ensures not_stale { OnOk result (IsFalse (driver_beneath nvm.new).is_stale) }
    ensures writes { StoreWrites (driver_beneath nvm.old) (driver_beneath nvm.new) result }
    ensures table { table_of nvm.new ≡ table_of nvm.old }
{
    nvm.write(FIRST_APPLICATION + block.get() as u16, 0, bytes)
}

fn read_application<B: Blocks + Drop>(
    nvm: &mut Nvm<B>,
    block: ApplicationBlock,
    out: &mut [u8; 128],
) -> Result<Got, BlockFault>
    requires table { table_of nvm.old ≡ block_table }
    ensures got { IfOk result (λ got. GotOf 1 ((driver_beneath nvm.old).value (application_number block)) got out.old out.new) }
    ensures reads { ReadsAlone (driver_beneath nvm.old) (driver_beneath nvm.new) result }
    ensures three { FlashTakesThree (driver_beneath nvm.old) (driver_beneath nvm.new) result }
    ensures table { table_of nvm.new ≡ table_of nvm.old }
{
    nvm.read(FIRST_APPLICATION + block.get() as u16, 0, out)
}

impl<B: Blocks + Drop> Store<B> {
    ghost use Rattle.std.specs.Prelude.{[], OnErr};
    ghost use Rattle.flt_flash.specs.Calls.{Follows};
    ghost use Rattle.flt_config.specs.declared.config.Config.{Config};
    ghost use Rattle.flt_store.specs.Applications.{GetsWhileRunning, PutsBlock, PutsWhileRunning};
    ghost use Rattle.flt_store.specs.Store.{driver_of, is_settled, IsAlive, WhileRunning};

    /// Puts 1 to 32 bytes into application block `block`, of a store that runs, and below the configuration's number of blocks.
    ///
    /// After `Ok` the block holds them; after an error it holds what it held or them. No other block and no generation changes.
    /// `Flash` comes only where three tries failed, `SequenceSpent` only where the record can't be written any more; where neither
    /// holds it is `Ok`. At `Err` the store still runs: after `Flash` put the bytes again, after `SequenceSpent` another image is needed.
    pub fn put_block(&mut self, block: u8, bytes: &[u8]) -> Result<(), PutFault>
        requires alive { (c : Config) × (block < c.blocks) × IsAlive c self.old }
        requires can { CanPut bytes.now }
        ensures puts { PutsBlock block bytes.now (driver_of self.old) (driver_of self.new) result }
        ensures running { (c : Config) → block < c.blocks → WhileRunning c self.old (λ held spare. PutsWhileRunning c held spare self.old self.new result) }
        ensures settled { is_settled self.new ≡ is_settled self.old }
        ensures not_stale { OnOk result (IsFalse (driver_of self.new).is_stale) }
        ensures calls { Follows (driver_of self.old) (driver_of self.new) }
    {
        write_application(&mut self.nvm, ApplicationBlock::new(block), bytes)?;
        Ok(())
    }

    /// Gives the bytes of application block `block` in place of what `out` held, and true; false and no byte, where it was never
    /// written. The store runs, and the block is below the configuration's number of blocks. The error comes only where three tries
    /// failed; after it `out` is empty, and the store still runs: get the block again.
    pub fn get_block(
        &mut self,
        block: u8,
        out: &mut ArrayVec<u8, APPLICATION_LENGTH>,
    ) -> Result<bool, FlashFailed>
        requires alive { (c : Config) × (block < c.blocks) × IsAlive c self.old }
        ensures running { (c : Config) → WhileRunning c self.old (λ held spare. GetsWhileRunning c held spare block out.new.items self.old self.new result) }
        ensures empty { OnErr result (out.new.items ≡ []) }
        ensures values { SameValues (driver_of self.old) (driver_of self.new) }
        ensures settled { is_settled self.new ≡ is_settled self.old }
        ensures not_stale { IsFalse (driver_of self.old).is_stale → IsFalse (driver_of self.new).is_stale }
        ensures calls { Follows (driver_of self.old) (driver_of self.new) }
    {
        let mut bytes = [0; 128];
        out.clear();
        match read_application(&mut self.nvm, ApplicationBlock::new(block), &mut bytes) {
            Ok(Got::Missing) => Ok(false),
            Ok(Got::Bytes { length, .. }) => {
                push_all(&bytes[..length], out);
                Ok(true)
            }

            // No application block of a store that runs is invalid.
            Ok(Got::Invalid) => unreachable!(),
            Err(BlockFault::Flash) => Err(FlashFailed),

            // A mounted driver fails by its flash alone.
            Err(_) => unreachable!(),
        }
    }
}
