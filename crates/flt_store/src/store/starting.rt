//! Start-up: what the image holds, the mark written where it is due, and both copies of the commit made equal.
ghost use Rattle.std.specs.Prelude.{◌≡◌, IfOk, IfErr, IsErrOf, OnOk, OnErr, IsTrue, IsFalse, ◌↔◌};
ghost use Rattle.flt_flash.specs.Calls.{OthersKept, SameImage};
ghost use Rattle.flt_nvm.specs.Driver.{driver_of as driver_beneath, table_of};
ghost use Rattle.flt_config.specs.declared.config.Config.{Config};
ghost use Rattle.flt_config.specs.Durable.{Fits};
ghost use Rattle.flt_store_model.specs.Layout.{mark_number};
ghost use Rattle.flt_store_model.specs.Form.{mark_of};
ghost use Rattle.flt_store_model.specs.Holding.{Generation};
ghost use Rattle.flt_store_model.specs.Laws.{IsGiven};
ghost use Rattle.flt_image.specs.Table.{block_table};
ghost use Rattle.flt_restore.specs.Restored.{IsMarkDue};
ghost use Rattle.flt_store.specs.Cause.{HasRoom, StoreWrites};
ghost use Rattle.flt_store.specs.Start.{Begins};
ghost use Rattle.flt_store.specs.Starting.{BeginsWith, HasRead, WritesMark};
ghost use Rattle.flt_store.specs.Leaving.{LeavesDriver};
ghost use Rattle.flt_store.specs.Dark.{IsDark, IsMountedAlone, IsUnready};
ghost use Rattle.flt_store.specs.Spent.{IsBegunStuck};

use super::{Store, number_in};
use flt_config::{Persist, ValidConfig};
use flt_flash::{BlockFault, Blocks};
use flt_image::{Commit, Mark, mark_of, put_mark};
use flt_nvm::Nvm;
use flt_restore::{CommitCopy, StartFault, restore};
use flt_store_model::{COMMIT_ID, MARK_ID};

/// Writes the mark of a configuration where it is due: where it is missing or of version 1.
fn write_mark<B: Blocks + Drop>(
    nvm: &mut Nvm<B>,
    mark: &Mark,
    is_due: bool,
) -> Result<(), BlockFault>
    requires table { table_of nvm.old ≡ block_table }
    requires due { IsTrue is_due ↔ IsMarkDue mark.now ((driver_beneath nvm.old).value mark_number) }
    requires not_stale { IsFalse (driver_beneath nvm.old).is_stale }
    ensures mark { (c : Config) → mark.now ≡ mark_of c → WritesMark c (driver_beneath nvm.old) (driver_beneath nvm.new) result }
    ensures others { OthersKept mark_number (driver_beneath nvm.old) (driver_beneath nvm.new) }
    ensures not_stale { OnOk result (IsFalse (driver_beneath nvm.new).is_stale) }
    ensures writes { StoreWrites (driver_beneath nvm.old) (driver_beneath nvm.new) result }
    ensures table { table_of nvm.new ≡ table_of nvm.old }
{
    if is_due {
        nvm.write(MARK_ID, 0, &put_mark(mark))
    } else {
        Ok(())
    }
}

/// Writes the mark where it is missing or of version 1, and then makes both copies of the commit hold what the one has that was found.
fn begin_by<B: Blocks + Drop>(
    nvm: &mut Nvm<B>,
    config: &ValidConfig,
    is_mark_due: bool,
    found: Option<CommitCopy>,
) -> Result<Option<Commit>, BlockFault>
    requires table { table_of nvm.old ≡ block_table }
    requires read { HasRead config.now (driver_beneath nvm.old) is_mark_due found }
    ensures begins { (g : Generation) → Begins config.now (driver_beneath nvm.old).value found g
        → BeginsWith config.now g (driver_beneath nvm.old) (driver_beneath nvm.new) result }
    ensures stuck { IsErrOf result BlockFault.SequenceSpent → IsBegunStuck config.now (driver_beneath nvm.old) (driver_beneath nvm.new) }
    ensures driver { LeavesDriver (driver_beneath nvm.old) (driver_beneath nvm.new) result }
    ensures table { table_of nvm.new ≡ table_of nvm.old }
    ensures valid { IsGiven config.now }
{
    write_mark(nvm, &mark_of(config), is_mark_due)?;
    match found {
        None => Ok(None),
        Some(found) => {
            nvm.repair(COMMIT_ID, found.copy, &found.bytes)?;
            Ok(Some(found.commit))
        }
    }
}

impl<B: Blocks + Drop> Store<B> {
    ghost use Rattle.flt_store.specs.Store.{driver_of, is_settled, IsAlive};
    ghost use Rattle.flt_store.specs.Start.{IsForeign, Starts};
    ghost use Rattle.flt_store.specs.Starting.{CausesOfRefusal, IsMountedFor};
    ghost use Rattle.flt_store.specs.Saving.{SettlesStore};
    ghost use Rattle.flt_store.specs.Leaving.{AddsNoGeneration};

    /// Starts up on a driver that was mounted.
    fn start_mounted(&mut self, config: &ValidConfig, out: &mut Persist) -> Result<u32, StartFault>
        requires mounted { IsMountedFor config.now (driver_of self.old) }
        ensures started { IfOk result (λ number. Starts config.now number out.new self.old self.new) }
        ensures fits { OnOk result (Fits config.now out.new) }
        ensures causes { CausesOfRefusal (IsUnready config.now) SameImage config.now self.old self.new result }
        ensures generations { AddsNoGeneration config.now (driver_of self.old) (driver_of self.new) result }
        ensures unsettled { IsFalse (is_settled self.old) → OnErr result (IsFalse (is_settled self.new)) }
        ensures driver { LeavesDriver (driver_of self.old) (driver_of self.new) result }
    {
        let found = restore(&mut self.nvm, config, out)?;
        let commit = begin_by(&mut self.nvm, config, found.is_mark_due, found.commit)?;
        let generation = number_in(&commit);
        self.commit = commit;
        self.saved.put_all(config, out);
        self.is_settled = true;
        Ok(generation)
    }

    /// Starts up after the power came: finds out which generation the image holds, and makes both copies of its commit equal. It
    /// answers the generation's number, 0 before the first save, with its state in `out`. The driver's room, where it has one, is
    /// the configuration's pages less two.
    ///
    /// What is answered is what copy 1 of the commit names, or, where that can't be read in three tries, what copy 2 names. Of an
    /// image that is damaged, or another configuration's, no block is changed, and nothing is written but by the mount. A mark and a commit
    /// may be of version 1: the mark is written anew, and the commit's copies keep their version until the next save.
    /// `SequenceSpent` comes where the last sequence number was in use before, or where the mark or a copy of the commit has to be
    /// written and can't be any more. After an error `out` holds anything that fits its type, and of a sound image each of the two
    /// generations is one of those before.
    ///
    /// At `Err` make no save and no put before a start-up that answers `Ok`. After `Flash` start up again, now or at the next power-up. After
    /// `Damaged` or `SequenceSpent` another image is needed, and after `OtherConfig` another image or another configuration.
    pub fn start_up(&mut self, config: &ValidConfig, out: &mut Persist) -> Result<u32, StartFault>
        requires { HasRoom config.now (driver_of self.old).room }
        ensures started { IfOk result (λ number. Starts config.now number out.new self.old self.new) }
        ensures fits { OnOk result (Fits config.now out.new) }
        ensures causes { CausesOfRefusal (IsDark config.now) IsMountedAlone config.now self.old self.new result }

        // Over an image that is damaged or another configuration's no store runs, so no save and no put goes there.
        ensures closed { IfErr result (λ fault. IsForeign fault → IsAlive config.now self.new → ⊥) }
        ensures generations { AddsNoGeneration config.now (driver_of self.old) (driver_of self.new) result }
        ensures settles { SettlesStore self.new result }
        ensures driver { LeavesDriver (driver_of self.old) (driver_of self.new) result }
    {
        self.is_settled = false;
        self.nvm.start()?;
        self.start_mounted(config, out)
    }
}
