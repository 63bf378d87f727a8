//! Generations in the blocks of a driver.
ghost use Rattle.std.specs.Prelude.{◌≡◌, ◌+◌, ◌<◌, Err, IsErrOf, OnErr, IsTrue, IsFalse};
ghost use Rattle.flt_flash.specs.State.{CanArm};
ghost use Rattle.flt_flash.specs.Calls.{ArmsDriver, Follows, PowersUpDriver};
ghost use Rattle.flt_nvm.specs.Driver.{driver_of as driver_beneath, table_of};
ghost use Rattle.flt_config.specs.declared.config.Config.{Config};
ghost use Rattle.flt_config.specs.declared.persist.Persist.{Persist};
ghost use Rattle.flt_config.specs.Durable.{Fits};
ghost use Rattle.flt_store_model.specs.Form.{block_bytes};
ghost use Rattle.flt_store_model.specs.Layout.{numbers};
ghost use Rattle.flt_store_model.specs.Holding.{Generation, SameApplications};
ghost use Rattle.flt_store_model.specs.Successor.{number_in};
ghost use Rattle.flt_image.specs.Table.{block_table};
ghost use Rattle.flt_store.specs.Cause.{IsStuck};
ghost use Rattle.flt_store.specs.Known.{Knows};
ghost use Rattle.flt_store.specs.Started.{HasMark};

mod applications;
mod starting;

use crate::fault::SaveFault;
use crate::generation::write_generation;
use crate::restarting::restart;
use flt_config::{Persist, ValidConfig};
use flt_flash::{Arm, Blocks};
use flt_image::{Commit, StateBlocks};
use flt_nvm::Nvm;
use flt_restore::read_blocks;
use flt_store_model::LAST_NUMBER;
use std::mem;

/// The saved generations of a durable state, and the application blocks, in the blocks of a driver.
///
/// A store is made, and then started up. A save and the calls on application blocks need a store that runs, as a start-up leaves it that
/// answered `Ok`. One that was refused as damaged or as another configuration's does not run under that configuration.
#[derive(Drop)]
pub struct Store<B: Blocks + Drop> {
    nvm: Nvm<B>,
    commit: Option<Commit>,
    saved: StateBlocks,
    // What the next save writes to.
    next: StateBlocks,
    is_settled: bool,
    ghost numbers: { (driver_beneath nvm).numbers ≡ numbers },
    ghost table: { table_of nvm ≡ block_table },
}

fn number_in(commit: &Option<Commit>) -> u32
    ensures { result ≡ number_in commit.now }
{
    match commit {
        None => 0,
        Some(commit) => commit.generation,
    }
}

impl<B: Blocks + Drop> Store<B> {
    ghost use Rattle.flt_store.specs.Store.{driver_of, commit_of, kept_of, is_settled, IsAlive, IsReady, IsRunning, WhileRunning};
    ghost use Rattle.flt_store.specs.Leaving.{LeavesDriver};
    ghost use Rattle.flt_store.specs.Saving.{AnswersSave, CausesOfSave, DoesNothing, FindsGeneration, SavesBehind, SettlesStore, SpendsOnSave, WritesChanges};

    /// A store over the blocks of an image: the table is `block_table`'s, over a driver that was made with `fee_numbers`. It is
    /// not started.
    pub fn make(nvm: Nvm<B>) -> Store<B>
        requires numbers { (driver_beneath nvm).numbers ≡ numbers }
        requires table { table_of nvm ≡ block_table }
        ensures { driver_of result ≡ driver_beneath nvm }
    {
        Store {
            nvm,
            commit: None,
            saved: StateBlocks::unknown(),
            next: StateBlocks::unknown(),
            is_settled: false,
        }
    }

    /// Finds out which generation is stored, and what its blocks have, where a save failed.
    fn settle(&mut self, config: &ValidConfig) -> Result<(), SaveFault>
        requires alive { IsAlive config.now self.old }
        ensures finds { WhileRunning config.now self.old (λ held spare. FindsGeneration config.now held spare self.old self.new result) }
        ensures at_once { IsTrue (is_settled self.old) → DoesNothing self.old self.new result }
        ensures not_spent { IsErrOf result SaveFault.Spent → ⊥ }
        ensures unsettled { OnErr result (IsFalse (is_settled self.new)) }
        ensures applications { SameApplications (driver_of self.old).value (driver_of self.new).value }
        ensures calls { Follows (driver_of self.old) (driver_of self.new) }
    {
        if self.is_settled {
            return Ok(());
        }
        let commit = restart(&mut self.nvm, config)?;
        self.saved = read_blocks(&mut self.nvm, config, &commit);
        self.commit = commit;
        Ok(())
    }

    /// Saves a state as the next generation, where both copies of the commit name one.
    fn save_next(&mut self, config: &ValidConfig, state: &Persist) -> Result<u32, SaveFault>
        requires fits { Fits config.now state.now }
        ensures behind { (g : Generation) → IsReady config.now g self.old → SavesBehind config.now g state.now self.old self.new result }
        ensures sequence { IsErrOf result SaveFault.SequenceSpent → IsStuck (driver_of self.new) }
        ensures spends { (g : Generation) → Knows config.now (kept_of self.old) g.state
            → SpendsOnSave config.now (commit_of self.old) (block_bytes g.state) (block_bytes state.now) (driver_of self.old) (driver_of self.new) }
        ensures mark { HasMark config.now (driver_of self.old).value → HasMark config.now (driver_of self.new).value }
        ensures settles { SettlesStore self.new result }
        ensures driver { LeavesDriver (driver_of self.old) (driver_of self.new) result }
    {
        self.is_settled = false;
        if number_in(&self.commit) == LAST_NUMBER {
            return Err(SaveFault::Spent);
        }
        let commit = write_generation(
            &mut self.nvm,
            config,
            state,
            &self.commit,
            &self.saved,
            &mut self.next,
        )?;
        self.commit = Some(commit);
        mem::swap(&mut self.saved, &mut self.next);
        self.is_settled = true;
        Ok(commit.generation)
    }

    /// Saves a state that fits as the next generation, and answers its number. Where an earlier save of this life failed, it first
    /// finds out which generation is stored, makes both copies of its commit equal, and reads the blocks that this commit names.
    ///
    /// A used block whose bytes are those of the generation before is not written, and keeps its index. The first save writes all, and
    /// a save after a failed one those that could not be read in three tries.
    ///
    /// After `Ok` the image names the new generation, by both copies. After an error it names the generation before or the new one.
    /// `Spent` comes where the generation before has the number 2^32 - 1; so it does where the flash failed less than three times, unless
    /// an earlier save failed and the copies can't be made equal for lack of a sequence number. It is `Ok` where that has another number,
    /// the flash failed less than three times and a sequence number is left.
    ///
    /// At `Err` the store still runs. After `Flash` save again, with the newest state. After `Spent` or `SequenceSpent` another image is
    /// needed for more generations.
    pub fn save(&mut self, config: &ValidConfig, state: &Persist) -> Result<u32, SaveFault>
        requires alive { IsAlive config.now self.old }
        requires fits { Fits config.now state.now }
        ensures alive { IsAlive config.now self.new }
        ensures answers { WhileRunning config.now self.old (λ held spare. AnswersSave config.now held spare state.now self.old self.new result) }
        ensures causes { WhileRunning config.now self.old (λ held spare. CausesOfSave config.now held spare self.old self.new result) }
        ensures changes { WhileRunning config.now self.old (λ held spare. WritesChanges config.now held state.now self.old self.new result) }
        ensures settles { SettlesStore self.new result }
        ensures driver { LeavesDriver (driver_of self.old) (driver_of self.new) result }
    {
        self.settle(config)?;
        self.save_next(config, state)
    }

    /// How often the power may still come back.
    pub fn boots_left(&self) -> u16
        ensures { result ≡ (driver_of self.now).device.bench.boots_left }
    {
        self.nvm.boots_left()
    }

    /// How many arms there are, 64 at most.
    pub fn armed(&self) -> u8
        ensures { result ≡ (driver_of self.now).device.bench.armed }
    {
        self.nvm.armed()
    }

    /// Makes an arm of the device. It changes no block.
    pub fn arm(&mut self, arm: Arm)
        requires room { (driver_of self.old).device.bench.armed < 64 }
        requires number { CanArm arm }
        ensures arms { ArmsDriver arm (driver_of self.old) (driver_of self.new) }
        ensures running { (c : Config) → WhileRunning c self.old (λ held spare. IsRunning c held spare self.new) }
        ensures settled { is_settled self.new ≡ is_settled self.old }
    {
        self.nvm.arm(arm)
    }

    /// Turns the device on again, which adds to its list of boots. A start-up comes next.
    pub fn power_up(&mut self)
        requires { 0 < (driver_of self.old).device.bench.boots_left }
        ensures powers_up { PowersUpDriver (driver_of self.old) (driver_of self.new) }
        ensures settled { is_settled self.new ≡ is_settled self.old }
    {
        self.nvm.power_up()
    }

    /// The driver comes back.
    pub fn retire(self) -> B
        ensures { B.state result ≡ driver_of self }
    {
        self.nvm.retire()
    }
}
