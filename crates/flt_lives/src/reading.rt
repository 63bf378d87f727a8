//! A read of an application block, as it is answered in a life.
ghost use Rattle.std.specs.Prelude.{◌<◌, ℕ, List};
ghost use Rattle.flt_store.specs.Store.{IsAlive};
ghost use Rattle.flt_life_model.specs.Answers.{told_with};
ghost use Rattle.flt_lives.specs.Reading.{ReadsSo};

use arrayvec::ArrayVec;
use flt_config::ValidConfig;
use flt_dcm::ReplyKind;
use flt_flash::Blocks;
use flt_life_model::StepAnswer;
use flt_store::Store;

/// Reads an application block, for a layer that makes the steps itself.
pub fn get<D: Blocks + Drop>(
    store: &mut Store<D>,
    config: &ValidConfig,
    block: u8,
) -> StepAnswer<ReplyKind>
    requires block { block < config.now.blocks }
    requires alive { IsAlive config.now store.old }
    ensures alive { IsAlive config.now store.new }
    ensures reads { (response : List ℕ) → ReadsSo config.now block store.old store.new (told_with response result) }
{
    let mut bytes = ArrayVec::new();
    match store.get_block(block, &mut bytes) {
        Ok(true) => StepAnswer::Bytes(bytes),
        Ok(false) => StepAnswer::NoBlock,
        Err(_) => StepAnswer::BlockFlash,
    }
}
