//! What is judged of an image only by the lengths of its records: the application blocks, and the excess. Nothing is read.
ghost use Rattle.std.specs.Prelude.{◌≡◌, ◌≤◌, ◌<◌, ◌+◌, ◌*◌, IsFalse};
ghost use Rattle.flt_nvm.specs.Driver.{driver_of, table_of};
ghost use Rattle.flt_nvm.specs.Table.{HasPlace};
ghost use Rattle.flt_image.specs.Table.{block_table};
ghost use Rattle.flt_store_model.specs.Layout.{first_part, end_part, applications, number_of, parts};
ghost use Rattle.flt_store_model.specs.Excess.{excess};
ghost use Rattle.flt_store_model.specs.Holding.{applications_judged, excess_judged};
ghost use Rattle.flt_restore.specs.Judging.{as_told, application_judged, beyond, beyond_of_applications, beyond_of_part, beyond_of_parts};

use crate::fault::StartFault;
use crate::judging::{damaged, is_application};
use crate::pages::{found_pages, own_pages};
use flt_config::{ValidConfig, needed_pages};
use flt_flash::Blocks;
use flt_nvm::Nvm;
use flt_store_model::{
    APPLICATIONS, COMMIT_ID, END_PART, FIRST_APPLICATION, FIRST_PART, MARK_ID, NUMBERS_PER_BLOCK,
};

/// Judges one application block.
fn judge_application<B: Blocks + Drop>(
    nvm: &Nvm<B>,
    config: &ValidConfig,
    block: u16,
) -> Result<(), StartFault>
    requires table { table_of nvm.now ≡ block_table }
    requires not_stale { IsFalse (driver_of nvm.now).is_stale }
    requires within { block < applications }
    ensures { result ≡ as_told config.now (application_judged (driver_of nvm.now).value block) }
{
    let id = FIRST_APPLICATION + block;
    if is_application(nvm.look_up(id, 0)) {
        Ok(())
    } else {
        Err(damaged(id))
    }
}

/// Judges the application blocks up to the first faulty one.
pub(crate) fn judge_applications<B: Blocks + Drop>(
    nvm: &Nvm<B>,
    config: &ValidConfig,
) -> Result<(), StartFault>
    requires table { table_of nvm.now ≡ block_table }
    requires not_stale { IsFalse (driver_of nvm.now).is_stale }
    ensures { result ≡ as_told config.now (applications_judged (driver_of nvm.now).value) }
{
    for block in 0..APPLICATIONS {
        judge_application(nvm, config, block)?;
    }
    Ok(())
}

/// The pages that the record of an index takes beyond the configuration's own.
fn pages_beyond<B: Blocks + Drop>(nvm: &Nvm<B>, config: &ValidConfig, id: u16, index: u8) -> u32
    requires table { table_of nvm.now ≡ block_table }
    requires not_stale { IsFalse (driver_of nvm.now).is_stale }
    requires id { id < 104 }
    requires place { HasPlace block_table id index }
    ensures pages { result ≡ beyond config.now (driver_of nvm.now).value (number_of id index) }
    ensures most { result ≤ 6 }
{
    let pages = found_pages(nvm.look_up(id, index));
    if pages == 0 {
        return 0;
    }
    let number = id * NUMBERS_PER_BLOCK + index as u16;
    pages.saturating_sub(own_pages(config, number))
}

fn pages_beyond_of_part<B: Blocks + Drop>(nvm: &Nvm<B>, config: &ValidConfig, id: u16) -> u32
    requires table { table_of nvm.now ≡ block_table }
    requires not_stale { IsFalse (driver_of nvm.now).is_stale }
    requires first { first_part ≤ id }
    requires end { id < end_part }
    ensures pages { result ≡ beyond_of_part config.now (driver_of nvm.now).value id }
    ensures most { result ≤ 12 }
{
    pages_beyond(nvm, config, id, 0) + pages_beyond(nvm, config, id, 1)
}

/// The same of all parts, whether the configuration uses them or not.
fn pages_beyond_of_parts<B: Blocks + Drop>(nvm: &Nvm<B>, config: &ValidConfig) -> u32
    requires table { table_of nvm.now ≡ block_table }
    requires not_stale { IsFalse (driver_of nvm.now).is_stale }
    ensures pages { result ≡ beyond_of_parts config.now (driver_of nvm.now).value parts }
    ensures most { result ≤ 12 * parts }
{
    let mut pages = 0;
    for id in FIRST_PART..END_PART {
        pages += pages_beyond_of_part(nvm, config, id);
    }
    pages
}

/// The same of all application blocks.
fn pages_beyond_of_applications<B: Blocks + Drop>(nvm: &Nvm<B>, config: &ValidConfig) -> u32
    requires table { table_of nvm.now ≡ block_table }
    requires not_stale { IsFalse (driver_of nvm.now).is_stale }
    ensures pages { result ≡ beyond_of_applications config.now (driver_of nvm.now).value applications }
    ensures most { result ≤ 6 * applications }
{
    let mut pages = 0;
    for block in 0..APPLICATIONS {
        pages += pages_beyond(nvm, config, FIRST_APPLICATION + block, 0);
    }
    pages
}

/// The pages that the records of the image take beyond the configuration's own.
fn excess<B: Blocks + Drop>(nvm: &Nvm<B>, config: &ValidConfig) -> u32
    requires table { table_of nvm.now ≡ block_table }
    requires not_stale { IsFalse (driver_of nvm.now).is_stale }
    ensures pages { result ≡ excess config.now (driver_of nvm.now).value }
    ensures most { result ≤ 18 + 12 * parts + 6 * applications }
{
    let mark = pages_beyond(nvm, config, MARK_ID, 0);
    let copies = pages_beyond(nvm, config, COMMIT_ID, 0) + pages_beyond(nvm, config, COMMIT_ID, 1);
    let parts = pages_beyond_of_parts(nvm, config);
    mark + copies + parts + pages_beyond_of_applications(nvm, config)
}

/// The excess must fit into the pages that the configuration leaves.
#[tactic(auto, unfolding(flt_store_model::specs::Holding::excess_judged))]
pub(crate) fn judge_excess<B: Blocks + Drop>(
    nvm: &Nvm<B>,
    config: &ValidConfig,
) -> Result<(), StartFault>
    requires table { table_of nvm.now ≡ block_table }
    requires not_stale { IsFalse (driver_of nvm.now).is_stale }
    ensures { result ≡ as_told config.now (excess_judged config.now (driver_of nvm.now).value) }
{
    let excess = excess(nvm, config);
    let config = config.config();
    if excess + needed_pages(config) <= config.pages as u32 {
        Ok(())
    } else {
        Err(damaged(0))
    }
}
