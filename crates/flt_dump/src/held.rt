//! What the image of a dump holds.
ghost use Rattle.std.specs.Prelude.{◌≡◌, ◌≤◌, IfOk};
ghost use Rattle.flt_store_model.specs.Image.{image_held};
ghost use Rattle.flt_dump.specs.Copy.{copy_state};
ghost use Rattle.flt_dump.specs.Held.{SeesInto, copy_generation, number_told};
ghost use Rattle.flt_dump.specs.Reads.{dump_content};

use crate::copy::ImageCopy;
use crate::dump::Dump;
use crate::listing::list;
use flt_config::{ValidConfig, initial};
use flt_fee::Fee;
use flt_flash::{BlockFault, Blocks};
use flt_image::{block_table, fee_numbers, laws};
use flt_nvm::Nvm;
use flt_restore::{CommitCopy, StartFault, judge};
use flt_store_model::Place;
use std::alloc::{AllocError, Global};

/// What an image holds, and what it says line by line.
#[derive(Drop)]
pub struct Insight {
    /// The number of the generation that it holds, or why it holds none of the configuration: `Damaged` or `OtherConfig`.
    pub held: Result<u32, StartFault>,
    /// Lines that each end: the current sector with its sequence number and then the items of its log, or that no sector is valid; none
    /// where a page is at fault.
    pub listing: Vec<u8>,
}

/// The number of the generation of a commit, 0 where there is none.
fn number_of(found: &Option<CommitCopy>) -> u32
    ensures { result ≡ copy_generation found.now }
{
    match found {
        Some(found) => found.commit.generation,
        None => 0,
    }
}

/// What an image holds under a configuration.
fn held_in(
    alloc: Global,
    copy: ImageCopy,
    config: &ValidConfig,
) -> Result<Result<u32, StartFault>, AllocError>
    requires { config.now.pages ≤ (copy_state copy).pages }
    ensures { IfOk result (λ held. held ≡ number_told config.now (image_held config.now (copy_state copy).image)) }
{
    let numbers = fee_numbers(alloc)?;
    let table = block_table(alloc)?;
    laws::numbers_are_distinct();
    laws::numbers_serve_table();
    let Ok(mut driver) = Fee::make(alloc, copy, config.config().pages, numbers) else {
        return Err(AllocError);
    };
    match driver.mount() {
        Ok(()) => {}
        Err(BlockFault::Damaged { sector, page }) => {
            return Ok(Err(StartFault::Damaged(Place::Page { sector, page })));
        }
        Err(BlockFault::Flash) => unreachable!(),
        Err(BlockFault::Full { .. }) => unreachable!(),
        Err(BlockFault::SequenceSpent) => unreachable!(),
    }
    let mut nvm = Nvm::make(driver, table);
    let mut state = initial(config);
    Ok(judge(&mut nvm, config, &mut state).map(|found| number_of(&found.commit)))
}

/// Looks into the image of a dump: what it holds, whatever its sequence number, and its lines. The error means that memory ran out.
pub fn look_into(alloc: Global, dump: Dump) -> Result<Insight, AllocError>
    ensures { IfOk result (SeesInto (dump_content dump)) }
{
    let Dump { config, pages } = dump;
    let mut copy = ImageCopy::of(alloc, pages)?;
    let listing = list(alloc, &mut copy, config.config().pages)?;
    let held = held_in(alloc, copy, &config)?;
    Ok(Insight { held, listing })
}
