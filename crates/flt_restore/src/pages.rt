//! How many pages the records of an image take beyond the configuration's own.
ghost use Rattle.std.specs.Prelude.{◌≡◌, ◌≤◌};
ghost use Rattle.flt_flash.specs.Blocks.{pages_of, record_pages};
ghost use Rattle.flt_flash.specs.Calls.{found_of};
ghost use Rattle.flt_flash.specs.Content.{Content};
ghost use Rattle.flt_store_model.specs.Excess.{is_own_part, is_own_application, own_pages};
ghost use Rattle.flt_store_model.specs.Layout.{id_of, index_of};
ghost use Rattle.flt_restore.specs.Found.{size_found};

use flt_config::ValidConfig;
use flt_flash::Found;
use flt_image::{is_used, part_of};
use flt_store_model::{
    APPLICATION_LENGTH, COMMIT_LENGTH, FIRST_APPLICATION, FIRST_COMMIT, MARK_LENGTH, MARK_NUMBER,
    NUMBERS_PER_BLOCK, SECOND_COMMIT,
};

/// The pages of a record of this many bytes.
fn record_pages(length: usize) -> u32
    requires { length ≤ 128 }
    ensures { result ≡ record_pages length }
{
    2 + length.div_ceil(32) as u32
}

/// The pages of the record of a block, by what a read of the block would find.
pub(crate) fn found_pages(found: Found) -> u32
    requires { size_found found ≤ 128 }
    ensures pages { (content : Content) → found ≡ found_of content → result ≡ pages_of content }
    ensures most { result ≤ 6 }
{
    match found {
        Found::Missing => 0,
        Found::Invalid => 2,
        Found::Bytes(length) => record_pages(length),
    }
}

/// The block of a number.
fn id_of(number: u16) -> u16
    ensures { result ≡ id_of number }
{
    number / NUMBERS_PER_BLOCK
}

/// The index, or the copy from 0, of a number.
fn index_of(number: u16) -> u16
    ensures { result ≡ index_of number }
{
    number % NUMBERS_PER_BLOCK
}

fn is_own_part(config: &ValidConfig, number: u16) -> bool
    ensures { result ≡ is_own_part config.now number }
{
    is_used(config, id_of(number)) && index_of(number) <= 1
}

fn is_own_application(config: &ValidConfig, number: u16) -> bool
    ensures { result ≡ is_own_application config.now number }
{
    let end = FIRST_APPLICATION + config.config().blocks as u16;
    let id = id_of(number);
    index_of(number) == 0 && FIRST_APPLICATION <= id && id < end
}

/// The pages of the longest record that the configuration keeps under a number, or 0 if it keeps none.
#[tactic(auto, unfolding(flt_store_model::specs::Excess::own_pages))]
pub(crate) fn own_pages(config: &ValidConfig, number: u16) -> u32
    ensures { result ≡ own_pages config.now number }
{
    if number == MARK_NUMBER {
        record_pages(MARK_LENGTH)
    } else if number == FIRST_COMMIT || number == SECOND_COMMIT {
        record_pages(COMMIT_LENGTH)
    } else if is_own_part(config, number) {
        record_pages(part_of(id_of(number)).byte_length())
    } else if is_own_application(config, number) {
        record_pages(APPLICATION_LENGTH)
    } else {
        0
    }
}
