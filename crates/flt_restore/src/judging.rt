//! How contents that were read are judged.
ghost use Rattle.std.specs.Prelude.{◌≡◌, ◌≤◌, ◌<◌, ℕ, ◌↔◌, IsTrue};
ghost use Rattle.flt_flash.specs.Calls.{found_of};
ghost use Rattle.flt_flash.specs.Content.{Content};
ghost use Rattle.flt_store_model.specs.Holding.{is_same_mark, marked, is_application};
ghost use Rattle.flt_restore.specs.Found.{held_content};
ghost use Rattle.flt_restore.specs.Judging.{as_told};
ghost use Rattle.flt_store_model.specs.Form.{mark_of};
ghost use Rattle.flt_restore.specs.Restored.{IsMarkDue};

use crate::fault::StartFault;
use crate::reading::Held;
use flt_config::ValidConfig;
use flt_flash::Found;
use flt_image::{get_mark, mark_of, put_mark_1};
use flt_store_model::{APPLICATION_LENGTH, MARK_ID, Mark, Place};

/// The fault of a block.
pub(crate) fn damaged(id: u16) -> StartFault
    ensures { result ≡ StartFault.Damaged (Place.Block id) }
{
    StartFault::Damaged(Place::Block { id })
}

fn is_same(first: &Mark, second: &Mark) -> bool
    ensures { result ≡ is_same_mark first.now second.now }
{
    first.id == second.id && first.events == second.events && first.entries == second.entries
}

/// The mark has to be the configuration's; it may be missing if the commit is.
#[tactic(auto, unfolding(flt_store_model::specs::Holding::marked))]
pub(crate) fn judge_mark(config: &ValidConfig, mark: &Held, commit: &Held) -> Result<(), StartFault>
    ensures { result ≡ as_told config.now (marked config.now (held_content mark.now) (held_content commit.now)) }
{
    match mark {
        Held::Bytes(bytes) => {
            let wanted = mark_of(config);
            match get_mark(bytes) {
                None => Err(damaged(MARK_ID)),
                Some(found) if is_same(&found, &wanted) => Ok(()),
                Some(found) => Err(StartFault::OtherConfig { found, wanted }),
            }
        }
        Held::Invalid => Err(damaged(MARK_ID)),
        Held::Missing => match commit {
            Held::Missing => Ok(()),
            Held::Invalid => Err(damaged(MARK_ID)),
            Held::Bytes(_) => Err(damaged(MARK_ID)),
        },
    }
}

/// Whether the mark that was read has to be written.
pub(crate) fn is_mark_due(config: &ValidConfig, mark: &Held) -> bool
    ensures { IsTrue result ↔ IsMarkDue (mark_of config.now) (held_content mark.now) }
{
    match mark {
        Held::Missing => true,
        Held::Invalid => false,
        Held::Bytes(bytes) => &bytes[..] == &put_mark_1(&mark_of(config))[..],
    }
}

/// An application block was never written, or has no more bytes than allowed.
pub(crate) fn is_application(found: Found) -> bool
    ensures { (content : Content) → found ≡ found_of content → result ≡ is_application content }
{
    match found {
        Found::Missing => true,
        Found::Invalid => false,
        Found::Bytes(length) => length <= APPLICATION_LENGTH,
    }
}
