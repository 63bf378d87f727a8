//! Start-up's reading: the image is judged block by block, in the order of its definition.
ghost use Rattle.std.specs.Prelude.{◌≡◌, IfOk, Err, IsErrOf, IsTrue, IsFalse, ◌↔◌};
ghost use Rattle.flt_nvm.specs.Driver.{driver_of};
ghost use Rattle.flt_restore.specs.declared.fault.StartFault.TheVariants.{Flash, SequenceSpent};
ghost use Rattle.flt_restore.specs.Unread.{IsImageUnread};
ghost use Rattle.flt_restore.specs.Needs.{IsReadable, ReadsImage};
ghost use Rattle.flt_restore.specs.Restored.{IsRestored, Restores, Refuses, IsMarkDue};
ghost use Rattle.flt_store_model.specs.Form.{mark_of};
ghost use Rattle.flt_store_model.specs.Layout.{mark_number};

use crate::commit::Restored;
use crate::fault::StartFault;
use crate::generation::read_image;
use crate::judging::is_mark_due;
use crate::reading::{read_commit, read_content};
use flt_config::{Persist, ValidConfig};
use flt_flash::Blocks;
use flt_nvm::Nvm;
use flt_store_model::MARK_ID;

/// Finds out what the image of a driver that is not stale holds: the commit by which it was judged, with its state in `out`, or
/// `None` for the first generation; and whether its mark has to be written. It judges by copy 1 of the commit, or by copy 2 if copy 1
/// can't be read in three tries. The driver's sequence number does not matter.
///
/// It reads the mark, one copy of the commit and the blocks that it names, and uses the lengths of all other records. It writes
/// nothing. After an error `out` holds any value of its type.
pub fn judge<B: Blocks + Drop>(
    nvm: &mut Nvm<B>,
    config: &ValidConfig,
    out: &mut Persist,
) -> Result<Restored, StartFault>
    requires readable { IsReadable nvm.old }
    requires not_stale { IsFalse (driver_of nvm.old).is_stale }
    ensures restored { IfOk result (λ found. IsRestored config.now (driver_of nvm.old) (driver_of nvm.new) found.commit out.new) }
    ensures mark { IfOk result (λ found. IsTrue found.is_mark_due ↔ IsMarkDue (mark_of config.now) ((driver_of nvm.old).value mark_number)) }
    ensures refused { (fault : StartFault) → result ≡ Err fault → Refuses config.now (driver_of nvm.old) (driver_of nvm.new) fault }
    ensures unspent { ¬ IsErrOf result SequenceSpent }
    ensures unread { IsErrOf result Flash → IsImageUnread config.now (driver_of nvm.old) (driver_of nvm.new) }
    ensures reads { ReadsImage nvm.old nvm.new }
{
    let mark = read_content(nvm, MARK_ID, 0)?;
    let source = read_commit(nvm)?;
    let commit = read_image(nvm, config, &mark, source, out)?;
    Ok(Restored {
        commit,
        is_mark_due: is_mark_due(config, &mark),
    })
}

/// Finds out what the image of a driver that is not stale holds, as `judge` does, and that a sequence number is left for the
/// records to come.
pub fn restore<B: Blocks + Drop>(
    nvm: &mut Nvm<B>,
    config: &ValidConfig,
    out: &mut Persist,
) -> Result<Restored, StartFault>
    requires readable { IsReadable nvm.old }
    requires not_stale { IsFalse (driver_of nvm.old).is_stale }
    ensures restored { IfOk result (λ found. Restores config.now (driver_of nvm.old) (driver_of nvm.new) found.commit out.new) }
    ensures mark { IfOk result (λ found. IsTrue found.is_mark_due ↔ IsMarkDue (mark_of config.now) ((driver_of nvm.old).value mark_number)) }
    ensures refused { (fault : StartFault) → result ≡ Err fault → Refuses config.now (driver_of nvm.old) (driver_of nvm.new) fault }
    ensures unread { IsErrOf result Flash → IsImageUnread config.now (driver_of nvm.old) (driver_of nvm.new) }
    ensures reads { ReadsImage nvm.old nvm.new }
{
    let found = judge(nvm, config, out)?;
    if nvm.spent() {
        Err(StartFault::SequenceSpent)
    } else {
        Ok(found)
    }
}
