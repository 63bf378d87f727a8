//! The generation that a commit names, with its parts.
ghost use Rattle.std.specs.Prelude.{◌≡◌, length, Ok, IfErr, IfOk, OnOk, IsErrOf, IsFalse};
ghost use Rattle.flt_nvm.specs.Driver.{driver_of, table_of};
ghost use Rattle.flt_store_model.specs.Layout.{mark_number, parts};
ghost use Rattle.flt_store_model.specs.Form.{IsCommit};
ghost use Rattle.flt_store_model.specs.Holding.{held_by, named, parts_read, with_named};
ghost use Rattle.flt_restore.specs.Found.{held_content, Reads};
ghost use Rattle.flt_restore.specs.Needs.{IsNamedPart, IsReadable};
ghost use Rattle.flt_restore.specs.declared.fault.StartFault.TheVariants.{Flash};
ghost use Rattle.flt_restore.specs.Unread.{IsNamedUnread, IsPartUnread};
ghost use Rattle.flt_restore.specs.Judging.{IsReadFrom, HasFaultCause};
ghost use Rattle.flt_restore.specs.Restored.{generation};

use crate::commit::CommitCopy;
use crate::fault::StartFault;
use crate::judging::{damaged, judge_mark};
use crate::lengths::{judge_applications, judge_excess};
use crate::reading::{CommitRead, Held, read_content};
use flt_config::{Persist, ValidConfig, put_initial};
use flt_flash::Blocks;
use flt_image::{get_block, get_commit, is_used};
use flt_nvm::Nvm;
use flt_store_model::{COMMIT_ID, Commit, END_PART, FIRST_PART};

/// Takes one part if it is used, with those that were taken before.
fn read_part<B: Blocks + Drop>(
    nvm: &mut Nvm<B>,
    config: &ValidConfig,
    commit: &Commit,
    id: u16,
    out: &mut Persist,
) -> Result<(), StartFault>
    requires readable { IsReadable nvm.old }
    requires part { IsNamedPart config.now commit.now id }
    requires states { length out.old.events.items ≡ length config.now.events.items }
    ensures told { OnOk result (with_named config.now (driver_of nvm.old).value commit.now id out.old ≡ Ok out.new) }
    ensures refused { IfErr result (HasFaultCause config.now (driver_of nvm.old) (driver_of nvm.new)
        (with_named config.now (driver_of nvm.old).value commit.now id out.old)) }
    ensures states { length out.new.events.items ≡ length config.now.events.items }
    ensures unread { IsErrOf result Flash → IsPartUnread config.now commit.now (driver_of nvm.old) (driver_of nvm.new) }
    ensures reads { Reads (driver_of nvm.old) (driver_of nvm.new) }
    ensures table { table_of nvm.new ≡ table_of nvm.old }
{
    if !is_used(config, id) {
        return Ok(());
    }
    match read_content(nvm, id, commit.index_of(id))? {
        Held::Missing => Err(damaged(id)),
        Held::Invalid => Err(damaged(id)),
        Held::Bytes(bytes) => {
            if get_block(config, id, &bytes, out) {
                Ok(())
            } else {
                Err(damaged(id))
            }
        }
    }
}

/// Takes all parts that the configuration uses, in ascending order, each at the index at which the commit names it.
fn read_parts<B: Blocks + Drop>(
    nvm: &mut Nvm<B>,
    config: &ValidConfig,
    commit: &Commit,
    out: &mut Persist,
) -> Result<(), StartFault>
    requires readable { IsReadable nvm.old }
    requires form { IsCommit config.now commit.now }
    ensures told { OnOk result (parts_read config.now (driver_of nvm.old).value commit.now parts ≡ Ok out.new) }
    ensures refused { IfErr result (HasFaultCause config.now (driver_of nvm.old) (driver_of nvm.new)
        (parts_read config.now (driver_of nvm.old).value commit.now parts)) }
    ensures unread { IsErrOf result Flash → IsPartUnread config.now commit.now (driver_of nvm.old) (driver_of nvm.new) }
    ensures reads { Reads (driver_of nvm.old) (driver_of nvm.new) }
    ensures table { table_of nvm.new ≡ table_of nvm.old }
{
    put_initial(config, out);
    for id in FIRST_PART..END_PART {
        read_part(nvm, config, commit, id, out)?;
    }
    Ok(())
}

/// Takes the generation that a copy of the commit names; if that is missing, the first one.
fn read_generation<B: Blocks + Drop>(
    nvm: &mut Nvm<B>,
    config: &ValidConfig,
    held: Held,
    copy: u8,
    out: &mut Persist,
) -> Result<Option<CommitCopy>, StartFault>
    requires readable { IsReadable nvm.old }
    ensures told { IfOk result (λ commit. named config.now (driver_of nvm.old).value (held_content held) ≡ Ok (generation commit out.new)) }
    ensures source { IfOk result (λ commit. IsReadFrom config.now (held_content held) copy commit) }
    ensures refused { IfErr result (HasFaultCause config.now (driver_of nvm.old) (driver_of nvm.new) (named config.now (driver_of nvm.old).value (held_content held))) }
    ensures unread { IsErrOf result Flash → IsNamedUnread config.now (held_content held) (driver_of nvm.old) (driver_of nvm.new) }
    ensures reads { Reads (driver_of nvm.old) (driver_of nvm.new) }
    ensures table { table_of nvm.new ≡ table_of nvm.old }
{
    match held {
        Held::Missing => {
            put_initial(config, out);
            Ok(None)
        }
        Held::Invalid => Err(damaged(COMMIT_ID)),
        Held::Bytes(bytes) => match get_commit(config, &bytes) {
            None => Err(damaged(COMMIT_ID)),
            Some(commit) => {
                read_parts(nvm, config, &commit, out)?;
                Ok(Some(CommitCopy {
                    commit,
                    copy,
                    bytes,
                }))
            }
        },
    }
}

/// Judges an image by a commit, in the order of its definition.
pub(crate) fn read_image<B: Blocks + Drop>(
    nvm: &mut Nvm<B>,
    config: &ValidConfig,
    mark: &Held,
    source: CommitRead,
    out: &mut Persist,
) -> Result<Option<CommitCopy>, StartFault>
    requires readable { IsReadable nvm.old }
    requires not_stale { IsFalse (driver_of nvm.old).is_stale }
    requires mark { held_content mark.now ≡ (driver_of nvm.old).value mark_number }
    ensures told { IfOk result (λ commit. held_by config.now (driver_of nvm.old).value (held_content source.held) ≡ Ok (generation commit out.new)) }
    ensures source { IfOk result (λ commit. IsReadFrom config.now (held_content source.held) source.copy commit) }
    ensures refused { IfErr result (HasFaultCause config.now (driver_of nvm.old) (driver_of nvm.new)
        (held_by config.now (driver_of nvm.old).value (held_content source.held))) }
    ensures unread { IsErrOf result Flash → IsNamedUnread config.now (held_content source.held) (driver_of nvm.old) (driver_of nvm.new) }
    ensures reads { Reads (driver_of nvm.old) (driver_of nvm.new) }
    ensures table { table_of nvm.new ≡ table_of nvm.old }
{
    judge_mark(config, mark, &source.held)?;
    let commit = read_generation(nvm, config, source.held, source.copy, out)?;
    judge_applications(nvm, config)?;
    judge_excess(nvm, config)?;
    Ok(commit)
}
