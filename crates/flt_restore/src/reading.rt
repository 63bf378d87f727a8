//! Reads of a mounted driver, which fail only if the flash failed in three tries, and what they find.
ghost use Rattle.std.specs.Prelude.{◌≡◌, ◌-◌, ◌≤◌, ◌<◌, ℕ, List, length, take, IfErr, IfOk, OnOk, IsFalse};
ghost use Rattle.flt_flash.specs.Content.{Content};
ghost use Rattle.flt_nvm.specs.Driver.{driver_of, table_of};
ghost use Rattle.flt_nvm.specs.Leaves.{GotOf};
ghost use Rattle.flt_store_model.specs.Layout.{commit_id, number_of};
ghost use Rattle.flt_restore.specs.Found.{held_content, IsShortRead, IsSingle, Reads};
ghost use Rattle.flt_restore.specs.Judging.{IsSource};
ghost use Rattle.flt_restore.specs.Needs.{IsReadable};
ghost use Rattle.flt_restore.specs.Unread.{FailsAsFlash, FailsToRead, IsCommitUnread};

use arrayvec::ArrayVec;
use flt_flash::{BlockFault, Blocks, Found};
use flt_image::BlockBytes;
use flt_nvm::{Got, Nvm};
use flt_store_model::COMMIT_ID;

/// What a block holds.
#[derive(Drop)]
pub(crate) enum Held {
    /// The block was never written.
    Missing,
    /// The block was made invalid.
    Invalid,
    Bytes(BlockBytes),
}

fn first_bytes(out: &[u8; 128], length: usize) -> BlockBytes
    requires { length ≤ 128 }
    ensures { result.items ≡ take length out.now }
{
    let mut bytes = ArrayVec::new();
    bytes.try_extend_from_slice(&out[..length]).unwrap();
    bytes
}

/// What was read, whose bytes are at the start of `out`.
fn held_in(got: Got, out: &[u8; 128]) -> Held
    requires { IsShortRead got }
    ensures { (copy : ℕ) (content : Content) (before : List ℕ) → GotOf copy content got before out.now → held_content result ≡ content }
{
    match got {
        Got::Missing => Held::Missing,
        Got::Invalid => Held::Invalid,
        Got::Bytes { length, .. } => Held::Bytes(first_bytes(out, length)),
    }
}

/// Reads a block of one copy, or an index of a part.
pub(crate) fn read_content<B: Blocks + Drop>(
    nvm: &mut Nvm<B>,
    id: u16,
    index: u8,
) -> Result<Held, BlockFault>
    requires readable { IsReadable nvm.old }
    requires single { IsSingle id index }
    ensures content { IfOk result (λ held. held_content held ≡ (driver_of nvm.old).value (number_of id index)) }
    ensures fails { IfErr result (FailsAsFlash (FailsToRead (number_of id index)) (driver_of nvm.old) (driver_of nvm.new)) }
    ensures not_stale { OnOk result (IsFalse (driver_of nvm.new).is_stale) }
    ensures reads { Reads (driver_of nvm.old) (driver_of nvm.new) }
    ensures table { table_of nvm.new ≡ table_of nvm.old }
{
    let mut out = [0; 128];
    let got = nvm.read(id, index, &mut out)?;
    Ok(held_in(got, &out))
}

/// What counts as the commit, and which copy it is.
#[derive(Drop)]
pub(crate) struct CommitRead {
    pub held: Held,
    pub copy: u8,
}

/// Reads copy 1 or copy 2 of the commit.
fn read_source<B: Blocks + Drop>(nvm: &mut Nvm<B>, copy: u8) -> Result<CommitRead, BlockFault>
    requires readable { IsReadable nvm.old }
    requires least { 1 ≤ copy }
    requires most { copy ≤ 2 }
    ensures content { IfOk result (λ source. held_content source.held ≡ (driver_of nvm.old).value (number_of commit_id (copy - 1))) }
    ensures copy { IfOk result (λ source. source.copy ≡ copy) }
    ensures fails { IfErr result (FailsAsFlash (FailsToRead (number_of commit_id (copy - 1))) (driver_of nvm.old) (driver_of nvm.new)) }
    ensures reads { Reads (driver_of nvm.old) (driver_of nvm.new) }
    ensures table { table_of nvm.new ≡ table_of nvm.old }
{
    let mut out = [0; 128];
    let got = nvm.read_copy(COMMIT_ID, copy, &mut out)?;
    Ok(CommitRead {
        held: held_in(got, &out),
        copy,
    })
}

/// Reads the copy of the commit that counts: copy 1 if it has bytes, else copy 2 if that has bytes, else copy 1. If copy 1
/// can't be read in three tries and copy 2 has bytes, copy 2 is read.
pub(crate) fn read_commit<B: Blocks + Drop>(nvm: &mut Nvm<B>) -> Result<CommitRead, BlockFault>
    requires readable { IsReadable nvm.old }
    requires not_stale { IsFalse (driver_of nvm.old).is_stale }
    ensures source { IfOk result (λ source. IsSource (driver_of nvm.old) (driver_of nvm.new) (held_content source.held) source.copy) }
    ensures fails { IfErr result (FailsAsFlash IsCommitUnread (driver_of nvm.old) (driver_of nvm.new)) }
    ensures reads { Reads (driver_of nvm.old) (driver_of nvm.new) }
    ensures table { table_of nvm.new ≡ table_of nvm.old }
{
    let second = nvm.look_up(COMMIT_ID, 1);
    match (nvm.look_up(COMMIT_ID, 0), second) {
        (Found::Bytes(_), Found::Bytes(_)) => match read_source(nvm, 1) {
            Err(BlockFault::Flash) => read_source(nvm, 2),
            read => read,
        },
        (Found::Bytes(_), _) => read_source(nvm, 1),
        (_, Found::Bytes(_)) => read_source(nvm, 2),
        (Found::Missing, _) => Ok(CommitRead {
            held: Held::Missing,
            copy: 1,
        }),
        (Found::Invalid, _) => Ok(CommitRead {
            held: Held::Invalid,
            copy: 1,
        }),
    }
}
