//! The line that begins a life.
ghost use Rattle.std.specs.Prelude.{◌≡◌, ◌≢◌, ◌≤◌, ◌<◌, ◌+◌, ◌++◌, ◌∷◌, [], OnOk, OnErr, vec_len};
ghost use Rattle.std.specs.Vec.{vec_capacity};
ghost use Rattle.flt_restore.specs.declared.fault.StartFault.TheVariants as faults;
ghost use Rattle.flt_report.specs.Boot.{place_text, mark_text, refusal_text, boot_text, boot_line};
ghost use Rattle.flt_step.specs.Puts.{Puts};
ghost use Rattle.flt_io.specs.Status.{status_number};
ghost use Rattle.flt_life_model.specs.Statuses.{status_by};

use flt_io::Status;
use flt_life_model::Boot;
use flt_restore::StartFault;
use flt_step::{put_number, put_text};
use flt_store_model::{Mark, Place};
use std::alloc::AllocError;

/// The most bytes of the line that begins a life.
const BOOT_ROOM: usize = 160;

/// Puts the numbers of a configuration's mark, in at most 54 bytes.
#[tactic(auto, unfolding(crate::specs::Boot::mark_text))]
fn put_mark(mark: &Mark, out: &mut Vec<u8>)
    requires { vec_len out.old + 54 ≤ vec_capacity out.old }
    ensures { Puts out.old out.new (mark_text mark.now) 54 }
{
    put_text(b"config ", out);
    put_number(u32::from(mark.id), out);
    put_text(b" events ", out);
    put_number(u32::from(mark.events), out);
    put_text(b" entries ", out);
    put_number(u32::from(mark.entries), out);
}

/// Puts where an image is damaged, in at most 33 bytes.
fn put_place(place: Place, out: &mut Vec<u8>)
    requires { vec_len out.old + 33 ≤ vec_capacity out.old }
    ensures { Puts out.old out.new (place_text place) 33 }
{
    match place {
        Place::Page { sector, page } => {
            put_text(b"sector ", out);
            put_number(u32::from(sector), out);
            put_text(b" page ", out);
            put_number(u32::from(page), out);
        }
        Place::Block { id } => {
            put_text(b"block ", out);
            put_number(u32::from(id), out);
        }
    }
}

/// Puts why a life was refused, in at most 116 bytes.
fn put_refusal(fault: &StartFault, out: &mut Vec<u8>)
    requires refused { fault.now ≢ faults.Flash }
    requires room { vec_len out.old + 116 ≤ vec_capacity out.old }
    ensures { Puts out.old out.new (refusal_text fault.now) 116 }
{
    match fault {
        StartFault::Flash => unreachable!(),
        StartFault::Damaged(place) => put_place(*place, out),
        StartFault::OtherConfig { found, wanted } => {
            put_mark(found, out);
            put_text(b" wanted ", out);
            put_mark(wanted, out);
        }
        StartFault::SequenceSpent => put_text(b"sequence", out),
    }
}

/// Puts the line that an image holds nothing for this reason. Where memory is short it puts nothing.
pub fn put_refused(fault: &StartFault, out: &mut Vec<u8>) -> Result<(), AllocError>
    requires { fault.now ≢ faults.Flash }
    ensures ok { OnOk result (out.new.items ≡ out.old.items ++ boot_text (Boot.Refused fault.now) ++ 10 ∷ []) }
    ensures err { OnErr result (out.new.items ≡ out.old.items) }
{
    out.reserve(BOOT_ROOM)?;
    put_text(b"refused ", out);
    put_refusal(fault, out);
    put_text(b"\n", out);
    Ok(())
}

/// Puts the line that begins the life of this number, counted from 1. Where memory is short it puts nothing;
/// with room for 160 bytes it takes none.
pub fn put_boot(life: u32, boot: &Boot, out: &mut Vec<u8>) -> Result<(), AllocError>
    requires { boot.now ≢ Boot.Refused faults.Flash }
    ensures ok { OnOk result (out.new.items ≡ out.old.items ++ boot_line life boot.now) }
    ensures err { OnErr result (out.new.items ≡ out.old.items) }
    ensures full { OnErr result (vec_capacity out.old < vec_len out.old + 160) }
{
    out.reserve(BOOT_ROOM)?;
    put_text(b"life ", out);
    put_number(life, out);
    put_text(b" ", out);
    match boot {
        Boot::Started { generation, .. } => {
            put_text(b"generation ", out);
            put_number(*generation, out);
        }
        Boot::Dark => put_text(b"dark", out),
        Boot::Refused(fault) => {
            put_text(b"refused ", out);
            put_refusal(fault, out);
        }
    }
    put_text(b"\n", out);
    Ok(())
}

/// The status of a run by how its last life began.
pub fn status_by(boot: &Boot) -> Status
    ensures { status_number result ≡ status_by boot.now }
{
    match boot {
        Boot::Started { .. } => Status::Done,
        Boot::Dark => Status::Dark,
        Boot::Refused(StartFault::Flash) => Status::Dark,
        Boot::Refused(StartFault::Damaged(_)) => Status::Damaged,
        Boot::Refused(StartFault::OtherConfig { .. }) => Status::Damaged,
        Boot::Refused(StartFault::SequenceSpent) => Status::SequenceSpent,
    }
}
