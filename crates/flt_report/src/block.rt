//! The lines of a block of lanes that are no steps.
ghost use Rattle.std.specs.Prelude.{◌≡◌, ◌<◌, ◌+◌, ◌++◌, OnOk, OnErr, vec_len};
ghost use Rattle.std.specs.Vec.{vec_capacity};
ghost use Rattle.flt_report.specs.Block.{par_line, lane_line, end_line};

use flt_step::{put_number, put_text};
use std::alloc::AllocError;

/// The most bytes of a line of a block that is no step.
const BLOCK_ROOM: usize = 16;

/// Puts the line that begins a block. Where memory is short it puts nothing; with room for 16 bytes it takes none.
pub fn put_par(out: &mut Vec<u8>) -> Result<(), AllocError>
    ensures ok { OnOk result (out.new.items ≡ out.old.items ++ par_line) }
    ensures err { OnErr result (out.new.items ≡ out.old.items) }
    ensures full { OnErr result (vec_capacity out.old < vec_len out.old + 16) }
{
    out.reserve(BLOCK_ROOM)?;
    put_text(b"par\n", out);
    Ok(())
}

/// Puts the line that begins the lane of this number. Where memory is short it puts nothing; with room for 16 bytes it takes
/// none.
pub fn put_lane(lane: u32, out: &mut Vec<u8>) -> Result<(), AllocError>
    ensures ok { OnOk result (out.new.items ≡ out.old.items ++ lane_line lane) }
    ensures err { OnErr result (out.new.items ≡ out.old.items) }
    ensures full { OnErr result (vec_capacity out.old < vec_len out.old + 16) }
{
    out.reserve(BLOCK_ROOM)?;
    put_text(b"lane ", out);
    put_number(lane, out);
    put_text(b"\n", out);
    Ok(())
}

/// Puts the line that ends a block. Where memory is short it puts nothing; with room for 16 bytes it takes none.
pub fn put_end(out: &mut Vec<u8>) -> Result<(), AllocError>
    ensures ok { OnOk result (out.new.items ≡ out.old.items ++ end_line) }
    ensures err { OnErr result (out.new.items ≡ out.old.items) }
    ensures full { OnErr result (vec_capacity out.old < vec_len out.old + 16) }
{
    out.reserve(BLOCK_ROOM)?;
    put_text(b"end\n", out);
    Ok(())
}
