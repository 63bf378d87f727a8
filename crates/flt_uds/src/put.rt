//! Bytes of a response. A put appends to what is there, and allocates no memory.
ghost use Rattle.std.specs.Prelude.{◌≡◌, ◌+◌, ◌<◌, ◌≤◌, ◌^◌, ◌∷◌, [], ◌++◌, length};
ghost use Rattle.flt_model.specs.Response.{dtc_bytes};

use arrayvec::ArrayVec;
use flt_model::{Negative, RESPONSE};

/// The first byte of a negative response; the service and the code follow.
pub const NEGATIVE_RESPONSE: u8 = 0x7F;

/// Appends these bytes, for which there is room.
pub fn put_bytes(bytes: &[u8], out: &mut ArrayVec<u8, RESPONSE>)
    requires { length out.old.items + length bytes.now ≤ RESPONSE }
    ensures { out.new.items ≡ out.old.items ++ bytes.now }
{
    out.try_extend_from_slice(bytes).unwrap();
}

/// The three bytes of a DTC, big-endian.
fn bytes_of(dtc: u32) -> [u8; 3]
    requires { dtc < 2 ^ 24 }
    ensures { result ≡ dtc_bytes dtc }
{
    let [_, high, middle, low] = dtc.to_be_bytes();
    [high, middle, low]
}

/// Appends a DTC in three bytes, big-endian, for which there is room.
pub fn put_dtc(dtc: u32, out: &mut ArrayVec<u8, RESPONSE>)
    requires three { dtc < 2 ^ 24 }
    requires room { length out.old.items + 3 ≤ RESPONSE }
    ensures { out.new.items ≡ out.old.items ++ dtc_bytes dtc }
{
    put_bytes(&bytes_of(dtc), out);
}

/// Appends a DTC as `put_dtc` does, together with one byte that belongs to it; there is room for the four bytes.
pub fn put_dtc_with(dtc: u32, told: u8, out: &mut ArrayVec<u8, RESPONSE>)
    requires three { dtc < 2 ^ 24 }
    requires room { length out.old.items + 4 ≤ RESPONSE }
    ensures { out.new.items ≡ out.old.items ++ dtc_bytes dtc ++ told ∷ [] }
{
    let [high, middle, low] = bytes_of(dtc);
    put_bytes(&[high, middle, low, told], out);
}

/// Appends a negative response; there is room for its three bytes.
pub fn put_negative(negative: &Negative, out: &mut ArrayVec<u8, RESPONSE>)
    requires { length out.old.items + 3 ≤ RESPONSE }
    ensures { out.new.items ≡ out.old.items ++ NEGATIVE_RESPONSE ∷ negative.now.service ∷ negative.now.code ∷ [] }
{
    put_bytes(&[NEGATIVE_RESPONSE, negative.service, negative.code], out);
}
