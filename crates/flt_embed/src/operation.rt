//! What is to be done to the flash, as a caller carries it out.
ghost use Rattle.std.specs.Prelude.{◌≡◌, ◌+◌, ◌*◌, ◌<◌, ◌≤◌, length, replicate};
ghost use Rattle.flt_embed.specs.Carried.{carried, carried_by, spliced_at};

/// An operation on a flash of two sectors.
#[derive(Drop)]
pub enum Operation {
    /// Program these bytes into a blank page.
    Program {
        sector: u8,
        page: u16,
        bytes: [u8; 32],
    },
    /// Erase this sector: make each of its bytes 255.
    Erase {
        sector: u8,
    },
}

/// Puts these bytes over those from a place on, where they fit.
fn put_at(image: &mut Vec<u8>, at: usize, new: &[u8])
    requires near { at < 4294967296 }
    requires few { length new.now < 4294967296 }
    ensures put { image.new.items ≡ spliced_at at new.now image.old.items }
    ensures size { length image.new.items ≡ length image.old.items }
{
    if at + new.len() <= image.len() {
        image[at..at + new.len()].copy_from_slice(new);
    }
}

/// Carries an operation out on an image of two sectors of this many pages, of which one sector has these bytes where it is blank.
fn carry(image: &mut Vec<u8>, pages: u16, blank: &[u8], operation: &Operation)
    requires { blank.now ≡ replicate (32 * pages) 255 }
    ensures image { image.new.items ≡ carried_by pages operation.now image.old.items }
    ensures size { length image.new.items ≡ length image.old.items }
{
    match operation {
        Operation::Program {
            sector,
            page,
            bytes,
        } => {
            let number = *sector as usize * pages as usize + *page as usize;
            put_at(image, 32 * number, bytes);
        }
        Operation::Erase { sector } => {
            put_at(image, 32 * pages as usize * *sector as usize, blank);
        }
    }
}

/// Carries operations out, in their order.
pub(crate) fn carry_out(image: &mut Vec<u8>, pages: u16, blank: &[u8], operations: &[Operation])
    requires { blank.now ≡ replicate (32 * pages) 255 }
    ensures image { image.new.items ≡ carried pages operations.now image.old.items }
    ensures size { length image.new.items ≡ length image.old.items }
{
    for operation in operations {
        carry(image, pages, blank, operation);
    }
}
