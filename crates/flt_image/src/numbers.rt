//! The numbers under which the driver keeps the blocks.
ghost use Rattle.std.specs.Prelude.{◌≡◌, ◌<◌, ◌≤◌, IfOk};
ghost use Rattle.flt_store_model.specs.Layout.{numbers};

use flt_store_model::{
    APPLICATIONS, END_PART, FIRST_APPLICATION, FIRST_COMMIT, FIRST_PART, MARK_NUMBER,
    NUMBERS_PER_BLOCK, SECOND_COMMIT,
};
use std::alloc::{AllocError, Global};

/// The numbers with which a driver of blocks is made, in ascending order.
pub fn fee_numbers(alloc: Global) -> Result<Vec<u16>, AllocError>
    ensures { IfOk result (λ made. made.items ≡ numbers) }
{
    let mut made = Vec::new(alloc);
    for number in [MARK_NUMBER, FIRST_COMMIT, SECOND_COMMIT] {
        made.push(number)?;
    }
    for id in FIRST_PART..END_PART {
        made.push(id * NUMBERS_PER_BLOCK)?;
        made.push(id * NUMBERS_PER_BLOCK + 1)?;
    }
    for block in 0..APPLICATIONS {
        made.push((FIRST_APPLICATION + block) * NUMBERS_PER_BLOCK)?;
    }
    Ok(made)
}
