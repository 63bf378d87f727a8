//! The state with which a life began, printed.
ghost use Rattle.std.specs.Prelude.{◌≡◌, ℕ, IfOk, IsTrue, map};
ghost use Rattle.std.specs.String.{string_bytes};
ghost use Rattle.hex.specs.Hex.{IsBytes, encode_upper};
ghost use Rattle.flt_config.specs.Durable.{Fits};
ghost use Rattle.flt_store_model.specs.Form.{block_bytes};
ghost use Rattle.flt_store_model.specs.Layout.{is_used};
ghost use Rattle.flt_trace.specs.Base.{IsBaseOf, base_block_text};

use flt_config::{Persist, ValidConfig};
use flt_image::{BlockBytes, is_used, put_block};
use flt_store_model::{END_PART, FIRST_PART};
use std::alloc::{AllocError, Global};

/// The text of bytes.
fn digits(alloc: Global, bytes: &[u8]) -> Result<String, AllocError>
    ensures text { IfOk result (λ text. string_bytes text ≡ encode_upper bytes.now) }
    ensures bytes { IsBytes bytes.now }
{
    hex::encode_upper(alloc, bytes)
}

/// The text of a used block of a state.
fn block_text(
    alloc: Global,
    config: &ValidConfig,
    state: &Persist,
    id: u16,
) -> Result<String, AllocError>
    requires used { IsTrue (is_used config.now id) }
    requires fits { Fits config.now state.now }
    ensures text { IfOk result (λ text. string_bytes text ≡ base_block_text state.now id) }
    ensures bytes { IsBytes (block_bytes state.now id) }
{
    let mut bytes = BlockBytes::new();
    put_block(config, state, id, &mut bytes);
    digits(alloc, bytes.as_slice())
}

/// The texts of the used blocks of a state that fits. The error means that memory ran out.
pub fn base_texts(
    alloc: Global,
    config: &ValidConfig,
    state: &Persist,
) -> Result<Vec<String>, AllocError>
    requires { Fits config.now state.now }
    ensures { IfOk result (λ texts. IsBaseOf config.now (map string_bytes texts.items) state.now) }
{
    let mut texts = Vec::new(alloc);
    for id in FIRST_PART..END_PART {
        if is_used(config, id) {
            texts.push(block_text(alloc, config, state, id)?)?;
        }
    }
    Ok(texts)
}
