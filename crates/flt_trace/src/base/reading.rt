//! The state with which a life began, read.
ghost use Rattle.std.specs.Prelude.{◌≡◌, ◌↔◌, ℕ, List, IfOk, IsTrue, MatchOption, map};
ghost use Rattle.std.specs.String.{string_bytes};
ghost use Rattle.hex.specs.declared.error.FromHexError.TheVariants.{OutOfMemory};
ghost use Rattle.hex.specs.Hex.{IsBytes, encode_upper};
ghost use Rattle.flt_config.specs.declared.persist.Persist.{Persist as State};
ghost use Rattle.flt_trace.specs.Trace.{texts_seen};
ghost use Rattle.flt_trace.specs.Base.{IsBaseOf};

use crate::base::printing::base_texts;
use flt_config::{Persist, ValidConfig, fits, initial};
use flt_image::{Mark, get_block, is_used, mark_of};
use flt_store_model::{END_PART, FIRST_PART};
use hex::FromHexError;
use std::alloc::{AllocError, Global};

/// Whether memory ran out.
fn is_memory(error: FromHexError) -> bool
    ensures { IsTrue result ↔ (error ≡ OutOfMemory) }
{
    matches!(error, FromHexError::OutOfMemory)
}

/// The bytes of which these are the hexadecimal digits, if they are such digits.
fn read_bytes(alloc: Global, text: &str) -> Result<Option<Vec<u8>>, AllocError>
    ensures { IfOk result (λ found. (bytes : List ℕ) → IsBytes bytes → text.now ≡ encode_upper bytes →
        MatchOption found ⊥ (λ read. read.items ≡ bytes)) }
{
    match hex::decode(alloc, text) {
        Ok(bytes) => Ok(Some(bytes)),
        Err(error) => {
            if is_memory(error) {
                Err(AllocError)
            } else {
                Ok(None)
            }
        }
    }
}

/// The one state whose used blocks these texts may be.
fn take_blocks(
    alloc: Global,
    config: &ValidConfig,
    texts: &[&str],
) -> Result<Option<Persist>, AllocError>
    ensures { IfOk result (λ found. (state : State) → IsBaseOf config.now (texts_seen texts.now) state →
        MatchOption found ⊥ (λ taken. taken ≡ state)) }
{
    // A witness for the checker: a configuration that has a mark has sizes of which the blocks have room.
    let Mark { .. } = mark_of(config);
    let mut state = initial(config);
    let mut place = 0;
    for id in FIRST_PART..END_PART {
        if is_used(config, id) {
            if texts.len() <= place {
                return Ok(None);
            }
            let text = texts[place];
            let bytes = match read_bytes(alloc, text)? {
                Some(bytes) => bytes,
                None => return Ok(None),
            };
            if !get_block(config, id, &bytes, &mut state) {
                return Ok(None);
            }
            place += 1;
        }
    }
    Ok(Some(state))
}

/// Whether these texts are the printed ones.
fn are_same(texts: &[&str], printed: &[String]) -> bool
    ensures { IsTrue result ↔ (texts_seen texts.now ≡ map string_bytes printed.now) }
{
    if texts.len() != printed.len() {
        return false;
    }
    for place in 0..texts.len() {
        let text = texts[place];
        if text != printed[place].as_str() {
            return false;
        }
    }
    true
}

/// The state whose used blocks, each as its bytes in upper-case hexadecimal digits, are these texts; none where they are those of no
/// state that fits the configuration. The error means that memory ran out.
pub fn read_base(
    alloc: Global,
    config: &ValidConfig,
    texts: &[&str],
) -> Result<Option<Persist>, AllocError>
    ensures { IfOk result (λ found. MatchOption found
        ((state : State) → IsBaseOf config.now (texts_seen texts.now) state → ⊥)
        (λ state. IsBaseOf config.now (texts_seen texts.now) state)) }
{
    let Some(state) = take_blocks(alloc, config, texts)? else {
        return Ok(None);
    };
    if !fits(config, &state) {
        return Ok(None);
    }
    let printed = base_texts(alloc, config, &state)?;
    if are_same(texts, &printed) {
        Ok(Some(state))
    } else {
        Ok(None)
    }
}
