//! What the gate units of a block's two places say.
ghost use Rattle.std.specs.Prelude.{◌≡◌, false};
ghost use Rattle.std.specs.List.{list_any};
ghost use Rattle.flt_ea.specs.Image.{gate_in, newer, same_sequence, is_foreign, is_damaged, has_last_sequence, judged_places, next_place, next_sequence};

use crate::{Gate, get_gate};
use flt_code::{is_spoiled, unseal};

/// The current place of a block, 0 or 1, and its gate.
#[derive(Clone, Copy, Debug, PartialEq, Eq)]
pub struct Held {
    pub place: u8,
    pub gate: Gate,
}

fn gate_in(unit: &[u8; 32]) -> Option<Gate>
    ensures { result ≡ gate_in unit.now }
{
    match unseal(unit) {
        Some(word) => get_gate(&word),
        None => None,
    }
}

fn newer(first: Option<Gate>, second: Option<Gate>) -> Option<Held>
    ensures { result ≡ newer first second }
{
    match (first, second) {
        (None, None) => None,
        (None, Some(gate)) => Some(Held { place: 1, gate }),
        (Some(gate), None) => Some(Held { place: 0, gate }),
        (Some(first), Some(second)) => {
            if first.sequence < second.sequence {
                Some(Held {
                    place: 1,
                    gate: second,
                })
            } else {
                Some(Held {
                    place: 0,
                    gate: first,
                })
            }
        }
    }
}

fn same_sequence(first: Option<Gate>, second: Option<Gate>) -> bool
    ensures { result ≡ same_sequence first second }
{
    match (first, second) {
        (Some(first), Some(second)) => first.sequence == second.sequence,
        _ => false,
    }
}

/// A code word that is no gate of this block.
fn is_foreign(number: u16, word: Option<[u8; 16]>) -> bool
    ensures { result ≡ is_foreign number word }
{
    match word {
        None => false,
        Some(word) => match get_gate(&word) {
            None => true,
            Some(gate) => gate.block != number,
        },
    }
}

fn is_damaged(number: u16, unit: &[u8; 32]) -> bool
    ensures { result ≡ is_damaged number unit.now }
{
    is_foreign(number, unseal(unit)) || is_spoiled(unit)
}

/// Whether no further sequence number is left after a block's current place.
pub(crate) fn is_last(held: Option<Held>) -> bool
    ensures { result ≡ has_last_sequence held }
{
    match held {
        None => false,
        Some(held) => held.gate.sequence == u32::MAX,
    }
}

/// Whether some block has no further sequence number.
pub(crate) fn some_is_last(table: &[Option<Held>]) -> bool
    ensures { result ≡ list_any has_last_sequence table.now }
{
    table.iter().any(|held| is_last(*held))
}

/// The place to which a block is written next.
pub(crate) fn next_place(held: Option<Held>) -> u8
    ensures { result ≡ next_place held }
{
    match held {
        None => 0,
        Some(held) if held.place == 0 => 1,
        Some(_) => 0,
    }
}

/// The sequence number of that write, where one is left.
pub(crate) fn next_sequence(held: Option<Held>) -> u32
    requires { has_last_sequence held ≡ false }
    ensures { result ≡ next_sequence held }
{
    match held {
        None => 1,
        Some(held) => held.gate.sequence + 1,
    }
}

/// The current place of a block by the gate units of its two places; the error is the first one that is damaged.
pub fn judge(number: u16, first: &[u8; 32], second: &[u8; 32]) -> Result<Option<Held>, u8>
    ensures { result ≡ judged_places number first.now second.now }
{
    if is_damaged(number, first) {
        return Err(0);
    }
    let older = gate_in(first);
    let other = gate_in(second);
    if is_damaged(number, second) || same_sequence(older, other) {
        return Err(1);
    }
    Ok(newer(older, other))
}
