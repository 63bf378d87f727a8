//! The gate of a place.
ghost use Rattle.std.specs.Prelude.{◌≡◌, ◌≢◌, Some, IfSome, IfNone};
ghost use Rattle.flt_code.specs.Word.{is_length};
ghost use Rattle.flt_ea.specs.declared.gate.Gate.{Gate};
ghost use Rattle.flt_ea.specs.Gate.{IsGate, IsGateOf, gate_bytes, gate_candidate, gate_of};

/// `45`, `01` where it is valid and `02` where not, block, length, sequence, big-endian, filled up with bytes 0: the
/// place holds this many bytes of this block. A valid one has 1 to 128 bytes, an invalid one none.
#[derive(Clone, Copy, Debug, PartialEq, Eq)]
pub struct Gate {
    pub block: u16,
    pub length: u16,
    pub valid: bool,
    pub sequence: u32,
}

/// The bytes of a gate.
pub fn put_gate(gate: &Gate) -> [u8; 16]
    requires { IsGate gate.now }
    ensures bytes { result ≡ gate_bytes gate.now }
    ensures read { gate_of result ≡ Some gate.now }
{
    gate_to_bytes(gate)
}

#[tactic(auto, unfolding(crate::specs::Gate::gate_bytes))]
fn gate_to_bytes(gate: &Gate) -> [u8; 16]
    ensures { result ≡ gate_bytes gate.now }
{
    let kind = if gate.valid { 1 } else { 2 };
    let [a, b] = gate.block.to_be_bytes();
    let [c, d] = gate.length.to_be_bytes();
    let [e, f, g, h] = gate.sequence.to_be_bytes();
    [0x45, kind, a, b, c, d, e, f, g, h, 0, 0, 0, 0, 0, 0]
}

fn is_length(valid: bool, length: u16) -> bool
    ensures { result ≡ is_length valid length }
{
    if valid {
        1 <= length && length <= 128
    } else {
        length == 0
    }
}

/// The gate that the fields would give.
#[tactic(auto, unfolding(crate::specs::Gate::gate_candidate))]
fn candidate(bytes: &[u8; 16]) -> Option<Gate>
    ensures read { result ≡ gate_candidate bytes.now }
    ensures proper { IfSome result IsGate }
{
    let [_tag, kind, a, b, c, d, e, f, g, h, ..] = *bytes;
    let valid = kind == 1;
    let block = u16::from_be_bytes([a, b]);
    let length = u16::from_be_bytes([c, d]);
    let sequence = u32::from_be_bytes([e, f, g, h]);
    if is_length(valid, length) && 1 <= sequence {
        Some(Gate {
            block,
            length,
            valid,
            sequence,
        })
    } else {
        None
    }
}

/// The gate of these bytes; `None` exactly where they are none.
pub fn get_gate(bytes: &[u8; 16]) -> Option<Gate>
    ensures gate { IfSome result (λ gate. IsGateOf gate bytes.now) }
    ensures none { IfNone result ((gate : Gate) → IsGate gate → bytes.now ≢ gate_bytes gate) }
    ensures read { result ≡ gate_of bytes.now }
{
    match candidate(bytes) {
        Some(gate) if gate_to_bytes(&gate) == *bytes => Some(gate),
        _ => None,
    }
}
