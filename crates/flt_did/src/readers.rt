//! The seven functions that the program stores in its table (this profile).
ghost use Rattle.std.specs.Prelude.{◌≡◌, ◌<◌, ◌^◌, Some, nat_lt, if◌then◌else◌};
ghost use Rattle.flt_model.specs.Frame.{did_value};

use crate::Signals;

/// The first signal, in 2 bytes.
pub fn did_0101(signals: &Signals) -> u64
    ensures value { did_value 0x0101 signals.now.values ≡ Some result }
    ensures narrow { result < 256 ^ 2 }
{
    signals.values[0] as u64
}

/// The second signal, in 2 bytes.
pub fn did_0102(signals: &Signals) -> u64
    ensures value { did_value 0x0102 signals.now.values ≡ Some result }
    ensures narrow { result < 256 ^ 2 }
{
    signals.values[1] as u64
}

/// The third signal, at most 255, in 1 byte.
pub fn did_0103(signals: &Signals) -> u64
    ensures value { did_value 0x0103 signals.now.values ≡ Some result }
    ensures narrow { result < 256 ^ 1 }
{
    signals.values[2].min(255) as u64
}

/// The fourth signal times 65536 and the fifth, in 4 bytes.
pub fn did_0104(signals: &Signals) -> u64
    ensures value { did_value 0x0104 signals.now.values ≡ Some result }
    ensures narrow { result < 256 ^ 4 }
{
    signals.values[3] as u64 * 65536 + signals.values[4] as u64
}

/// The weight of a signal's bit, or 0 if the signal is 0.
fn weight_of(value: u16, weight: u64) -> u64
    ensures { result ≡ (if nat_lt 0 value then weight else 0) }
{
    if value > 0 { weight } else { 0 }
}

/// One bit for each signal above 0, the first signal in the lowest, in 1 byte.
pub fn did_0105(signals: &Signals) -> u64
    ensures value { did_value 0x0105 signals.now.values ≡ Some result }
    ensures narrow { result < 256 ^ 1 }
{
    let [v0, v1, v2, v3, v4, v5, v6, v7] = signals.values;
    weight_of(v0, 1)
        + weight_of(v1, 2)
        + weight_of(v2, 4)
        + weight_of(v3, 8)
        + weight_of(v4, 16)
        + weight_of(v5, 32)
        + weight_of(v6, 64)
        + weight_of(v7, 128)
}

/// The sum of the sixth and the seventh signal, at most 65535, in 2 bytes.
pub fn did_0106(signals: &Signals) -> u64
    ensures value { did_value 0x0106 signals.now.values ≡ Some result }
    ensures narrow { result < 256 ^ 2 }
{
    (signals.values[5] as u64 + signals.values[6] as u64).min(65535)
}

/// The first four signals, one after another, in 8 bytes.
pub fn did_0107(signals: &Signals) -> u64
    ensures value { did_value 0x0107 signals.now.values ≡ Some result }
    ensures narrow { result < 256 ^ 8 }
{
    let high = signals.values[0] as u64 * 65536 + signals.values[1] as u64;
    (high * 65536 + signals.values[2] as u64) * 65536 + signals.values[3] as u64
}
