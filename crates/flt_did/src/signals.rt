//! The signals of the vehicle.
ghost use Rattle.std.specs.Prelude.{◌≡◌, ◌<◌, length, All, replicate, slice_set};

use flt_config::SignalIndex;

/// The values of the eight signals, each from 0 to 65535 (this profile).
#[derive(Clone, Copy, PartialEq, Eq, Debug)]
pub struct Signals {
    /// The value of each signal, by its number from 0 to 7.
    pub values: [u16; 8],
    ghost eight: { length values ≡ 8 },
    ghost small: { All (λ v. v < 65536) values },
}

impl Signals {
    /// Every signal at 0, as at power-up.
    pub fn zero() -> Signals
        ensures { result.values ≡ replicate 8 0 }
    {
        Signals { values: [0; 8] }
    }

    /// Sets the signal with this number, and leaves the others.
    pub fn set(&mut self, index: SignalIndex, value: u16)
        ensures { self.new.values ≡ slice_set self.old.values index value }
    {
        self.values[index.get() as usize] = value;
    }
}
