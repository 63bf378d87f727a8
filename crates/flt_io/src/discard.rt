ghost use Rattle.std.specs.Prelude.{None};

use crate::stream::{Failed, Sink};

/// A sink that takes every piece, keeps none, and never fails.
#[derive(Debug, Drop)]
pub struct Discard;

impl Sink for Discard {
    ghost held = { λ s. None };

    ghost faults = { λ s. 0 };

    fn push(&mut self, _piece: &[u8]) -> Result<(), Failed> {
        Ok(())
    }
}
