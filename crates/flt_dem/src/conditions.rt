//! The enable conditions of the vehicle.

ghost use Rattle.std.specs.Prelude.{◌≡◌, slice_set, [], false};
ghost use Rattle.flt_model.specs.Happening.{conditions, are_met};

use flt_config::Condition;
use std::marker::Model;

/// Which of the eight enable conditions are fulfilled.
#[derive(Drop)]
pub struct Conditions {
    /// Those that are not: bit c for condition c.
    missing: u8,
}

impl Model for Conditions {
    ghost use Rattle.std.specs.Prelude.{Bool, List};
    ghost use Rattle.flt_dem.specs.Conditions.{all_but};

    ghost Value = { List Bool };

    ghost view = { λ c. all_but c.missing };
}

impl Conditions {
    /// Each is fulfilled, as at power-up.
    pub fn fulfilled() -> Conditions
        ensures { result ≡ conditions [] }
    {
        Conditions { missing: 0 }
    }

    /// Notes whether the condition with this number is fulfilled, and leaves the others.
    pub fn set(&mut self, condition: Condition, fulfilled: bool)
        ensures { self.new ≡ slice_set self.old condition fulfilled }
    {
        let bit = 1u8 << condition.get();
        if fulfilled {
            self.missing &= !bit;
        } else {
            self.missing |= bit;
        }
    }

    /// Whether each condition is fulfilled whose bit is set in a byte.
    pub fn meet(&self, needs: u8) -> bool
        ensures { result ≡ are_met needs self.now }
    {
        needs & self.missing == 0
    }
}
