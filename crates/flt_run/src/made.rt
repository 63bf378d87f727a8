//! The lives of a script that were made.
ghost use Rattle.std.specs.Prelude.{◌≢◌, ◌<◌, ◌≤◌, All, vec_len};
ghost use Rattle.flt_restore.specs.declared.fault.StartFault.TheVariants.{Flash};
ghost use Rattle.flt_step.specs.Part.{parts_of};
ghost use Rattle.flt_life_model.specs.declared.life.Boot.TheVariants.{Refused};
ghost use Rattle.flt_life_model.specs.Parts.{widths};

use flt_life_model::Life;
use flt_step::Part;

/// The lives of a script that were made, or began and the last was refused.
#[derive(Drop)]
pub(crate) struct Made {
    /// The parts of each life of the script.
    pub(crate) script: Vec<Vec<Part>>,
    /// As many lives, or fewer where the last was refused.
    pub(crate) lives: Vec<Life>,
    pub(crate) ghost some: { 0 < vec_len script },
    pub(crate) ghost few: { vec_len script ≤ 256 },
    /// A life whose start-up met three faults is dark, and not refused.
    pub(crate) ghost small: { All (λ life. widths (parts_of life.items) ≤ 1048577) script.items },
    pub(crate) ghost none_by_flash: { All (λ life. life.boot ≢ Refused Flash) lives.items },
}
