//! What calls of the machine write to.
ghost use Rattle.std.specs.Prelude.{◌≡◌, []};
ghost use Rattle.flt_config.specs.Durable.{initial_state};

use arrayvec::ArrayVec;
use flt_config::{Persist, ValidConfig, initial};
use flt_model::RESPONSE;

/// What calls of the machine write to.
#[derive(Drop)]
pub struct Buffers {
    /// The durable state that a snapshot took, or a start-up restored.
    pub state: Persist,
    /// The bytes of a response.
    pub response: ArrayVec<u8, RESPONSE>,
}

impl Buffers {
    /// The state of a controller that never ran, and no response.
    pub fn new(config: &ValidConfig) -> Buffers
        ensures state { result.state ≡ initial_state config.now }
        ensures response { result.response.items ≡ [] }
    {
        Buffers {
            state: initial(config),
            response: ArrayVec::new(),
        }
    }
}
