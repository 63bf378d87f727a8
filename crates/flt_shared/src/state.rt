//! A state that is to be written over.
ghost use Rattle.flt_shared.specs.State.{IsNoState};

use arrayvec::ArrayVec;
use flt_config::Persist;

/// The state of no event: what a snapshot is written over, at less cost than a first state of each event.
pub fn no_state() -> Persist
    ensures { IsNoState result }
{
    Persist {
        events: ArrayVec::new(),
        entries: ArrayVec::new(),
        overflow: false,
        first_failed: None,
        first_confirmed: None,
        recent_failed: None,
        recent_confirmed: None,
    }
}
