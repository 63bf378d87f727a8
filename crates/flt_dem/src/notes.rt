//! The events that are noted as first and as most recent.

ghost use Rattle.std.specs.Prelude.{◌≡◌};
ghost use Rattle.flt_model.specs.Noted.{first_after as noted_first_after, recent_after as noted_recent_after, without as note_without};

use flt_config::Persist;
use flt_status::FailedMark;

/// Which of the four noted events is asked for (ISO 14229-1, service 0x19, sub-functions 0x0B to 0x0E).
#[derive(Clone, Copy, PartialEq, Eq, Debug)]
pub enum Which {
    FirstFailed,
    FirstConfirmed,
    RecentFailed,
    RecentConfirmed,
}

/// The four noted events, each of which may be none.
#[derive(Clone, Copy)]
pub struct Notes {
    pub first_failed: Option<u16>,
    pub first_confirmed: Option<u16>,
    pub recent_failed: Option<u16>,
    pub recent_confirmed: Option<u16>,
}

impl Notes {
    ghost use Rattle.flt_dem.specs.Notes.{notes_in, notes_without, noted_by};

    /// The notes of a durable state.
    pub fn of(base: &Persist) -> Notes
        ensures { result ≡ notes_in base.now }
    {
        Notes {
            first_failed: base.first_failed,
            first_confirmed: base.first_confirmed,
            recent_failed: base.recent_failed,
            recent_confirmed: base.recent_confirmed,
        }
    }

    /// The notes after a failure of an event, of which the mark says what it changed.
    pub fn after_failure(self, event: u16, mark: FailedMark) -> Notes
        ensures first_failed { result.first_failed ≡ noted_first_after mark.entered event self.first_failed }
        ensures first_confirmed { result.first_confirmed ≡ noted_first_after mark.confirmed event self.first_confirmed }
        ensures recent_failed { result.recent_failed ≡ noted_recent_after mark.entered event self.recent_failed }
        ensures recent_confirmed { result.recent_confirmed ≡ noted_recent_after mark.confirmed event self.recent_confirmed }
    {
        let mut notes = self;
        if mark.entered {
            notes.first_failed = notes.first_failed.or(Some(event));
            notes.recent_failed = Some(event);
        }
        if mark.confirmed {
            notes.first_confirmed = notes.first_confirmed.or(Some(event));
            notes.recent_confirmed = Some(event);
        }
        notes
    }

    /// The notes after a clear of an event: those that name it are none.
    pub fn after_clear(self, event: u16) -> Notes
        ensures { result ≡ notes_without event self }
    {
        Notes {
            first_failed: without(event, self.first_failed),
            first_confirmed: without(event, self.first_confirmed),
            recent_failed: without(event, self.recent_failed),
            recent_confirmed: without(event, self.recent_confirmed),
        }
    }

    /// The noted event that is asked for.
    pub fn noted(self, which: Which) -> Option<u16>
        ensures { result ≡ noted_by which self }
    {
        match which {
            Which::FirstFailed => self.first_failed,
            Which::FirstConfirmed => self.first_confirmed,
            Which::RecentFailed => self.recent_failed,
            Which::RecentConfirmed => self.recent_confirmed,
        }
    }
}

/// A noted event, where it is another one.
fn without(event: u16, noted: Option<u16>) -> Option<u16>
    ensures { result ≡ note_without event noted }
{
    match noted {
        Some(other) if other != event => Some(other),
        _ => None,
    }
}
