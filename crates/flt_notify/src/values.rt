//! The values of the three kinds.
ghost use Rattle.std.specs.Prelude.{◌≡◌, ◌<◌, ◌≤◌, ◌^◌, ◌∷◌, [], ℕ, All, length, replicate, slice_get, slice_set, slice_index_or, fold};
ghost use Rattle.flt_notify.specs.Changes.{changes_from, statuses};
ghost use Rattle.flt_notify.specs.Rows.{AreAnswersTo};
ghost use Rattle.flt_notify.specs.Subscribers.{AreTold};
ghost use Rattle.flt_notify.specs.Value.{IsInRange, next_values};

use crate::change::Change;
use crate::kinds::KINDS;
use crate::subscribers::Subscribers;
use flt_config::EventState;
use std::marker::Model;

/// The value of each kind, from 0 to 2^32 - 1, by its number.
#[derive(Drop)]
pub(crate) struct Values {
    by_kind: [u64; KINDS],
    ghost one_each: { length by_kind ≡ 3 },
    ghost small: { All (λ v. v < 2 ^ 32) by_kind },
}

impl Model for Values {
    ghost use Rattle.std.specs.Prelude.{ℕ, List, ◌≡◌, length};

    ghost Value = { List ℕ };

    ghost view = { λ v. v.by_kind };

    ghost invariant = { λ v. length v.by_kind ≡ 3 };
}

impl Values {
    /// Each at its beginning.
    pub(crate) fn zero() -> Values
        ensures { result ≡ replicate 3 0 }
    {
        Values {
            by_kind: [0; KINDS],
        }
    }

    /// Puts the value of a kind at its beginning.
    pub(crate) fn start(&mut self, kind: u8)
        requires { kind ≤ 2 }
        ensures { self.new ≡ slice_set self.old kind 0 }
    {
        self.by_kind[kind as usize] = 0;
    }

    /// The value of a kind.
    pub(crate) fn of(&self, kind: u8) -> u64
        requires { kind ≤ 2 }
        ensures { result ≡ slice_index_or self.now kind 0 }
    {
        self.by_kind[kind as usize]
    }

    /// Takes each value through a change, by its subscriber.
    fn take<const ROWS: usize>(&mut self, subscribers: &Subscribers<ROWS>, change: Change)
        requires { IsInRange change }
        ensures values { self.new ≡ next_values 0 self.old change }
        ensures called { AreAnswersTo subscribers.now.rows.items 0 self.old change self.new }
    {
        let [v0, v1, v2] = self.by_kind;
        self.by_kind = [
            subscribers.tell(0, v0, change),
            subscribers.tell(1, v1, change),
            subscribers.tell(2, v2, change),
        ];
    }

    /// Reports the change of an event's status byte by a call at a place of the journal to each subscriber, if it changed.
    pub(crate) fn tell_event<const ROWS: usize>(
        &mut self,
        subscribers: &Subscribers<ROWS>,
        place: u32,
        event: u16,
        before: u8,
        after: u8,
    )
        ensures values { self.new ≡ fold (next_values 0) self.old (changes_from place event (before ∷ []) (after ∷ [])) }
        ensures called { AreTold subscribers.now self.old (changes_from place event (before ∷ []) (after ∷ [])) self.new }
    {
        if before != after {
            let change = Change {
                place,
                event,
                before,
                after,
            };
            self.take(subscribers, change);
        }
    }

    /// Reports each change of a call at a place of the journal to each subscriber, in the order of the events' numbers. The bytes are the
    /// status bytes before the call, and then those after it.
    pub(crate) fn tell_changes<const ROWS: usize>(
        &mut self,
        subscribers: &Subscribers<ROWS>,
        place: u32,
        bytes: &mut [u8],
        states: &[EventState],
    )
        requires one_each { length bytes.old ≡ length states.now }
        requires events { length bytes.old ≤ 65536 }
        ensures values { self.new ≡ fold (next_values 0) self.old (changes_from place 0 bytes.old (statuses states.now)) }
        ensures called { AreTold subscribers.now self.old (changes_from place 0 bytes.old (statuses states.now)) self.new }
        ensures noted { bytes.new ≡ statuses states.now }
    {
        for event in 0..bytes.len() {
            let after = states[event].status;
            self.tell_event(subscribers, place, event as u16, bytes[event], after);
            bytes[event] = after;
        }
    }
}
