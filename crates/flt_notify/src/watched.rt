//! The status machine with the values of its subscribers, as it lies under the lock.
ghost use Rattle.std.specs.Prelude.{◌≡◌, ◌≤◌, ◌^◌, ◌-◌, ◌+◌, [], ◌∷◌, ◌↔◌, IfOk, IsTrue, IsFalse, min, length, map, reverse, false, true};
ghost use Rattle.flt_model.specs.Byte.{is_bit_set};
ghost use Rattle.flt_model.specs.Start.{Start, History};
ghost use Rattle.flt_did.specs.Serves.{Serves};
ghost use Rattle.flt_did.specs.Table.{dids_of};
ghost use Rattle.flt_dcm.specs.Unit.{IsAdmitted, Stands};
ghost use Rattle.flt_shared.specs.Boxed.{config_in, unit_in};
ghost use Rattle.flt_shared.specs.Call.{MayBeAsked, reply_after, with_response};
ghost use Rattle.flt_shared.specs.Start.{some_start, start_of};
ghost use Rattle.flt_notify.specs.Changes.{MarksNone, statuses, statuses_after};
ghost use Rattle.flt_notify.specs.Subscribers.{TellsCall, kinds_of};
ghost use Rattle.flt_notify.specs.Table.{HasValuesOf, IsAtZero, kinds_in, values_in};

use crate::kinds::KINDS;
use crate::subscribers::Subscribers;
use crate::table::SubTable;
use crate::values::Values;
use arrayvec::ArrayVec;
use flt_config::{EVENTS, EventState};
use flt_did::{DID_ROWS, DidTable};
use flt_model::RESPONSE;
use flt_shared::{BoxedUnit, DemStart, Guarded, Op, Reply, ReplyKind};
use flt_turn::{Machine, Stepper};
use std::alloc::{AllocError, Global};

/// What is lent to each step of a watched machine: the functions that it calls, which are only read.
#[derive(Drop)]
pub struct Lent {
    /// The table of data identifiers.
    pub dids: DidTable<DID_ROWS>,
    /// The functions of the subscribers.
    pub subscribers: Subscribers<KINDS>,
}

/// The status machine without its functions, and the values of the subscribers: each change of a status byte is reported in the step that
/// makes it.
#[derive(Drop)]
pub struct Watched {
    guarded: Guarded,
    values: Values,
    /// The status byte of each event after the last call, by number.
    statuses: Box<ArrayVec<u8, EVENTS>>,
    calls: u32,
    ghost one_each: { length statuses.value.items ≡ length guarded.state.value.dem.durable.config.events.items },
}

/// The status bytes of events, by number.
fn statuses_of(states: &[EventState]) -> ArrayVec<u8, EVENTS>
    requires { length states.now ≤ EVENTS }
    ensures { result.items ≡ statuses states.now }
{
    let mut bytes = ArrayVec::new();
    for state in states {
        bytes.push(state.status);
    }
    bytes
}

/// Whether an event's last test failed, and did not before, by its status bytes (ISO 14229-1, DTC status bit 0).
fn has_entered(before: u8, after: u8) -> bool
    ensures { IsTrue result ↔ (is_bit_set before 0 ≡ false) × (is_bit_set after 0 ≡ true) }
{
    before % 2 == 0 && after % 2 == 1
}

/// Whether something may happen to an event in a call.
fn may_mark(op: &Op) -> bool
    ensures { IsFalse result → MarksNone op.now }
{
    matches!(
        op,
        Op::Report { .. } | Op::Tick { .. } | Op::Cycle { .. } | Op::Request { .. }
    )
}

impl Watched {
    ghost use Rattle.flt_notify.specs.Watched.{Watches, bytes_now, values_now, watched_unit};

    /// A machine with the unit and these subscribers, which took no call yet, and what is to be lent to its steps. At `Err` there was not
    /// enough memory, and unit and subscribers are dropped: make them again when memory is free.
    pub fn make(
        alloc: Global,
        unit: BoxedUnit,
        subs: SubTable<KINDS>,
    ) -> Result<(Watched, Lent), AllocError>
        requires started { Stands (start_of (unit_in unit)) [] (unit_in unit) }
        requires zero { IsAtZero subs }
        ensures start { IfOk result (λ made. start_of (watched_unit made.0) ≡ start_of (unit_in unit)) }
        ensures stands { IfOk result (λ made. Watches (start_of (unit_in unit)) [] made.0) }
        ensures dids { IfOk result (λ made. dids_of made.1.dids ≡ dids_of unit.dids) }
        ensures subs { IfOk result (λ made. kinds_of made.1.subscribers ≡ kinds_in subs) }
    {
        let statuses = Box::new(alloc, statuses_of(unit.state.states()))?;
        let BoxedUnit { state, dids, .. } = unit;
        let SubTable {
            subscribers,
            values,
        } = subs;
        let watched = Watched {
            guarded: Guarded { state },
            values,
            statuses,
            calls: 0,
        };
        Ok((watched, Lent { dids, subscribers }))
    }

    /// The unit and the table of subscribers, with their values.
    pub fn into_parts(self, lent: Lent) -> (BoxedUnit, SubTable<KINDS>)
        requires served { Serves (dids_of lent.dids) (watched_unit self).dem.durable.config.events.items }
        ensures unit { unit_in result.0 ≡ watched_unit self }
        ensures dids { dids_of result.0.dids ≡ dids_of lent.dids }
        ensures subs { kinds_in result.1 ≡ kinds_of lent.subscribers }
        ensures values { values_in result.1 ≡ values_now self }
        ensures told { (life : Start) (past : History) → Watches life past self → HasValuesOf life past result.1 }
    {
        let Watched {
            guarded,
            values,
            statuses: _,
            calls: _,
        } = self;
        let Lent { dids, subscribers } = lent;
        let Guarded { state } = guarded;
        let unit = BoxedUnit { state, dids };
        (
            unit,
            SubTable {
                subscribers,
                values,
            },
        )
    }

    /// Reports the changes that a call made of the status bytes, and notes the bytes after it. It looks at the bytes that the call may
    /// change: at none, or at that of a report's event. If that event failed now and not before, it may have displaced another one, so all are
    /// looked at, as they are at the other calls.
    fn tell_changes(&mut self, subscribers: &Subscribers<KINDS>, op: &Op)
        requires admitted { IsAdmitted (watched_unit self.old).dem.durable.config op.now }
        ensures unit { self.new.guarded ≡ self.old.guarded }
        ensures calls { self.new.calls ≡ self.old.calls }
        ensures reports { (life : Start) (past : History) → bytes_now self.old ≡ statuses_after life past → Stands life (op.now ∷ past) (watched_unit self.old)
            → TellsCall subscribers.now life past op.now self.old.calls self.old.values self.new.values (bytes_now self.new) }
    {
        let states = self.guarded.state.states();
        let bytes = self.statuses.as_mut_slice();
        if let Op::Report { event, .. } = op {
            let place = usize::from(*event);
            let before = bytes[place];
            let after = states[place].status;
            if !has_entered(before, after) {
                self.values
                    .tell_event(subscribers, self.calls, *event, before, after);
                bytes[place] = after;
                return;
            }
        } else if !may_mark(op) {
            return;
        }
        self.values
            .tell_changes(subscribers, self.calls, bytes, states);
    }

    /// Ends the step of a call: reports its changes, and counts it.
    fn tell(&mut self, subscribers: &Subscribers<KINDS>, op: &Op)
        requires admitted { IsAdmitted (watched_unit self.old).dem.durable.config op.now }
        ensures unit { self.new.guarded ≡ self.old.guarded }
        ensures calls { self.new.calls ≡ min (self.old.calls + 1) (2 ^ 32 - 1) }
        ensures reports { (life : Start) (past : History) → bytes_now self.old ≡ statuses_after life past → Stands life (op.now ∷ past) (watched_unit self.old)
            → TellsCall subscribers.now life past op.now self.old.calls self.old.values self.new.values (bytes_now self.new) }
    {
        self.tell_changes(subscribers, op);
        self.calls = self.calls.saturating_add(1);
    }
}

impl Machine for Watched {
    ghost use Rattle.flt_notify.specs.Watched.{Watches, watched_unit};

    type Start = DemStart;

    type Op = Op;

    ghost some_start = { some_start };

    ghost start = { λ watched. start_of (watched_unit watched) };

    ghost admits = { MayBeAsked };

    ghost stands_for = { λ watched start ops. Watches start (reverse ops) watched };
}

impl Stepper<ArrayVec<u8, RESPONSE>> for Watched {
    type Context = Lent;

    type Kind = ReplyKind;

    type Whole = Reply;

    ghost serves = { λ lent start. Serves (dids_of lent.dids) start.config.events.items };

    ghost suits = { λ _. Unit {0} };

    ghost whole = { with_response };

    ghost answer = { reply_after };

    fn step(&mut self, lent: &Lent, op: &Op, response: &mut ArrayVec<u8, RESPONSE>) -> ReplyKind {
        let kind = self.guarded.step(&lent.dids, op, response);
        self.tell(&lent.subscribers, op);
        kind
    }
}
