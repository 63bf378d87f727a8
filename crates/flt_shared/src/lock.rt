//! The lock, and its calls.
ghost use Rattle.std.specs.Prelude.{◌≡◌, ◌<◌, ◌≤◌, ◌+◌, ◌^◌, ◌∷◌, [], IfOk, IfErr, OnErr, All, length, reverse};
ghost use mathlib.Core.List.{IsPrefix};
ghost use Rattle.std.proofs.Props.{props};
ghost use Rattle.flt_model.specs.Durable.{saved_after};
ghost use Rattle.flt_model.specs.declared.call.Op.TheVariants as ops;
ghost use Rattle.flt_did.specs.Serves.{Serves};
ghost use Rattle.flt_did.specs.Table.{dids_of};
ghost use Rattle.flt_dcm.specs.Unit.{IsAdmitted, Stands};
ghost use Rattle.flt_turn.specs.Journal.{Interleaves, ops_of};
ghost use Rattle.flt_turn.specs.Seats.{main_seat, split_off, split_seat, joined_seat};
ghost use Rattle.flt_turn.specs.Call.{past};
ghost use Rattle.flt_shared.specs.Call.{Calls, CallsInto, ShowsStandard, no_response};
ghost use Rattle.flt_shared.specs.Start.{start_of};

use crate::guarded::{BoxedUnit, Guarded};
use arrayvec::ArrayVec;
use flt_config::{Config, Persist};
use flt_dcm::{Op, Reply, ReplyKind};
use flt_did::{DID_ROWS, DidTable};
use flt_model::{REQUEST, RESPONSE, Report};
use flt_turn::{Answer, Entry, HistoryFull, MachineBack, Seat, Turn, Vault};
use std::alloc::Global;
use std::snapshot::Snapshot;
use std::sync::Wait;

/// The right to call a locked status machine.
pub type DemSeat = Seat<Guarded>;

/// The answer to a call. At `Err` its seat has no call left, and nothing was changed: make the call on a seat that has calls left.
pub type DemAnswer = Result<Answer<Reply>, HistoryFull<Op>>;

/// What a lock leaves when it ends.
#[derive(Drop)]
pub struct DemEnd {
    /// All calls in their order, each with the number of its seat.
    pub journal: Vec<Entry<Op>>,
    pub unit: BoxedUnit,
}

/// The status machine for many lanes: its state is under the lock, and its table of data identifiers is beside it.
#[derive(Drop)]
pub struct DemLock {
    pub turn: Turn<Guarded>,
    pub dids: DidTable<DID_ROWS>,
    pub config: Snapshot<Config>,
    ghost served: { Serves (dids_of dids) config.value.events.items } by { Prim.hlevel props },
}

/// A copy of the bytes of a request, which takes no memory.
fn copy_of(bytes: &ArrayVec<u8, REQUEST>) -> ArrayVec<u8, REQUEST>
    ensures { result ≡ bytes.now }
{
    bytes.clone().unwrap()
}

impl DemLock {
    ghost use Rattle.flt_shared.specs.Boxed.{unit_in};
    ghost use Rattle.flt_shared.specs.Lock.{IsSeatOf};

    /// A lock over a unit that was started and took no call since, and its main seat, to which all calls are left. The lock takes
    /// `room` calls in all: their entries in the journal are reserved here, and no later call takes memory.
    ///
    /// At `Err` there was not enough memory: `MachineBack` has the unit as it was. Ask for fewer calls, or try when memory is free.
    pub fn make(
        alloc: Global,
        unit: BoxedUnit,
        room: u32,
    ) -> Result<(DemLock, DemSeat), MachineBack<BoxedUnit>>
        requires { Stands (start_of (unit_in unit)) [] (unit_in unit) }
        ensures ok { IfOk result (λ made. made.1 ≡ main_seat made.0.turn (start_of (unit_in unit)) room) }
        ensures lock { IfOk result (λ made. IsSeatOf made.0 made.1) }
        ensures err { IfErr result (λ back. (unit_in back.machine ≡ unit_in unit) × (dids_of back.machine.dids ≡ dids_of unit.dids)) }
    {
        let BoxedUnit { state, dids, .. } = unit;
        let config = Snapshot::of(state.config().config());
        match Turn::make(alloc, Guarded { state }, room) {
            Ok((turn, seat)) => Ok((DemLock { turn, dids, config }, seat)),
            Err(MachineBack { machine }) => {
                let Guarded { state } = machine;
                Err(MachineBack {
                    machine: BoxedUnit { state, dids },
                })
            }
        }
    }

    /// Makes a call when its turn comes. The answer has the kind of the reply, and the bytes of a response are written in place of what
    /// `response` holds, so that no reply of `RESPONSE` bytes is moved. Where the answer is no response, `response` holds anything. A
    /// snapshot writes nothing here.
    #[inline(always)]
    pub fn call_into<R: Wait>(
        &self,
        rt: &R,
        seat: &mut DemSeat,
        op: Op,
        response: &mut ArrayVec<u8, RESPONSE>,
    ) -> Result<Answer<ReplyKind>, HistoryFull<Op>>
        requires lock { IsSeatOf self.now seat.old }
        requires admitted { IsAdmitted seat.old.start.config op }
        ensures call { CallsInto seat.old seat.new op response.new result }
        ensures kept { OnErr result (response.new ≡ response.old) }
    {
        self.turn.call(rt, seat, &self.dids, op, response)
    }

    /// Makes a call as `call_into` does, with the bytes of a response in the answer.
    fn call<R: Wait>(&self, rt: &R, seat: &mut DemSeat, op: Op) -> DemAnswer
        requires lock { IsSeatOf self.now seat.old }
        requires admitted { IsAdmitted seat.old.start.config op }
        ensures { Calls seat.old seat.new op result }
    {
        let mut response = ArrayVec::new();
        let Answer { place, reply } = self.call_into(rt, seat, op, &mut response)?;
        Ok(Answer {
            place,
            reply: reply.with(response),
        })
    }

    /// Sets a signal, of the number 0 to 7.
    pub fn signal<R: Wait>(&self, rt: &R, seat: &mut DemSeat, index: u8, value: u16) -> DemAnswer
        requires lock { IsSeatOf self.now seat.old }
        requires signal { index < 8 }
        ensures { Calls seat.old seat.new (ops.Signal index value) result }
    {
        self.call(rt, seat, Op::Signal { index, value })
    }

    /// Notes whether an enable condition, of the number 0 to 7, is fulfilled.
    pub fn enable<R: Wait>(
        &self,
        rt: &R,
        seat: &mut DemSeat,
        condition: u8,
        fulfilled: bool,
    ) -> DemAnswer
        requires lock { IsSeatOf self.now seat.old }
        requires condition { condition < 8 }
        ensures { Calls seat.old seat.new (ops.Enable condition fulfilled) result }
    {
        self.call(
            rt,
            seat,
            Op::Enable {
                condition,
                fulfilled,
            },
        )
    }

    /// Reports an event's result.
    pub fn report<R: Wait>(
        &self,
        rt: &R,
        seat: &mut DemSeat,
        event: u16,
        report: Report,
    ) -> DemAnswer
        requires lock { IsSeatOf self.now seat.old }
        requires event { event < length seat.old.start.config.events.items }
        ensures { Calls seat.old seat.new (ops.Report event report) result }
    {
        self.call(rt, seat, Op::Report { event, report })
    }

    /// Lets ticks of 10 ms go by.
    pub fn tick<R: Wait>(&self, rt: &R, seat: &mut DemSeat, ticks: u16) -> DemAnswer
        requires lock { IsSeatOf self.now seat.old }
        ensures { Calls seat.old seat.new (ops.Tick ticks) result }
    {
        self.call(rt, seat, Op::Tick { ticks })
    }

    /// Ends an operation cycle, of the number 0 to 3, and starts the next.
    pub fn cycle<R: Wait>(&self, rt: &R, seat: &mut DemSeat, cycle: u8) -> DemAnswer
        requires lock { IsSeatOf self.now seat.old }
        requires cycle { cycle < 4 }
        ensures { Calls seat.old seat.new (ops.Cycle cycle) result }
    {
        self.call(rt, seat, Op::Cycle { cycle })
    }

    /// Sends a request of a tester, of the number 0 to 3.
    pub fn request<R: Wait>(
        &self,
        rt: &R,
        seat: &mut DemSeat,
        tester: u8,
        bytes: &ArrayVec<u8, REQUEST>,
    ) -> DemAnswer
        requires lock { IsSeatOf self.now seat.old }
        requires tester { tester < 4 }
        requires some { 0 < length bytes.now.items }
        ensures { Calls seat.old seat.new (ops.Request tester bytes.now) result }
    {
        let bytes = copy_of(bytes);
        self.call(rt, seat, Op::Request { tester, bytes })
    }

    /// Asks for the state of an event.
    pub fn show<R: Wait>(&self, rt: &R, seat: &mut DemSeat, event: u16) -> DemAnswer
        requires lock { IsSeatOf self.now seat.old }
        requires event { event < length seat.old.start.config.events.items }
        ensures call { Calls seat.old seat.new (ops.Show event) result }
        ensures standard { IfOk result (λ told. ShowsStandard seat.old.start (past told.place seat.new.seen) event told.reply) }
    {
        self.call(rt, seat, Op::Show { event })
    }

    /// Takes a snapshot: writes the durable state to `out`, in place of what it holds. The answer has only the kind of the reply.
    #[inline(always)]
    pub fn snapshot_into<R: Wait>(
        &self,
        rt: &R,
        seat: &mut DemSeat,
        out: &mut Persist,
    ) -> Result<Answer<ReplyKind>, HistoryFull<Op>>
        requires lock { IsSeatOf self.now seat.old }
        ensures call { CallsInto seat.old seat.new ops.Snapshot no_response result }
        ensures kept { OnErr result (out.new ≡ out.old) }
        ensures state { IfOk result (λ told. out.new ≡ saved_after seat.old.start (past told.place seat.new.seen)) }
    {
        self.turn.call(rt, seat, &self.dids, Op::Snapshot, out)
    }

    /// Writes the durable state to `out`.
    pub fn snapshot<R: Wait>(&self, rt: &R, seat: &mut DemSeat, out: &mut Persist) -> DemAnswer
        requires lock { IsSeatOf self.now seat.old }
        ensures call { Calls seat.old seat.new ops.Snapshot result }
        ensures kept { OnErr result (out.new ≡ out.old) }
        ensures state { IfOk result (λ told. out.new ≡ saved_after seat.old.start (past told.place seat.new.seen)) }
    {
        let Answer { place, reply } = self.snapshot_into(rt, seat, out)?;
        Ok(Answer {
            place,
            reply: reply.with(ArrayVec::new()),
        })
    }

    /// Notes that a durable state was saved under this number.
    pub fn saved<R: Wait>(&self, rt: &R, seat: &mut DemSeat, generation: u32) -> DemAnswer
        requires lock { IsSeatOf self.now seat.old }
        ensures { Calls seat.old seat.new (ops.Saved generation) result }
    {
        self.call(rt, seat, Op::Saved { generation })
    }

    /// Splits a seat from the main seat, with this many of its calls.
    pub fn split(&self, main: &mut DemSeat, calls: u32) -> DemSeat
        requires lock { IsSeatOf self.now main.old }
        requires main { main.old.number ≡ 0 }
        requires calls { calls ≤ main.old.left }
        requires children { main.old.children + 1 < 2 ^ 32 }
        ensures main { main.new ≡ split_off calls main.old }
        ensures seat { result ≡ split_seat calls main.old }
    {
        self.turn.split(main, calls)
    }

    /// Takes a seat back into the main seat, with the calls that are left to it and all that it knows.
    pub fn join(&self, main: &mut DemSeat, other: DemSeat)
        requires lock { IsSeatOf self.now main.old × IsSeatOf self.now other }
        requires main { main.old.number ≡ 0 }
        ensures { main.new ≡ joined_seat main.old other }
    {
        self.turn.join(main, other)
    }

    /// Ends the lock, once each seat that was split from the main seat was joined. The unit comes back with the whole journal, which
    /// has the calls of all seats and no others.
    pub fn close(self, main: DemSeat) -> DemEnd
        requires lock { IsSeatOf self main }
        requires main { main.number ≡ 0 }
        requires whole { length main.ended ≡ main.children }
        ensures seen { IsPrefix main.seen result.journal.items }
        ensures olds { All (λ old. IsPrefix old result.journal.items) main.olds }
        ensures calls { Interleaves result.journal.items ((main.number, main.mine) ∷ main.ended) }
        ensures admitted { All (λ entry. IsAdmitted main.start.config entry.op) result.journal.items }
        ensures start { start_of (unit_in result.unit) ≡ main.start }
        ensures dids { dids_of result.unit.dids ≡ dids_of self.dids }
        ensures stands { ∥ Stands main.start (reverse (ops_of result.journal.items)) (unit_in result.unit) ∥₁ }
    {
        let DemLock {
            turn,
            dids,
            config: _,
        } = self;
        let Vault { journal, machine } = turn.close(main);
        let Guarded { state } = machine;
        let unit = BoxedUnit { state, dids };
        DemEnd { journal, unit }
    }
}
