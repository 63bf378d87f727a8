//! What the lanes of a life share, and the seats of each.
ghost use Rattle.std.specs.Prelude.{◌≡◌, OnErr};
ghost use Rattle.flt_dcm.specs.Unit.{IsAdmitted};
ghost use Rattle.flt_shared.specs.Call.{CallsInto};
ghost use Rattle.flt_lane.specs.Views.{IsOfLock, KnownLock, known_dem};

use arrayvec::ArrayVec;
use flt_config::ValidConfig;
use flt_model::RESPONSE;
use flt_queue::{QueueLock, QueueSeat};
use flt_shared::{DemLock, DemSeat, DemStart, Guarded, Op, ReplyKind};
use flt_turn::{Answer, HistoryFull, Machine, Seat, Turn};
use std::sync::Wait;

/// A lock over a status machine, as the lanes of a life use it, whatever else is under it.
pub trait StatusLock {
    /// What is under the lock.
    type Machine: Machine<Start = DemStart, Op = Op>;

    // What contracts see of the lock.
    ghost known: { Self → KnownLock };

    /// Makes a call when its turn comes. The answer has the kind of the reply, and the bytes of a response are written in place of what
    /// `response` holds. A call that is refused leaves `response` as it was.
    fn call_into<R: Wait>(
        &self,
        rt: &R,
        seat: &mut Seat<Self::Machine>,
        op: Op,
        response: &mut ArrayVec<u8, RESPONSE>,
    ) -> Result<Answer<ReplyKind>, HistoryFull<Op>>
        requires lock { IsOfLock (known self.now) seat.old }
        requires admitted { IsAdmitted seat.old.start.config op }
        ensures call { CallsInto seat.old seat.new op response.new result }
        ensures kept { OnErr result (response.new ≡ response.old) };

    /// The ticket lock, from which the seats are split, and to which they are joined.
    fn turn(&self) -> &Turn<Self::Machine>
        ensures { result.now ≡ (known self.now).turn };
}

impl StatusLock for DemLock {
    type Machine = Guarded;

    ghost known = { known_dem };

    #[inline(always)]
    fn call_into<R: Wait>(
        &self,
        rt: &R,
        seat: &mut DemSeat,
        op: Op,
        response: &mut ArrayVec<u8, RESPONSE>,
    ) -> Result<Answer<ReplyKind>, HistoryFull<Op>> {
        self.call_into(rt, seat, op, response)
    }

    fn turn(&self) -> &Turn<Guarded> {
        &self.turn
    }
}

/// What the lanes of a life share: a status machine under its lock, and the queue of write jobs under its own.
#[derive(Drop)]
pub struct LocksOf<L> {
    pub dem: L,
    pub queue: QueueLock,
}

/// The seats of a lane on the two locks. Those of lane 0 are the main seats.
#[derive(Drop)]
pub struct SeatsOf<S> {
    pub dem: S,
    pub queue: QueueSeat,
}

/// The locks of a life with a store.
pub type Locks = LocksOf<DemLock>;

/// The seats of a lane on them.
pub type Seats = SeatsOf<DemSeat>;

/// What all steps of a life have in common: the runtime on which they wait, the locks, the configuration, and the gate between whose
/// two calls each step is made.
#[derive(Drop)]
pub struct Common<'a, R, G, L> {
    pub rt: &'a R,
    pub locks: &'a LocksOf<L>,
    pub config: &'a ValidConfig,
    pub gate: &'a G,
}
