//! The watched status machine under the ticket lock.
ghost use Rattle.std.specs.Prelude.{◌≡◌, ◌∷◌, [], IfOk, All, length, reverse};
ghost use mathlib.Core.List.{IsPrefix};
ghost use Rattle.std.proofs.Props.{props};
ghost use Rattle.flt_did.specs.Serves.{Serves};
ghost use Rattle.flt_did.specs.Table.{dids_of};
ghost use Rattle.flt_dcm.specs.Unit.{Stands};
ghost use Rattle.flt_turn.specs.Journal.{Interleaves, ops_of};
ghost use Rattle.flt_turn.specs.Seats.{main_seat};
ghost use Rattle.flt_shared.specs.Boxed.{unit_in};
ghost use Rattle.flt_shared.specs.Start.{start_of};
ghost use Rattle.flt_lane.specs.Views.{IsOfLock};
ghost use Rattle.flt_notify.specs.Subscribers.{kinds_of};
ghost use Rattle.flt_notify.specs.Table.{HasValuesOf, IsAtZero, kinds_in};

use arrayvec::ArrayVec;
use flt_config::Config;
use flt_lane::StatusLock;
use flt_model::RESPONSE;
use flt_notify::{KINDS, Lent, SubTable, Watched};
use flt_shared::{BoxedUnit, Op, ReplyKind};
use flt_turn::{Answer, Entry, HistoryFull, Seat, Turn, Vault};
use std::alloc::{AllocError, Global};
use std::snapshot::Snapshot;
use std::sync::Wait;

/// The right to call a watched machine under its lock.
pub type WatchSeat = Seat<Watched>;

/// What a lock leaves when it ends.
#[derive(Drop)]
pub struct WatchEnd {
    /// All calls in their order, each with the number of its seat.
    pub journal: Vec<Entry<Op>>,
    /// The subscribers, with the values that the calls gave them.
    pub subs: SubTable<KINDS>,
}

/// The watched machine for many lanes: its state, with the values of the subscribers, is under the lock, and the functions that it calls
/// are kept beside it.
#[derive(Drop)]
pub struct WatchLock {
    pub turn: Turn<Watched>,
    pub lent: Lent,
    pub config: Snapshot<Config>,
    ghost served: { Serves (dids_of lent.dids) config.value.events.items } by { Prim.hlevel props },
}

impl WatchLock {
    ghost use Rattle.flt_watch.specs.NoStore.{known_watch};

    /// A lock over a unit that was started and took no call since, with these subscribers, each at 0, and its main seat, to which all
    /// calls are left: `room` calls in all, for which memory is taken here.
    pub fn make(
        alloc: Global,
        unit: BoxedUnit,
        subs: SubTable<KINDS>,
        room: u32,
    ) -> Result<(WatchLock, WatchSeat), AllocError>
        requires started { Stands (start_of (unit_in unit)) [] (unit_in unit) }
        requires zero { IsAtZero subs }
        ensures ok { IfOk result (λ made. made.1 ≡ main_seat made.0.turn (start_of (unit_in unit)) room) }
        ensures lock { IfOk result (λ made. IsOfLock (known_watch made.0) made.1) }
        ensures kinds { IfOk result (λ made. kinds_of made.0.lent.subscribers ≡ kinds_in subs) }
    {
        let config = Snapshot::of(unit.state.config().config());
        let (watched, lent) = Watched::make(alloc, unit, subs)?;
        let (turn, seat) = Turn::make(alloc, watched, room)?;
        Ok((WatchLock { turn, lent, config }, seat))
    }

    /// Ends the lock, once each seat that was split from the main seat was joined. The subscribers come back with the whole journal,
    /// and each has the value that the changes of its calls give.
    pub fn close(self, main: WatchSeat) -> WatchEnd
        requires lock { IsOfLock (known_watch self) main }
        requires main { main.number ≡ 0 }
        requires whole { length main.ended ≡ main.children }
        ensures seen { IsPrefix main.seen result.journal.items }
        ensures olds { All (λ old. IsPrefix old result.journal.items) main.olds }
        ensures calls { Interleaves result.journal.items ((main.number, main.mine) ∷ main.ended) }
        ensures kinds { kinds_in result.subs ≡ kinds_of self.lent.subscribers }
        ensures values { HasValuesOf main.start (reverse (ops_of result.journal.items)) result.subs }
    {
        let WatchLock {
            turn,
            lent,
            config: _,
        } = self;
        let Vault { journal, machine } = turn.close(main);
        let (_unit, subs) = machine.into_parts(lent);
        WatchEnd { journal, subs }
    }
}

impl StatusLock for WatchLock {
    ghost use Rattle.flt_watch.specs.NoStore.{known_watch};

    type Machine = Watched;

    ghost known = { known_watch };

    /// Makes a call when its turn comes, and calls each subscriber with the changes that it makes.
    #[inline(always)]
    fn call_into<R: Wait>(
        &self,
        rt: &R,
        seat: &mut WatchSeat,
        op: Op,
        response: &mut ArrayVec<u8, RESPONSE>,
    ) -> Result<Answer<ReplyKind>, HistoryFull<Op>> {
        self.turn.call(rt, seat, &self.lent, op, response)
    }

    fn turn(&self) -> &Turn<Watched> {
        &self.turn
    }
}
