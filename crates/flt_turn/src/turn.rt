//! The lock, and its calls.
ghost use Rattle.std.specs.Prelude.{◌≡◌, ◌≢◌, [], ◌∷◌, ◌++◌, ◌<◌, ◌≤◌, ◌+◌, ◌^◌, IfOk, IfErr, OnErr, All, Some, None, length};
ghost use mathlib.Core.List.{IsPrefix};
ghost use Rattle.flt_turn.specs.declared.view.Stage.TheVariants.{Idle};
ghost use Rattle.flt_turn.specs.Call.{Calls, IsCall, whole};
ghost use Rattle.flt_turn.specs.Journal.{entry, ops_of, Interleaves};
ghost use Rattle.flt_turn.specs.Plays.{IsTakenOut, IsTurn};
ghost use Rattle.flt_turn.specs.Seats.{IsSeatOf, main_seat, Extends, ops_before, split_off, split_seat, joined_seat};
ghost use Rattle.flt_turn.specs.Views.{drawn, turned, done, parent, child};

use crate::answer::{Answer, HistoryFull, MachineBack};
use crate::machine::{Machine, Stepper};
use crate::rule::{Count, Cut, Draw, Look, Merge, Order, Serve, Share, Terms};
use crate::seat::Seat;
use crate::vault::Vault;
use crate::view::View;
use atomic_table::{Refused, Table};
use std::alloc::Global;
use std::marker::{Brand, Model};
use std::snapshot::Snapshot;
use std::sync::Wait;
use std::thread::yield_now;

/// The words of the table: the ticket that is drawn next, and the ticket that is served.
const NEXT: usize = 0;

const SERVED: usize = 1;

/// How often a waiting call yields the processor before it sleeps.
const YIELDS: u32 = 64;

type Token<M> = atomic_table::Seat<
    Option<Vault<M>>,
    View<<M as Machine>::Start, <M as Machine>::Op>,
>;

/// A machine under a lock, which serves its callers in the order of their tickets. Contracts see a lock as its identity, which
/// each of its seats names.
#[derive(Drop)]
pub struct Turn<M: Machine> {
    table: Table<Option<Vault<M>>, View<M::Start, M::Op>, Terms<M>, Order<M>, Global>,
}

impl<M: Machine> Model for Turn<M> {
    ghost use Rattle.std.specs.Prelude.{◌≡◌};
    ghost use Rattle.atomic_table.specs.Seated.{TableId};

    ghost Value = { TableId };

    ghost view = { λ turn. turn.table.shared.table_id };

    ghost invariant = { λ turn. (turn.table.shared.table_id.words ≡ 2) × (turn.table.shared.table_id.slots ≡ 1) };
}

impl<M: Machine> Turn<M> {
    /// A lock over a machine that took no operation yet, and its main seat, which has all calls. `room` is the number of calls
    /// that the lock takes in all: their entries in the journal are reserved here, and no later call allocates memory.
    ///
    /// At `Err` there was not enough memory: `MachineBack` has the machine as it was. Ask for fewer calls, or try when memory is free.
    pub fn make(alloc: Global, machine: M, room: u32) -> Result<(Turn<M>, Seat<M>), MachineBack<M>>
        requires { M.stands_for machine (M.start machine) [] }
        ensures ok { IfOk result (λ made. made.1 ≡ main_seat made.0 (M.start machine) room) }
        ensures err { IfErr result (λ back. back.machine ≡ machine) }
    {
        let terms = Terms {
            machine: Snapshot::of(&machine),
            room,
        };
        let Ok(journal) = Vec::with_capacity(alloc, room as usize) else {
            return Err(MachineBack { machine });
        };
        let Ok(mut slots) = Vec::with_capacity(alloc, 1) else {
            journal.destroy_empty();
            return Err(MachineBack { machine });
        };
        slots.push_reserved(Some(Vault { journal, machine }));
        match Table::new(alloc, &[0, 0], slots, &terms) {
            Ok((table, token)) => {
                let seat = Seat {
                    number: 0,
                    left: room,
                    children: 0,
                    waiting: 0,
                    token,
                };
                Ok((Turn { table }, seat))
            }
            Err(Refused { mut slots }) => {
                let Some(Some(vault)) = slots.pop() else {
                    unreachable!()
                };
                slots.destroy_empty();
                let Vault { journal, machine } = vault;
                journal.destroy_empty();
                Err(MachineBack { machine })
            }
        }
    }

    /// Makes a call when its turn comes: after all calls that drew their tickets before, and before all later ones. It allocates no
    /// memory. What the operation writes is written to `out`.
    ///
    /// The answer is the machine's after the operations before the call's place in the journal. At `Err`, if and only if the seat
    /// has no call left, nothing was changed, and `HistoryFull` has the operation: make the call on a seat that has calls left, or end
    /// the lock and make one with more room.
    #[inline(always)]
    pub fn call<R: Wait, W>(
        &self,
        rt: &R,
        seat: &mut Seat<M>,
        context: &M::Context,
        op: M::Op,
        out: &mut W,
    ) -> Result<Answer<M::Kind>, HistoryFull<M::Op>>
    where
        M: Stepper<W>,
        requires lock { IsSeatOf self.now seat.old }
        requires serves { M.Stepper.serves context.now seat.old.start }
        requires admitted { M.admits seat.old.start op }
        requires suits { M.Stepper.suits op }

        ensures call { Calls (λ told. IsCall M.admits M.Stepper.answer seat.old seat.new op (whole M.Stepper.whole told out.new))
            seat.old seat.new op result }
        ensures kept { OnErr result (out.new ≡ out.old) }
    {
        if seat.left == 0 {
            return Err(HistoryFull { op });
        }
        let (place, mut vault) = self.take_turn(rt, &mut seat.token);
        let reply = vault.apply(context, seat.number, op, out);
        self.end_turn(&mut seat.token, vault, place);
        seat.left -= 1;
        Ok(Answer { place, reply })
    }

    /// Waits a while for a moment at which no ticket is out, so that a short turn of another lane does not make this one wait in line.
    #[inline(always)]
    fn await_free(&self) {
        let shared = &self.table.shared;
        if shared.peek(NEXT) > shared.peek(SERVED) {
            self.yield_until_free();
        }
    }

    /// Yields the processor until no ticket is out, but not for long.
    #[cold]
    #[inline(never)]
    fn yield_until_free(&self) {
        let shared = &self.table.shared;
        for _ in 0..YIELDS {
            yield_now();
            if shared.peek(NEXT) <= shared.peek(SERVED) {
                return;
            }
        }
    }

    /// Draws a ticket, waits until it is served, and takes the vault out of its slot. The ticket is the call's place.
    #[inline(always)]
    fn take_turn<R: Wait>(&self, rt: &R, token: &mut Token<M>) -> (u32, Vault<M>)
        requires lock { token.old.table_id ≡ self.now }
        requires idle { (token.old.me.0.stage ≡ Idle) × (token.old.me.1 ≡ []) }
        requires left { 0 < token.old.me.0.left }
        ensures lock { (token.new.table_id ≡ token.old.table_id) × (token.new.id ≡ token.old.id) }
        ensures turn { token.new.me ≡ (turned result.0 result.1.journal.items (drawn result.0 token.old.me.0), (0, None) ∷ []) }
        ensures found { IsTakenOut result.0 (drawn result.0 token.old.me.0) result.1 }
    {
        self.await_free();
        let shared = &self.table.shared;
        let ticket = shared.fetch_add::<Draw>(token, NEXT, 1);
        let mut yields = YIELDS;
        for _ in rt.forever() {
            let served = shared.load::<Look<M>>(token, SERVED);
            if served == ticket {
                let vault = shared.exchange(token, 0, None).unwrap();
                return (ticket as u32, vault);
            }
            if yields > 0 {
                yields -= 1;
                yield_now();
            } else {
                shared.park(rt, SERVED, (served % (1 << 32)) as u32);
            }
        }
        unreachable!()
    }

    /// Puts the vault back, with one more call in its journal, and passes the turn on. It wakes those who sleep until a ticket after
    /// this place is served, if there may be one.
    #[inline(always)]
    fn end_turn(&self, token: &mut Token<M>, vault: Vault<M>, place: u32)
        requires lock { token.old.table_id ≡ self.now }
        requires held { token.old.me.1 ≡ (0, None) ∷ [] }
        requires turn { IsTurn token.old.me.0 vault }
        ensures lock { (token.new.table_id ≡ token.old.table_id) × (token.new.id ≡ token.old.id) }
        ensures done { (op : M.Op) → vault.journal.items ≡ token.old.me.0.seen ++ entry token.old.me.0.number op ∷ []
            → token.new.me ≡ (done vault.journal.items op token.old.me.0, []) }
    {
        let shared = &self.table.shared;
        let empty = shared.exchange(token, 0, Some(vault));
        let None = empty else { unreachable!() };
        shared.fetch_add::<Serve>(token, SERVED, 1);
        if shared.peek(NEXT) > u64::from(place) + 1 {
            shared.wake_all(SERVED);
        }
    }

    /// Splits a seat from the main seat, with this many of its calls. The new seat knows what the main seat knows, and may move to
    /// another thread.
    pub fn split(&self, main: &mut Seat<M>, calls: u32) -> Seat<M>
        requires lock { IsSeatOf self.now main.old }
        requires main { main.old.number ≡ 0 }
        requires calls { calls ≤ main.old.left }
        requires children { main.old.children + 1 < 2 ^ 32 }
        ensures main { main.new ≡ split_off calls main.old }
        ensures seat { result ≡ split_seat calls main.old }
    {
        let token = self.cut::<Brand>(&mut main.token, calls);
        main.left -= calls;
        main.children += 1;
        main.waiting += 1;
        Seat {
            number: main.children,
            left: calls,
            children: 0,
            waiting: 0,
            token,
        }
    }

    fn cut<J: Share>(&self, token: &mut Token<M>, calls: u32) -> Token<M>
        requires share { J.calls ≡ calls }
        requires lock { token.old.table_id ≡ self.now }
        requires idle { (token.old.me.0.stage ≡ Idle) × (token.old.me.1 ≡ []) }
        requires main { (token.old.me.0.number ≡ 0) × (calls ≤ token.old.me.0.left) }
        ensures main { (token.new.table_id ≡ token.old.table_id) × (token.new.me ≡ (parent calls token.old.me.0, [])) }
        ensures seat { (result.table_id ≡ token.old.table_id) × (result.me ≡ (child calls token.old.me.0, [])) }
    {
        self.table.shared.split_seat::<Cut<J>>(token)
    }

    /// Takes a seat back into the main seat, with the calls that it has left and all that it knows.
    pub fn join(&self, main: &mut Seat<M>, other: Seat<M>)
        requires lock { IsSeatOf self.now main.old × IsSeatOf self.now other }
        requires main { main.old.number ≡ 0 }
        ensures { main.new ≡ joined_seat main.old other }
    {
        let Seat {
            number: _,
            left,
            children: _,
            waiting: _,
            token,
        } = other;
        let shared = &self.table.shared;
        shared.join_seat::<Merge<M>>(&mut main.token, token);
        shared.load::<Count>(&mut main.token, NEXT);
        main.left += left;
        main.waiting -= 1;
    }

    /// Ends the lock, once each seat that was split from the main seat was joined: `waiting` is 0. It gives back the vault with the
    /// whole journal, which has the calls of all seats and no others.
    pub fn close(self, main: Seat<M>) -> Vault<M>
        requires lock { IsSeatOf self main }
        requires main { main.number ≡ 0 }
        requires whole { length main.ended ≡ main.children }
        ensures seen { IsPrefix main.seen result.journal.items }
        ensures olds { All (λ old. IsPrefix old result.journal.items) main.olds }
        ensures calls { Interleaves result.journal.items ((main.number, main.mine) ∷ main.ended) }
        ensures admitted { All (λ entry. M.admits main.start entry.op) result.journal.items }
        ensures start { M.start result.machine ≡ main.start }
        ensures stands { ∥ M.stands_for result.machine main.start (ops_of result.journal.items) ∥₁ }
    {
        let Turn { table } = self;
        let Seat {
            number: _,
            left: _,
            children: _,
            waiting: _,
            token,
        } = main;
        let mut closed = table.close_with(token);
        let vault = closed.take(0).unwrap();
        closed.free();
        vault
    }
}
