//! The status machine, as it goes from life to life, and as it lies under the lock.
ghost use Rattle.std.specs.Prelude.{◌≡◌, [], IfOk, reverse};
ghost use Rattle.std.proofs.Props.{props};
ghost use Rattle.flt_config.specs.Durable.{Fits};
ghost use Rattle.flt_model.specs.Start.{fresh};
ghost use Rattle.flt_did.specs.Serves.{Serves};
ghost use Rattle.flt_did.specs.Table.{dids_of};
ghost use Rattle.flt_model.specs.declared.call.Op.TheVariants as ops;
ghost use Rattle.flt_dcm.specs.Unit.{Stands};
ghost use Rattle.flt_shared.specs.Call.{MayBeAsked, reply_after, taken_after, with_response};
ghost use Rattle.flt_shared.specs.Start.{some_start, start_of};

use arrayvec::ArrayVec;
use flt_config::{Persist, ValidConfig};
use flt_dcm::{DemStart, Op, Reply, ReplyKind, UnitState};
use flt_dem::DemState;
use flt_did::{DID_ROWS, DidTable};
use flt_model::RESPONSE;
use flt_turn::{Machine, Stepper};
use std::alloc::{AllocError, Global};

/// A unit whose state is boxed, so that it is moved at little cost.
#[derive(Drop)]
pub struct BoxedUnit {
    /// The unit without the functions of its table.
    pub state: Box<UnitState>,
    /// The table of data identifiers.
    pub dids: DidTable<DID_ROWS>,
    ghost served: { Serves (dids_of dids) state.value.dem.durable.config.events.items } by { Prim.hlevel props },
}

impl BoxedUnit {
    ghost use Rattle.flt_shared.specs.Boxed.{config_in, unit_in};

    /// A unit of a copy of this configuration, with nothing saved, to which no call was made, in the box in which it stays.
    pub fn make(
        alloc: Global,
        config: &ValidConfig,
        dids: DidTable<DID_ROWS>,
    ) -> Result<BoxedUnit, AllocError>
        requires { Serves (dids_of dids) config.now.events.items }
        ensures config { IfOk result (λ boxed. config_in boxed ≡ config.now) }
        ensures dids { IfOk result (λ boxed. dids_of boxed.dids ≡ dids_of dids) }
        ensures stands { IfOk result (λ boxed. Stands (fresh config.now) [] (unit_in boxed)) }
    {
        let state = Box::new(alloc, UnitState::make(DemState::make(config.twin())))?;
        Ok(BoxedUnit { state, dids })
    }

    /// Starts again from a saved state that fits the configuration, as a unit does.
    pub fn boot(&mut self, base: &Persist)
        requires fits { Fits (config_in self.old) base.now }
        ensures config { config_in self.new ≡ config_in self.old }
        ensures dids { dids_of self.new.dids ≡ dids_of self.old.dids }
        ensures stands { Stands (record { config = config_in self.old; base = base.now }) [] (unit_in self.new) }
    {
        self.state.boot(base);
    }
}

/// The status machine without the functions of its table, which are lent to each of its steps. It is boxed, since it goes out of the
/// lock's slot and back with each call.
#[derive(Drop)]
pub struct Guarded {
    /// The unit without the functions of its table.
    pub state: Box<UnitState>,
}

impl Machine for Guarded {
    type Start = DemStart;

    type Op = Op;

    ghost some_start = { some_start };

    ghost start = { λ guarded. start_of guarded.state.value };

    ghost admits = { MayBeAsked };

    ghost stands_for = { λ guarded start ops. Stands start (reverse ops) guarded.state.value };
}

// Each call but a snapshot writes at most the bytes of a response.
impl Stepper<ArrayVec<u8, RESPONSE>> for Guarded {
    type Context = DidTable<DID_ROWS>;

    type Kind = ReplyKind;

    type Whole = Reply;

    ghost serves = { λ dids start. Serves (dids_of dids) start.config.events.items };

    ghost suits = { λ _. Unit {0} };

    ghost whole = { with_response };

    ghost answer = { reply_after };

    fn step(
        &mut self,
        dids: &DidTable<DID_ROWS>,
        op: &Op,
        response: &mut ArrayVec<u8, RESPONSE>,
    ) -> ReplyKind {
        self.state.step(dids, op, response)
    }
}

// A snapshot writes the durable state.
impl Stepper<Persist> for Guarded {
    type Context = DidTable<DID_ROWS>;

    type Kind = ReplyKind;

    type Whole = (ReplyKind, Persist);

    ghost serves = { λ dids start. Serves (dids_of dids) start.config.events.items };

    ghost suits = { λ op. op ≡ ops.Snapshot };

    ghost whole = { λ kind state. (kind, state) };

    ghost answer = { λ start calls _. taken_after start calls };

    fn step(&mut self, _dids: &DidTable<DID_ROWS>, _op: &Op, state: &mut Persist) -> ReplyKind {
        self.state.persist(state);
        ReplyKind::Taken
    }
}
