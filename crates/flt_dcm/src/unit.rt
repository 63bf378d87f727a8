//! The whole status machine with its table of data identifiers.
ghost use Rattle.std.specs.Prelude.{◌≡◌, [], ◌∷◌};
ghost use Rattle.std.proofs.Props.{props};
ghost use Rattle.flt_config.specs.Durable.{Fits};
ghost use Rattle.flt_model.specs.Start.{Start, History, fresh};
ghost use Rattle.flt_model.specs.Durable.{saved_after};
ghost use Rattle.flt_model.specs.declared.call.Op.TheVariants as ops;
ghost use Rattle.flt_did.specs.Table.{dids_of};
ghost use Rattle.flt_did.specs.Serves.{Serves};
ghost use Rattle.flt_dem.specs.Dem.{manager_config as dem_config, manager_table as dem_table};
ghost use Rattle.flt_dcm.specs.Standard.{SaysStandard};
ghost use Rattle.flt_dcm.specs.Unit.{Stands, Takes, IsAdmitted, IsTesterCall};
ghost use Rattle.flt_dcm.specs.Applied.{AppliesCall, WritesState};
ghost use Rattle.flt_dcm.specs.ReplyKind.{reply_with};

use crate::state::{ReplyKind, UnitState};
use arrayvec::ArrayVec;
use flt_config::{Persist, ValidConfig};
use flt_dem::Dem;
use flt_did::{DID_ROWS, DidTable};
use flt_model::{Op, RESPONSE, Reply};

/// The whole status machine: the event manager with its table of data identifiers, the sessions of the four testers,
/// and the durable state that it was last started from.
#[derive(Drop)]
pub struct Unit {
    /// The unit without the functions of its table.
    pub state: UnitState,
    /// The table of data identifiers.
    pub dids: DidTable<DID_ROWS>,
    ghost served: { Serves (dids_of dids) state.dem.durable.config.events.items } by { Prim.hlevel props },
}

impl Unit {
    ghost use Rattle.flt_dcm.specs.Whole.{unit_seen, config_of, table_of};

    /// A unit with nothing saved, to which no call was made: the manager that it is given is reset,
    /// and each tester is in the default session.
    pub fn make(dem: Dem) -> Unit
        ensures config { config_of result ≡ dem_config dem }
        ensures dids { table_of result ≡ dem_table dem }
        ensures stands { Stands (fresh (dem_config dem)) [] (unit_seen result) }
    {
        let Dem { state, dids, .. } = dem;
        Unit {
            state: UnitState::make(state),
            dids,
        }
    }

    /// Starts again from a saved state that fits the configuration, which is kept as the base: what is not saved is
    /// at rest, and each tester is in the default session.
    pub fn boot(&mut self, base: &Persist)
        requires fits { Fits (config_of self.old) base.now }
        ensures config { config_of self.new ≡ config_of self.old }
        ensures dids { table_of self.new ≡ table_of self.old }
        ensures stands { Stands (record { config = config_of self.old; base = base.now }) [] (unit_seen self.new) }
    {
        self.state.boot(base);
    }

    /// The configuration.
    pub fn config(&self) -> &ValidConfig
        ensures { result.now ≡ config_of self.now }
    {
        self.state.config()
    }

    /// Writes the durable state to `out`: what a snapshot writes. That changes nothing.
    pub fn persist(&self, out: &mut Persist)
        ensures saved { (life : Start) (past : History) → Stands life past (unit_seen self.now) → out.new ≡ saved_after life past }
        ensures stands { Takes ops.Snapshot (unit_seen self.now) (unit_seen self.now) }
    {
        self.state.persist(out);
    }

    /// Carries out a call, and answers it. A unit that runs is changed or asked only in this way. The bytes of a response
    /// replace what `response` holds. What a snapshot writes is written by `persist`.
    pub fn apply_into(&mut self, op: &Op, response: &mut ArrayVec<u8, RESPONSE>) -> ReplyKind
        requires admitted { IsAdmitted (config_of self.old) op.now }
        ensures dids { table_of self.new ≡ table_of self.old }
        ensures applied { AppliesCall op.now (unit_seen self.old) (unit_seen self.new) (reply_with result response.new.items) }
        ensures unsent { ¬ IsTesterCall op.now → response.new ≡ response.old }
        ensures standard { (life : Start) (past : History) → Stands life past (unit_seen self.old) → SaysStandard life (op.now ∷ past) (unit_seen self.new).dem }
    {
        self.state.step(&self.dids, op, response)
    }

    /// Carries out a call, and answers it, with the bytes of a response in the answer. A snapshot writes the durable state to
    /// `out`; nothing else writes it.
    pub fn apply(&mut self, op: &Op, out: &mut Persist) -> Reply
        requires admitted { IsAdmitted (config_of self.old) op.now }
        ensures dids { table_of self.new ≡ table_of self.old }
        ensures applied { AppliesCall op.now (unit_seen self.old) (unit_seen self.new) result }
        ensures state { WritesState op.now (unit_seen self.old) out.old out.new }
        ensures standard { (life : Start) (past : History) → Stands life past (unit_seen self.old) → SaysStandard life (op.now ∷ past) (unit_seen self.new).dem }
    {
        self.state.apply(&self.dids, op, out)
    }
}
