//! The whole status machine without the functions of its table of data identifiers.
ghost use Rattle.std.specs.Prelude.{◌≡◌, ◌<◌, ◌≤◌, ℕ, List, [], ◌∷◌, map, length, Some};
ghost use Rattle.std.specs.List.{list_any};
ghost use Rattle.flt_config.specs.Durable.{Fits};
ghost use Rattle.flt_model.specs.Start.{Start, History, fresh};
ghost use Rattle.flt_model.specs.Answer.{answer};
ghost use Rattle.flt_model.specs.Durable.{saved_after};
ghost use Rattle.flt_model.specs.Happening.{dtc_of_clear};
ghost use Rattle.flt_model.specs.Request.{asked};
ghost use Rattle.flt_model.specs.Response.{negative, positive, reply_of, responded, response};
ghost use Rattle.flt_model.specs.declared.call.Op.TheVariants as ops;
ghost use Rattle.flt_did.specs.Table.{dids_of};
ghost use Rattle.flt_did.specs.Serves.{Serves};
ghost use Rattle.flt_dem.specs.View.{manager_view};
ghost use Rattle.flt_dcm.specs.Session.{is_extended_one, has_hold, heard, after, after_asked, ticked};
ghost use Rattle.flt_dcm.specs.Standard.{SaysStandard};
ghost use Rattle.flt_dcm.specs.Requests.{TakesClearOf, TakesBytes};
ghost use Rattle.flt_dcm.specs.Unit.{Stands, Takes, Answers, IsAdmitted, IsIgnored, IsNegative, IsTesterCall, with_heard};
ghost use Rattle.flt_dcm.specs.Applied.{AppliesCall, WritesState};
ghost use Rattle.flt_dcm.specs.ReplyKind.{reply_with};

use crate::response::{ALL_DTCS, UnknownDtc, put_positive};
use crate::session::Session;
use arrayvec::ArrayVec;
use flt_config::{
    Condition, EVENTS, EventState, OperationCycle, Persist, SignalIndex, Tester, ValidConfig,
    initial,
};
use flt_dem::DemState;
use flt_did::{DID_ROWS, DidTable};
use flt_model::{Op, REQUEST, Reply, ReplyOf, Report};
use flt_uds::{Asked, Negative, REQUEST_OUT_OF_RANGE, RESPONSE, Request, put_negative, read};
use std::marker::Model;

/// The answer to a call. The bytes of a response are kept separately.
pub type ReplyKind = ReplyOf<()>;

/// The number of testers; they have the numbers 0 to 3.
pub const TESTERS: usize = 4;

/// The whole status machine without its table of data identifiers: the event manager, the sessions of the four
/// testers, and the durable state that it was last started from.
#[derive(Drop)]
pub struct UnitState {
    dem: DemState,
    sessions: [Session; TESTERS],
    base: Persist,
}

impl Model for UnitState {
    ghost use Rattle.flt_dcm.specs.Unit.{UnitView, IsUnitOf};

    ghost Value = { UnitView };

    ghost view = { λ u. record { dem = u.dem; sessions = u.sessions; base = u.base } };

    ghost invariant = { λ u. IsUnitOf u.dem.durable.config u.sessions u.base };
}

/// Writes a negative response, replacing what `out` holds.
fn refuse(service: u8, code: u8, out: &mut ArrayVec<u8, RESPONSE>)
    ensures { reply_of out.new.items ≡ negative service code }
{
    out.clear();
    put_negative(&Negative { service, code }, out);
}

/// Clears a DTC, or all of them. A DTC that no event has clears nothing.
fn clear(dem: &mut DemState, dtc: u32)
    ensures config { dem.new.durable.config ≡ dem.old.durable.config }
    ensures stands { TakesClearOf (Some dtc) dem.old dem.new }
{
    if dtc == ALL_DTCS {
        dem.clear_all();
        return;
    }
    match dem.find(dtc) {
        Some(event) => dem.clear_one(event),
        None => {}
    }
}

/// Carries out what is asked: another session, another setting, or a clear.
fn carry_out(dem: &mut DemState, session: &mut Session, request: Request)
    ensures config { dem.new.durable.config ≡ dem.old.durable.config }
    ensures session { session.new ≡ after session.old request }
    ensures stands { TakesClearOf (dtc_of_clear request) dem.old dem.new }
{
    *session = session.after(request);
    match request {
        Request::Clear { dtc } => clear(dem, dtc),
        _ => {}
    }
}

/// Answers a request that was read, of this service, and carries it out if its DTC is known. The response is
/// written to `out`, also one that is suppressed.
fn respond(
    dem: &mut DemState,
    session: &mut Session,
    service: u8,
    asked: Asked,
    out: &mut ArrayVec<u8, RESPONSE>,
) -> ReplyKind
    requires { out.old.items ≡ [] }
    ensures config { dem.new.durable.config ≡ dem.old.durable.config }
    ensures session { session.new ≡ after session.old asked.request }
    ensures stands { TakesClearOf (dtc_of_clear asked.request) dem.old dem.new }
    ensures answer { reply_with result out.new.items ≡ responded service asked.silent (positive (manager_view dem.old) asked.request) }
    ensures never_ignored { ¬ IsIgnored (reply_with result out.new.items) }
    ensures negative { IsNegative (reply_with result out.new.items) → (dem.new ≡ dem.old) × (session.new ≡ session.old) }
{
    match put_positive(dem, asked.request, out) {
        Ok(()) => {
            carry_out(dem, session, asked.request);
            if asked.silent {
                ReplyKind::Silent
            } else {
                ReplyKind::Response(())
            }
        }
        Err(UnknownDtc) => {
            refuse(service, REQUEST_OUT_OF_RANGE, out);
            ReplyKind::Response(())
        }
    }
}

/// Answers a tester's request: the silent time restarts, and the request is carried out if it is not refused.
fn answer_request(
    dem: &mut DemState,
    session: &mut Session,
    bytes: &[u8],
    out: &mut ArrayVec<u8, RESPONSE>,
) -> ReplyKind
    requires { 0 < length bytes.now }
    ensures config { dem.new.durable.config ≡ dem.old.durable.config }
    ensures session { session.new ≡ after_asked (heard session.old) (asked (is_extended_one session.old) bytes.now) }
    ensures stands { TakesBytes bytes.now dem.old dem.new }
    ensures answer { reply_with result out.new.items ≡ response (manager_view dem.old) (is_extended_one session.old) bytes.now }
    ensures never_ignored { ¬ IsIgnored (reply_with result out.new.items) }
    ensures negative { IsNegative (reply_with result out.new.items) → (dem.new ≡ dem.old) × (session.new ≡ heard session.old) }
{
    out.clear();
    *session = session.heard();
    match read(bytes, session.is_extended()) {
        Ok(asked) => respond(dem, session, bytes[0], asked, out),
        Err(Negative { service, code }) => {
            refuse(service, code, out);
            ReplyKind::Response(())
        }
    }
}

/// Whether some tester holds the DTC setting off.
fn is_setting_off(sessions: &[Session]) -> bool
    ensures { result ≡ list_any has_hold sessions.now }
{
    sessions.iter().any(|session| session.holds_off())
}

/// The sessions of the testers after ticks of 10 ms.
fn ticked_sessions(sessions: [Session; TESTERS], ticks: u16) -> [Session; TESTERS]
    ensures { result ≡ map (ticked ticks) sessions }
{
    sessions.map(|session| session.tick(ticks))
}

impl UnitState {
    /// A unit with nothing saved, to which no call was made: its manager is reset, and each tester is
    /// in the default session.
    pub fn make(dem: DemState) -> UnitState
        ensures config { result.dem.durable.config ≡ dem.durable.config }
        ensures stands { Stands (fresh dem.durable.config) [] result }
    {
        let base = initial(dem.config());
        let mut dem = dem;
        dem.boot(&base);
        UnitState {
            dem,
            sessions: [Session::Default; TESTERS],
            base,
        }
    }

    /// Starts again from a saved state that fits the configuration, which is kept as the base: what is not saved is
    /// at rest, and each tester is in the default session.
    pub fn boot(&mut self, base: &Persist)
        requires fits { Fits self.old.dem.durable.config base.now }
        ensures config { self.new.dem.durable.config ≡ self.old.dem.durable.config }
        ensures stands { Stands (record { config = self.old.dem.durable.config; base = base.now }) [] self.new }
    {
        self.dem.boot(base);
        self.sessions = [Session::Default; TESTERS];
        self.base = base.twin();
    }

    /// The configuration.
    pub fn config(&self) -> &ValidConfig
        ensures { result.now ≡ self.now.dem.durable.config }
    {
        self.dem.config()
    }

    /// The durable states of all events, by number.
    pub fn states(&self) -> &[EventState]
        ensures value { result.now ≡ self.now.dem.durable.states }
        ensures one_each { length result.now ≡ length self.now.dem.durable.config.events.items }
        ensures few { length result.now ≤ EVENTS }
        ensures stands { (life : Start) (past : History) → Stands life past self.now → result.now ≡ (saved_after life past).events.items }
    {
        self.dem.states()
    }

    /// Takes a monitor's report of an event. If it is ignored, the answer says why: a tester holds the DTC setting off,
    /// else the event's operation cycle was not started since power-up, or else an enable condition that it needs is not fulfilled.
    fn report(&mut self, dids: &DidTable<DID_ROWS>, event: u16, report: Report) -> ReplyKind
        requires served { Serves (dids_of dids.now) self.old.dem.durable.config.events.items }
        requires configured { event < length self.old.dem.durable.config.events.items }
        ensures config { self.new.dem.durable.config ≡ self.old.dem.durable.config }
        ensures base { self.new.base ≡ self.old.base }
        ensures stands { Takes (ops.Report event report) self.old self.new }
        ensures answer { (response : List ℕ) → Answers (ops.Report event report) self.old (reply_with result response) }
        ensures ignored { (response : List ℕ) → IsIgnored (reply_with result response) → self.new ≡ self.old }
    {
        let setting = !is_setting_off(&self.sessions);
        match self.dem.report(dids, event, report, setting) {
            Some(cause) => ReplyKind::Ignored(cause),
            None => ReplyKind::Taken,
        }
    }

    /// Lets ticks of 10 ms pass, for the events unless a tester holds the DTC setting off, and then for the testers.
    fn tick(&mut self, dids: &DidTable<DID_ROWS>, ticks: u16)
        requires served { Serves (dids_of dids.now) self.old.dem.durable.config.events.items }
        ensures config { self.new.dem.durable.config ≡ self.old.dem.durable.config }
        ensures base { self.new.base ≡ self.old.base }
        ensures stands { Takes (ops.Tick ticks) self.old self.new }
    {
        let setting = !is_setting_off(&self.sessions);
        self.dem.tick(dids, ticks, setting);
        self.sessions = ticked_sessions(self.sessions, ticks);
    }

    /// Takes the request of a tester, and writes the response, replacing what `out` holds.
    fn request(
        &mut self,
        tester: Tester,
        bytes: &ArrayVec<u8, REQUEST>,
        out: &mut ArrayVec<u8, RESPONSE>,
    ) -> ReplyKind
        requires { 0 < length bytes.now.items }
        ensures config { self.new.dem.durable.config ≡ self.old.dem.durable.config }
        ensures base { self.new.base ≡ self.old.base }
        ensures stands { Takes (ops.Request tester bytes.now) self.old self.new }
        ensures answer { Answers (ops.Request tester bytes.now) self.old (reply_with result out.new.items) }
        ensures never_ignored { ¬ IsIgnored (reply_with result out.new.items) }
        ensures negative { IsNegative (reply_with result out.new.items) → self.new ≡ with_heard tester self.old }
    {
        answer_request(
            &mut self.dem,
            &mut self.sessions[tester.get() as usize],
            bytes,
            out,
        )
    }

    /// Writes the durable state to `out`: what a snapshot writes. That changes nothing.
    pub fn persist(&self, out: &mut Persist)
        ensures saved { (life : Start) (past : History) → Stands life past self.now → out.new ≡ saved_after life past }
        ensures stands { Takes ops.Snapshot self.now self.now }
    {
        self.dem.persist(out);
    }

    /// Carries out a call, and answers it. A unit that runs is changed or asked only in this way. The bytes of a response
    /// replace what `response` holds. What a snapshot writes is written by `persist`.
    pub fn step(
        &mut self,
        dids: &DidTable<DID_ROWS>,
        op: &Op,
        response: &mut ArrayVec<u8, RESPONSE>,
    ) -> ReplyKind
        requires served { Serves (dids_of dids.now) self.old.dem.durable.config.events.items }
        requires admitted { IsAdmitted self.old.dem.durable.config op.now }
        ensures applied { AppliesCall op.now self.old self.new (reply_with result response.new.items) }
        ensures unsent { ¬ IsTesterCall op.now → response.new ≡ response.old }
    {
        match op {
            Op::Signal { index, value } => {
                self.dem.signal(SignalIndex::new(*index), *value);
                ReplyKind::Taken
            }
            Op::Enable {
                condition,
                fulfilled,
            } => {
                self.dem.enable(Condition::new(*condition), *fulfilled);
                ReplyKind::Taken
            }
            Op::Report { event, report } => self.report(dids, *event, *report),
            Op::Tick { ticks } => {
                self.tick(dids, *ticks);
                ReplyKind::Taken
            }
            Op::Cycle { cycle } => {
                self.dem.cycle(OperationCycle::new(*cycle));
                ReplyKind::Taken
            }
            Op::Request { tester, bytes } => self.request(Tester::new(*tester), bytes, response),
            Op::Show { event } => ReplyKind::Shown(self.dem.show(*event)),
            Op::Snapshot => ReplyKind::Taken,
            Op::Saved { .. } => ReplyKind::Taken,
        }
    }

    /// Carries out a call, and answers it, with the bytes of a response in the answer. A snapshot writes the durable state to
    /// `out`; nothing else writes it.
    pub fn apply(&mut self, dids: &DidTable<DID_ROWS>, op: &Op, out: &mut Persist) -> Reply
        requires served { Serves (dids_of dids.now) self.old.dem.durable.config.events.items }
        requires admitted { IsAdmitted self.old.dem.durable.config op.now }
        ensures applied { AppliesCall op.now self.old self.new result }
        ensures state { WritesState op.now self.old out.old out.new }
        ensures standard { (life : Start) (past : History) → Stands life past self.old → SaysStandard life (op.now ∷ past) self.new.dem }
    {
        if let Op::Snapshot = op {
            self.persist(out);
        }
        let mut response = ArrayVec::new();
        let kind = self.step(dids, op, &mut response);
        kind.with(response)
    }
}
