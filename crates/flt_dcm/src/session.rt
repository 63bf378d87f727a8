//! The diagnostic session of a tester (ISO 14229-1, services 0x10 and 0x85).
ghost use Rattle.std.specs.Prelude.{◌≡◌};
ghost use Rattle.flt_model.specs.Session.{session_timeout};
ghost use Rattle.flt_dcm.specs.Session.{is_extended_one, has_hold, heard, entered, setting_switched, after, ticked};

use flt_model::Request;

/// After how many silent ticks of 10 ms the extended session ends (ISO 14229-2, S3: 5000 ms).
const SESSION_TIMEOUT: u16 = 500;

/// The diagnostic session of a tester.
#[derive(Clone, Copy)]
pub(crate) enum Session {
    /// The default session.
    Default,
    /// The extended session: whether the tester holds the DTC setting off in it, and the ticks since its last request.
    Extended { holds_off: bool, silence: u16 },
}

impl Session {
    /// The session is the extended one.
    pub fn is_extended(self) -> bool
        ensures { result ≡ is_extended_one self }
    {
        match self {
            Session::Default => false,
            Session::Extended { .. } => true,
        }
    }

    /// The tester holds the DTC setting off.
    pub fn holds_off(self) -> bool
        ensures { result ≡ has_hold self }
    {
        match self {
            Session::Default => false,
            Session::Extended { holds_off, .. } => holds_off,
        }
    }

    /// The session after a request of its tester: the silent time restarts.
    pub fn heard(self) -> Session
        ensures { result ≡ heard self }
    {
        match self {
            Session::Default => Session::Default,
            Session::Extended { holds_off, .. } => Session::Extended {
                holds_off,
                silence: 0,
            },
        }
    }

    /// The session after its tester asks for one; the extended one keeps its hold.
    fn enter(self, extended: bool) -> Session
        ensures { result ≡ entered extended self }
    {
        match (extended, self) {
            (false, _) => Session::Default,
            (true, Session::Default) => Session::Extended {
                holds_off: false,
                silence: 0,
            },
            (true, Session::Extended { holds_off, silence }) => {
                Session::Extended { holds_off, silence }
            }
        }
    }

    /// The session after its tester switches the setting off or on.
    fn hold(self, off: bool) -> Session
        ensures { result ≡ setting_switched off self }
    {
        match self {
            Session::Default => Session::Default,
            Session::Extended { silence, .. } => Session::Extended {
                holds_off: off,
                silence,
            },
        }
    }

    /// The session after a request takes effect.
    pub fn after(self, request: Request) -> Session
        ensures { result ≡ after self request }
    {
        match request {
            Request::Session { extended } => self.enter(extended),
            Request::Setting { on } => self.hold(!on),
            _ => self,
        }
    }

    /// The session after ticks of 10 ms: the extended one ends at 500 silent ticks, with its hold.
    pub fn tick(self, ticks: u16) -> Session
        ensures { result ≡ ticked ticks self }
    {
        match self {
            Session::Default => Session::Default,
            Session::Extended { holds_off, silence } => {
                let silence = silence.saturating_add(ticks);
                if silence < SESSION_TIMEOUT {
                    Session::Extended { holds_off, silence }
                } else {
                    Session::Default
                }
            }
        }
    }
}
