//! The answers to every service and sub-function at every length against a table written from the standard's request forms. Worked
//! rows with testers are in the scripts of the examples.
ghost use Rattle.std.specs.Prelude.{◌<◌, ◌↔◌, IsTrue, length};
ghost use Rattle.flt_dcm.specs.Whole.{config_of};

use super::holds;
use arrayvec::ArrayVec;
use flt_config::{Config, EventCfg, Persist, check, initial};
use flt_dcm::*;
use flt_dem::DemState;
use flt_did::DidTable;
use flt_model::{REQUEST, Report};
use std::process::Abort;

/// A configuration of one event, of DTC 123456.
fn configured() -> Config {
    let mut events = ArrayVec::new();
    events.push(EventCfg::new(0x123456));
    Config {
        id: 0,
        memory: 16,
        pages: 512,
        blocks: 8,
        events,
    }
}

/// A unit, and room for a snapshot.
#[derive(Drop)]
struct Server {
    unit: Unit,
    saved: Persist,
}

/// A unit of this configuration, where it is valid.
fn served() -> Option<Server> {
    let dids = DidTable::new();
    let config = check(configured()).ok()?;
    let saved = initial(&config);
    if dids.serves(&config.config().events) {
        let state = UnitState::make(DemState::make(config));
        let unit = Unit { state, dids };
        Some(Server { unit, saved })
    } else {
        None
    }
}

fn has_event(unit: &Unit) -> bool
    ensures { IsTrue result ↔ (0 < length (config_of unit.now).events.items) }
{
    0 < unit.config().config().events.len()
}

impl Server {
    /// The reply to a request, where it has 1 to 16 bytes and is of one of the four testers.
    fn ask(&mut self, tester: u8, request: &[u8]) -> Option<Reply> {
        let mut bytes: ArrayVec<u8, REQUEST> = ArrayVec::new();
        let fits = bytes.try_extend_from_slice(request).is_ok();
        if fits && tester < 4 && 0 < bytes.len() {
            let op = Op::Request { tester, bytes };
            Some(self.unit.apply(&op, &mut self.saved))
        } else {
            None
        }
    }

    /// Whether a failure of the event is taken.
    fn fails(&mut self) -> bool {
        if has_event(&self.unit) {
            let op = Op::Report {
                event: 0,
                report: Report::Failed,
            };
            self.unit.apply(&op, &mut self.saved) == Reply::Taken
        } else {
            false
        }
    }

    /// Whether the first cycle starts.
    fn starts(&mut self) -> bool {
        self.unit.apply(&Op::Cycle { cycle: 0 }, &mut self.saved) == Reply::Taken
    }
}

/// A request of the profile: the service, the sub-function where it has one, the two lengths that it may have, and the
/// positive responses where FF FF FF FF follow the sub-function and where 12 34 56 02 do, of a controller whose one
/// event, of DTC 123456, failed. A request that is refused has no bytes.
type Row = (u8, Option<u8>, [usize; 2], &'static [u8], &'static [u8]);

static REQUESTS: [Row; 17] = [
    (
        0x10,
        Some(0x01),
        [2, 2],
        &[0x50, 0x01, 0x00, 0x32, 0x01, 0xF4],
        &[0x50, 0x01, 0x00, 0x32, 0x01, 0xF4],
    ),
    (
        0x10,
        Some(0x03),
        [2, 2],
        &[0x50, 0x03, 0x00, 0x32, 0x01, 0xF4],
        &[0x50, 0x03, 0x00, 0x32, 0x01, 0xF4],
    ),
    (0x14, None, [4, 4], &[0x54], &[]),
    (
        0x19,
        Some(0x01),
        [3, 3],
        &[0x59, 0x01, 0xFF, 0x01, 0x00, 0x01],
        &[0x59, 0x01, 0xFF, 0x01, 0x00, 0x01],
    ),
    (
        0x19,
        Some(0x02),
        [3, 3],
        &[0x59, 0x02, 0xFF, 0x12, 0x34, 0x56, 0x2F],
        &[0x59, 0x02, 0xFF, 0x12, 0x34, 0x56, 0x2F],
    ),
    (
        0x19,
        Some(0x03),
        [2, 2],
        &[0x59, 0x03, 0x12, 0x34, 0x56, 0x01, 0x12, 0x34, 0x56, 0x02],
        &[0x59, 0x03, 0x12, 0x34, 0x56, 0x01, 0x12, 0x34, 0x56, 0x02],
    ),
    (
        0x19,
        Some(0x04),
        [6, 6],
        &[],
        &[0x59, 0x04, 0x12, 0x34, 0x56, 0x2F, 0x02, 0x00],
    ),
    (
        0x19,
        Some(0x06),
        [6, 6],
        &[],
        &[0x59, 0x06, 0x12, 0x34, 0x56, 0x2F, 0x02, 0x00],
    ),
    (
        0x19,
        Some(0x0A),
        [2, 2],
        &[0x59, 0x0A, 0xFF, 0x12, 0x34, 0x56, 0x2F],
        &[0x59, 0x0A, 0xFF, 0x12, 0x34, 0x56, 0x2F],
    ),
    (
        0x19,
        Some(0x0B),
        [2, 2],
        &[0x59, 0x0B, 0xFF, 0x12, 0x34, 0x56, 0x2F],
        &[0x59, 0x0B, 0xFF, 0x12, 0x34, 0x56, 0x2F],
    ),
    (
        0x19,
        Some(0x0C),
        [2, 2],
        &[0x59, 0x0C, 0xFF, 0x12, 0x34, 0x56, 0x2F],
        &[0x59, 0x0C, 0xFF, 0x12, 0x34, 0x56, 0x2F],
    ),
    (
        0x19,
        Some(0x0D),
        [2, 2],
        &[0x59, 0x0D, 0xFF, 0x12, 0x34, 0x56, 0x2F],
        &[0x59, 0x0D, 0xFF, 0x12, 0x34, 0x56, 0x2F],
    ),
    (
        0x19,
        Some(0x0E),
        [2, 2],
        &[0x59, 0x0E, 0xFF, 0x12, 0x34, 0x56, 0x2F],
        &[0x59, 0x0E, 0xFF, 0x12, 0x34, 0x56, 0x2F],
    ),
    (0x19, Some(0x14), [2, 2], &[0x59, 0x14], &[0x59, 0x14]),
    (0x3E, Some(0x00), [2, 2], &[0x7E, 0x00], &[0x7E, 0x00]),
    (0x85, Some(0x01), [2, 5], &[0xC5, 0x01], &[0xC5, 0x01]),
    (0x85, Some(0x02), [2, 5], &[0xC5, 0x02], &[0xC5, 0x02]),
];

/// What follows the second byte of a request.
#[derive(Clone, Copy, PartialEq, Eq)]
enum Rest {
    /// FF FF FF FF, and on.
    AllSet,
    /// 12 34 56 02, and zeros.
    Known,
}

impl Rest {
    fn bytes(self) -> [u8; 16] {
        match self {
            Rest::AllSet => [0xFF; 16],
            Rest::Known => [0, 0, 0x12, 0x34, 0x56, 0x02, 0, 0, 0, 0, 0, 0, 0, 0, 0, 0],
        }
    }
}

/// The answer that a request is to have.
#[derive(Clone, Copy)]
enum Wanted {
    Positive(&'static [u8]),
    Suppressed,
    Negative(u8),
}

impl Wanted {
    fn is_met(self, service: u8, reply: Option<Reply>) -> bool {
        match (self, reply) {
            (Wanted::Positive(wanted), Some(Reply::Response(bytes))) => bytes.as_slice() == wanted,
            (Wanted::Negative(code), Some(Reply::Response(bytes))) => {
                bytes.as_slice() == [0x7F, service, code].as_slice()
            }
            (Wanted::Suppressed, Some(Reply::Silent)) => true,
            _ => false,
        }
    }
}

/// The answer to a request of a known sub-function and of its length.
fn by_row(row: Row, second: u8, length: usize, rest: Rest) -> Wanted {
    let wanted = match rest {
        Rest::AllSet => row.3,
        Rest::Known => row.4,
    };
    let clears_one = row.0 == 0x14 && second != 0xFF;
    let has_option = row.0 == 0x85 && length == 5 && rest == Rest::Known;
    if wanted.is_empty() || clears_one || has_option {
        Wanted::Negative(0x31)
    } else if row.0 != 0x14 && 128 <= second {
        Wanted::Suppressed
    } else {
        Wanted::Positive(wanted)
    }
}

/// Whether the table has the service.
fn is_known(service: u8) -> bool {
    for row in &REQUESTS {
        if row.0 == service {
            return true;
        }
    }
    false
}

/// The row of a service, and of a sub-function where it has one.
fn row_of(service: u8, sub: u8) -> Option<&'static Row> {
    for row in &REQUESTS {
        if row.0 == service && (row.1.is_none() || row.1 == Some(sub)) {
            return Some(row);
        }
    }
    None
}

/// The answer to a request of these first two bytes and this length.
fn by_table(service: u8, second: u8, length: usize, rest: Rest, extended: bool) -> Wanted {
    if !is_known(service) {
        return Wanted::Negative(0x11);
    }
    if service == 0x85 && !extended {
        return Wanted::Negative(0x7F);
    }
    if service != 0x14 && length == 1 {
        return Wanted::Negative(0x13);
    }
    match row_of(service, second % 128) {
        None => Wanted::Negative(0x12),
        Some(row) => {
            if row.2[0] != length && row.2[1] != length {
                Wanted::Negative(0x13)
            } else {
                by_row(*row, second, length, rest)
            }
        }
    }
}

/// How many of the requests of the lengths 1 to 16, each on a failed event, are not answered as the table has it.
fn differences(server: &mut Server, service: u8, second: u8, rest: Rest, extended: bool) -> u32 {
    let mut request = rest.bytes();
    request[0] = service;
    request[1] = second;
    let mut differences = 0u32;
    for length in 1..17usize {
        server.ask(2, &[0x10, 0x81]);
        let failed = server.fails();
        if extended {
            server.ask(2, &[0x10, 0x83]);
        }
        let reply = server.ask(2, &request[..length]);
        let wanted = by_table(service, second, length, rest, extended);
        if !failed || !wanted.is_met(service, reply) {
            differences = differences.saturating_add(1);
        }
    }
    differences
}

/// What follows, in the default session and in the extended one.
static RESTS: [(Rest, bool); 4] = [
    (Rest::AllSet, false),
    (Rest::AllSet, true),
    (Rest::Known, false),
    (Rest::Known, true),
];

/// Whether each request of these first two bytes is answered as the table has it.
fn are_answered(server: &mut Server, service: u8, second: u8) -> bool {
    for (rest, extended) in &RESTS {
        if differences(server, service, second, *rest, *extended) != 0 {
            return false;
        }
    }
    true
}

/// Stops the test unless this is so of requests of these first two bytes.
fn holds_of(rt: &impl Abort, is_so: bool, service: u8, second: u8) {
    assert!(rt; is_so, "{service:02X} {second:02X}");
}

#[test]
fn each_request_is_answered_as_the_table_says(rt: HostRuntime) {
    let mut server = served().expect(&rt, "the configuration is valid");
    holds(&rt, server.starts(), "the first cycle starts");
    for service in 0..=255u8 {
        for second in 0..=255u8 {
            if is_known(service) || second % 128 == 0x02 {
                let are_answered = are_answered(&mut server, service, second);
                holds_of(&rt, are_answered, service, second);
            }
        }
    }
}
