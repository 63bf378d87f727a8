use super::*;
use arrayvec::ArrayVec;
use flt_config::{Config, Debounce, DidUse, EventCfg};

/// Whether a configuration has these settings.
pub(super) fn has(config: &Config, id: u16, memory: u8, blocks: u8, pages: u16) -> bool {
    config.id == id && config.memory == memory && config.blocks == blocks && config.pages == pages
}

#[test]
fn nothing_written(rt: HostRuntime) -> Result<(), Fail> {
    let script = parse(rt.alloc(), b"", &table())?;
    let config = script.config.config();
    let is_first = has(config, 0, 16, 8, 512) && config.events.is_empty();
    holds(&rt, is_first, "the settings");
    holds(&rt, script.lives.len() == 1, "how many lives");
    Ok(())
}

/// All words of an event, a counter with both jumps, and an event with data identifiers.
static WHOLE: &str = "config 7\nmemory 2\nblocks 3\nflash 2 100\n\
     event 0 time 10 5 age 9 dtc 00000A lamp 1 needs 255 prio 5 cycle 1 confirm 2 heal 4\n\
     event 1 dtc 00000B count 10 20 3 2 jumpup 9 jumpdown -19\n\
     event 2 dtc 00000C\ndid 1 0107\ndid 1 0101\n";

fn first_event() -> EventCfg {
    EventCfg {
        dtc: 10,
        priority: 5,
        cycle: 1,
        confirm: 2,
        heal: 4,
        age: 9,
        indicator: true,
        needs: 255,
        debounce: Debounce::Time { fail: 10, pass: 5 },
        dids: ArrayVec::new(),
    }
}

/// An event of which only the DTC is written.
pub(super) fn plain_event(dtc: u32) -> EventCfg {
    EventCfg {
        dtc,
        priority: 1,
        cycle: 0,
        confirm: 1,
        heal: 3,
        age: 40,
        indicator: false,
        needs: 0,
        debounce: Debounce::Counter {
            fail_at: 1,
            pass_at: -1,
            up: 1,
            down: 1,
            jump_up: None,
            jump_down: None,
        },
        dids: ArrayVec::new(),
    }
}

#[test]
fn an_event_is_new_as_a_line_writes_it(rt: HostRuntime) {
    holds(&rt, EventCfg::new(10) == plain_event(10), "a new event");
}

/// The debouncing and the data identifiers of the second event.
static COUNTER: Debounce = Debounce::Counter {
    fail_at: 10,
    pass_at: -20,
    up: 3,
    down: 2,
    jump_up: Some(9),
    jump_down: Some(-19),
};

static USES: [DidUse; 2] = [
    DidUse {
        id: 0x0107,
        width: 8,
    },
    DidUse {
        id: 0x0101,
        width: 2,
    },
];

/// Whether the events are those of the script.
fn are_as_written(events: &[EventCfg]) -> bool {
    match events {
        [first, second, third] => {
            *first == first_event()
                && second.debounce == COUNTER
                && second.dids.as_slice() == USES.as_slice()
                && *third == plain_event(12)
        }
        _ => false,
    }
}

#[test]
fn whole_configuration(rt: HostRuntime) -> Result<(), Fail> {
    let script = parse(rt.alloc(), WHOLE.as_bytes(), &table())?;
    let config = script.config.config();
    holds(&rt, has(config, 7, 2, 3, 100), "the settings");
    let are_as_written = are_as_written(config.events.as_slice());
    holds(&rt, are_as_written, "the events");
    Ok(())
}
