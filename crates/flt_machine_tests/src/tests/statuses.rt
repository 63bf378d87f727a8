//! The durable state of one event over many cycles.
use super::holds;
use flt_config::UNTESTED;
use flt_status::{EventCfg, EventState, clear, cycle, displaced, failed, passed};

/// The greatest thresholds, with an indicator.
fn slowest() -> EventCfg {
    EventCfg {
        confirm: 255,
        heal: 255,
        age: 255,
        indicator: true,
        ..EventCfg::new(1)
    }
}

#[test]
fn counts_stop_at_their_ends(rt: HostRuntime) {
    let rules = slowest();
    let mut state = UNTESTED;
    let mut confirmed = 0u32;
    for _ in 0..300u16 {
        let _aged = cycle(&rules, &mut state);
        if failed(&rules, &mut state).confirmed {
            confirmed = confirmed.saturating_add(1);
        }
    }
    holds(&rt, confirmed == 1, "it is confirmed once");
    let wanted = EventState {
        status: 0xAF,
        failed: 255,
        clean: 0,
        lit: true,
    };
    holds(&rt, state == wanted, "the state after the failures");

    let mut aged = 0u32;
    for _ in 0..600u16 {
        if cycle(&rules, &mut state) {
            aged = aged.saturating_add(1);
        }
        passed(&mut state);
    }
    holds(&rt, aged == 1, "it ages once");
    let wanted = EventState {
        status: 0x20,
        failed: 0,
        clean: 510,
        lit: false,
    };
    holds(&rt, state == wanted, "the state after the passes");
}

#[test]
fn a_displaced_event_fails_anew_and_a_cleared_one_is_untested(rt: HostRuntime) {
    let rules = EventCfg {
        indicator: true,
        ..EventCfg::new(1)
    };
    let mut state = UNTESTED;
    let _aged = cycle(&rules, &mut state);
    let first = failed(&rules, &mut state);
    holds(&rt, first.entered && first.confirmed, "the first failure");
    displaced(&mut state);
    let wanted = EventState {
        status: 0x27,
        failed: 1,
        clean: 0,
        lit: false,
    };
    holds(&rt, state == wanted, "the displaced event");
    let again = failed(&rules, &mut state);
    holds(&rt, !again.entered && again.confirmed, "the next failure");
    clear(&mut state);
    holds(&rt, state == UNTESTED, "the cleared event");
}
