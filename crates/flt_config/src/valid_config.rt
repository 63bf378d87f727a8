//! The configurations that are accepted.
ghost use Rattle.std.specs.Prelude.{◌≡◌, ◌≤◌, OnOk, length, position};
ghost use Rattle.flt_config.specs.Validity.{IsValid, has_dtc};
ghost use Rattle.flt_config.specs.Validity.{needed_pages as needed_pages_of};
ghost use Rattle.flt_config.specs.Check.{check_of, distinct_result, room_result, unless_faulty};

use crate::ranges::check_all_ranges;
use crate::{CfgFault, Config, EVENTS, EventCfg};
use arrayvec::ArrayVec;
use std::marker::Model;

/// A configuration that `check` accepted: its numbers are in range, its DTCs are distinct, and its
/// records have room. Contracts see it as the configuration itself.
#[derive(Drop)]
pub struct ValidConfig {
    config: Config,
}

impl Model for ValidConfig {
    ghost use Rattle.flt_config.specs.declared.config.Config.{Config as Settings};
    ghost use Rattle.flt_config.specs.Validity.{IsValid};

    ghost Value = { Settings };

    ghost view = { λ v. v.config };

    ghost invariant = { λ v. IsValid v.config };
}

impl ValidConfig {
    /// A configuration that the caller knows to be valid, as `verdict` says of those that it accepts.
    #[inline(always)]
    pub fn new(config: Config) -> ValidConfig
        requires { IsValid config }
        ensures { result ≡ config }
    {
        ValidConfig { config }
    }

    /// The configuration.
    pub fn config(&self) -> &Config
        ensures value { result.now ≡ self.now }
        ensures valid { IsValid self.now }
    {
        &self.config
    }

    /// A copy of this configuration.
    pub fn twin(&self) -> ValidConfig
        ensures { result ≡ self.now }
    {
        let mut config = Config {
            id: self.config.id,
            memory: self.config.memory,
            pages: self.config.pages,
            blocks: self.config.blocks,
            events: ArrayVec::new(),
        };
        put_events(&self.config.events, &mut config.events);
        ValidConfig { config }
    }
}

/// A copy of this event.
#[inline(always)]
fn copy_of(event: &EventCfg) -> EventCfg
    ensures { result ≡ event.now }
{
    event.clone().unwrap()
}

/// Puts copies of these events in place of those of a list. A list that is cloned as a whole is moved several times.
#[inline(always)]
fn put_events(events: &[EventCfg], out: &mut ArrayVec<EventCfg, EVENTS>)
    requires { length events.now ≤ EVENTS }
    ensures { out.new.items ≡ events.now }
{
    out.clear();
    for event in events {
        out.push(copy_of(event));
    }
}

/// Accepts a configuration, or returns its first fault, which is that of `verdict`.
#[tactic(auto, unfolding(crate::specs::Check::check_of))]
pub fn check(config: Config) -> Result<ValidConfig, CfgFault>
    ensures { result ≡ check_of config }
{
    verdict(&config)?;
    Ok(ValidConfig { config })
}

/// Whether a configuration is accepted, and else its first fault: first numbers out of range, in the order of
/// `Field`, those of each event before those of the next; then two events with the same DTC; then lack of room.
#[tactic(auto, unfolding(crate::specs::Check::check_of))]
pub fn verdict(config: &Config) -> Result<(), CfgFault>
    ensures checked { check_of config.now ≡ unless_faulty config.now result }
    ensures valid { OnOk result (IsValid config.now) }
{
    check_all_ranges(config)?;
    check_distinct(&config.events)?;
    check_room(config)?;
    Ok(())
}

fn check_distinct(events: &[EventCfg]) -> Result<(), CfgFault>
    requires { length events.now ≤ EVENTS }
    ensures { result ≡ distinct_result events.now }
{
    for (second, event) in events.iter().enumerate() {
        if let Some(first) = first_with_dtc(&events[..second], event.dtc) {
            return Err(CfgFault::DtcTwice {
                first: first as u16,
                second: second as u16,
            });
        }
    }
    Ok(())
}

fn first_with_dtc(events: &[EventCfg], dtc: u32) -> Option<usize>
    ensures { result ≡ position (has_dtc dtc) events.now }
{
    events.iter().position(|event| event.dtc == dtc)
}

/// The number of pages of 32 bytes that the records of the configuration take in a sector: 22, plus 8 for
/// each 16 events or part of 16, 10 for each entry and 3 for each application block.
pub fn needed_pages(config: &Config) -> u32
    ensures { result ≡ needed_pages_of config.now }
{
    let state_blocks = config.events.len().div_ceil(16) as u32;
    22 + 8 * state_blocks + 10 * config.memory as u32 + 3 * config.blocks as u32
}

fn check_room(config: &Config) -> Result<(), CfgFault>
    ensures { result ≡ room_result config.now }
{
    let needed = needed_pages(config);
    let pages = config.pages as u32;
    if pages < needed {
        return Err(CfgFault::NoRoom { needed, pages });
    }
    Ok(())
}
