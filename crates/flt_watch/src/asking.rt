//! What a watch is asked: the script that a source has, or why there is none that it makes.
ghost use Rattle.std.specs.Prelude.{◌≡◌};
ghost use Rattle.std.specs.List.{list_all};
ghost use Rattle.flt_did.specs.Table.{dids_of};
ghost use Rattle.flt_step.specs.Part.{part_of};
ghost use Rattle.flt_script.specs.Script.{content};
ghost use Rattle.flt_watch.specs.Asked.{IsAsked, is_watchable, is_watched, is_watched_part};

use flt_did::{DID_ROWS, DidTable};
use flt_io::Source;
use flt_life_model::{Action, action_of};
use flt_script::{Fetched, Script, ScriptFault, fetch};
use flt_step::{Part, Step};
use std::alloc::Global;

/// What a watch is asked.
#[derive(Drop)]
pub(crate) enum Asked {
    /// A script of one life, whose steps a watch makes.
    Watch(Script),
    /// Another script.
    Other,
    /// The bytes are no script.
    Refused(ScriptFault),
    /// The source failed.
    Unread,
    /// Memory ran out.
    Memory,
}

/// Whether a watch makes the step: it makes one call of the status machine.
fn is_watched(step: &Step) -> bool
    ensures { result ≡ is_watched step.now }
{
    match action_of(step) {
        Action::Call(_) => true,
        Action::Queue(_) | Action::Save | Action::Drain | Action::Get(_) | Action::Arm(_) => false,
    }
}

/// Whether it makes each step of a lane.
fn is_watched_lane(steps: &[Step]) -> bool
    ensures { result ≡ list_all is_watched steps.now }
{
    steps.iter().all(|step| is_watched(step))
}

/// Whether it makes each step of these lanes.
fn are_watched_lanes(lanes: &[Vec<Step>]) -> bool
    ensures { result ≡ list_all (λ lane. list_all is_watched lane.items) lanes.now }
{
    lanes.iter().all(|lane| is_watched_lane(lane))
}

/// Whether it makes each step of a part.
fn is_watched_part(part: &Part) -> bool
    ensures { result ≡ is_watched_part (part_of part.now) }
{
    match part {
        Part::One(step) => is_watched(step),
        Part::Lanes(lanes) => are_watched_lanes(lanes),
    }
}

/// Whether it makes each step of these parts.
fn are_watched(parts: &[Part]) -> bool
    ensures { result ≡ list_all (λ part. is_watched_part (part_of part)) parts.now }
{
    parts.iter().all(|part| is_watched_part(part))
}

/// Whether a watch makes the script.
fn is_watchable(script: &Script) -> bool
    ensures { result ≡ is_watchable (content script.now) }
{
    match script.lives.as_slice() {
        [life] => are_watched(life),
        _ => false,
    }
}

/// Reads what is asked.
pub(crate) fn ask<S: Source>(alloc: Global, source: &mut S, dids: &DidTable<DID_ROWS>) -> Asked
    ensures { IsAsked (dids_of dids.now) (S.left source.old) (S.left source.new) (S.faults source.old) (S.faults source.new) result }
{
    match fetch(alloc, source, dids) {
        Fetched::Script(script) => {
            if is_watchable(&script) {
                Asked::Watch(script)
            } else {
                Asked::Other
            }
        }
        Fetched::Refused(fault) => Asked::Refused(fault),
        Fetched::Failed => Asked::Unread,
        Fetched::Memory => Asked::Memory,
    }
}
