//! What a run comes to by its command, before it is reported: the lives of its script over a device, or an answer without lives, and the
//! device as they left it. It comes to nothing if memory runs out.
ghost use Rattle.std.specs.Prelude.{◌≡◌, ◌≢◌, ◌≤◌, List, Some, All, IfSome};
ghost use Rattle.flt_flash.specs.Blocks.{device_of};
ghost use Rattle.flt_config.specs.declared.config.DidUse.{DidUse};
ghost use Rattle.flt_did.specs.Serves.{Serves};
ghost use Rattle.flt_did.specs.Table.{dids_of};
ghost use Rattle.flt_step.specs.Part.{parts_of};
ghost use Rattle.flt_script.specs.Script.{content};
ghost use Rattle.flt_store_model.specs.Laws.{IsGiven};
ghost use Rattle.flt_restore.specs.declared.fault.StartFault.TheVariants.{Flash};
ghost use Rattle.flt_life_model.specs.declared.life.Boot.TheVariants.{Refused};
ghost use Rattle.flt_life_model.specs.Lives.{lists};
ghost use Rattle.flt_lives.specs.Alone.{AreAlone};
ghost use Rattle.flt_lives.specs.Devices.{LivesOn, ServesAll};
ghost use Rattle.flt_run.specs.Command.{IsLoadInRange, plain_of};
ghost use Rattle.flt_run.specs.Ending.{ComesTo, TellsAccepted};
ghost use Rattle.flt_run.specs.Scripted.{IsLoaded, IsScriptFor, ending_by};
ghost use Rattle.flt_run.specs.Seen.{inside_of};

use crate::command::Command;
use crate::ending::Ending;
use crate::engine::run_in_lanes;
use crate::line::accepted_line;
use crate::made::Made;
use flt_config::ValidConfig;
use flt_dcm::Unit;
use flt_dem::Dem;
use flt_did::{DID_ROWS, DidTable};
use flt_io::Source;
use flt_lane::SharedGate;
use flt_life_model::Life;
use flt_lives::{Driver, Run, run_alone};
use flt_script::{Fetched, Script, fetch, load};
use std::alloc::Global;
use std::marker::Sync;
use std::sync::Wait;
use std::thread::Threads;

/// A witness for the checker: the configuration is valid, and its numbers are those of their types.
fn witness(config: &ValidConfig)
    ensures { IsGiven config.now }
{
    let config = config.config();
    let _id = config.id;
    let _events = config.events.len();
}

/// The lives that were made of a script, with its parts; none if memory ran out.
#[inline(always)]
fn made_of(script: Script, lives: Option<Vec<Life>>) -> Option<Made>
    requires { IfSome lives (λ lives. All (λ life. life.boot ≢ Refused Flash) lives.items) }
    ensures { IfSome result (λ made. (lists made.script.items ≡ lists script.lives.items) × (lives ≡ Some made.lives)) }
{
    let lives = lives?;
    Some(Made {
        script: script.lives,
        lives,
    })
}

/// Makes the lives of a script without blocks of lanes, one after the other, up to the first that is refused, on a machine without a
/// lock.
#[inline(never)]
fn live_alone<D: Driver>(
    alloc: Global,
    device: D::Device,
    script: &Script,
    dids: DidTable<DID_ROWS>,
) -> Run<D::Device>
    requires served { Serves (dids_of dids) script.now.config.events.items }
    requires alone { All (λ life. AreAlone (parts_of life.items)) script.now.lives.items }
    requires serves { ServesAll D.serves (D.device_state device) }
    requires boots { 256 ≤ (D.device_state device).bench.boots_left }
    requires unarmed { (D.device_state device).bench.armed ≡ 0 }
    ensures valid { IsGiven script.now.config }
    ensures lives { LivesOn (D.medium script.now.config) script.now.config (device_of (D.device_state device)) (device_of (D.device_state result.device))
        (content script.now).lives result.lives }
{
    witness(&script.config);
    let unit = Unit::make(Dem::make(script.config.twin(), dids));
    run_alone::<D>(alloc, unit, device, &script.config, &script.lives)
}

/// Makes the lives of a script one after the other, up to the first that is refused, all calls of a life under two locks, of the status
/// machine and of the queue, and the lanes of a block at the same time. Each step is made between the two calls of the gate.
#[inline(never)]
fn live_in_lanes<R: Threads + Wait + Sync, G: SharedGate, D: Driver>(
    rt: &R,
    gate: &G,
    alloc: Global,
    device: D::Device,
    script: &Script,
    dids: DidTable<DID_ROWS>,
) -> Run<D::Device>
    requires served { Serves (dids_of dids) script.now.config.events.items }
    requires serves { ServesAll D.serves (D.device_state device) }
    requires boots { 256 ≤ (D.device_state device).bench.boots_left }
    requires unarmed { (D.device_state device).bench.armed ≡ 0 }
    ensures valid { IsGiven script.now.config }
    ensures lives { LivesOn (D.medium script.now.config) script.now.config (device_of (D.device_state device)) (device_of (D.device_state result.device))
        (content script.now).lives result.lives }
{
    witness(&script.config);
    run_in_lanes::<R, G, D>(rt, gate, alloc, device, &script.config, dids, &script.lives)
}

/// The script of a load.
#[inline(never)]
fn loaded(alloc: Global, count: u32, lanes: bool) -> Fetched
    requires some { 1 ≤ count }
    requires few { count ≤ 60000 }
    ensures { (dids : List DidUse) → IsLoaded dids count lanes result }
{
    match load(alloc, count, lanes) {
        Ok(script) => Fetched::Script(script),
        Err(_) => Fetched::Memory,
    }
}

/// The script of a command: that of the source, or that of a load, which reads nothing.
fn script_for<S: Source>(
    alloc: Global,
    command: Command,
    source: &mut S,
    dids: &DidTable<DID_ROWS>,
) -> Fetched
    requires { IsLoadInRange (Some command) }
    ensures { IsScriptFor (dids_of dids.now) (S.left source.old) (S.left source.new) (S.faults source.old) (S.faults source.new) command result }
{
    match command {
        Command::Run | Command::Check => fetch(alloc, source, dids),
        Command::Load { count, lanes } => loaded(alloc, count, lanes),
    }
}

/// How a check ends of a script; nothing if memory ran out.
fn accepted(alloc: Global, script: &Script) -> Option<Ending>
    ensures { IfSome result (λ ending. TellsAccepted (content script.now) ending) }
{
    match accepted_line(alloc, script) {
        Ok(line) => Some(Ending::Accepted(line)),
        Err(_) => None,
    }
}

/// How a command ends that made these lives.
fn ended(command: Command, made: Made) -> Ending
    ensures { result ≡ ending_by command made }
{
    match command {
        Command::Load { .. } => Ending::Loaded(made),
        Command::Run | Command::Check => Ending::Ran(made),
    }
}

/// The command, if it needs no lock: a check, or a load without lanes.
fn plain_of(command: Option<Command>) -> Option<Command>
    ensures { result ≡ plain_of command }
{
    match command {
        Some(Command::Check) => Some(Command::Check),
        Some(
            Command::Load {
                count,
                lanes: false,
            },
        ) => Some(Command::Load {
            count,
            lanes: false,
        }),
        _ => None,
    }
}

/// Carries out a command that needs no lock; each other command is answered as none.
#[inline(never)]
pub(crate) fn perform_plain<S: Source, D: Driver>(
    alloc: Global,
    command: Option<Command>,
    source: &mut S,
    device: D::Device,
    dids: DidTable<DID_ROWS>,
) -> (Option<Ending>, D::Device)
    requires range { IsLoadInRange command }
    requires serves { ServesAll D.serves (D.device_state device) }
    requires boots { 256 ≤ (D.device_state device).bench.boots_left }
    requires unarmed { (D.device_state device).bench.armed ≡ 0 }
    ensures { ComesTo (dids_of dids)
        (inside_of S.left S.faults source.old source.new D.medium (D.device_state device) (D.device_state result.1)) (plain_of command) result.0 }
{
    let Some(command) = plain_of(command) else {
        return (Some(Ending::Usage), device);
    };
    match script_for(alloc, command, source, &dids) {
        Fetched::Script(script) => {
            if let Command::Check = command {
                return (accepted(alloc, &script), device);
            }
            let Run { lives, device } = live_alone::<D>(alloc, device, &script, dids);
            (
                made_of(script, lives).map(|made| ended(command, made)),
                device,
            )
        }
        Fetched::Refused(fault) => (Some(Ending::Refused(fault)), device),
        Fetched::Failed => (Some(Ending::Unreadable), device),
        Fetched::Memory => (None, device),
    }
}

/// Carries out a command, and answers what the run came to, or nothing if memory ran out, and the device as it left it.
pub(crate) fn perform<R: Threads + Wait + Sync, G: SharedGate, S: Source, D: Driver>(
    rt: &R,
    gate: &G,
    alloc: Global,
    command: Option<Command>,
    source: &mut S,
    device: D::Device,
    dids: DidTable<DID_ROWS>,
) -> (Option<Ending>, D::Device)
    requires range { IsLoadInRange command }
    requires serves { ServesAll D.serves (D.device_state device) }
    requires boots { 256 ≤ (D.device_state device).bench.boots_left }
    requires unarmed { (D.device_state device).bench.armed ≡ 0 }
    ensures { ComesTo (dids_of dids)
        (inside_of S.left S.faults source.old source.new D.medium (D.device_state device) (D.device_state result.1)) command result.0 }
{
    if plain_of(command).is_some() {
        return perform_plain::<S, D>(alloc, command, source, device, dids);
    }
    let Some(command) = command else {
        return (Some(Ending::Usage), device);
    };
    match script_for(alloc, command, source, &dids) {
        Fetched::Script(script) => {
            let Run { lives, device } = live_in_lanes::<R, G, D>(
                rt, gate, alloc, device, &script, dids,
            );
            (
                made_of(script, lives).map(|made| ended(command, made)),
                device,
            )
        }
        Fetched::Refused(fault) => (Some(Ending::Refused(fault)), device),
        Fetched::Failed => (Some(Ending::Unreadable), device),
        Fetched::Memory => (None, device),
    }
}
