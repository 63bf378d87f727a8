//! A life of a session: from its power-up to a `power`, or to the end of the source.
ghost use Rattle.std.specs.Prelude.{◌≡◌, ◌≢◌, ◌<◌, [], IfOk};
ghost use Rattle.flt_io.specs.Status.{status_number};
ghost use Rattle.flt_io.specs.Written.{Writes};
ghost use Rattle.flt_dcm.specs.Whole.{config_of, unit_seen};
ghost use Rattle.flt_store_model.specs.Holding.{Generation};
ghost use Rattle.flt_restore.specs.declared.fault.StartFault.TheVariants.{Flash};
ghost use Rattle.flt_store.specs.Cause.{HasRoom};
ghost use Rattle.flt_store.specs.Store.{driver_of, IsAlive};
ghost use Rattle.flt_life_model.specs.declared.life.Boot.TheVariants.{Refused};
ghost use Rattle.flt_lives.specs.Living.{IsLiving, IsUnderWay};
ghost use Rattle.flt_report.specs.Boot.{boot_line};
ghost use Rattle.flt_live.specs.Answered.{IsReady};
ghost use Rattle.flt_live.specs.Begun.{BeginsOn};
ghost use Rattle.flt_live.specs.Ahead.{ahead_in};
ghost use Rattle.flt_live.specs.Heard.{talk};
ghost use Rattle.flt_live.specs.Lived.{IsLifeLived, TakesAll, TakesAllDark, lost_by};

use crate::ear::Ear;
use crate::line::{Answered, answer_dark_line, answer_line};
use crate::reader::Line;
use flt_config::ValidConfig;
use flt_dcm::Unit;
use flt_flash::Blocks;
use flt_io::{Sink, Source, Status, StreamFault};
use flt_life_model::{Boot, LaneReplies};
use flt_lives::Buffers;
use flt_model::RESPONSE;
use flt_queue::JobQueue;
use flt_report::{put_boot, status_by};
use flt_store::{StartFault, Store};
use std::alloc::{AllocError, Global};
use std::sync::Wait;

/// How many bytes the line of a step has at most.
const LINE: usize = 4096;

/// The memory that lines need, which is taken once.
#[derive(Drop)]
pub struct Room {
    /// What calls of the machine write to.
    pub buffers: Buffers,
    /// The answer to one step.
    pub replies: LaneReplies,
    /// The line that is written.
    pub line: Vec<u8>,
}

impl Room {
    /// Room for the lines of a session. The error means that memory ran out.
    pub fn new(alloc: Global, config: &ValidConfig) -> Result<Room, AllocError>
        ensures { IfOk result IsReady }
    {
        let replies = LaneReplies::with_room(alloc, 1, RESPONSE)?;
        let line = Vec::with_capacity(alloc, LINE)?;
        Ok(Room {
            buffers: Buffers::new(config),
            replies,
            line,
        })
    }
}

/// Why a life ended.
#[derive(Clone, Copy, Debug, PartialEq, Eq)]
pub enum LifeEnd {
    /// The power comes again.
    Power,
    /// The source has no more line.
    Ended,
    /// The source failed.
    Unread,
    /// The sink failed.
    Unwritten,
    /// Memory ran out.
    Memory,
}

/// How a life ends whose line was not written.
fn lost_by(fault: StreamFault) -> LifeEnd
    ensures { result ≡ lost_by fault }
{
    match fault {
        StreamFault::Memory => LifeEnd::Memory,
        StreamFault::Failed => LifeEnd::Unwritten,
    }
}

/// Takes the lines of the source one after the other, in a life that was started.
fn take_lines<R: Wait, D: Blocks + Drop, S: Source, K: Sink>(
    rt: &R,
    alloc: Global,
    unit: &mut Unit,
    store: &mut Store<D>,
    config: &ValidConfig,
    room: &mut Room,
    ear: &mut Ear,
    source: &mut S,
    sink: &mut K,
) -> LifeEnd
    requires same { config_of unit.old ≡ config.now }
    requires under_way { IsUnderWay config.now (unit_seen unit.old) }
    requires alive { IsAlive config.now store.old }
    requires living { (first : Generation) × IsLiving config.now first [] [] (unit_seen unit.old) store.old }
    requires ready { IsReady room.old }
    ensures same { config_of unit.new ≡ config.now }
    ensures ready { IsReady room.new }
    ensures all { TakesAll config.now (unit_seen unit.old) (unit_seen unit.new) store.old store.new
        (talk (ahead_in (S.left source.old) ear.old) (S.faults source.old) (K.held sink.old) (K.faults sink.old))
        (talk (ahead_in (S.left source.new) ear.new) (S.faults source.new) (K.held sink.new) (K.faults sink.new)) result }
{
    let Ok(mut queue) = JobQueue::new(alloc, config.config().blocks) else {
        return LifeEnd::Memory;
    };
    for _ in rt.forever() {
        let ended = match ear.hear(rt, source) {
            Ok(Line::Ended) => return LifeEnd::Ended,
            Ok(ended) => ended,
            Err(_) => return LifeEnd::Unread,
        };
        let text = ear.text(ended);
        match answer_line(alloc, unit, &mut queue, store, config, room, text, sink) {
            Ok(Answered::Line) => {}
            Ok(Answered::Power) => return LifeEnd::Power,
            Err(fault) => return lost_by(fault),
        }
    }
    unreachable!()
}

/// Takes the lines of the source one after the other, in a dark life.
fn take_dark_lines<R: Wait, S: Source, K: Sink>(
    rt: &R,
    alloc: Global,
    config: &ValidConfig,
    room: &mut Room,
    ear: &mut Ear,
    source: &mut S,
    sink: &mut K,
) -> LifeEnd
    requires ready { IsReady room.old }
    ensures ready { IsReady room.new }
    ensures all { TakesAllDark config.now (talk (ahead_in (S.left source.old) ear.old) (S.faults source.old) (K.held sink.old) (K.faults sink.old))
        (talk (ahead_in (S.left source.new) ear.new) (S.faults source.new) (K.held sink.new) (K.faults sink.new)) result }
{
    for _ in rt.forever() {
        let ended = match ear.hear(rt, source) {
            Ok(Line::Ended) => return LifeEnd::Ended,
            Ok(ended) => ended,
            Err(_) => return LifeEnd::Unread,
        };
        match answer_dark_line(alloc, config, room, ear.text(ended), sink) {
            Ok(Answered::Line) => {}
            Ok(Answered::Power) => return LifeEnd::Power,
            Err(fault) => return lost_by(fault),
        }
    }
    unreachable!()
}

/// Pushes the line that begins a life.
fn say_boot<K: Sink>(
    number: u32,
    boot: &Boot,
    line: &mut Vec<u8>,
    sink: &mut K,
) -> Result<(), StreamFault>
    requires { boot.now ≢ Refused Flash }
    ensures { Writes K.held K.faults sink.old sink.new (boot_line number boot.now) result }
{
    line.clear();
    put_boot(number, boot, line)?;
    sink.push(line)?;
    Ok(())
}

/// How a life ended.
#[derive(Clone, Copy, Debug, PartialEq, Eq)]
pub struct Lived {
    /// The status by how it began.
    pub status: Status,
    /// Why it ended; one that is refused ends at once.
    pub end: LifeEnd,
}

/// Makes the power come, and starts the store up. The state is among the buffers if the life was started.
fn begin<D: Blocks + Drop>(
    store: &mut Store<D>,
    config: &ValidConfig,
    buffers: &mut Buffers,
) -> Boot
    requires room { HasRoom config.now (driver_of store.old).room }
    requires boots { 0 < (driver_of store.old).device.bench.boots_left }
    ensures { BeginsOn config.now (driver_of store.old) result store.new }
{
    store.power_up();
    match store.start_up(config, &mut buffers.state) {
        Ok(generation) => Boot::Started {
            generation,
            start: buffers.state.twin(),
        },
        Err(StartFault::Flash) => Boot::Dark,
        Err(fault) => Boot::Refused(fault),
    }
}

/// Lives from the power-up on: the line that begins the life is pushed, and then each line is answered before the next one is read.
pub fn live<R: Wait, D: Blocks + Drop, S: Source, K: Sink>(
    rt: &R,
    alloc: Global,
    number: u32,
    unit: &mut Unit,
    store: &mut Store<D>,
    config: &ValidConfig,
    room: &mut Room,
    ear: &mut Ear,
    source: &mut S,
    sink: &mut K,
) -> Lived
    requires same { config_of unit.old ≡ config.now }
    requires room { HasRoom config.now (driver_of store.old).room }
    requires boots { 0 < (driver_of store.old).device.bench.boots_left }
    requires ready { IsReady room.old }
    ensures same { config_of unit.new ≡ config.now }
    ensures ready { IsReady room.new }
    ensures lived { IsLifeLived config.now number (status_number result.status) (driver_of store.old) store.new (unit_seen unit.new)
        (talk (ahead_in (S.left source.old) ear.old) (S.faults source.old) (K.held sink.old) (K.faults sink.old))
        (talk (ahead_in (S.left source.new) ear.new) (S.faults source.new) (K.held sink.new) (K.faults sink.new)) result.end }
{
    let boot = begin(store, config, &mut room.buffers);
    let status = status_by(&boot);
    if let Err(fault) = say_boot(number, &boot, &mut room.line, sink) {
        let end = lost_by(fault);
        return Lived { status, end };
    }
    let end = match &boot {
        Boot::Started { start, .. } => {
            unit.boot(start);
            take_lines(rt, alloc, unit, store, config, room, ear, source, sink)
        }
        Boot::Dark => take_dark_lines(rt, alloc, config, room, ear, source, sink),
        Boot::Refused(_) => LifeEnd::Ended,
    };
    Lived { status, end }
}
