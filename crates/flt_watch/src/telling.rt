//! What is reported of a watch.
ghost use Rattle.std.specs.Prelude.{◌≡◌, ◌≢◌, ◌<◌, ◌+◌, ◌^◌, IfOk};
ghost use Rattle.std.specs.String.{string_bytes};
ghost use Rattle.flt_io.specs.Written.{Writes};
ghost use Rattle.flt_restore.specs.declared.fault.StartFault.TheVariants.{Flash};
ghost use Rattle.flt_step.specs.Part.{parts_of};
ghost use Rattle.flt_life_model.specs.declared.life.Boot.TheVariants.{Refused};
ghost use Rattle.flt_life_model.specs.Parts.{widths};
ghost use Rattle.flt_notify.specs.Table.{value_of_kind};
ghost use Rattle.flt_watch.specs.Text.{other_line, value_line, value_text, values_text, watch_text};

use crate::life::WatchedLife;
use flt_io::{Sink, StreamFault};
use flt_notify::{KINDS, SubTable};
use flt_report::{write_life, write_text};
use flt_step::Part;
use std::alloc::{AllocError, Global};

const OTHER: &[u8] = b"script other\n";

/// Writes that a watch does not make the script.
pub(crate) fn write_other<K: Sink>(sink: &mut K) -> Result<(), StreamFault>
    ensures { Writes K.held K.faults sink.old sink.new other_line result }
{
    write_text(OTHER, sink)
}

/// The line of a kind and its value.
fn value_line(alloc: Global, kind: u8, value: u64) -> Result<String, AllocError>
    ensures { IfOk result (λ line. string_bytes line ≡ value_line kind value) }
{
    format!(in alloc; "watch {kind} value {value}\n")
}

/// Writes the line of a kind, where it has a subscriber.
fn write_value<K: Sink>(
    alloc: Global,
    subs: &SubTable<KINDS>,
    kind: u8,
    sink: &mut K,
) -> Result<(), StreamFault>
    ensures { Writes K.held K.faults sink.old sink.new (value_text kind (value_of_kind subs.now kind)) result }
{
    match subs.value(kind) {
        Some(value) => {
            let line = value_line(alloc, kind, value)?;
            write_text(line.as_bytes(), sink)
        }
        None => Ok(()),
    }
}

/// Writes the lines of the kinds, in their order.
fn write_values<K: Sink>(
    alloc: Global,
    subs: &SubTable<KINDS>,
    sink: &mut K,
) -> Result<(), StreamFault>
    ensures { Writes K.held K.faults sink.old sink.new (values_text (value_of_kind subs.now)) result }
{
    write_value(alloc, subs, 0, sink)?;
    write_value(alloc, subs, 1, sink)?;
    write_value(alloc, subs, 2, sink)
}

/// Writes the lines of a watched life, and those of the kinds after them.
pub(crate) fn write_watched<K: Sink>(
    alloc: Global,
    parts: &[Part],
    watched: &WatchedLife,
    sink: &mut K,
) -> Result<(), StreamFault>
    requires flash { watched.now.life.boot ≢ Refused Flash }
    requires lanes { widths (parts_of parts.now) + 1 < 2 ^ 32 }
    ensures { Writes K.held K.faults sink.old sink.new
        (watch_text (parts_of parts.now) watched.now.life.boot watched.now.life.replies.items (value_of_kind watched.now.subs)) result }
{
    let WatchedLife { life, subs } = watched;
    let mut line = Vec::new(alloc);
    write_life(&mut line, 1, parts, &life.boot, &life.replies, sink)?;
    write_values(alloc, subs, sink)
}
