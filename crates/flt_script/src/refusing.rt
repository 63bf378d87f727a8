//! The lines that say why there is no script.
ghost use Rattle.std.specs.Prelude.{◌≡◌, ◌++◌, OnOk, OnErr};
ghost use Rattle.flt_io.specs.Written.{Writes};
ghost use Rattle.flt_script.specs.Fault.{script_fault_line, unread_line};

use crate::fault::ScriptFault;
use flt_io::{Sink, StreamFault};
use std::alloc::{AllocError, Global};
use std::fmt::Write;

const UNREAD: &[u8] = b"read fault\n";

/// Puts the line of a script's fault: `script line`, the line and the cause. Where memory is short it puts nothing.
pub fn put_script_fault(fault: &ScriptFault, out: &mut Vec<u8>) -> Result<(), AllocError>
    ensures ok { OnOk result (out.new.items ≡ out.old.items ++ script_fault_line fault.now) }
    ensures err { OnErr result (out.new.items ≡ out.old.items) }
{
    let line = format!(in *out.allocator(); "{fault}\n")?;
    out.extend_from_slice(line.as_bytes())
}

/// Writes that the source of a script failed.
pub fn write_unread<K: Sink>(sink: &mut K) -> Result<(), StreamFault>
    ensures { Writes K.held K.faults sink.old sink.new unread_line result }
{
    sink.push(UNREAD)?;
    Ok(())
}

/// Writes why bytes are no script.
pub fn write_script_fault<K: Sink>(
    alloc: Global,
    fault: &ScriptFault,
    sink: &mut K,
) -> Result<(), StreamFault>
    ensures { Writes K.held K.faults sink.old sink.new (script_fault_line fault.now) result }
{
    let mut line = Vec::new(alloc);
    put_script_fault(fault, &mut line)?;
    sink.push(&line)?;
    Ok(())
}
