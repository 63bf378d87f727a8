ghost use Rattle.std.specs.Prelude.{◌≡◌, slice_index};
ghost use Rattle.flt_script.specs.Behind.{no_places};
ghost use Rattle.flt_script.specs.Script.{line_of_fault};

use arrayvec::ArrayVec;
use flt_config::{CfgFault, EVENTS, Field};

/// The numbers of the lines that configure, counted from 1.
#[derive(Drop)]
pub(crate) struct Places {
    pub(crate) config: Option<u32>,
    pub(crate) memory: Option<u32>,
    pub(crate) blocks: Option<u32>,
    pub(crate) flash: Option<u32>,
    /// Those of the events, by number.
    pub(crate) events: ArrayVec<u32, EVENTS>,
}

impl Places {
    pub(crate) fn none() -> Places
        ensures { result ≡ no_places }
    {
        Places {
            config: None,
            memory: None,
            blocks: None,
            flash: None,
            events: ArrayVec::new(),
        }
    }

    fn line_of_event(&self, event: u16) -> u32
        ensures { result ≡ slice_index self.now.events.items event }
    {
        self.events.get(event as usize).copied().unwrap_or(0)
    }

    /// The line at which a fault of the configuration is reported, or 0 where no line wrote what is at fault.
    pub(crate) fn line_of_fault(&self, fault: CfgFault) -> u32
        ensures { result ≡ line_of_fault self.now fault }
    {
        match fault {
            CfgFault::Range {
                event: Some(event),
                ..
            } => self.line_of_event(event),
            CfgFault::Range {
                field: Field::Memory,
                ..
            } => self.memory.unwrap_or(0),
            CfgFault::Range {
                field: Field::Blocks,
                ..
            } => self.blocks.unwrap_or(0),
            CfgFault::DtcTwice { second, .. } => self.line_of_event(second),
            CfgFault::Range { .. } | CfgFault::NoRoom { .. } => self.flash.unwrap_or(0),
        }
    }
}
