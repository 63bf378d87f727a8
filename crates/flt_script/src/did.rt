ghost use Rattle.std.specs.Prelude.{◌≡◌, ◌<◌, Some, find, length};
ghost use Rattle.flt_did.specs.Rows.{is_did};
ghost use Rattle.flt_did.specs.Table.{dids_of};
ghost use Rattle.flt_script.specs.Behind.{uses_of, with_use_at};

use flt_config::{DIDS, DidUse, EventCfg};
use flt_did::{DID_ROWS, DidTable};

/// A data identifier of the table, with its width.
pub(crate) fn use_of(dids: &DidTable<DID_ROWS>, id: u16) -> Option<DidUse>
    ensures { result ≡ find (is_did id) (dids_of dids.now) }
{
    let width = dids.width(id)?;
    Some(DidUse { id, width })
}

/// Adds a data identifier to those that an event uses.
pub(crate) fn add_use(events: &mut [EventCfg], event: usize, did: DidUse)
    requires within { event < length events.old }
    requires room { length (uses_of event events.old) < DIDS }
    ensures { events.new ≡ with_use_at event (Some did) events.old }
{
    events[event].dids.push(did);
}
