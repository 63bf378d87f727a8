ghost use Rattle.std.specs.Prelude.{◌≡◌, ◌≤◌, ◌==◌, Some, is_err, vec_len, IfOk, min, length, if◌then◌else◌};
ghost use Rattle.std.specs.List.{list_any};
ghost use Rattle.std.specs.Io.{ReadsAtMost};
ghost use Rattle.std.specs.Io.KnownBytes.{ReadConsumes};
ghost use Rattle.flt_io.specs.Fault.{HasCause, one_more};

use crate::failing::is_failing;
use crate::stream::{Failed, Source};

/// A source over bytes in memory.
///
/// It fails exactly at the calls whose numbers, counted from 0, are in `failing`. A call that fails takes nothing.
#[derive(Debug, Drop)]
pub struct MemSource {
    bytes: Vec<u8>,
    taken: usize,
    failing: Vec<u32>,
    calls: u64,
    faults: u64,
    ghost within: { taken ≤ vec_len bytes },
}

impl MemSource {
    ghost use Rattle.flt_io.specs.Memory.{bytes_left, failing_pulls, pulls_made, pull_faults};

    /// A source of these bytes, none of which was taken yet.
    #[must_use]
    pub fn new(bytes: Vec<u8>, failing: Vec<u32>) -> MemSource
        ensures bytes { bytes_left result ≡ bytes.items }
        ensures failing { failing_pulls result ≡ failing.items }
        ensures fresh { pulls_made result ≡ 0 }
        ensures sound { pull_faults result ≡ 0 }
    {
        MemSource {
            bytes,
            taken: 0,
            failing,
            calls: 0,
            faults: 0,
        }
    }
}

impl Source for MemSource {
    ghost use Rattle.flt_io.specs.Memory.{bytes_left, failing_pulls, pulls_made, pull_faults};

    ghost left = { λ s. Some (bytes_left s) };

    ghost faults = { λ s. pull_faults s };

    fn pull(&mut self, out: &mut [u8]) -> Result<usize, Failed>
        ensures bound { ReadsAtMost result out.new }
        ensures bytes { ReadConsumes (Some (bytes_left self.old)) (Some (bytes_left self.new)) result out.new }
        ensures cause { HasCause (pull_faults self.old) (pull_faults self.new) result }
        ensures fails { is_err result ≡ list_any (λ n. n == pulls_made self.old) (failing_pulls self.old) }
        ensures most { IfOk result (λ n. n ≡ min (length (bytes_left self.old)) (length out.old)) }
        ensures made { pulls_made self.new ≡ one_more (pulls_made self.old) }
        ensures counted { pull_faults self.new ≡ (if is_err result then one_more (pull_faults self.old) else pull_faults self.old) }
        ensures steady { failing_pulls self.new ≡ failing_pulls self.old }
    {
        let call = self.calls;
        self.calls = call.saturating_add(1);
        if is_failing(&self.failing, call) {
            self.faults = self.faults.saturating_add(1);
            return Err(Failed);
        }
        let rest = &self.bytes[self.taken..];
        let count = rest.len().min(out.len());
        out[..count].copy_from_slice(&rest[..count]);
        self.taken += count;
        Ok(count)
    }
}
