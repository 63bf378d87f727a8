ghost use Rattle.std.specs.Prelude.{◌≡◌, ◌≤◌, ◌+◌, ◌==◌, ◌||◌, Some, [], length, nat_lt, is_err, IfOk, OnOk, OnErr, vec_len, if◌then◌else◌};
ghost use Rattle.std.specs.List.{list_any};
ghost use Rattle.std.specs.Vec.{vec_capacity};
ghost use Rattle.std.specs.Io.KnownBytes.{Appends};
ghost use Rattle.flt_io.specs.Fault.{HasCause, one_more};
ghost use Rattle.flt_io.specs.Sink.{AppendsFront};

use crate::failing::is_failing;
use crate::stream::{Failed, Sink};
use std::alloc::{AllocError, Global};

/// A sink that keeps up to `room` bytes in memory.
///
/// It fails exactly at the calls whose numbers, counted from 0, are in `failing`, and when a piece would exceed the room.
/// A call that fails keeps nothing of its piece.
#[derive(Debug, Drop)]
pub struct MemSink {
    bytes: Vec<u8>,
    room: usize,
    failing: Vec<u32>,
    calls: u64,
    faults: u64,
    ghost within: { vec_len bytes ≤ room },
    ghost reserved: { room ≤ vec_capacity bytes },
}

impl MemSink {
    ghost use Rattle.flt_io.specs.Memory.{bytes_held, room_of, failing_pushes, pushes_made, push_faults};

    /// A sink that holds nothing. It allocates all of its memory here, so a push allocates none.
    ///
    /// # Errors
    ///
    /// `AllocError` if there is not enough memory for `room` bytes.
    pub fn new(alloc: Global, room: usize, failing: Vec<u32>) -> Result<MemSink, AllocError>
        ensures bytes { IfOk result (λ s. bytes_held s ≡ []) }
        ensures room { IfOk result (λ s. room_of s ≡ room) }
        ensures failing { IfOk result (λ s. failing_pushes s ≡ failing.items) }
        ensures fresh { IfOk result (λ s. pushes_made s ≡ 0) }
        ensures sound { IfOk result (λ s. push_faults s ≡ 0) }
    {
        let bytes = Vec::with_capacity(alloc, room)?;
        Ok(MemSink {
            bytes,
            room,
            failing,
            calls: 0,
            faults: 0,
        })
    }

    /// The bytes that were pushed, in their order.
    #[must_use]
    pub fn bytes(&self) -> &[u8]
        ensures { result.now ≡ bytes_held self.now }
    {
        &self.bytes
    }
}

impl Sink for MemSink {
    ghost use Rattle.flt_io.specs.Memory.{bytes_held, room_of, failing_pushes, pushes_made, push_faults};

    ghost held = { λ s. Some (bytes_held s) };

    ghost faults = { λ s. push_faults s };

    fn push(&mut self, piece: &[u8]) -> Result<(), Failed>
        ensures ok { OnOk result (Appends (Some (bytes_held self.old)) (Some (bytes_held self.new)) piece.now) }
        ensures err { OnErr result (AppendsFront (Some (bytes_held self.old)) (Some (bytes_held self.new)) piece.now) }
        ensures cause { HasCause (push_faults self.old) (push_faults self.new) result }
        ensures fails { is_err result ≡ (list_any (λ n. n == pushes_made self.old) (failing_pushes self.old)
            || nat_lt (room_of self.old) (length (bytes_held self.old) + length piece.now)) }
        ensures kept { OnErr result (bytes_held self.new ≡ bytes_held self.old) }
        ensures made { pushes_made self.new ≡ one_more (pushes_made self.old) }
        ensures counted { push_faults self.new ≡ (if is_err result then one_more (push_faults self.old) else push_faults self.old) }
        ensures steady { failing_pushes self.new ≡ failing_pushes self.old }
        ensures room { room_of self.new ≡ room_of self.old }
    {
        let call = self.calls;
        self.calls = call.saturating_add(1);
        if is_failing(&self.failing, call) || self.room - self.bytes.len() < piece.len() {
            self.faults = self.faults.saturating_add(1);
            return Err(Failed);
        }
        self.bytes.extend_from_slice(piece).unwrap();
        Ok(())
    }
}
