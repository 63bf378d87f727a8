//! The source of a run that is traced.
ghost use Rattle.std.specs.Prelude.{◌≡◌, Some};
ghost use Rattle.flt_examine.specs.Source.{bytes_left_in};

use flt_io::{Failed, Source};

/// A source of bytes in memory, which never fails.
#[derive(Drop)]
pub(crate) struct Held<'a> {
    left: &'a [u8],
}

impl<'a> Held<'a> {
    /// A source of these bytes.
    pub(crate) fn new(bytes: &'a [u8]) -> Held<'a>
        ensures { bytes_left_in result ≡ bytes.now }
    {
        Held { left: bytes }
    }
}

impl Source for Held<'_> {
    ghost left = { λ s. Some (bytes_left_in s) };

    ghost faults = { λ s. 0 };

    fn pull(&mut self, out: &mut [u8]) -> Result<usize, Failed> {
        let count = self.left.len().min(out.len());
        out[..count].copy_from_slice(&self.left[..count]);
        self.left = &self.left[count..];
        Ok(count)
    }
}
