//! The lines before the pages of a dump.
ghost use Rattle.std.specs.Prelude.{◌≡◌, None, IfNone, IfSome};
ghost use Rattle.flt_dump.specs.Dump.{image_at, is_image};
ghost use Rattle.flt_dump.specs.Lines.{IsImageLine};

use flt_script::{place_of_feed, without_return};

/// Where the line `image` of a dump is.
#[derive(Clone, Copy)]
pub(crate) struct ImageLine {
    /// How many lines are before it.
    pub(crate) before: usize,
    /// Its first byte.
    pub(crate) from: usize,
    /// The first byte after it.
    pub(crate) behind: usize,
}

fn is_image(line: &[u8]) -> bool
    ensures { result ≡ is_image line.now }
{
    matches!(line, b"image")
}

/// Finds the first line `image` of a dump.
pub(crate) fn find_image(bytes: &[u8]) -> Option<ImageLine>
    ensures none { IfNone result (image_at bytes.now ≡ None) }
    ensures found { IfSome result (IsImageLine bytes.now) }
{
    let mut before = 0;
    let mut from = 0;
    while let Some(end) = place_of_feed(&bytes[from..]) {
        let behind = from + end + 1;
        if is_image(without_return(&bytes[from..from + end])) {
            return Some(ImageLine {
                before,
                from,
                behind,
            });
        }
        from = behind;
        before += 1;
    }
    if is_image(&bytes[from..]) {
        let behind = bytes.len();
        return Some(ImageLine {
            before,
            from,
            behind,
        });
    }
    None
}
