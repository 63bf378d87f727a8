//! The pages of a dump.
ghost use Rattle.std.specs.Prelude.{◌≡◌, ◌+◌, ◌<◌, ◌^◌, Ok, IfOk, IfErr, vec_len};
ghost use Rattle.flt_script.specs.Text.{lines_of};
ghost use Rattle.flt_dump.specs.Dump.{page_spelled, pages_spelled};
ghost use Rattle.flt_dump.specs.Pages.{IsWrongLine};

use flt_script::next_line;
use std::alloc::{AllocError, Global};

/// Why lines are no pages.
#[derive(Clone, Copy)]
pub(crate) enum PagesFault {
    /// Memory ran out.
    Memory,
    /// The number of the first line that is wrong, missing or too many.
    Line(usize),
}

impl From<AllocError> for PagesFault {
    ghost use Rattle.flt_dump.specs.declared.pages.PagesFault.TheVariants.{Memory};

    ghost from_gives = { λ _ fault. fault ≡ Memory };

    fn from(_: AllocError) -> PagesFault {
        PagesFault::Memory
    }
}

/// The page that a line of 64 hexadecimal digits spells.
fn read_page(line: &[u8]) -> Option<[u8; 32]>
    ensures { result ≡ page_spelled line.now }
{
    let mut page = [0; 32];
    match hex::decode_to_slice(line, &mut page) {
        Ok(()) => Some(page),
        Err(_) => None,
    }
}

/// The pages that this many lines of a text spell, of which the first has this number. The text has no line more.
pub(crate) fn read_pages(
    alloc: Global,
    text: &[u8],
    first: usize,
    count: usize,
) -> Result<Vec<[u8; 32]>, PagesFault>
    requires { first + count < 2 ^ 64 }
    ensures pages { IfOk result (λ pages. pages_spelled first count (lines_of text.now) ≡ Ok pages.items) }
    ensures many { IfOk result (λ pages. vec_len pages ≡ count) }
    ensures wrong { IfErr result (λ fault. IsWrongLine fault (pages_spelled first count (lines_of text.now))) }
{
    let mut pages = Vec::with_capacity(alloc, count)?;
    let mut rest = text;
    for index in 0..count {
        let number = first + index;
        let Some((line, others)) = next_line(rest) else {
            return Err(PagesFault::Line(number));
        };
        let Some(page) = read_page(line) else {
            return Err(PagesFault::Line(number));
        };
        pages.push_reserved(page);
        rest = others;
    }
    match next_line(rest) {
        Some(_) => Err(PagesFault::Line(first + count)),
        None => Ok(pages),
    }
}
