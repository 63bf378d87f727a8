//! Programs of a sector: its gates and the pages of its log.
ghost use Rattle.std.specs.Prelude.{◌≡◌, ◌<◌, ◌≤◌, true, length};
ghost use Rattle.flt_flash.specs.Image.{page_at, blank_page};
ghost use Rattle.flt_code.specs.declared.words.Word.TheVariants.{Start, Active, Head, Gate};
ghost use Rattle.flt_code.specs.Seal.{sealed};
ghost use Rattle.flt_code.specs.Word.{word_bytes, is_length};
ghost use Rattle.flt_pages.specs.Append.{Appends, AppendsPiece, BeginsSector, padded_page};

use flt_code::{Word, put_word, seal};
use flt_flash::{BLANK_PAGE, Flash, FlashFailed};

/// Programs the head of a record of `length` bytes, 1 to 128 for a valid one and 0 for an invalid one, on a blank page.
/// After a failure the head is whole or the page is not a code word.
pub fn append_head<F: Flash>(
    flash: &mut F,
    sector: u8,
    page: u16,
    block: u16,
    length: u16,
    valid: bool,
) -> Result<(), FlashFailed>
    requires sector { sector < 2 }
    requires page { page < (F.state flash.old).pages }
    requires blank { page_at (F.state flash.old).image sector page ≡ blank_page }
    requires length { is_length valid length ≡ true }
    ensures appends { Appends (F.state flash.old) (F.state flash.new) sector page (sealed (word_bytes (Head block length valid page))) result }
{
    let word = Word::Head {
        block,
        length,
        valid,
        page,
    };
    flash.program(sector, page, &seal(&put_word(&word)))
}

/// Programs the gate of the record of `block` whose head is at the page `head`, on a blank page. After a failure the
/// gate is whole or the page is not a code word.
pub fn append_gate<F: Flash>(
    flash: &mut F,
    sector: u8,
    page: u16,
    block: u16,
    head: u16,
) -> Result<(), FlashFailed>
    requires sector { sector < 2 }
    requires page { page < (F.state flash.old).pages }
    requires blank { page_at (F.state flash.old).image sector page ≡ blank_page }
    ensures appends { Appends (F.state flash.old) (F.state flash.new) sector page (sealed (word_bytes (Gate block head))) result }
{
    let word = Word::Gate { block, page: head };
    flash.program(sector, page, &seal(&put_word(&word)))
}

/// The bytes, padded with ones.
pub fn fill_up(bytes: &[u8]) -> [u8; 32]
    requires { length bytes.now ≤ 32 }
    ensures { result ≡ padded_page bytes.now }
{
    let mut page = BLANK_PAGE;
    page[..bytes.len()].copy_from_slice(bytes);
    page
}

/// Programs at most 32 plain bytes, padded with ones, on a blank page. After a failure each bit is 1 or as asked.
pub fn append_piece<F: Flash>(
    flash: &mut F,
    sector: u8,
    page: u16,
    bytes: &[u8],
) -> Result<(), FlashFailed>
    requires sector { sector < 2 }
    requires page { page < (F.state flash.old).pages }
    requires blank { page_at (F.state flash.old).image sector page ≡ blank_page }
    requires most { length bytes.now ≤ 32 }
    ensures appends { AppendsPiece (F.state flash.old) (F.state flash.new) sector page (padded_page bytes.now) result }
{
    flash.program(sector, page, &fill_up(bytes))
}

/// Programs the active gate on page 1, which is blank; this makes the sector valid. After a failure the gate is
/// whole or the page is not a code word.
pub fn activate<F: Flash>(flash: &mut F, sector: u8, sequence: u32) -> Result<(), FlashFailed>
    requires sector { sector < 2 }
    requires page { 1 < (F.state flash.old).pages }
    requires blank { page_at (F.state flash.old).image sector 1 ≡ blank_page }
    ensures appends { Appends (F.state flash.old) (F.state flash.new) sector 1 (sealed (word_bytes (Active sequence))) result }
{
    let word = Word::Active { sequence };
    flash.program(sector, 1, &seal(&put_word(&word)))
}

/// Erases a sector and programs its start gate on page 0. After a failure each bit of the sector is as before or 1, or the
/// sector is blank except for page 0, which has the whole start gate or no code word.
pub fn begin<F: Flash>(
    flash: &mut F,
    sector: u8,
    used: u16,
    sequence: u32,
) -> Result<(), FlashFailed>
    requires sector { sector < 2 }
    requires least { 2 ≤ used }
    requires most { used ≤ (F.state flash.old).pages }
    ensures begins { BeginsSector (F.state flash.old) (F.state flash.new) sector (sealed (word_bytes (Start sequence used))) result }
{
    flash.erase(sector)?;
    let word = Word::Start {
        sequence,
        pages: used,
    };
    flash.program(sector, 0, &seal(&put_word(&word)))
}
