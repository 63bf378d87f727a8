//! The words of a sector's pages.
ghost use Rattle.std.specs.Prelude.{◌≡◌, ◌≢◌, Some, IfSome, IfNone};
ghost use Rattle.flt_code.specs.declared.words.Word.{Word};
ghost use Rattle.flt_code.specs.Word.{IsWord, IsWordOf, word_bytes, active_in, checked, gate_word_in, head_in, is_length, start_in, word_of};

/// What the 16 bytes of a code word say. Numbers are big-endian, and the word is padded with bytes of 0.
#[derive(Clone, Copy, Debug, PartialEq, Eq)]
pub enum Word {
    /// `53 01`, sequence, pages: the sector was erased and uses this many pages.
    Start {
        sequence: u32,
        pages: u16,
    },
    /// `41 01`, sequence: the sector holds every block.
    Active {
        sequence: u32,
    },
    /// `48`, `01` if it is valid and `02` if not, block, length, page: a record of this many bytes, whose head
    /// is at this page. A valid one has 1 to 128 bytes, an invalid one 0.
    Head {
        block: u16,
        length: u16,
        valid: bool,
        page: u16,
    },
    /// `47 01`, block, page: the record of this block whose head is at this page is complete.
    Gate {
        block: u16,
        page: u16,
    },
}

/// The bytes of a word.
pub fn put_word(word: &Word) -> [u8; 16]
    requires { IsWord word.now }
    ensures bytes { result ≡ word_bytes word.now }
    ensures read { word_of result ≡ Some word.now }
{
    word_to_bytes(word)
}

#[inline(always)]
#[tactic(auto, unfolding(crate::specs::Word::word_bytes))]
fn word_to_bytes(word: &Word) -> [u8; 16]
    ensures { result ≡ word_bytes word.now }
{
    match *word {
        Word::Start { sequence, pages } => {
            let [a, b, c, d] = sequence.to_be_bytes();
            let [e, f] = pages.to_be_bytes();
            [0x53, 1, a, b, c, d, e, f, 0, 0, 0, 0, 0, 0, 0, 0]
        }
        Word::Active { sequence } => {
            let [a, b, c, d] = sequence.to_be_bytes();
            [0x41, 1, a, b, c, d, 0, 0, 0, 0, 0, 0, 0, 0, 0, 0]
        }
        Word::Head {
            block,
            length,
            valid,
            page,
        } => {
            let kind = if valid { 1 } else { 2 };
            let [a, b] = block.to_be_bytes();
            let [c, d] = length.to_be_bytes();
            let [e, f] = page.to_be_bytes();
            [0x48, kind, a, b, c, d, e, f, 0, 0, 0, 0, 0, 0, 0, 0]
        }
        Word::Gate { block, page } => {
            let [a, b] = block.to_be_bytes();
            let [c, d] = page.to_be_bytes();
            [0x47, 1, a, b, c, d, 0, 0, 0, 0, 0, 0, 0, 0, 0, 0]
        }
    }
}

fn is_length(valid: bool, length: u16) -> bool
    ensures { result ≡ is_length valid length }
{
    if valid {
        1 <= length && length <= 128
    } else {
        length == 0
    }
}

/// The word, where these are its bytes.
#[inline(always)]
fn checked(word: Word, bytes: &[u8; 16]) -> Option<Word>
    requires { IsWord word }
    ensures word { IfSome result (λ word. IsWordOf word bytes.now) }
    ensures read { result ≡ checked (Some word) bytes.now }
{
    if word_to_bytes(&word) == *bytes {
        Some(word)
    } else {
        None
    }
}

/// A start gate, where these are its bytes.
#[inline(always)]
fn read_start(bytes: &[u8; 16]) -> Option<Word>
    ensures word { IfSome result (λ word. IsWordOf word bytes.now) }
    ensures read { result ≡ checked (Some (start_in bytes.now)) bytes.now }
{
    let [_, _, a, b, c, d, e, f, ..] = *bytes;
    let start = Word::Start {
        sequence: u32::from_be_bytes([a, b, c, d]),
        pages: u16::from_be_bytes([e, f]),
    };
    checked(start, bytes)
}

/// An active gate, where these are its bytes.
#[inline(always)]
fn read_active(bytes: &[u8; 16]) -> Option<Word>
    ensures word { IfSome result (λ word. IsWordOf word bytes.now) }
    ensures read { result ≡ checked (Some (active_in bytes.now)) bytes.now }
{
    let [_, _, a, b, c, d, ..] = *bytes;
    let active = Word::Active {
        sequence: u32::from_be_bytes([a, b, c, d]),
    };
    checked(active, bytes)
}

/// A head, where these are its bytes.
#[inline(always)]
fn read_head(bytes: &[u8; 16]) -> Option<Word>
    ensures word { IfSome result (λ word. IsWordOf word bytes.now) }
    ensures read { result ≡ checked (head_in bytes.now) bytes.now }
{
    let [_, kind, a, b, c, d, e, f, ..] = *bytes;
    let valid = kind == 1;
    let length = u16::from_be_bytes([c, d]);
    if is_length(valid, length) {
        let head = Word::Head {
            block: u16::from_be_bytes([a, b]),
            length,
            valid,
            page: u16::from_be_bytes([e, f]),
        };
        checked(head, bytes)
    } else {
        None
    }
}

/// A gate, where these are its bytes.
#[inline(always)]
fn read_gate(bytes: &[u8; 16]) -> Option<Word>
    ensures word { IfSome result (λ word. IsWordOf word bytes.now) }
    ensures read { result ≡ checked (Some (gate_word_in bytes.now)) bytes.now }
{
    let [_, _, a, b, c, d, ..] = *bytes;
    let gate = Word::Gate {
        block: u16::from_be_bytes([a, b]),
        page: u16::from_be_bytes([c, d]),
    };
    checked(gate, bytes)
}

/// The word that its tag and its fields give, where these are its bytes. Each kind is read by itself, so that its fixed bytes alone are
/// compared.
#[tactic(auto, unfolding(crate::specs::Word::candidate, crate::specs::Word::word_of))]
fn read_word(bytes: &[u8; 16]) -> Option<Word>
    ensures word { IfSome result (λ word. IsWordOf word bytes.now) }
    ensures read { result ≡ word_of bytes.now }
{
    match bytes[0] {
        0x53 => read_start(bytes),
        0x41 => read_active(bytes),
        0x48 => read_head(bytes),
        0x47 => read_gate(bytes),
        _ => None,
    }
}

/// The word of these bytes; `None` if and only if they are not a word.
pub fn get_word(bytes: &[u8; 16]) -> Option<Word>
    ensures word { IfSome result (λ word. IsWordOf word bytes.now) }
    ensures none { IfNone result ((word : Word) → IsWord word → bytes.now ≢ word_bytes word) }
    ensures read { result ≡ word_of bytes.now }
{
    read_word(bytes)
}
