//! Texts, numbers and bytes, put where room was reserved.
ghost use Rattle.std.specs.Prelude.{◌≡◌, ◌≤◌, ◌<◌, ◌+◌, ◌*◌, ◌++◌, ◌∷◌, [], length, true, vec_len};
ghost use Rattle.std.specs.Fmt.{decimal, signed_decimal, digit_glyph};
ghost use Rattle.std.specs.Vec.{vec_capacity};
ghost use Rattle.flt_step.specs.Words.{two_digits, spaced, bytes_text};
ghost use Rattle.flt_step.specs.Puts.{Puts};

/// Puts a text.
#[inline]
pub fn put_text(text: &[u8], out: &mut Vec<u8>)
    requires { vec_len out.old + length text.now ≤ vec_capacity out.old }
    ensures items { out.new.items ≡ out.old.items ++ text.now }
    ensures len { vec_len out.new ≡ vec_len out.old + length text.now }
    ensures room { vec_capacity out.old ≤ vec_capacity out.new }
{
    let Ok(()) = out.extend_from_slice(text) else {
        unreachable!()
    };
}

/// Puts the two digits of a number from 10 to 99.
#[tactic(auto, using(crate::proofs::Decimals::two_digits, crate::proofs::Decimals::count_two))]
fn put_two_digits(number: u32, out: &mut Vec<u8>)
    requires least { 10 ≤ number }
    requires most { number < 100 }
    requires room { vec_len out.old + 2 ≤ vec_capacity out.old }
    ensures items { out.new.items ≡ out.old.items ++ decimal number }
    ensures len { vec_len out.new ≡ vec_len out.old + length (decimal number) }
    ensures room { vec_capacity out.old ≤ vec_capacity out.new }
{
    out.push_reserved(b'0' + (number / 10) as u8);
    out.push_reserved(b'0' + (number % 10) as u8);
}

/// Puts the digits of a number.
#[tactic(auto, using(crate::proofs::Decimals::digits))]
fn put_digits(number: u32, out: &mut Vec<u8>)
    requires { vec_len out.old + length (decimal number) ≤ vec_capacity out.old }
    ensures items { out.new.items ≡ out.old.items ++ decimal number }
    ensures len { vec_len out.new ≡ vec_len out.old + length (decimal number) }
    ensures room { vec_capacity out.old ≤ vec_capacity out.new }
{
    if number < 10 {
        out.push_reserved(b'0' + number as u8);
    } else if number < 100 {
        put_two_digits(number, out);
    } else {
        put_digits(number / 10, out);
        out.push_reserved(b'0' + (number % 10) as u8);
    }
}

/// Puts a number, in at most ten digits.
#[tactic(auto, using(crate::proofs::Decimals::at_most_ten))]
pub fn put_number(number: u32, out: &mut Vec<u8>)
    requires { vec_len out.old + 10 ≤ vec_capacity out.old }
    ensures { Puts out.old out.new (decimal number) 10 }
{
    put_digits(number, out);
}

/// Puts a number with its sign, in at most eleven bytes.
pub fn put_signed(number: i8, out: &mut Vec<u8>)
    requires { vec_len out.old + 11 ≤ vec_capacity out.old }
    ensures { Puts out.old out.new (signed_decimal number) 11 }
{
    if number < 0 {
        out.push_reserved(b'-');
    }
    put_number(u32::from(number.unsigned_abs()), out);
}

/// A hexadecimal digit, in upper case.
fn glyph(digit: u8) -> u8
    requires { digit < 16 }
    ensures { result ≡ digit_glyph true digit }
{
    if digit < 10 {
        b'0' + digit
    } else {
        b'A' - 10 + digit
    }
}

/// Puts a byte in two hexadecimal digits.
pub fn put_byte(byte: u8, out: &mut Vec<u8>)
    requires { vec_len out.old + 2 ≤ vec_capacity out.old }
    ensures items { out.new.items ≡ out.old.items ++ two_digits byte }
    ensures len { vec_len out.new ≡ vec_len out.old + 2 }
    ensures room { vec_capacity out.old ≤ vec_capacity out.new }
{
    out.push_reserved(glyph(byte / 16));
    out.push_reserved(glyph(byte % 16));
}

/// Writes bytes over a text that has three places for each: a space and two digits.
fn spell(bytes: &[u8], text: &mut [u8])
    requires { length text.old ≡ 3 * length bytes.now }
    ensures { text.new ≡ spaced bytes.now }
{
    for index in 0..bytes.len() {
        let byte = bytes[index];
        text[3 * index] = b' ';
        text[3 * index + 1] = glyph(byte / 16);
        text[3 * index + 2] = glyph(byte % 16);
    }
}

/// Puts bytes, each after a space.
fn put_spaced(bytes: &[u8], out: &mut Vec<u8>)
    requires { vec_len out.old + 3 * length bytes.now ≤ vec_capacity out.old }
    ensures items { out.new.items ≡ out.old.items ++ spaced bytes.now }
    ensures len { vec_len out.new ≡ vec_len out.old + 3 * length bytes.now }
    ensures room { vec_capacity out.old ≤ vec_capacity out.new }
{
    let from = out.len();
    let Ok(()) = out.resize(from + 3 * bytes.len(), b' ') else {
        unreachable!()
    };
    spell(bytes, &mut out[from..]);
}

/// Puts bytes with single spaces between them.
pub fn put_bytes(bytes: &[u8], out: &mut Vec<u8>)
    requires { vec_len out.old + 3 * length bytes.now ≤ vec_capacity out.old }
    ensures { Puts out.old out.new (bytes_text bytes.now) (3 * length bytes.now) }
{
    let [first, others @ ..] = bytes else {
        return;
    };
    put_byte(*first, out);
    put_spaced(others, out);
}
