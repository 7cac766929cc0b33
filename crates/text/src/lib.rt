// Numbers and names as text, into bytes that a caller lends, and hex digits read out of them. Depends on `buffers`.
// Every function takes any place: the text is written where it has room, else nothing is; its length is the answer
// either way. A number whose digits are not all there is 0.
// Numbers are not printed by `write!`: std says which bytes it writes only where it answers Ok, and never that it does
// (tried: an `unwrap` after it gets no proof), while `count` and its like state their bytes, and cannot fail.
#![tactic(auto)]

ghost use Rattle.std.specs.Prelude.{◌≡◌, ◌≤◌, ◌<◌, ℕ, List, ◌∷◌, length, drop};
ghost use Rattle.buffers.specs.Bytes.{placed};
ghost use Rattle.text.specs.Text.{glyph_of, numeral_of, decimal_of, address_of, hex_of, before_zero};
ghost use Rattle.text.specs.Read.{digit_of, hex_after, hex_at};

use std::marker::Model;

const DECIMAL: u64 = 10;

const HEX: u64 = 16;

// Room for the longest numeral, 2^64 - 1 in decimal, and the two bytes that may stand before one.
const ROOM: usize = 22;

// ── numerals ──

// The digit d; from ten on they are letters.
fn glyph(d: u64) -> u8
    requires { d < 16 }
    ensures { result ≡ glyph_of d }
{
    char::from_digit(d as u32, HEX as u32).unwrap() as u8
}

// A numeral, and what is put before it: the bytes from `start` on, which are written from the last to the first.
#[derive(Drop)]
struct Numeral {
    bytes: [u8; ROOM],
    start: usize,
}

impl Model for Numeral {
    ghost Value = { List ℕ };

    ghost view = { λ n. drop n.start n.bytes };

    ghost invariant = { λ n. n.start ≤ 22 };
}

impl Numeral {
    // The numeral of n.
    fn of(n: u64, base: u64) -> Numeral
        requires { (10 ≤ base) × (base ≤ 16) }
        ensures { result ≡ numeral_of base n }
    {
        let mut numeral = Numeral {
            bytes: [0; ROOM],
            start: ROOM,
        };
        numeral.push_front(glyph(n % base));
        let mut rest = n / base;
        while 0 < rest {
            numeral.push_front(glyph(rest % base));
            rest /= base;
        }
        numeral
    }

    // Puts the byte before all others.
    fn push_front(&mut self, byte: u8)
        requires { length self.old < 22 }
        ensures { self.new ≡ byte ∷ self.old }
    {
        self.start -= 1;
        self.bytes[self.start] = byte;
    }

    // Copies the text to out from place `at` on; answers its length.
    fn put(&self, out: &mut [u8], at: usize) -> usize
        ensures value { result ≡ length self.now }
        ensures out_after { out.new ≡ placed at self.now out.old }
    {
        buffers::put(&self.bytes[self.start..], out, at);
        ROOM - self.start
    }
}

// A number in decimal.
pub fn count(n: u64, out: &mut [u8], at: usize) -> usize
    ensures value { result ≡ length (numeral_of 10 n) }
    ensures out_after { out.new ≡ placed at (numeral_of 10 n) out.old }
{
    Numeral::of(n, DECIMAL).put(out, at)
}

// A signed number in decimal.
#[tactic(auto, using(crate::proofs::Lengths::numeral_most), unfolding(crate::specs::Text::decimal_of))]
pub fn decimal(x: i64, out: &mut [u8], at: usize) -> usize
    ensures value { result ≡ length (decimal_of x) }
    ensures out_after { out.new ≡ placed at (decimal_of x) out.old }
{
    let mut numeral = Numeral::of(x.unsigned_abs(), DECIMAL);
    if x < 0 {
        numeral.push_front(b'-');
    }
    numeral.put(out, at)
}

// An address: 0x and lower-case hex without leading zeros.
#[tactic(auto, using(crate::proofs::Lengths::numeral_most), unfolding(crate::specs::Text::address_of))]
pub fn address(a: u64, out: &mut [u8], at: usize) -> usize
    ensures value { result ≡ length (address_of a) }
    ensures out_after { out.new ≡ placed at (address_of a) out.old }
{
    let mut numeral = Numeral::of(a, HEX);
    numeral.push_front(b'x');
    numeral.push_front(b'0');
    numeral.put(out, at)
}

// ── digits in columns ──

// The hex digits of n in columns, the low digits where there are more. The loop counts: with `columns.iter_mut().rev()`
// the proof did not close, since an invariant cannot speak of the columns while that borrow lasts.
fn hex_digits<const COLUMNS: usize>(n: u64) -> [u8; COLUMNS]
    ensures { result ≡ hex_of COLUMNS n }
{
    let mut columns = [0u8; COLUMNS];
    let mut rest = n;
    for i in (0..COLUMNS).rev() {
        columns[i] = glyph(rest % HEX);
        rest /= HEX;
    }
    columns
}

// Each takes a number of its own width, and so shows all of it; one with the count of columns as a parameter could cut.

// Sixteen hex digits.
pub fn hex16(n: u64, out: &mut [u8], at: usize)
    ensures { out.new ≡ placed at (hex_of 16 n) out.old }
{
    buffers::put(&hex_digits::<16>(n), out, at);
}

// Eight hex digits.
pub fn hex8(n: u32, out: &mut [u8], at: usize)
    ensures { out.new ≡ placed at (hex_of 8 n) out.old }
{
    buffers::put(&hex_digits::<8>(u64::from(n)), out, at);
}

// ── digits read from columns ──

// The value of the digit a.
const LETTER_A: u64 = 10;

// At most so many digits are read: those of 64 bits.
const DIGITS: usize = 16;

// The value of a hex digit, and 0 for any other byte. Not by `to_digit`, which reads capital letters too: by `digit_of`
// they are 0.
#[tactic(auto, unfolding(crate::specs::Read::digit_of))]
fn digit(byte: u8) -> u64
    ensures { result ≡ digit_of byte }
{
    match byte {
        b'0'..=b'9' => u64::from(byte - b'0'),
        b'a'..=b'f' => u64::from(byte - b'a') + LETTER_A,
        _ => 0,
    }
}

// The number in columns. `from_str_radix` would need a text, and reads signs and capital letters in it.
#[tactic(auto, using(crate::proofs::Read::digits))]
fn number(columns: &[u8]) -> u64
    requires { length columns.now ≤ 16 }
    ensures { result ≡ hex_after 0 columns.now }
{
    let mut value = 0;
    for &byte in columns {
        value = HEX * value + digit(byte);
    }
    value
}

// The number whose hex digits are in this many columns from a place on; 0 if they are not all there, or if there are
// more than sixteen: `hex_at`, which its clause names, has 0 there, and no `None`.
#[tactic(auto, unfolding(crate::specs::Read::hex_at))]
pub fn hex_in(b: &[u8], at: usize, digits: usize) -> u64
    ensures { result ≡ hex_at at digits b.now }
{
    if DIGITS < digits {
        return 0;
    }
    b.get(at..)
        .and_then(|rest| rest.get(..digits))
        .map_or(0, number)
}

// ── names ──

// How many bytes stand before the first zero.
fn name_length(b: &[u8]) -> usize
    ensures { result ≡ length (before_zero b.now) }
{
    b.iter().position(|&byte| byte == 0).unwrap_or(b.len())
}

// A name that is padded with zeros, without them.
#[tactic(auto, using(crate::proofs::Lengths::name_most, crate::proofs::Names::name_front))]
pub fn name(b: &[u8], out: &mut [u8], at: usize) -> usize
    ensures value { result ≡ length (before_zero b.now) }
    ensures out_after { out.new ≡ placed at (before_zero b.now) out.old }
{
    let n = name_length(b);
    buffers::put(&b[..n], out, at);
    n
}
