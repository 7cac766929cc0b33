// The fields of a word, and the numbers worked out of them: the `let`s at the head of the source's `decode_word`.
// Depends on nothing but std.
#![tactic(auto, unfolding(crate::specs::Word::fields_of))]

ghost use Rattle.std.specs.Prelude.{◌≡◌, ◌+◌, ◌*◌, ◌<◌, ◌≤◌, pos};
ghost use Rattle.word.specs.Word.{bits, fields_of, op, rs, rt, rd, sa, funct};
ghost use Rattle.word.specs.Numbers.{imm, index, signed, modulo64, branch_to, jump_to, upper, size_of, little_endian};
ghost use Rattle.word.specs.Numbers.{big_endian, word_in};

// How many values an immediate and an index have.
const IMMEDIATES: u32 = 0x1_0000;

const INDEXES: u32 = 0x400_0000;

// The bits of an immediate, by which `lui` shifts it.
const IMMEDIATE_BITS: u32 = 16;

// A jump stays within a region of this many bytes.
const REGION: u64 = 0x1000_0000;

// The field in bits LAST..FIRST of a word, as the manual draws it.
fn field<const LAST: u32, const FIRST: u32>(w: u32) -> u8
    requires { (FIRST ≤ LAST) × (LAST < 32) × (LAST < FIRST + 8) }
    ensures { result ≡ bits LAST FIRST w }
{
    ((w >> FIRST) % (1 << (LAST + 1 - FIRST))) as u8
}

// The six fields have the manual's names, each with its own clause; what they share is in `field`.

pub fn op(w: u32) -> u8
    ensures { result ≡ fields_of w op }
{
    field::<31, 26>(w)
}

pub fn rs(w: u32) -> u8
    ensures { result ≡ fields_of w rs }
{
    field::<25, 21>(w)
}

pub fn rt(w: u32) -> u8
    ensures { result ≡ fields_of w rt }
{
    field::<20, 16>(w)
}

pub fn rd(w: u32) -> u8
    ensures { result ≡ fields_of w rd }
{
    field::<15, 11>(w)
}

pub fn sa(w: u32) -> u8
    ensures { result ≡ fields_of w sa }
{
    field::<10, 6>(w)
}

pub fn funct(w: u32) -> u8
    ensures { result ≡ fields_of w funct }
{
    field::<5, 0>(w)
}

// A field as a signed number: the source's `sa as i64`.
pub fn number(x: u8) -> i64
    ensures { result ≡ pos x }
{
    i64::from(x)
}

// The immediate, the low sixteen bits: the source's `as u16`.
#[tactic(auto, using(crate::proofs::Fields::imm_low))]
fn immediate(w: u32) -> u16
    ensures { result ≡ imm (fields_of w) }
{
    (w % IMMEDIATES) as u16
}

// The immediate as a number from 0 on.
pub fn uimm(w: u32) -> i64
    ensures { result ≡ pos (imm (fields_of w)) }
{
    i64::from(immediate(w))
}

// The immediate as a signed number: the source's `as u16 as i16 as i64`.
#[tactic(auto, using(crate::proofs::Signed::i16_is, crate::proofs::Fields::imm_fits))]
pub fn simm(w: u32) -> i64
    ensures { result ≡ signed 16 (imm (fields_of w)) }
{
    i64::from(immediate(w).cast_signed())
}

// The 26-bit index of `j` and `jal`.
#[tactic(auto, using(crate::proofs::Fields::index_low))]
fn jump_index(w: u32) -> u32
    ensures { result ≡ index (fields_of w) }
{
    w % INDEXES
}

// The 64 bits of a signed number: the source's `as u64`.
pub fn twos_complement(x: i64) -> u64
    ensures { result ≡ modulo64 x }
{
    x.cast_unsigned()
}

// Where a branch at va goes.
pub fn branch_target(w: u32, va: u64) -> u64
    ensures { result ≡ branch_to va (imm (fields_of w)) }
{
    let offset = 4 * simm(w);
    let next = va.wrapping_add(4);
    next.wrapping_add(twos_complement(offset))
}

// Where a jump at va goes: its upper bits are those of the address after it, not of its own.
#[tactic(auto, using(crate::proofs::Fields::index_fits), unfolding(crate::specs::Numbers::jump_to))]
pub fn jump_target(w: u32, va: u64) -> u64
    ensures { result ≡ jump_to va (index (fields_of w)) }
{
    let next = va.wrapping_add(4);
    next / REGION * REGION + 4 * u64::from(jump_index(w))
}

// The value of `lui`, the source's `(uimm << 16) as i32 as i64`: 0x7fff0000 down to -0x80000000.
#[tactic(auto, using(crate::proofs::Signed::i32_is, crate::proofs::Fields::imm_fits))]
fn lui(w: u32) -> i64
    ensures { result ≡ signed 32 (imm (fields_of w) * 65536) }
{
    i64::from((u32::from(immediate(w)) << IMMEDIATE_BITS).cast_signed())
}

// What `lui` leaves in its register: the 64 bits of that value.
#[tactic(auto, unfolding(crate::specs::Numbers::upper))]
pub fn lui_value(w: u32) -> u64
    ensures { result ≡ upper (imm (fields_of w)) }
{
    twos_complement(lui(w))
}

// The size of `ins`: 32 down to -30.
#[tactic(auto, unfolding(crate::specs::Numbers::size_of))]
pub fn ins_size(w: u32) -> i64
    ensures { result ≡ size_of (fields_of w rd) (fields_of w sa) }
{
    number(rd(w)) - number(sa(w)) + 1
}

// Both orders are public, each with the number that it gives in its own clause; `from_bytes` chooses.

pub fn from_le_bytes(b: [u8; 4]) -> u32
    ensures { result ≡ little_endian b }
{
    u32::from_le_bytes(b)
}

pub fn from_be_bytes(b: [u8; 4]) -> u32
    ensures { result ≡ big_endian b }
{
    u32::from_be_bytes(b)
}

// The word that four bytes are, in the order that the flag says.
pub fn from_bytes(b: [u8; 4], big_endian: bool) -> u32
    ensures { result ≡ word_in big_endian b }
{
    if big_endian {
        from_be_bytes(b)
    } else {
        from_le_bytes(b)
    }
}
