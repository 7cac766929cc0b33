// What an operand puts into a word. An operand of another kind than the class has puts in something else; the word then
// has another reading, and the encoder sees that.
ghost use Rattle.std.specs.Prelude.{◌≡◌, ◌+◌, ◌*◌, ◌/◌, ◌%◌, ◌^◌, ◌<◌, ◌≤◌, if◌then◌else◌, nat_eq};
ghost use Rattle.word.specs.Word as word;
ghost use Rattle.inverse.specs.Private.Fill.{number_of, base_of, at, branch_back, last_bit};

use reading::Op;

// How many values a register field, an immediate and an index have.
const REGISTERS: u64 = 32;

const IMMEDIATES: u64 = 0x1_0000;

const INDEXES: u64 = 0x400_0000;

// The bits at which the fields of five bits begin.
pub(crate) const RS: u32 = 21;

pub(crate) const RT: u32 = 16;

pub(crate) const RD: u32 = 11;

pub(crate) const SA: u32 = 6;

// Register 31 in rd.
const RA_IN_RD: u32 = 0xf800;

// The number in an operand, negative ones in two's complement.
fn number_of(o: Op) -> u64
    ensures { result ≡ number_of o }
{
    match o {
        Op::Reg(n) | Op::FReg(n) | Op::Cop0(n) => u64::from(n),
        Op::Imm(z) => word::twos_complement(z),
        // Not in one arm with `Imm`: an or-pattern that binds a signed number gets no proof in a match with an unsigned
        // answer (a bug of the toolchain; tried with `z as u64` too). In `value_of`, lib.rt, the answer is signed.
        Op::Mem(z, _) => word::twos_complement(z),
        Op::Addr(a) => a,
    }
}

fn base_of(o: Op) -> u8
    ensures { result ≡ base_of o }
{
    match o {
        Op::Mem(_, n) => n,
        _ => 0,
    }
}

// ── a register or a number in a field ──

// Its low five bits.
fn low(o: Op) -> u32
    ensures { result ≡ number_of o % 32 }
{
    (number_of(o) % REGISTERS) as u32
}

// The same in the field that begins at this bit of the word.
pub(crate) fn field(o: Op, bit: u32) -> u32
    requires { bit ≤ RS }
    ensures { result ≡ number_of o % 32 * 2 ^ bit }
{
    low(o) << bit
}

// `jalr rs`, where rd is 31, or `jalr rd, rs`.
pub(crate) fn link(n: u8, a: Op, b: Op) -> u32
    ensures { result ≡ (if nat_eq n 1 then at word.rs a + 63488 else at word.rd a + at word.rs b) }
{
    if n == 1 {
        return field(a, RS) + RA_IN_RD;
    }
    field(a, RD) + field(b, RS)
}

// ── bit fields ──

// The last bit of a bit field, in rd, from its size and its first bit.
fn last_bit(o: Op, first: u32) -> u32
    requires { first < 32 }
    ensures { result ≡ last_bit (number_of o) first * 2048 }
{
    ((low(o) + first + 31) % 32) << RD
}

// For `ext` the size is one more than rd, wherever the field begins.
pub(crate) fn ext_size(o: Op) -> u32
    ensures { result ≡ last_bit (number_of o) 0 * 2048 }
{
    last_bit(o, 0)
}

// For `ins` it depends on the first bit.
pub(crate) fn ins_size(o: Op, first: Op) -> u32
    ensures { result ≡ last_bit (number_of o) (number_of first % 32) * 2048 }
{
    last_bit(o, low(first))
}

// ── immediates and targets ──

// As `low`, with another number; as a const parameter it would need a bound in the contract, and say less at a call.
pub(crate) fn imm(o: Op) -> u32
    ensures { result ≡ number_of o % 65536 }
{
    (number_of(o) % IMMEDIATES) as u32
}

// offset(base): the base goes into rs.
pub(crate) fn base(o: Op) -> u32
    ensures { result ≡ base_of o % 32 * 2097152 + number_of o % 65536 }
{
    (u32::from(base_of(o) % 32) << RS) + imm(o)
}

// The offset of a branch at va.
#[tactic(auto, unfolding(inverse::specs::Private::Fill::branch_back))]
pub(crate) fn offset(o: Op, va: u64) -> u32
    ensures { (result ≡ branch_back va (number_of o)) × (result < 65536) }
{
    let next = va.wrapping_add(4);
    let ahead = number_of(o).wrapping_sub(next);
    (ahead / 4 % IMMEDIATES) as u32
}

// The index of a jump.
pub(crate) fn index(o: Op) -> u32
    ensures { result ≡ number_of o / 4 % 67108864 }
{
    (number_of(o) / 4 % INDEXES) as u32
}
