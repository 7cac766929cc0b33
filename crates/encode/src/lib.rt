// The encoder: from a reading to the smallest word that has it. The source has none; it only decodes.
// A class by the mnemonic (`stems`), the operands put into its least word (`put`): one candidate, which is decoded and
// compared. Depends on `refusal`, `word`, `reading` and `decode`; what the answer means is defined in `inverse`.
#![tactic(auto)]

ghost use Rattle.std.specs.Prelude.{◌≡◌, true};
ghost use Rattle.classes.specs.Meaning.{int_of};
ghost use Rattle.classes.specs.Decoded.{decoded_of};
ghost use Rattle.inverse.specs.Encoded.{Encodes, encoding_of};
ghost use Rattle.inverse.specs.Private.Fill.{filled};
ghost use Rattle.inverse.specs.Private.Candidate.{in_signed, after_nops, operand_at};
ghost use Rattle.encode.specs.Private.Stem.{form_of, word_by, Roomy, For, Candidate};

mod put;
mod stem;
mod stems;

use put::{RD, RS, RT, SA, field};
use reading::{Insn, Op, Operand, kind};
use refusal::Refusal;
use stem::{Form, Stem};

// Words that are not `sll`, though all of its operands are zero.
const NOP: u32 = 0;

const SSNOP: u32 = 0x40;

// Field rs with 1 in it.
const RS_1: u32 = 0x20_0000;

// `li` with an immediate that is not signed, and nothing put in.
const LI_UNSIGNED: u32 = 0x3400_0000;

// The smallest word that has this reading at this address and flag, and a refusal if there is none.
pub fn encode(insn: Insn, va: u64, wide: bool) -> Result<u32, Refusal>
    ensures { Encodes (λ w. decoded_of w va wide) insn (encoding_of result) }
{
    let w = candidate(insn, va);
    match &decode::decode_word(w, va, wide) {
        Ok(read) if reading::same_insn(*read, insn) => Ok(w),
        _ => Err(Refusal::NoWord),
    }
}

// If any word has the reading, this one has it, and none that is smaller.
fn candidate(insn: Insn, va: u64) -> u32
    ensures { Candidate va insn result }
{
    let w = fill(stem_for(insn.mnemonic, insn.ops[1].op), insn, va);
    if insn.mnemonic == kind::SLL {
        return after_nops(w);
    }
    w
}

// The value of an operand that has one, and 0 of another: a part of it, so that no conversion has this.
fn value_of(o: Op) -> i64
    ensures { result ≡ int_of o }
{
    match o {
        Op::Imm(z) | Op::Mem(z, _) => z,
        _ => 0,
    }
}

// Do sixteen bits hold it?
fn is_signed(z: i64) -> bool
    ensures { result ≡ in_signed z }
{
    i16::try_from(z).is_ok()
}

// A mnemonic has one class, or several with the same operands, of which the first has the smallest words. Only the
// class of `li` depends on the value.
fn stem_for(m: u8, second: Op) -> Stem
    ensures { For result m (int_of second) }
{
    if m == kind::LI && !is_signed(value_of(second)) {
        return Stem(Form::RtImm, LI_UNSIGNED);
    }
    stems::stem_of(m)
}

// `sll` has no smaller word there than the one with 1 in rs, which it does not read.
#[tactic(auto, unfolding(inverse::specs::Private::Candidate::after_nops))]
fn after_nops(w: u32) -> u32
    ensures { result ≡ after_nops true w }
{
    match w {
        NOP | SSNOP => w + RS_1,
        _ => w,
    }
}

// The class's least word with the operands put in.
#[tactic(auto, using(crate::proofs::Candidates::filled_small))]
fn fill(stem: Stem, insn: Insn, va: u64) -> u32
    requires { Roomy stem }
    ensures { result ≡ word_by stem va insn.count (operand_at insn.ops) }
{
    let Stem(form, least) = stem;
    least + operands_in(form, insn, va)
}

// The operands where they go.
#[tactic(auto, unfolding(inverse::specs::Private::Fill::filled, inverse::specs::Private::Fill::part))]
fn operands_in(form: Form, insn: Insn, va: u64) -> u32
    ensures { result ≡ filled (form_of form) va insn.count (operand_at insn.ops) }
{
    let [
        Operand { op: a },
        Operand { op: b },
        Operand { op: c },
        Operand { op: d },
    ] = insn.ops;
    match form {
        Form::NoOperands => 0,
        Form::OneRs => field(a, RS),
        Form::OneRd => field(a, RD),
        Form::RdRs => field(a, RD) + field(b, RS),
        Form::RdRt => field(a, RD) + field(b, RT),
        Form::RsRt => field(a, RS) + field(b, RT),
        Form::RdRsRt => field(a, RD) + field(b, RS) + field(c, RT),
        Form::RdRtRs => field(a, RD) + field(b, RT) + field(c, RS),
        Form::RdRtSa => field(a, RD) + field(b, RT) + field(c, SA),
        Form::RtCop0 => field(a, RT) + field(b, RD),
        Form::FdFs => field(a, SA) + field(b, RD),
        Form::FdFsFt => field(a, SA) + field(b, RD) + field(c, RT),
        Form::Link => put::link(insn.count, a, b),
        Form::InstrIndex => put::index(a),
        Form::Offset => put::offset(a, va),
        Form::RsOffset => field(a, RS) + put::offset(b, va),
        Form::RsRtOffset => field(a, RS) + field(b, RT) + put::offset(c, va),
        Form::RtImm => field(a, RT) + put::imm(b),
        Form::RtRsImm => field(a, RT) + field(b, RS) + put::imm(c),
        Form::RtBase => field(a, RT) + put::base(b),
        Form::ExtPosSize => field(a, RT) + field(b, RS) + field(c, SA) + put::ext_size(d),
        Form::InsPosSize => field(a, RT) + field(b, RS) + field(c, SA) + put::ins_size(d, c),
    }
}
