// From a shape and a word to a reading: what the source's closures `r3`, `branch`, `load`, `store` and its `i` make.
// `parts` makes the reading of a mnemonic, its operands and its effect.
// Depends on `word` and `reading`; what a shape reads is said with the table of `classes`.
#![tactic(auto)]

ghost use Rattle.std.specs.Prelude.{◌≡◌, Err};
ghost use Rattle.forms.specs.Read.{read_by};

mod field;
mod parts;

use field::{base, cop0, fd, fs, ft, imm, number, rd, rs, rt, uimm};
use parts::{access, act, add, alone, bit_field, ft_base, jr, link, set, set_upper, to, write};
use reading::{Flow, Insn, kind};
use word::{branch_target, jump_target};

// What a reading is made of before the word's fields are put in: the mnemonic, the form of the operands by its name in
// the table of classes, and what the instruction does. Document 01's classes are more: many have one shape.
// A decoder's arms answer with this and not with a reading, which has 168 bytes and would be moved at every step.
#[derive(Clone, Copy)]
pub enum Shape<R> {
    // With why, of whatever type the decoder has for that.
    Refused(R),
    // The others have the mnemonic first, unless there is only one. These have the flow too:
    NoOperands(u8, Flow),
    InstrIndex(u8, Flow),
    Offset(u8, Flow),
    RsOffset(u8, Flow),
    RsRtOffset(u8, Flow),
    // `jr` and `jalr`.
    Jr,
    Link,
    // The first operand is written.
    RdRsRt(u8),
    RdRtRs(u8),
    RdRtSa(u8),
    RdRs(u8),
    RdRt(u8),
    OneRd(u8),
    RtRsImm(u8),
    RtRsUimm(u8),
    ExtPosSize,
    InsPosSize,
    RtHwr,
    // None is, or none of the general registers.
    RsRt(u8),
    OneRs(u8),
    RtCop0(u8),
    RtFs(u8),
    FdFsFt(u8),
    FdFs(u8),
    FsFt(u8),
    HintBase(u8),
    // The same operands, and the first is written.
    RtCop0Write(u8),
    RtFsWrite(u8),
    RtBaseWrite(u8),
    // A sum with the immediate, a value as it is (`li`), and `lui`.
    RtRsImmAdd(u8),
    RtRsUimmAdd(u8),
    RtImm,
    RtUimm,
    RtUimmUpper,
    // With the size of the access.
    RtBaseLoad(u8, u8),
    RtBaseStore(u8, u8),
    FtBase(u8, u8),
}

// Apart from `read`, which would otherwise clear room for this answer at every word, whatever its shape: that takes 61
// instructions a word in place of 43.
fn refused<R: Copy>(refusal: R) -> Result<Insn, R>
    ensures { result ≡ Err refusal }
{
    Err(refusal)
}

// A line for each shape. Each arm returns by itself, and `read` is not taken into its caller: where arms meet, their
// answers are moved piece by piece, which costs as much again as all the rest (docs/BENCH.md).
#[tactic(auto, unfolding(crate::proofs::Columns::row_reading))]
#[inline(never)]
pub fn read<R: Copy>(shape: Shape<R>, w: u32, va: u64) -> Result<Insn, R>
    ensures { result ≡ read_by shape w va }
{
    match shape {
        Shape::Refused(refusal) => return refused(refusal),
        Shape::NoOperands(m, flow) => return Ok(alone(m, flow)),
        Shape::InstrIndex(m, flow) => return Ok(to(m, flow, [], jump_target(w, va))),
        Shape::Offset(m, flow) => return Ok(to(m, flow, [], branch_target(w, va))),
        Shape::RsOffset(m, flow) => return Ok(to(m, flow, [rs(w)], branch_target(w, va))),
        Shape::RsRtOffset(m, flow) => return Ok(to(m, flow, [rs(w), rt(w)], branch_target(w, va))),
        Shape::Jr => return Ok(jr(word::rs(w))),
        Shape::Link => return Ok(link(word::rd(w), word::rs(w))),
        Shape::RdRsRt(m) => return Ok(write(m, word::rd(w), [rd(w), rs(w), rt(w)])),
        Shape::RdRtRs(m) => return Ok(write(m, word::rd(w), [rd(w), rt(w), rs(w)])),
        Shape::RdRtSa(m) => return Ok(write(m, word::rd(w), [rd(w), rt(w), number(word::sa(w))])),
        Shape::RdRs(m) => return Ok(write(m, word::rd(w), [rd(w), rs(w)])),
        Shape::RdRt(m) => return Ok(write(m, word::rd(w), [rd(w), rt(w)])),
        Shape::OneRd(m) => return Ok(write(m, word::rd(w), [rd(w)])),
        Shape::RtRsImm(m) => return Ok(write(m, word::rt(w), [rt(w), rs(w), imm(w)])),
        Shape::RtRsUimm(m) => return Ok(write(m, word::rt(w), [rt(w), rs(w), uimm(w)])),
        Shape::ExtPosSize => return Ok(bit_field(kind::EXT, w, word::number(word::rd(w)) + 1)),
        Shape::InsPosSize => return Ok(bit_field(kind::INS, w, word::ins_size(w))),
        Shape::RtHwr => return Ok(write(kind::RDHWR, word::rt(w), [rt(w), number(word::rd(w))])),
        Shape::RsRt(m) => return Ok(act(m, [rs(w), rt(w)])),
        Shape::OneRs(m) => return Ok(act(m, [rs(w)])),
        Shape::RtCop0(m) => return Ok(act(m, [rt(w), cop0(w)])),
        Shape::RtFs(m) => return Ok(act(m, [rt(w), fs(w)])),
        Shape::FdFsFt(m) => return Ok(act(m, [fd(w), fs(w), ft(w)])),
        Shape::FdFs(m) => return Ok(act(m, [fd(w), fs(w)])),
        Shape::FsFt(m) => return Ok(act(m, [fs(w), ft(w)])),
        Shape::HintBase(m) => return Ok(act(m, [number(word::rt(w)), base(w)])),
        Shape::RtCop0Write(m) => return Ok(write(m, word::rt(w), [rt(w), cop0(w)])),
        Shape::RtFsWrite(m) => return Ok(write(m, word::rt(w), [rt(w), fs(w)])),
        Shape::RtBaseWrite(m) => return Ok(write(m, word::rt(w), [rt(w), base(w)])),
        Shape::RtRsImmAdd(m) => return Ok(add(m, word::rt(w), word::rs(w), word::simm(w))),
        Shape::RtRsUimmAdd(m) => return Ok(add(m, word::rt(w), word::rs(w), word::uimm(w))),
        Shape::RtImm => return Ok(set(word::rt(w), word::simm(w))),
        Shape::RtUimm => return Ok(set(word::rt(w), word::uimm(w))),
        Shape::RtUimmUpper => return Ok(set_upper(word::rt(w), word::uimm(w), word::lui_value(w))),
        Shape::RtBaseLoad(m, size) => return Ok(access(m, size, rt(w), word::rt(w), w)),
        Shape::RtBaseStore(m, size) => return Ok(access(m, size, rt(w), 0, w)),
        Shape::FtBase(m, size) => return Ok(ft_base(m, size, w)),
    }
}
