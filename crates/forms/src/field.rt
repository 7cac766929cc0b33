// A word's fields as operands: a function for each that a line of `read` names. One over the kinds and the fields would
// say at each call what is said here once.
ghost use Rattle.std.specs.Prelude.{◌≡◌, pos};
ghost use Rattle.word.specs.Word as word;
ghost use Rattle.word.specs.Word.{fields_of};
ghost use Rattle.word.specs.Numbers.{imm, signed};
ghost use Rattle.reading.specs.declared.Op.TheVariants as op;

use reading::Op;

pub(crate) fn rs(w: u32) -> Op
    ensures { result ≡ op.Reg (fields_of w word.rs) }
{
    Op::Reg(word::rs(w))
}

pub(crate) fn rt(w: u32) -> Op
    ensures { result ≡ op.Reg (fields_of w word.rt) }
{
    Op::Reg(word::rt(w))
}

pub(crate) fn rd(w: u32) -> Op
    ensures { result ≡ op.Reg (fields_of w word.rd) }
{
    Op::Reg(word::rd(w))
}

// ft, fs and fd are the fields rt, rd and sa.
pub(crate) fn ft(w: u32) -> Op
    ensures { result ≡ op.FReg (fields_of w word.rt) }
{
    Op::FReg(word::rt(w))
}

pub(crate) fn fs(w: u32) -> Op
    ensures { result ≡ op.FReg (fields_of w word.rd) }
{
    Op::FReg(word::rd(w))
}

pub(crate) fn fd(w: u32) -> Op
    ensures { result ≡ op.FReg (fields_of w word.sa) }
{
    Op::FReg(word::sa(w))
}

pub(crate) fn cop0(w: u32) -> Op
    ensures { result ≡ op.Cop0 (fields_of w word.rd) }
{
    Op::Cop0(word::rd(w))
}

// A field as a number.
pub(crate) fn number(x: u8) -> Op
    ensures { result ≡ op.Imm (pos x) }
{
    Op::Imm(word::number(x))
}

pub(crate) fn imm(w: u32) -> Op
    ensures { result ≡ op.Imm (signed 16 (imm (fields_of w))) }
{
    Op::Imm(word::simm(w))
}

pub(crate) fn uimm(w: u32) -> Op
    ensures { result ≡ op.Imm (pos (imm (fields_of w))) }
{
    Op::Imm(word::uimm(w))
}

// offset(base)
pub(crate) fn base(w: u32) -> Op
    ensures { result ≡ op.Mem (signed 16 (imm (fields_of w))) (fields_of w word.rs) }
{
    Op::Mem(word::simm(w), word::rs(w))
}
