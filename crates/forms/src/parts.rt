// The reading of a mnemonic, its operands and its effect: the source's closures and its `i`.
ghost use Rattle.std.specs.Prelude.{true, false, cond, [], ◌∷◌, ◌++◌, ◌≡◌, ◌≤◌, eqb, length, get_or, None, Some};
ghost use Rattle.classes.specs.Meaning.{slots};
ghost use Rattle.word.specs.Word as word;
ghost use Rattle.word.specs.Word.{fields_of};
ghost use Rattle.word.specs.Numbers.{imm, signed};
ghost use Rattle.reading.specs.Kind as kind;
ghost use Rattle.reading.specs.Reading.{operand};
ghost use Rattle.reading.specs.declared.Effect.TheVariants as effect;
ghost use Rattle.reading.specs.declared.Flow.TheVariants as flow;
ghost use Rattle.reading.specs.declared.Op.TheVariants as op;
ghost use Rattle.forms.specs.Read as read;
ghost use Rattle.forms.specs.Private.Answer.{straight, field, accessed, float_accessed, turning};

use crate::field;
use reading::{Effect, Flow, Insn, Op, Operand, kind};

// The register that `jr` returns by and that `jalr` leaves unnamed.
const RA: u8 = 31;

// The operand at a place; one that is not used is register 0.
fn slot(ops: &[Op], place: usize) -> Operand
    ensures { result ≡ operand (get_or ops.now place (op.Reg 0)) }
{
    Operand {
        op: ops.get(place).copied().unwrap_or(Op::Reg(0)),
    }
}

// Place by place: with `array::from_fn` the proof did not close.
#[tactic(auto, using(crate::proofs::Slots::by_place))]
fn slots<const N: usize>(ops: [Op; N]) -> [Operand; 4]
    ensures { result ≡ slots ops.entry }
{
    [slot(&ops, 0), slot(&ops, 1), slot(&ops, 2), slot(&ops, 3)]
}

// ── on to the next word: the source's `i`, with the effect that the arm gives it ──

pub(crate) fn alone(m: u8, flow: Flow) -> Insn
    ensures { result ≡ read.alone m flow }
{
    Insn {
        mnemonic: m,
        count: 0,
        ops: slots([]),
        flow,
        target: None,
        delay_slot: false,
        effect: Effect::None,
    }
}

// A reading has four slots, and the type of an array cannot say that N is at most 4: so each function of N asks for it.
pub(crate) fn straight<const N: usize>(m: u8, ops: [Op; N], effect: Effect) -> Insn
    requires { N ≤ 4 }
    ensures { result ≡ straight m ops.entry effect }
{
    Insn {
        mnemonic: m,
        count: N as u8,
        ops: slots(ops),
        flow: Flow::None,
        target: None,
        delay_slot: false,
        effect,
    }
}

// A register is written.
pub(crate) fn write<const N: usize>(m: u8, to: u8, ops: [Op; N]) -> Insn
    requires { N ≤ 4 }
    ensures { result ≡ straight m ops.entry (effect.Write to) }
{
    straight(m, ops, Effect::Write(to))
}

// None is, or none of the general registers.
pub(crate) fn act<const N: usize>(m: u8, ops: [Op; N]) -> Insn
    requires { N ≤ 4 }
    ensures { result ≡ straight m ops.entry effect.None }
{
    straight(m, ops, Effect::None)
}

// `ext`, `ins`.
pub(crate) fn bit_field(m: u8, w: u32, size: i64) -> Insn
    ensures { result ≡
        field m (fields_of w word.rt) (fields_of w word.rs) (fields_of w word.sa) size }
{
    write(
        m,
        word::rt(w),
        [
            field::rt(w),
            field::rs(w),
            field::number(word::sa(w)),
            Op::Imm(size),
        ],
    )
}

// ── immediates ──

pub(crate) fn add(m: u8, to: u8, from: u8, z: i64) -> Insn
    ensures { result ≡
        straight m (op.Reg to ∷ op.Reg from ∷ op.Imm z ∷ []) (effect.AddImm to from z) }
{
    straight(
        m,
        [Op::Reg(to), Op::Reg(from), Op::Imm(z)],
        Effect::AddImm(to, from, z),
    )
}

// `li`. The source has rs in the effect, and rs is 0 here.
pub(crate) fn set(to: u8, z: i64) -> Insn
    ensures { result ≡ straight kind.li (op.Reg to ∷ op.Imm z ∷ []) (effect.AddImm to 0 z) }
{
    straight(
        kind::LI,
        [Op::Reg(to), Op::Imm(z)],
        Effect::AddImm(to, 0, z),
    )
}

// `lui`.
pub(crate) fn set_upper(to: u8, z: i64, value: u64) -> Insn
    ensures { result ≡ straight kind.lui (op.Reg to ∷ op.Imm z ∷ []) (effect.SetAddr to value) }
{
    straight(
        kind::LUI,
        [Op::Reg(to), Op::Imm(z)],
        Effect::SetAddr(to, value),
    )
}

// ── loads and stores ──

// The effect names the register that is loaded, and 0 where no general register is.
pub(crate) fn access(m: u8, size: u8, a: Op, loaded: u8, w: u32) -> Insn
    ensures { result ≡
        accessed m size a loaded (signed 16 (imm (fields_of w))) (fields_of w word.rs) }
{
    let effect = Effect::Mem(loaded, word::rs(w), word::simm(w), size);
    straight(m, [a, field::base(w)], effect)
}

// `lwc1`, `ldc1`, `swc1`, `sdc1`: no general register is loaded.
pub(crate) fn ft_base(m: u8, size: u8, w: u32) -> Insn
    ensures { result ≡
        float_accessed m size (fields_of w word.rt) (signed 16 (imm (fields_of w))) (fields_of w word.rs) }
{
    access(m, size, field::ft(w), 0, w)
}

// ── a delay slot: the source's `branch`, and its `Insn` for jumps ──

fn turn(m: u8, count: u8, ops: [Operand; 4], flow: Flow, target: Option<u64>) -> Insn
    ensures { result ≡ read.made m count ops flow target true effect.None }
{
    Insn {
        mnemonic: m,
        count,
        ops,
        flow,
        target,
        delay_slot: true,
        effect: Effect::None,
    }
}

// To an address, the last operand, by the registers before it.
#[tactic(auto, using(crate::proofs::Slots::one_more))]
pub(crate) fn to<const N: usize>(m: u8, flow: Flow, registers: [Op; N], t: u64) -> Insn
    requires { N ≤ 3 }
    ensures { result ≡ turning m (registers.entry ++ op.Addr t ∷ []) flow (Some t) }
{
    let mut ops = slots(registers);
    ops[N] = Operand { op: Op::Addr(t) };
    turn(m, N as u8 + 1, ops, flow, Some(t))
}

// To a register: `jr`, and `jalr` with the register that gets the address to return to.
pub(crate) fn jr(rs: u8) -> Insn
    ensures { result ≡ turning kind.jr (op.Reg rs ∷ []) (cond (eqb rs 31) flow.Ret flow.Jump) None }
{
    let flow = if rs == RA { Flow::Ret } else { Flow::Jump };
    turn(kind::JR, 1, slots([Op::Reg(rs)]), flow, None)
}

#[tactic(auto, unfolding(crate::proofs::Columns::row_reading))]
pub(crate) fn link(rd: u8, rs: u8) -> Insn
    ensures { result ≡
        read.turned kind.jalr (cond (eqb rd 31) (op.Reg rs ∷ []) (op.Reg rd ∷ op.Reg rs ∷ [])) flow.Call }
{
    if rd == RA {
        return turn(kind::JALR, 1, slots([Op::Reg(rs)]), Flow::Call, None);
    }
    turn(
        kind::JALR,
        2,
        slots([Op::Reg(rd), Op::Reg(rs)]),
        Flow::Call,
        None,
    )
}
