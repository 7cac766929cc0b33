// The packed record of document 01: 80 bytes for what reading a word gives. Packing it, and unpacking it.
// Depends on `reading`, `buffers`, `names`, `word` and `refusal`; specs/Record.antt says what the bytes are.
#![tactic(auto)]

ghost use Rattle.std.specs.Prelude.{◌≡◌, ◌+◌, ◌*◌, ◌%◌, ◌^◌, ◌<◌, ◌≤◌, true, ◌↔◌, length, take, drop};
ghost use Rattle.word.specs.Numbers.{signed};
ghost use Rattle.reading.specs.Reading.{answer_of};
ghost use Rattle.reading.specs.Numbers.{target_parts, value_of};
ghost use Rattle.buffers.specs.Bytes.{over_at};
ghost use Rattle.names.specs.Names.{name_bytes};
ghost use Rattle.record.specs.Record.{size, bit, head_bytes, effect_bytes, slot_of, slot_bytes, operand_bytes};
ghost use Rattle.record.specs.Record.{insn_bytes, number_bytes, pack_number, packed};
ghost use Rattle.record.specs.Unpacked.{op_by, effect_by, flow_by, target_by};
ghost use Rattle.record.specs.Unpacked.{effect_in, slot_in, slots_in, insn_in, unpacked};
ghost use Rattle.record.specs.Private.Steps.{bytes_of, part, Holds};

use reading::{Decoded, Effect, Flow, Insn, Op, Operand, Parts};
use refusal::Refusal;

pub const SIZE: usize = 80;

// Where the parts of a record are; the number is at its start.
const FLOW: usize = 1;

const MARKS: usize = 2;

const COUNT: usize = 3;

const TARGET: usize = 4;

const EFFECT: usize = 12;

const EFFECT_VALUE: usize = 16;

const OPERANDS: usize = 24;

const OPERAND_SIZE: usize = 10;

const NAME: usize = 64;

// ── pieces ──

// A piece of a record, of the head, an effect or an operand: N bytes, and a value in the eight after them.
#[derive(Clone, Copy)]
struct Piece<const N: usize> {
    bytes: [u8; N],
    value: u64,
}

impl<const N: usize> Piece<N> {
    fn put(self, record: &mut [u8; SIZE], at: usize)
        requires { at + N + 8 ≤ size }
        ensures { «record».new ≡ over_at at (bytes_of self.entry) «record».old }
    {
        buffers::put(&self.bytes, record, at);
        buffers::put8(self.value, record, at + N);
    }

    fn is_at(self, record: &[u8; SIZE], at: usize) -> bool
        requires { at + N + 8 ≤ size }
        ensures { (result ≡ true) ↔ (bytes_of self.entry ≡ part at (N + 8) «record».now) }
    {
        record[at..].starts_with(&self.bytes) && buffers::get8(record, at + N) == self.value
    }
}

// The eight bytes of a value, signed or an address: of an operand, an effect or a target one of the two is 0. A sum of
// two fields, so that no conversion has this.
fn value_of(p: Parts) -> u64
    ensures { result ≡ value_of p % 2 ^ 64 }
{
    word::twos_complement(p.value).wrapping_add(p.address)
}

// Mark in bit 0, target present in bit 1.
fn marks(mark: bool, target: Option<u64>) -> u8
    ensures { result ≡ bit mark + 2 * (target_parts target).number }
{
    u8::from(mark) + 2 * u8::from(target.is_some())
}

fn head(i: &Insn) -> Piece<4>
    ensures { bytes_of result ≡ head_bytes i.now }
{
    Piece {
        bytes: [0, u8::from(i.flow), marks(i.delay_slot, i.target), i.count],
        value: value_of(Parts::from(i.target)),
    }
}

fn effect(e: Effect) -> Piece<4>
    ensures { bytes_of result ≡ effect_bytes e }
{
    let p = Parts::from(e);
    Piece {
        bytes: [p.number, p.first, p.second, p.size],
        value: value_of(p),
    }
}

// The operand in slot k; zeros if it is not used.
fn slot(i: &Insn, k: usize) -> Piece<2>
    requires { k < 4 }
    ensures { bytes_of result ≡ slot_bytes (slot_of i.now k) }
{
    if usize::from(i.count) <= k {
        return Piece {
            bytes: [0; 2],
            value: 0,
        };
    }
    let p = Parts::from(i.ops[k].op);
    Piece {
        bytes: [p.number, p.first],
        value: value_of(p),
    }
}

// ── packing ──

// The record of an answer, to the start of `out`: 0 or the answer's own number, and that of a short record if `out` is
// too short. Any number may stand beside a reading here, so the answer comes as a `Decoded`.
pub fn pack(d: Decoded, out: &mut [u8]) -> u8
    ensures value { result ≡ pack_number d (length out.old) }
    ensures out_after { out.new ≡ packed d out.old }
{
    let Some(record) = out.first_chunk_mut::<SIZE>() else {
        return u8::from(Refusal::ShortRecord);
    };
    if d.number == 0 {
        accept(&d.insn, record);
    } else {
        refuse(d.number, record);
    }
    d.number
}

// A refusal's record: its number and zeros.
fn refuse(n: u8, record: &mut [u8; SIZE])
    ensures { «record».new ≡ number_bytes n }
{
    *record = [0; SIZE];
    record[0] = n;
}

fn accept(i: &Insn, record: &mut [u8; SIZE])
    ensures { «record».new ≡ insn_bytes i.now }
{
    head(i).put(record, 0);
    effect(i.effect).put(record, EFFECT);
    operands(i, record);
    buffers::put(&names::name_of(i.mnemonic), record, NAME);
}

fn operands(i: &Insn, record: &mut [u8; SIZE])
    ensures { «record».new ≡ over_at 24 (operand_bytes i.now) «record».old }
{
    for k in 0..i.ops.len() {
        slot(i, k).put(record, OPERANDS + k * OPERAND_SIZE);
    }
}

// ── unpacking ──

// The reading whose record these bytes begin with; refused if there are fewer than 80, or if they are not the record of
// any reading.
pub fn unpack(b: &[u8]) -> Result<Insn, Refusal>
    ensures { answer_of result ≡ unpacked b.now }
{
    let record = b.first_chunk::<SIZE>().ok_or(Refusal::ShortRecord)?;
    let mnemonic = names::kind_of(name_in(record)).ok_or(Refusal::NoWord)?;
    let i = insn_in(record, mnemonic);
    if is_record(&i, record) {
        Ok(i)
    } else {
        Err(Refusal::NoWord)
    }
}

fn name_in(record: &[u8; SIZE]) -> [u8; 16]
    ensures { result ≡ take 16 (drop 64 «record».now) }
{
    *record.last_chunk().unwrap()
}

// The reading that the bytes say, where a number that is not of any case counts as 0.
fn insn_in(record: &[u8; SIZE], mnemonic: u8) -> Insn
    requires { mnemonic ≡ (insn_in «record».now).mnemonic }
    ensures { result ≡ insn_in «record».now }
{
    Insn {
        mnemonic,
        count: record[COUNT],
        ops: operands_in(record),
        flow: flow_by(record[FLOW]),
        target: target_by(record[MARKS], buffers::get8(record, TARGET)),
        delay_slot: record[MARKS] % 2 == 1,
        effect: effect_in(record),
    }
}

// The functions from numbers are total: a number of no case counts as 0 (specs/Unpacked.antt, `flow_by` and its like),
// and a `TryFrom` would refuse it. Nor is there a `From<u8>`: it would offer everywhere that 77 is `Flow::None`, which
// only the bytes here count as, until they are compared with the record.

fn flow_by(n: u8) -> Flow
    ensures { result ≡ flow_by n }
{
    match n {
        1 => Flow::Call,
        2 => Flow::Jump,
        3 => Flow::CondJump,
        4 => Flow::Ret,
        5 => Flow::Interrupt,
        _ => Flow::None,
    }
}

fn target_by(marks: u8, v: u64) -> Option<u64>
    ensures { result ≡ target_by marks v }
{
    (marks / 2 % 2 == 1).then_some(v)
}

fn effect_in(record: &[u8; SIZE]) -> Effect
    ensures { result ≡ effect_in «record».now }
{
    effect_by(
        record[EFFECT],
        record[EFFECT + 1],
        record[EFFECT + 2],
        record[EFFECT + 3],
        buffers::get8(record, EFFECT_VALUE),
    )
}

fn effect_by(n: u8, first: u8, second: u8, width: u8, v: u64) -> Effect
    ensures { result ≡ effect_by n first second width v }
{
    match n {
        1 => Effect::SetAddr(first, v),
        2 => Effect::AddImm(first, second, v.cast_signed()),
        3 => Effect::Mem(first, second, v.cast_signed(), width),
        4 => Effect::Write(first),
        _ => Effect::None,
    }
}

fn operands_in(record: &[u8; SIZE]) -> [Operand; 4]
    ensures { result ≡ slots_in «record».now }
{
    std::array::from_fn(
        |k|
            requires { k < 4 }
        { operand_in(record, OPERANDS + k * OPERAND_SIZE) },
    )
}

fn operand_in(record: &[u8; SIZE], at: usize) -> Operand
    requires { at + 10 ≤ size }
    ensures { result ≡ slot_in at «record».now }
{
    Operand {
        op: op_by(record[at], record[at + 1], buffers::get8(record, at + 2)),
    }
}

fn op_by(n: u8, r: u8, v: u64) -> Op
    ensures { result ≡ op_by n r v }
{
    match n {
        1 => Op::Reg(r),
        2 => Op::FReg(r),
        3 => Op::Imm(v.cast_signed()),
        4 => Op::Mem(v.cast_signed(), r),
        5 => Op::Addr(v),
        6 => Op::Cop0(r),
        _ => Op::Reg(0),
    }
}

// Is it that reading's record? The name needs no comparison: the mnemonic was found by it.
fn is_record(i: &Insn, record: &[u8; SIZE]) -> bool
    ensures { (result ≡ true) ↔ Holds i.now «record».now }
{
    head(i).is_at(record, 0) && effect(i.effect).is_at(record, EFFECT) && are_operands(i, record)
}

fn are_operands(i: &Insn, record: &[u8; SIZE]) -> bool
    ensures { (result ≡ true) ↔ (operand_bytes i.now ≡ part 24 40 «record».now) }
{
    (0..i.ops.len()).all(|k| slot(i, k).is_at(record, OPERANDS + k * OPERAND_SIZE))
}
