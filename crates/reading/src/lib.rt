// The reading of a word: the source's `Op`, `Effect`, `Insn` and `Flow`, the blank reading, and whether two readings
// are equal. Depends on `word` for the definition of two's complement, and on `refusal` for what an answer may be.
#![tactic(auto)]

ghost use Rattle.std.specs.Prelude.{◌≡◌, true, ◌↔◌, pos};
ghost use Rattle.reading.specs.Ends.{ending_of};
ghost use Rattle.reading.specs.Reading.{blank_insn, refused_of, answer_of};
ghost use Rattle.reading.specs.Numbers.{parts, op_parts, effect_parts, target_parts, flow_number};

pub mod kind;

use refusal::Refusal;

#[derive(Clone, Copy, PartialEq, Eq)]
pub enum Op {
    Reg(u8),
    FReg(u8),
    Imm(i64),
    // offset(base)
    Mem(i64, u8),
    Addr(u64),
    Cop0(u8),
}

// A struct with one field: "four structs, each holding an operand enum" is the form that docs/DECISIONS.md names, and
// the definitions in specs/ state readings in it.
#[derive(Clone, Copy, PartialEq, Eq)]
pub struct Operand {
    pub op: Op,
}

#[derive(Clone, Copy, PartialEq, Eq)]
pub enum Effect {
    None,
    // `lui rt, hi`: rt holds hi times 65,536, sign-extended.
    SetAddr(u8, u64),
    // `addiu rt, rs, imm`, and `ori` for the low half.
    AddImm(u8, u8, i64),
    // A load or store through `imm(rs)`, with its size; register 0 first for a store.
    Mem(u8, u8, i64, u8),
    Write(u8),
}

#[derive(Clone, Copy, PartialEq, Eq)]
pub enum Flow {
    None,
    Call,
    Jump,
    CondJump,
    Ret,
    Interrupt,
}

#[derive(Clone, Copy, PartialEq, Eq)]
pub struct Insn {
    // One of the numbers of `kind`. A number and not an enum: `encode::encode` and `line::print` take any, and refuse
    // those from 212 on.
    pub mnemonic: u8,
    // How many of the operands are used; the others hold register 0. A count beside four slots is the form that
    // docs/DECISIONS.md names, and `encode::encode` and `line::print` take any count and any unused slots.
    pub count: u8,
    pub ops: [Operand; 4],
    pub flow: Flow,
    pub target: Option<u64>,
    pub delay_slot: bool,
    pub effect: Effect,
}

// What a word does to its block: the block goes on, ends with the next word, or ends here, with the word itself.
#[derive(Clone, Copy, PartialEq, Eq)]
pub enum Ending {
    On,
    Slot,
    Here,
}

// What reading a word gives, in the numbers that the packed record has for it: 0 and the reading, or the refusal number
// and the blank reading. Not a `Result`, since `record::pack` takes any number.
#[derive(Clone, Copy, PartialEq, Eq)]
pub struct Decoded {
    pub number: u8,
    pub insn: Insn,
}

// An operand, an effect or a target in the numbers that the packed record has for it. They determine it. Six numbers,
// and no enum of cases: `parts` and `value_of` (specs/Numbers.antt) state these six for each case, and the clauses of
// `record` say a record's bytes by them. So a value is in two fields too, of which one is 0.
#[derive(Clone, Copy, Default, PartialEq, Eq)]
pub struct Parts {
    pub number: u8,
    pub first: u8,
    pub second: u8,
    pub size: u8,
    // What is signed, and what is an address.
    pub value: i64,
    pub address: u64,
}

// The parts of what has a register or nothing.
fn with_register(number: u8, first: u8) -> Parts
    ensures { result ≡ parts number first 0 0 (pos 0) 0 }
{
    Parts {
        number,
        first,
        ..Parts::default()
    }
}

// Of what has a signed value, with the registers and the size beside it.
fn with_value(number: u8, first: u8, second: u8, size: u8, value: i64) -> Parts
    ensures { result ≡ parts number first second size value 0 }
{
    Parts {
        number,
        first,
        second,
        size,
        value,
        ..Parts::default()
    }
}

// Of what has an address.
fn with_address(number: u8, first: u8, address: u64) -> Parts
    ensures { result ≡ parts number first 0 0 (pos 0) address }
{
    Parts {
        number,
        first,
        address,
        ..Parts::default()
    }
}

impl From<Op> for Parts {
    ghost from_gives = { λ o p. p ≡ op_parts o };

    fn from(o: Op) -> Parts {
        match o {
            Op::Reg(n) => with_register(1, n),
            Op::FReg(n) => with_register(2, n),
            Op::Imm(z) => with_value(3, 0, 0, 0, z),
            Op::Mem(z, n) => with_value(4, n, 0, 0, z),
            Op::Addr(a) => with_address(5, 0, a),
            Op::Cop0(n) => with_register(6, n),
        }
    }
}

impl From<Effect> for Parts {
    ghost from_gives = { λ e p. p ≡ effect_parts e };

    fn from(e: Effect) -> Parts {
        match e {
            Effect::None => with_register(0, 0),
            Effect::SetAddr(t, a) => with_address(1, t, a),
            Effect::AddImm(t, s, z) => with_value(2, t, s, 0, z),
            Effect::Mem(t, s, z, n) => with_value(3, t, s, n, z),
            Effect::Write(t) => with_register(4, t),
        }
    }
}

// Of a target.
impl From<Option<u64>> for Parts {
    ghost from_gives = { λ t p. p ≡ target_parts t };

    fn from(t: Option<u64>) -> Parts {
        match t {
            None => with_register(0, 0),
            Some(a) => with_address(1, 0, a),
        }
    }
}

// The number of a flow.
impl From<Flow> for u8 {
    ghost from_gives = { λ f n. n ≡ flow_number f };

    fn from(f: Flow) -> u8 {
        f as u8
    }
}

#[tactic(auto, unfolding(crate::specs::Ends::ending_of))]
pub fn ends(i: Insn) -> Ending
    ensures { result ≡ ending_of i }
{
    if i.delay_slot {
        Ending::Slot
    } else {
        Ending::On
    }
}

// The reading that a refusal carries.
fn blank() -> Insn
    ensures { result ≡ blank_insn }
{
    let unused = Operand { op: Op::Reg(0) };
    Insn {
        mnemonic: kind::NOP,
        count: 0,
        ops: [unused, unused, unused, unused],
        flow: Flow::None,
        target: None,
        delay_slot: false,
        effect: Effect::None,
    }
}

// The answer with this number for its refusal. It takes any number, as its clause says, and not a `Refusal`:
// `Decoded::from` passes the number of one.
pub fn refused(n: u8) -> Decoded
    ensures { result ≡ refused_of n }
{
    Decoded {
        number: n,
        insn: blank(),
    }
}

impl From<Result<Insn, Refusal>> for Decoded {
    ghost from_gives = { λ r d. d ≡ answer_of r };

    fn from(r: Result<Insn, Refusal>) -> Decoded {
        match r {
            Ok(insn) => Decoded { number: 0, insn },
            Err(refusal) => refused(u8::from(refusal)),
        }
    }
}

// Are the two readings equal? Every part counts, unused operands too.
// The derived `==` stands beside it: its own contract does not say that it holds exactly of the same reading, as this
// clause does.
pub fn same_insn(a: Insn, b: Insn) -> bool
    ensures { (result ≡ true) ↔ (a ≡ b) }
{
    a == b
}
