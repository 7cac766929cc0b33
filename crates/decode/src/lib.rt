// mips.rs: `decode`, `decode_word` and `decode_cop1`, arm by arm, with a function for each group of words.
// An arm names the shape of the word, and `forms` reads the word by its shape, as the source's closures and its `i` do.
// Depends on `refusal`, `word`, `reading` and `forms`; what the answers mean is defined in `classes`.
// No arm has a proof of its own: the check finds each by the laws that its function's attribute names, those of its
// group in proofs/Fields.antt.
#![tactic(auto)]

ghost use Rattle.std.specs.Prelude.{◌≤◌, ◌≡◌, [], ◌∷◌};
ghost use Rattle.word.specs.Word as word;
ghost use Rattle.word.specs.Word.{fields_of};
ghost use Rattle.reading.specs.Reading.{answer_of};
ghost use Rattle.classes.specs.Decoded.{decoded_of};
ghost use Rattle.decode.specs.Bytes.{decoded_in};
ghost use Rattle.decode.specs.Private.Groups.{Is, Each, EachHanded, Group, Handed, Special, Format};
ghost use Rattle.decode.specs.Private.Groups.{grouped, branches, immediates, shifts, moves, arithmetics};

use reading::{Flow, Insn, kind};
use refusal::Refusal;

// What an arm answers.
type Shape = forms::Shape<Refusal>;

// Words that the source compares with as a whole.
const NOP: u32 = 0;

const SSNOP: u32 = 0x40;

// The distance of a format's mnemonics from those of format s.
const S: u8 = 0;

const D: u8 = kind::ADD_D - kind::ADD_S;

const W: u8 = kind::ADD_W - kind::ADD_S;

const L: u8 = kind::ADD_L - kind::ADD_S;

// Decodes the instruction word at the start of `bytes`.
pub fn decode(bytes: &[u8], va: u64, big_endian: bool, bits64: bool) -> Result<Insn, Refusal>
    ensures { answer_of result ≡ decoded_in bytes.now va big_endian bits64 }
{
    let Some(first) = bytes.first_chunk::<4>() else {
        return Err(Refusal::Short);
    };
    // As `decode_word`, and not by it, which would copy what is read once more on the way out (docs/BENCH.md).
    let w = word::from_bytes(*first, big_endian);
    forms::read(shape_of(w, bits64), w, va)
}

// The shape of the word, and what the shape reads.
pub fn decode_word(w: u32, va: u64, bits64: bool) -> Result<Insn, Refusal>
    ensures { answer_of result ≡ decoded_of w va bits64 }
{
    forms::read(shape_of(w, bits64), w, va)
}

// The source's `match op`. An op that has no arm here is handed on from function to function, and what is left at last
// is refused. In the same way SPECIAL hands on a funct. It is a function of its own, so that an answer is written once,
// where the caller wants it (docs/BENCH.md).
#[inline(never)]
fn shape_of(w: u32, bits64: bool) -> Shape
    ensures { Is result w bits64 }
{
    let op = word::op(w);
    match op {
        0 => special(w, bits64),
        1 => regimm(w),
        16 => cop0(w),
        17 => decode_cop1(w),
        28 => special2(w),
        31 => special3(w),
        _ => jump_or_branch(op, w),
    }
}

// ── SPECIAL, by funct ──

// Shifts.
#[tactic(auto, using(crate::proofs::Fields::shift_arms), unfolding(crate::proofs::Fields::row_reads))]
fn special(w: u32, bits64: bool) -> Shape
    requires { Group 0 w }
    ensures { Is result w bits64 }
{
    let funct = word::funct(w);
    match funct {
        0 => if w == NOP {
            Shape::NoOperands(kind::NOP, Flow::None)
        } else if w == SSNOP {
            Shape::NoOperands(kind::SSNOP, Flow::None)
        } else {
            Shape::RdRtSa(kind::SLL)
        },
        2 => if word::rs(w) == 1 {
            Shape::RdRtSa(kind::ROTR)
        } else {
            Shape::RdRtSa(kind::SRL)
        },
        3 => Shape::RdRtSa(kind::SRA),
        56 => Shape::RdRtSa(kind::DSLL),
        58 => Shape::RdRtSa(kind::DSRL),
        59 => Shape::RdRtSa(kind::DSRA),
        60 => Shape::RdRtSa(kind::DSLL32),
        62 => Shape::RdRtSa(kind::DSRL32),
        63 => Shape::RdRtSa(kind::DSRA32),
        4 => Shape::RdRtRs(kind::SLLV),
        6 => Shape::RdRtRs(kind::SRLV),
        7 => Shape::RdRtRs(kind::SRAV),
        20 => Shape::RdRtRs(kind::DSLLV),
        22 => Shape::RdRtRs(kind::DSRLV),
        23 => Shape::RdRtRs(kind::DSRAV),
        _ => move_or_multiply(funct, w, bits64),
    }
}

// Jumps by register, conditional moves, system words, HI and LO, multiply and divide.
#[tactic(auto, using(crate::proofs::Fields::special_arms), unfolding(crate::proofs::Fields::row_reads))]
fn move_or_multiply(funct: u8, w: u32, bits64: bool) -> Shape
    requires { Special funct (shifts ∷ []) w }
    ensures { Is result w bits64 }
{
    match funct {
        8 => Shape::Jr,
        9 => Shape::Link,
        10 => Shape::RdRsRt(kind::MOVZ),
        11 => Shape::RdRsRt(kind::MOVN),
        12 => Shape::NoOperands(kind::SYSCALL, Flow::None),
        13 => Shape::NoOperands(kind::BREAK, Flow::Interrupt),
        15 => Shape::NoOperands(kind::SYNC, Flow::None),
        16 => Shape::OneRd(kind::MFHI),
        18 => Shape::OneRd(kind::MFLO),
        17 => Shape::OneRs(kind::MTHI),
        19 => Shape::OneRs(kind::MTLO),
        24 => Shape::RsRt(kind::MULT),
        25 => Shape::RsRt(kind::MULTU),
        26 => Shape::RsRt(kind::DIV),
        27 => Shape::RsRt(kind::DIVU),
        28 => Shape::RsRt(kind::DMULT),
        29 => Shape::RsRt(kind::DMULTU),
        30 => Shape::RsRt(kind::DDIV),
        31 => Shape::RsRt(kind::DDIVU),
        _ => arithmetic(funct, w, bits64),
    }
}

#[tactic(auto, using(crate::proofs::Fields::special_arms), unfolding(crate::proofs::Fields::row_reads))]
fn arithmetic(funct: u8, w: u32, bits64: bool) -> Shape
    requires { Special funct (moves ∷ shifts ∷ []) w }
    ensures { Is result w bits64 }
{
    match funct {
        32 => Shape::RdRsRt(kind::ADD),
        33 => if word::rt(w) == 0 {
            Shape::RdRs(kind::MOVE)
        } else {
            Shape::RdRsRt(kind::ADDU)
        },
        34 => Shape::RdRsRt(kind::SUB),
        35 => if word::rs(w) == 0 {
            Shape::RdRt(kind::NEGU)
        } else {
            Shape::RdRsRt(kind::SUBU)
        },
        36 => Shape::RdRsRt(kind::AND),
        37 => if word::rt(w) == 0 {
            Shape::RdRs(kind::MOVE)
        } else {
            Shape::RdRsRt(kind::OR)
        },
        38 => Shape::RdRsRt(kind::XOR),
        39 => if word::rt(w) == 0 {
            Shape::RdRs(kind::NOT)
        } else {
            Shape::RdRsRt(kind::NOR)
        },
        42 => Shape::RdRsRt(kind::SLT),
        43 => Shape::RdRsRt(kind::SLTU),
        _ => doubleword_or_trap(funct, w, bits64),
    }
}

#[tactic(auto, using(crate::proofs::Fields::special_arms), unfolding(crate::proofs::Fields::row_reads))]
fn doubleword_or_trap(funct: u8, w: u32, bits64: bool) -> Shape
    requires { Special funct (arithmetics ∷ moves ∷ shifts ∷ []) w }
    ensures { Is result w bits64 }
{
    match funct {
        44 => Shape::RdRsRt(kind::DADD),
        45 => if word::rt(w) == 0 && bits64 {
            Shape::RdRs(kind::MOVE)
        } else {
            Shape::RdRsRt(kind::DADDU)
        },
        46 => Shape::RdRsRt(kind::DSUB),
        47 => Shape::RdRsRt(kind::DSUBU),
        48 => Shape::RsRt(kind::TGE),
        49 => Shape::RsRt(kind::TGEU),
        50 => Shape::RsRt(kind::TLT),
        51 => Shape::RsRt(kind::TLTU),
        52 => Shape::RsRt(kind::TEQ),
        54 => Shape::RsRt(kind::TNE),
        _ => Shape::Refused(Refusal::Special),
    }
}

// ── REGIMM, by rt ──

#[tactic(auto, using(crate::proofs::Fields::regimm_arms), unfolding(crate::proofs::Fields::row_reads))]
fn regimm(w: u32) -> Shape
    requires { Group 1 w }
    ensures { Each result w }
{
    match word::rt(w) {
        0 => Shape::RsOffset(kind::BLTZ, Flow::CondJump),
        1 => if word::rs(w) == 0 {
            Shape::Offset(kind::B, Flow::Jump)
        } else {
            Shape::RsOffset(kind::BGEZ, Flow::CondJump)
        },
        2 => Shape::RsOffset(kind::BLTZL, Flow::CondJump),
        3 => Shape::RsOffset(kind::BGEZL, Flow::CondJump),
        16 => Shape::RsOffset(kind::BLTZAL, Flow::Call),
        17 => if word::rs(w) == 0 {
            Shape::Offset(kind::BAL, Flow::Call)
        } else {
            Shape::RsOffset(kind::BGEZAL, Flow::Call)
        },
        _ => Shape::Refused(Refusal::Regimm),
    }
}

// ── jumps, branches and immediates, by op ──

#[tactic(auto, using(crate::proofs::Fields::op_arms), unfolding(crate::proofs::Fields::row_reads))]
fn jump_or_branch(op: u8, w: u32) -> Shape
    requires { Handed word.op op (grouped ∷ []) w }
    ensures { Each result w }
{
    match op {
        2 => Shape::InstrIndex(kind::J, Flow::Jump),
        3 => Shape::InstrIndex(kind::JAL, Flow::Call),
        4 => if word::rt(w) != 0 {
            Shape::RsRtOffset(kind::BEQ, Flow::CondJump)
        } else if word::rs(w) == 0 {
            Shape::Offset(kind::B, Flow::Jump)
        } else {
            Shape::RsOffset(kind::BEQZ, Flow::CondJump)
        },
        5 => if word::rt(w) == 0 {
            Shape::RsOffset(kind::BNEZ, Flow::CondJump)
        } else {
            Shape::RsRtOffset(kind::BNE, Flow::CondJump)
        },
        20 => if word::rt(w) == 0 {
            Shape::RsOffset(kind::BEQZL, Flow::CondJump)
        } else {
            Shape::RsRtOffset(kind::BEQL, Flow::CondJump)
        },
        21 => if word::rt(w) == 0 {
            Shape::RsOffset(kind::BNEZL, Flow::CondJump)
        } else {
            Shape::RsRtOffset(kind::BNEL, Flow::CondJump)
        },
        6 => Shape::RsOffset(kind::BLEZ, Flow::CondJump),
        7 => Shape::RsOffset(kind::BGTZ, Flow::CondJump),
        22 => Shape::RsOffset(kind::BLEZL, Flow::CondJump),
        23 => Shape::RsOffset(kind::BGTZL, Flow::CondJump),
        _ => immediate(op, w),
    }
}

#[tactic(auto, using(crate::proofs::Fields::op_arms), unfolding(crate::proofs::Fields::row_reads))]
fn immediate(op: u8, w: u32) -> Shape
    requires { Handed word.op op (branches ∷ grouped ∷ []) w }
    ensures { Each result w }
{
    match op {
        8 => Shape::RtRsImmAdd(kind::ADDI),
        9 => if word::rs(w) == 0 {
            Shape::RtImm
        } else {
            Shape::RtRsImmAdd(kind::ADDIU)
        },
        24 => Shape::RtRsImmAdd(kind::DADDI),
        25 => if word::rs(w) == 0 {
            Shape::RtImm
        } else {
            Shape::RtRsImmAdd(kind::DADDIU)
        },
        10 => Shape::RtRsImm(kind::SLTI),
        11 => Shape::RtRsImm(kind::SLTIU),
        12 => Shape::RtRsUimm(kind::ANDI),
        13 => if word::rs(w) == 0 {
            Shape::RtUimm
        } else {
            Shape::RtRsUimmAdd(kind::ORI)
        },
        14 => Shape::RtRsUimm(kind::XORI),
        15 => Shape::RtUimmUpper,
        _ => load_or_store(op),
    }
}

// ── COP0, by rs; SPECIAL2 and SPECIAL3, by funct ──

#[tactic(auto, using(crate::proofs::Fields::cop0_arms), unfolding(crate::proofs::Fields::row_reads))]
fn cop0(w: u32) -> Shape
    requires { Group 16 w }
    ensures { Each result w }
{
    match word::rs(w) {
        0 => Shape::RtCop0Write(kind::MFC0),
        4 => Shape::RtCop0(kind::MTC0),
        16 => match word::funct(w) {
            24 => Shape::NoOperands(kind::ERET, Flow::Ret),
            32 => Shape::NoOperands(kind::WAIT, Flow::None),
            _ => Shape::Refused(Refusal::Cop0),
        },
        _ => Shape::Refused(Refusal::Cop0),
    }
}

#[tactic(auto, using(crate::proofs::Fields::special2_arms), unfolding(crate::proofs::Fields::row_reads))]
fn special2(w: u32) -> Shape
    requires { Group 28 w }
    ensures { Each result w }
{
    match word::funct(w) {
        0 => Shape::RsRt(kind::MADD),
        1 => Shape::RsRt(kind::MADDU),
        2 => Shape::RdRsRt(kind::MUL),
        4 => Shape::RsRt(kind::MSUB),
        32 => Shape::RdRs(kind::CLZ),
        33 => Shape::RdRs(kind::CLO),
        _ => Shape::Refused(Refusal::Special2),
    }
}

#[tactic(auto, using(crate::proofs::Fields::special3_arms), unfolding(crate::proofs::Fields::row_reads))]
fn special3(w: u32) -> Shape
    requires { Group 31 w }
    ensures { Each result w }
{
    match word::funct(w) {
        0 => Shape::ExtPosSize,
        4 => Shape::InsPosSize,
        32 => match word::sa(w) {
            2 => Shape::RdRt(kind::WSBH),
            16 => Shape::RdRt(kind::SEB),
            24 => Shape::RdRt(kind::SEH),
            _ => Shape::Refused(Refusal::Special3),
        },
        59 => Shape::RtHwr,
        _ => Shape::Refused(Refusal::Special3),
    }
}

// ── loads and stores, by op ──

#[tactic(auto, using(crate::proofs::Fields::memory_arms), unfolding(crate::proofs::Fields::row_reads))]
fn load_or_store(op: u8) -> Shape
    ensures { EachHanded result op (immediates ∷ branches ∷ grouped ∷ []) }
{
    match op {
        32 => Shape::RtBaseLoad(kind::LB, 1),
        33 => Shape::RtBaseLoad(kind::LH, 2),
        34 => Shape::RtBaseLoad(kind::LWL, 4),
        35 => Shape::RtBaseLoad(kind::LW, 4),
        36 => Shape::RtBaseLoad(kind::LBU, 1),
        37 => Shape::RtBaseLoad(kind::LHU, 2),
        38 => Shape::RtBaseLoad(kind::LWR, 4),
        39 => Shape::RtBaseLoad(kind::LWU, 4),
        26 => Shape::RtBaseLoad(kind::LDL, 8),
        27 => Shape::RtBaseLoad(kind::LDR, 8),
        40 => Shape::RtBaseStore(kind::SB, 1),
        41 => Shape::RtBaseStore(kind::SH, 2),
        42 => Shape::RtBaseStore(kind::SWL, 4),
        43 => Shape::RtBaseStore(kind::SW, 4),
        44 => Shape::RtBaseStore(kind::SDL, 8),
        45 => Shape::RtBaseStore(kind::SDR, 8),
        46 => Shape::RtBaseStore(kind::SWR, 4),
        47 => Shape::HintBase(kind::CACHE),
        48 => Shape::RtBaseLoad(kind::LL, 4),
        51 => Shape::HintBase(kind::PREF),
        52 => Shape::RtBaseLoad(kind::LLD, 8),
        55 => Shape::RtBaseLoad(kind::LD, 8),
        56 => Shape::RtBaseWrite(kind::SC),
        60 => Shape::RtBaseWrite(kind::SCD),
        63 => Shape::RtBaseStore(kind::SD, 8),
        49 => Shape::FtBase(kind::LWC1, 4),
        53 => Shape::FtBase(kind::LDC1, 8),
        57 => Shape::FtBase(kind::SWC1, 4),
        61 => Shape::FtBase(kind::SDC1, 8),
        _ => Shape::Refused(Refusal::Op),
    }
}

// ── COP1, by fmt ──

#[tactic(auto, using(crate::proofs::Fields::cop1_arms), unfolding(crate::proofs::Fields::row_reads))]
fn decode_cop1(w: u32) -> Shape
    requires { Group 17 w }
    ensures { Each result w }
{
    let fmt = word::rs(w);
    match fmt {
        0 => Shape::RtFsWrite(kind::MFC1),
        1 => Shape::RtFsWrite(kind::DMFC1),
        2 => Shape::RtFsWrite(kind::CFC1),
        4 => Shape::RtFs(kind::MTC1),
        5 => Shape::RtFs(kind::DMTC1),
        6 => Shape::RtFs(kind::CTC1),
        8 => bc1(w),
        16 => float(S, w),
        17 => float(D, w),
        20 => float(W, w),
        21 => float(L, w),
        _ => Shape::Refused(Refusal::Cop1),
    }
}

#[tactic(auto, using(crate::proofs::Fields::bc1_arms), unfolding(crate::proofs::Fields::row_reads))]
fn bc1(w: u32) -> Shape
    requires { Group 17 w × (fields_of w word.rs ≡ 8) }
    ensures { Each result w }
{
    let likely_and_true = word::rt(w) % 4;
    match likely_and_true {
        0 => Shape::Offset(kind::BC1F, Flow::CondJump),
        1 => Shape::Offset(kind::BC1T, Flow::CondJump),
        2 => Shape::Offset(kind::BC1FL, Flow::CondJump),
        _ => Shape::Offset(kind::BC1TL, Flow::CondJump),
    }
}

// The source's `(base, ops)` and its `format!`: the mnemonic of format s, moved on by the distance of the format.
#[tactic(auto, using(crate::proofs::Fields::float_arms), unfolding(crate::proofs::Fields::row_reads))]
fn float(f: u8, w: u32) -> Shape
    requires format { Format f w }
    requires f_bound { f ≤ 48 }
    ensures { Each result w }
{
    match word::funct(w) {
        0 => Shape::FdFsFt(kind::ADD_S + f),
        1 => Shape::FdFsFt(kind::SUB_S + f),
        2 => Shape::FdFsFt(kind::MUL_S + f),
        3 => Shape::FdFsFt(kind::DIV_S + f),
        4 => Shape::FdFs(kind::SQRT_S + f),
        5 => Shape::FdFs(kind::ABS_S + f),
        6 => Shape::FdFs(kind::MOV_S + f),
        7 => Shape::FdFs(kind::NEG_S + f),
        13 => Shape::FdFs(kind::TRUNC_W_S + f),
        32 => Shape::FdFs(kind::CVT_S_S + f),
        33 => Shape::FdFs(kind::CVT_D_S + f),
        36 => Shape::FdFs(kind::CVT_W_S + f),
        37 => Shape::FdFs(kind::CVT_L_S + f),
        50 => Shape::FsFt(kind::C_EQ_S + f),
        60 => Shape::FsFt(kind::C_LT_S + f),
        62 => Shape::FsFt(kind::C_LE_S + f),
        _ => Shape::Refused(Refusal::Cop1),
    }
}
