// The class that has a mnemonic's smallest words: its least word, and the form of its operands. The words are those of
// the table of classes with nothing put in, and the arms are in its order; of twins it is the class that comes first,
// whose words are smaller. Each function has the arms of one range of mnemonics, which its `requires` names, since no
// function is to be as long as all of them.
#![tactic(auto, unfolding(crate::proofs::Arms::first_row))]

ghost use Rattle.reading.specs.Kind as kind;
ghost use Rattle.encode.specs.Private.Stem.{Is, Between};

use crate::stem::{Form, Stem};
use reading::kind;

// A number that is not a mnemonic has no class, and any word will do, since none has its reading.
pub(crate) fn stem_of(m: u8) -> Stem
    ensures { Is result m }
{
    match m {
        kind::NOP..=kind::DDIVU => shift_move_or_multiply(m),
        kind::ADD..=kind::DSRA32 => arithmetic_or_trap(m),
        kind::BLTZ..=kind::LUI => branch_or_immediate(m),
        kind::MFC0..=kind::BC1TL => cop0_or_cop1_move(m),
        kind::ADD_S..=kind::C_LE_D => single_or_double(m),
        kind::ADD_W..=kind::C_LE_L => word_or_long(m),
        kind::BEQZL..=kind::RDHWR => likely_or_special2_or_3(m),
        kind::LB..=kind::SD => load_or_store(m),
        _ => Stem(Form::NoOperands, 0),
    }
}

// SPECIAL, the first half by funct, and `nop`.
fn shift_move_or_multiply(m: u8) -> Stem
    requires { Between kind.nop kind.ddivu m }
    ensures { Is result m }
{
    match m {
        kind::NOP => Stem(Form::NoOperands, 0x0000_0000),
        kind::SSNOP => Stem(Form::NoOperands, 0x0000_0040),
        kind::SLL => Stem(Form::RdRtSa, 0x0000_0000),
        kind::ROTR => Stem(Form::RdRtSa, 0x0020_0002),
        kind::SRL => Stem(Form::RdRtSa, 0x0000_0002),
        kind::SRA => Stem(Form::RdRtSa, 0x0000_0003),
        kind::SLLV => Stem(Form::RdRtRs, 0x0000_0004),
        kind::SRLV => Stem(Form::RdRtRs, 0x0000_0006),
        kind::SRAV => Stem(Form::RdRtRs, 0x0000_0007),
        kind::JR => Stem(Form::OneRs, 0x0000_0008),
        kind::JALR => Stem(Form::Link, 0x0000_0009),
        kind::MOVZ => Stem(Form::RdRsRt, 0x0000_000a),
        kind::MOVN => Stem(Form::RdRsRt, 0x0000_000b),
        kind::SYSCALL => Stem(Form::NoOperands, 0x0000_000c),
        kind::BREAK => Stem(Form::NoOperands, 0x0000_000d),
        kind::SYNC => Stem(Form::NoOperands, 0x0000_000f),
        kind::MFHI => Stem(Form::OneRd, 0x0000_0010),
        kind::MTHI => Stem(Form::OneRs, 0x0000_0011),
        kind::MFLO => Stem(Form::OneRd, 0x0000_0012),
        kind::MTLO => Stem(Form::OneRs, 0x0000_0013),
        kind::DSLLV => Stem(Form::RdRtRs, 0x0000_0014),
        kind::DSRLV => Stem(Form::RdRtRs, 0x0000_0016),
        kind::DSRAV => Stem(Form::RdRtRs, 0x0000_0017),
        kind::MULT => Stem(Form::RsRt, 0x0000_0018),
        kind::MULTU => Stem(Form::RsRt, 0x0000_0019),
        kind::DIV => Stem(Form::RsRt, 0x0000_001a),
        kind::DIVU => Stem(Form::RsRt, 0x0000_001b),
        kind::DMULT => Stem(Form::RsRt, 0x0000_001c),
        kind::DMULTU => Stem(Form::RsRt, 0x0000_001d),
        kind::DDIV => Stem(Form::RsRt, 0x0000_001e),
        kind::DDIVU => Stem(Form::RsRt, 0x0000_001f),
        _ => Stem(Form::NoOperands, 0),
    }
}

// SPECIAL, the second half.
fn arithmetic_or_trap(m: u8) -> Stem
    requires { Between kind.add kind.dsra32 m }
    ensures { Is result m }
{
    match m {
        kind::ADD => Stem(Form::RdRsRt, 0x0000_0020),
        kind::MOVE => Stem(Form::RdRs, 0x0000_0021),
        kind::ADDU => Stem(Form::RdRsRt, 0x0000_0021),
        kind::SUB => Stem(Form::RdRsRt, 0x0000_0022),
        kind::NEGU => Stem(Form::RdRt, 0x0000_0023),
        kind::SUBU => Stem(Form::RdRsRt, 0x0000_0023),
        kind::AND => Stem(Form::RdRsRt, 0x0000_0024),
        kind::OR => Stem(Form::RdRsRt, 0x0000_0025),
        kind::XOR => Stem(Form::RdRsRt, 0x0000_0026),
        kind::NOT => Stem(Form::RdRs, 0x0000_0027),
        kind::NOR => Stem(Form::RdRsRt, 0x0000_0027),
        kind::SLT => Stem(Form::RdRsRt, 0x0000_002a),
        kind::SLTU => Stem(Form::RdRsRt, 0x0000_002b),
        kind::DADD => Stem(Form::RdRsRt, 0x0000_002c),
        kind::DADDU => Stem(Form::RdRsRt, 0x0000_002d),
        kind::DSUB => Stem(Form::RdRsRt, 0x0000_002e),
        kind::DSUBU => Stem(Form::RdRsRt, 0x0000_002f),
        kind::TGE => Stem(Form::RsRt, 0x0000_0030),
        kind::TGEU => Stem(Form::RsRt, 0x0000_0031),
        kind::TLT => Stem(Form::RsRt, 0x0000_0032),
        kind::TLTU => Stem(Form::RsRt, 0x0000_0033),
        kind::TEQ => Stem(Form::RsRt, 0x0000_0034),
        kind::TNE => Stem(Form::RsRt, 0x0000_0036),
        kind::DSLL => Stem(Form::RdRtSa, 0x0000_0038),
        kind::DSRL => Stem(Form::RdRtSa, 0x0000_003a),
        kind::DSRA => Stem(Form::RdRtSa, 0x0000_003b),
        kind::DSLL32 => Stem(Form::RdRtSa, 0x0000_003c),
        kind::DSRL32 => Stem(Form::RdRtSa, 0x0000_003e),
        kind::DSRA32 => Stem(Form::RdRtSa, 0x0000_003f),
        _ => Stem(Form::NoOperands, 0),
    }
}

// REGIMM, and ops 2 to 15.
fn branch_or_immediate(m: u8) -> Stem
    requires { Between kind.bltz kind.lui m }
    ensures { Is result m }
{
    match m {
        kind::BLTZ => Stem(Form::RsOffset, 0x0400_0000),
        kind::B => Stem(Form::Offset, 0x0401_0000),
        kind::BGEZ => Stem(Form::RsOffset, 0x0401_0000),
        kind::BLTZL => Stem(Form::RsOffset, 0x0402_0000),
        kind::BGEZL => Stem(Form::RsOffset, 0x0403_0000),
        kind::BLTZAL => Stem(Form::RsOffset, 0x0410_0000),
        kind::BAL => Stem(Form::Offset, 0x0411_0000),
        kind::BGEZAL => Stem(Form::RsOffset, 0x0411_0000),
        kind::J => Stem(Form::InstrIndex, 0x0800_0000),
        kind::JAL => Stem(Form::InstrIndex, 0x0c00_0000),
        kind::BEQZ => Stem(Form::RsOffset, 0x1000_0000),
        kind::BEQ => Stem(Form::RsRtOffset, 0x1000_0000),
        kind::BNEZ => Stem(Form::RsOffset, 0x1400_0000),
        kind::BNE => Stem(Form::RsRtOffset, 0x1400_0000),
        kind::BLEZ => Stem(Form::RsOffset, 0x1800_0000),
        kind::BGTZ => Stem(Form::RsOffset, 0x1c00_0000),
        kind::ADDI => Stem(Form::RtRsImm, 0x2000_0000),
        kind::LI => Stem(Form::RtImm, 0x2400_0000),
        kind::ADDIU => Stem(Form::RtRsImm, 0x2400_0000),
        kind::SLTI => Stem(Form::RtRsImm, 0x2800_0000),
        kind::SLTIU => Stem(Form::RtRsImm, 0x2c00_0000),
        kind::ANDI => Stem(Form::RtRsImm, 0x3000_0000),
        kind::ORI => Stem(Form::RtRsImm, 0x3400_0000),
        kind::XORI => Stem(Form::RtRsImm, 0x3800_0000),
        kind::LUI => Stem(Form::RtImm, 0x3c00_0000),
        _ => Stem(Form::NoOperands, 0),
    }
}

// COP0, and the moves and branches of COP1.
fn cop0_or_cop1_move(m: u8) -> Stem
    requires { Between kind.mfc0 kind.bc1tl m }
    ensures { Is result m }
{
    match m {
        kind::MFC0 => Stem(Form::RtCop0, 0x4000_0000),
        kind::MTC0 => Stem(Form::RtCop0, 0x4080_0000),
        kind::ERET => Stem(Form::NoOperands, 0x4200_0018),
        kind::WAIT => Stem(Form::NoOperands, 0x4200_0020),
        kind::MFC1 => Stem(Form::RtCop0, 0x4400_0000),
        kind::DMFC1 => Stem(Form::RtCop0, 0x4420_0000),
        kind::CFC1 => Stem(Form::RtCop0, 0x4440_0000),
        kind::MTC1 => Stem(Form::RtCop0, 0x4480_0000),
        kind::DMTC1 => Stem(Form::RtCop0, 0x44a0_0000),
        kind::CTC1 => Stem(Form::RtCop0, 0x44c0_0000),
        kind::BC1F => Stem(Form::Offset, 0x4500_0000),
        kind::BC1T => Stem(Form::Offset, 0x4501_0000),
        kind::BC1FL => Stem(Form::Offset, 0x4502_0000),
        kind::BC1TL => Stem(Form::Offset, 0x4503_0000),
        _ => Stem(Form::NoOperands, 0),
    }
}

// COP1, formats s and d.
fn single_or_double(m: u8) -> Stem
    requires { Between kind.add_s kind.c_le_d m }
    ensures { Is result m }
{
    match m {
        kind::ADD_S => Stem(Form::FdFsFt, 0x4600_0000),
        kind::SUB_S => Stem(Form::FdFsFt, 0x4600_0001),
        kind::MUL_S => Stem(Form::FdFsFt, 0x4600_0002),
        kind::DIV_S => Stem(Form::FdFsFt, 0x4600_0003),
        kind::SQRT_S => Stem(Form::FdFs, 0x4600_0004),
        kind::ABS_S => Stem(Form::FdFs, 0x4600_0005),
        kind::MOV_S => Stem(Form::FdFs, 0x4600_0006),
        kind::NEG_S => Stem(Form::FdFs, 0x4600_0007),
        kind::TRUNC_W_S => Stem(Form::FdFs, 0x4600_000d),
        kind::CVT_S_S => Stem(Form::FdFs, 0x4600_0020),
        kind::CVT_D_S => Stem(Form::FdFs, 0x4600_0021),
        kind::CVT_W_S => Stem(Form::FdFs, 0x4600_0024),
        kind::CVT_L_S => Stem(Form::FdFs, 0x4600_0025),
        kind::C_EQ_S => Stem(Form::RdRt, 0x4600_0032),
        kind::C_LT_S => Stem(Form::RdRt, 0x4600_003c),
        kind::C_LE_S => Stem(Form::RdRt, 0x4600_003e),
        kind::ADD_D => Stem(Form::FdFsFt, 0x4620_0000),
        kind::SUB_D => Stem(Form::FdFsFt, 0x4620_0001),
        kind::MUL_D => Stem(Form::FdFsFt, 0x4620_0002),
        kind::DIV_D => Stem(Form::FdFsFt, 0x4620_0003),
        kind::SQRT_D => Stem(Form::FdFs, 0x4620_0004),
        kind::ABS_D => Stem(Form::FdFs, 0x4620_0005),
        kind::MOV_D => Stem(Form::FdFs, 0x4620_0006),
        kind::NEG_D => Stem(Form::FdFs, 0x4620_0007),
        kind::TRUNC_W_D => Stem(Form::FdFs, 0x4620_000d),
        kind::CVT_S_D => Stem(Form::FdFs, 0x4620_0020),
        kind::CVT_D_D => Stem(Form::FdFs, 0x4620_0021),
        kind::CVT_W_D => Stem(Form::FdFs, 0x4620_0024),
        kind::CVT_L_D => Stem(Form::FdFs, 0x4620_0025),
        kind::C_EQ_D => Stem(Form::RdRt, 0x4620_0032),
        kind::C_LT_D => Stem(Form::RdRt, 0x4620_003c),
        kind::C_LE_D => Stem(Form::RdRt, 0x4620_003e),
        _ => Stem(Form::NoOperands, 0),
    }
}

// COP1, formats w and l.
fn word_or_long(m: u8) -> Stem
    requires { Between kind.add_w kind.c_le_l m }
    ensures { Is result m }
{
    match m {
        kind::ADD_W => Stem(Form::FdFsFt, 0x4680_0000),
        kind::SUB_W => Stem(Form::FdFsFt, 0x4680_0001),
        kind::MUL_W => Stem(Form::FdFsFt, 0x4680_0002),
        kind::DIV_W => Stem(Form::FdFsFt, 0x4680_0003),
        kind::SQRT_W => Stem(Form::FdFs, 0x4680_0004),
        kind::ABS_W => Stem(Form::FdFs, 0x4680_0005),
        kind::MOV_W => Stem(Form::FdFs, 0x4680_0006),
        kind::NEG_W => Stem(Form::FdFs, 0x4680_0007),
        kind::TRUNC_W_W => Stem(Form::FdFs, 0x4680_000d),
        kind::CVT_S_W => Stem(Form::FdFs, 0x4680_0020),
        kind::CVT_D_W => Stem(Form::FdFs, 0x4680_0021),
        kind::CVT_W_W => Stem(Form::FdFs, 0x4680_0024),
        kind::CVT_L_W => Stem(Form::FdFs, 0x4680_0025),
        kind::C_EQ_W => Stem(Form::RdRt, 0x4680_0032),
        kind::C_LT_W => Stem(Form::RdRt, 0x4680_003c),
        kind::C_LE_W => Stem(Form::RdRt, 0x4680_003e),
        kind::ADD_L => Stem(Form::FdFsFt, 0x46a0_0000),
        kind::SUB_L => Stem(Form::FdFsFt, 0x46a0_0001),
        kind::MUL_L => Stem(Form::FdFsFt, 0x46a0_0002),
        kind::DIV_L => Stem(Form::FdFsFt, 0x46a0_0003),
        kind::SQRT_L => Stem(Form::FdFs, 0x46a0_0004),
        kind::ABS_L => Stem(Form::FdFs, 0x46a0_0005),
        kind::MOV_L => Stem(Form::FdFs, 0x46a0_0006),
        kind::NEG_L => Stem(Form::FdFs, 0x46a0_0007),
        kind::TRUNC_W_L => Stem(Form::FdFs, 0x46a0_000d),
        kind::CVT_S_L => Stem(Form::FdFs, 0x46a0_0020),
        kind::CVT_D_L => Stem(Form::FdFs, 0x46a0_0021),
        kind::CVT_W_L => Stem(Form::FdFs, 0x46a0_0024),
        kind::CVT_L_L => Stem(Form::FdFs, 0x46a0_0025),
        kind::C_EQ_L => Stem(Form::RdRt, 0x46a0_0032),
        kind::C_LT_L => Stem(Form::RdRt, 0x46a0_003c),
        kind::C_LE_L => Stem(Form::RdRt, 0x46a0_003e),
        _ => Stem(Form::NoOperands, 0),
    }
}

// Ops 20 to 27, SPECIAL2, SPECIAL3.
fn likely_or_special2_or_3(m: u8) -> Stem
    requires { Between kind.beqzl kind.rdhwr m }
    ensures { Is result m }
{
    match m {
        kind::BEQZL => Stem(Form::RsOffset, 0x5000_0000),
        kind::BEQL => Stem(Form::RsRtOffset, 0x5000_0000),
        kind::BNEZL => Stem(Form::RsOffset, 0x5400_0000),
        kind::BNEL => Stem(Form::RsRtOffset, 0x5400_0000),
        kind::BLEZL => Stem(Form::RsOffset, 0x5800_0000),
        kind::BGTZL => Stem(Form::RsOffset, 0x5c00_0000),
        kind::DADDI => Stem(Form::RtRsImm, 0x6000_0000),
        kind::DADDIU => Stem(Form::RtRsImm, 0x6400_0000),
        kind::LDL => Stem(Form::RtBase, 0x6800_0000),
        kind::LDR => Stem(Form::RtBase, 0x6c00_0000),
        kind::MADD => Stem(Form::RsRt, 0x7000_0000),
        kind::MADDU => Stem(Form::RsRt, 0x7000_0001),
        kind::MUL => Stem(Form::RdRsRt, 0x7000_0002),
        kind::MSUB => Stem(Form::RsRt, 0x7000_0004),
        kind::CLZ => Stem(Form::RdRs, 0x7000_0020),
        kind::CLO => Stem(Form::RdRs, 0x7000_0021),
        kind::EXT => Stem(Form::ExtPosSize, 0x7c00_0000),
        kind::INS => Stem(Form::InsPosSize, 0x7c00_0004),
        kind::WSBH => Stem(Form::RdRt, 0x7c00_00a0),
        kind::SEB => Stem(Form::RdRt, 0x7c00_0420),
        kind::SEH => Stem(Form::RdRt, 0x7c00_0620),
        kind::RDHWR => Stem(Form::RtCop0, 0x7c00_003b),
        _ => Stem(Form::NoOperands, 0),
    }
}

// Ops 32 to 63.
fn load_or_store(m: u8) -> Stem
    requires { Between kind.lb kind.sd m }
    ensures { Is result m }
{
    match m {
        kind::LB => Stem(Form::RtBase, 0x8000_0000),
        kind::LH => Stem(Form::RtBase, 0x8400_0000),
        kind::LWL => Stem(Form::RtBase, 0x8800_0000),
        kind::LW => Stem(Form::RtBase, 0x8c00_0000),
        kind::LBU => Stem(Form::RtBase, 0x9000_0000),
        kind::LHU => Stem(Form::RtBase, 0x9400_0000),
        kind::LWR => Stem(Form::RtBase, 0x9800_0000),
        kind::LWU => Stem(Form::RtBase, 0x9c00_0000),
        kind::SB => Stem(Form::RtBase, 0xa000_0000),
        kind::SH => Stem(Form::RtBase, 0xa400_0000),
        kind::SWL => Stem(Form::RtBase, 0xa800_0000),
        kind::SW => Stem(Form::RtBase, 0xac00_0000),
        kind::SDL => Stem(Form::RtBase, 0xb000_0000),
        kind::SDR => Stem(Form::RtBase, 0xb400_0000),
        kind::SWR => Stem(Form::RtBase, 0xb800_0000),
        kind::CACHE => Stem(Form::RtBase, 0xbc00_0000),
        kind::LL => Stem(Form::RtBase, 0xc000_0000),
        kind::LWC1 => Stem(Form::RtBase, 0xc400_0000),
        kind::PREF => Stem(Form::RtBase, 0xcc00_0000),
        kind::LLD => Stem(Form::RtBase, 0xd000_0000),
        kind::LDC1 => Stem(Form::RtBase, 0xd400_0000),
        kind::LD => Stem(Form::RtBase, 0xdc00_0000),
        kind::SC => Stem(Form::RtBase, 0xe000_0000),
        kind::SWC1 => Stem(Form::RtBase, 0xe400_0000),
        kind::SCD => Stem(Form::RtBase, 0xf000_0000),
        kind::SDC1 => Stem(Form::RtBase, 0xf400_0000),
        kind::SD => Stem(Form::RtBase, 0xfc00_0000),
        _ => Stem(Form::NoOperands, 0),
    }
}
