// The mnemonics as numbers, in the order of the manual's opcode tables. The numbers are those of specs/Kind.antt, as
// the contract of `all` says. Constants and not an enum: a reading may have any number for its mnemonic (`Insn`).
ghost use Rattle.std.specs.Prelude.{◌≡◌};
ghost use Rattle.reading.specs.Kind.{kinds};

// ── written by tools/name_tables ──

// SPECIAL, by funct.
pub const NOP: u8 = 0;

pub const SSNOP: u8 = 1;

pub const SLL: u8 = 2;

pub const ROTR: u8 = 3;

pub const SRL: u8 = 4;

pub const SRA: u8 = 5;

pub const SLLV: u8 = 6;

pub const SRLV: u8 = 7;

pub const SRAV: u8 = 8;

pub const JR: u8 = 9;

pub const JALR: u8 = 10;

pub const MOVZ: u8 = 11;

pub const MOVN: u8 = 12;

pub const SYSCALL: u8 = 13;

pub const BREAK: u8 = 14;

pub const SYNC: u8 = 15;

pub const MFHI: u8 = 16;

pub const MTHI: u8 = 17;

pub const MFLO: u8 = 18;

pub const MTLO: u8 = 19;

pub const DSLLV: u8 = 20;

pub const DSRLV: u8 = 21;

pub const DSRAV: u8 = 22;

pub const MULT: u8 = 23;

pub const MULTU: u8 = 24;

pub const DIV: u8 = 25;

pub const DIVU: u8 = 26;

pub const DMULT: u8 = 27;

pub const DMULTU: u8 = 28;

pub const DDIV: u8 = 29;

pub const DDIVU: u8 = 30;

pub const ADD: u8 = 31;

pub const MOVE: u8 = 32;

pub const ADDU: u8 = 33;

pub const SUB: u8 = 34;

pub const NEGU: u8 = 35;

pub const SUBU: u8 = 36;

pub const AND: u8 = 37;

pub const OR: u8 = 38;

pub const XOR: u8 = 39;

pub const NOT: u8 = 40;

pub const NOR: u8 = 41;

pub const SLT: u8 = 42;

pub const SLTU: u8 = 43;

pub const DADD: u8 = 44;

pub const DADDU: u8 = 45;

pub const DSUB: u8 = 46;

pub const DSUBU: u8 = 47;

pub const TGE: u8 = 48;

pub const TGEU: u8 = 49;

pub const TLT: u8 = 50;

pub const TLTU: u8 = 51;

pub const TEQ: u8 = 52;

pub const TNE: u8 = 53;

pub const DSLL: u8 = 54;

pub const DSRL: u8 = 55;

pub const DSRA: u8 = 56;

pub const DSLL32: u8 = 57;

pub const DSRL32: u8 = 58;

pub const DSRA32: u8 = 59;

// REGIMM, by rt.
pub const BLTZ: u8 = 60;

pub const B: u8 = 61;

pub const BGEZ: u8 = 62;

pub const BLTZL: u8 = 63;

pub const BGEZL: u8 = 64;

pub const BLTZAL: u8 = 65;

pub const BAL: u8 = 66;

pub const BGEZAL: u8 = 67;

// Ops 2 to 15.
pub const J: u8 = 68;

pub const JAL: u8 = 69;

pub const BEQZ: u8 = 70;

pub const BEQ: u8 = 71;

pub const BNEZ: u8 = 72;

pub const BNE: u8 = 73;

pub const BLEZ: u8 = 74;

pub const BGTZ: u8 = 75;

pub const ADDI: u8 = 76;

pub const LI: u8 = 77;

pub const ADDIU: u8 = 78;

pub const SLTI: u8 = 79;

pub const SLTIU: u8 = 80;

pub const ANDI: u8 = 81;

pub const ORI: u8 = 82;

pub const XORI: u8 = 83;

pub const LUI: u8 = 84;

// COP0, by rs.
pub const MFC0: u8 = 85;

pub const MTC0: u8 = 86;

pub const ERET: u8 = 87;

pub const WAIT: u8 = 88;

// COP1, by fmt and funct.
pub const MFC1: u8 = 89;

pub const DMFC1: u8 = 90;

pub const CFC1: u8 = 91;

pub const MTC1: u8 = 92;

pub const DMTC1: u8 = 93;

pub const CTC1: u8 = 94;

pub const BC1F: u8 = 95;

pub const BC1T: u8 = 96;

pub const BC1FL: u8 = 97;

pub const BC1TL: u8 = 98;

pub const ADD_S: u8 = 99;

pub const SUB_S: u8 = 100;

pub const MUL_S: u8 = 101;

pub const DIV_S: u8 = 102;

pub const SQRT_S: u8 = 103;

pub const ABS_S: u8 = 104;

pub const MOV_S: u8 = 105;

pub const NEG_S: u8 = 106;

pub const TRUNC_W_S: u8 = 107;

pub const CVT_S_S: u8 = 108;

pub const CVT_D_S: u8 = 109;

pub const CVT_W_S: u8 = 110;

pub const CVT_L_S: u8 = 111;

pub const C_EQ_S: u8 = 112;

pub const C_LT_S: u8 = 113;

pub const C_LE_S: u8 = 114;

pub const ADD_D: u8 = 115;

pub const SUB_D: u8 = 116;

pub const MUL_D: u8 = 117;

pub const DIV_D: u8 = 118;

pub const SQRT_D: u8 = 119;

pub const ABS_D: u8 = 120;

pub const MOV_D: u8 = 121;

pub const NEG_D: u8 = 122;

pub const TRUNC_W_D: u8 = 123;

pub const CVT_S_D: u8 = 124;

pub const CVT_D_D: u8 = 125;

pub const CVT_W_D: u8 = 126;

pub const CVT_L_D: u8 = 127;

pub const C_EQ_D: u8 = 128;

pub const C_LT_D: u8 = 129;

pub const C_LE_D: u8 = 130;

pub const ADD_W: u8 = 131;

pub const SUB_W: u8 = 132;

pub const MUL_W: u8 = 133;

pub const DIV_W: u8 = 134;

pub const SQRT_W: u8 = 135;

pub const ABS_W: u8 = 136;

pub const MOV_W: u8 = 137;

pub const NEG_W: u8 = 138;

pub const TRUNC_W_W: u8 = 139;

pub const CVT_S_W: u8 = 140;

pub const CVT_D_W: u8 = 141;

pub const CVT_W_W: u8 = 142;

pub const CVT_L_W: u8 = 143;

pub const C_EQ_W: u8 = 144;

pub const C_LT_W: u8 = 145;

pub const C_LE_W: u8 = 146;

pub const ADD_L: u8 = 147;

pub const SUB_L: u8 = 148;

pub const MUL_L: u8 = 149;

pub const DIV_L: u8 = 150;

pub const SQRT_L: u8 = 151;

pub const ABS_L: u8 = 152;

pub const MOV_L: u8 = 153;

pub const NEG_L: u8 = 154;

pub const TRUNC_W_L: u8 = 155;

pub const CVT_S_L: u8 = 156;

pub const CVT_D_L: u8 = 157;

pub const CVT_W_L: u8 = 158;

pub const CVT_L_L: u8 = 159;

pub const C_EQ_L: u8 = 160;

pub const C_LT_L: u8 = 161;

pub const C_LE_L: u8 = 162;

// Ops 20 to 27.
pub const BEQZL: u8 = 163;

pub const BEQL: u8 = 164;

pub const BNEZL: u8 = 165;

pub const BNEL: u8 = 166;

pub const BLEZL: u8 = 167;

pub const BGTZL: u8 = 168;

pub const DADDI: u8 = 169;

pub const DADDIU: u8 = 170;

pub const LDL: u8 = 171;

pub const LDR: u8 = 172;

// SPECIAL2, by funct.
pub const MADD: u8 = 173;

pub const MADDU: u8 = 174;

pub const MUL: u8 = 175;

pub const MSUB: u8 = 176;

pub const CLZ: u8 = 177;

pub const CLO: u8 = 178;

// SPECIAL3, by funct.
pub const EXT: u8 = 179;

pub const INS: u8 = 180;

pub const WSBH: u8 = 181;

pub const SEB: u8 = 182;

pub const SEH: u8 = 183;

pub const RDHWR: u8 = 184;

// Ops 32 to 63.
pub const LB: u8 = 185;

pub const LH: u8 = 186;

pub const LWL: u8 = 187;

pub const LW: u8 = 188;

pub const LBU: u8 = 189;

pub const LHU: u8 = 190;

pub const LWR: u8 = 191;

pub const LWU: u8 = 192;

pub const SB: u8 = 193;

pub const SH: u8 = 194;

pub const SWL: u8 = 195;

pub const SW: u8 = 196;

pub const SDL: u8 = 197;

pub const SDR: u8 = 198;

pub const SWR: u8 = 199;

pub const CACHE: u8 = 200;

pub const LL: u8 = 201;

pub const LWC1: u8 = 202;

pub const PREF: u8 = 203;

pub const LLD: u8 = 204;

pub const LDC1: u8 = 205;

pub const LD: u8 = 206;

pub const SC: u8 = 207;

pub const SWC1: u8 = 208;

pub const SCD: u8 = 209;

pub const SDC1: u8 = 210;

pub const SD: u8 = 211;

// How many there are.
pub const MANY: u8 = 212;

// All of them, in the order of the definition's `kinds`.
const ALL: [u8; MANY as usize] = [
    NOP, SSNOP, SLL, ROTR, SRL, SRA, SLLV, SRLV, SRAV, JR, JALR, MOVZ, MOVN, SYSCALL, BREAK, SYNC,
    MFHI, MTHI, MFLO, MTLO, DSLLV, DSRLV, DSRAV, MULT, MULTU, DIV, DIVU, DMULT, DMULTU, DDIV,
    DDIVU, ADD, MOVE, ADDU, SUB, NEGU, SUBU, AND, OR, XOR, NOT, NOR, SLT, SLTU, DADD, DADDU, DSUB,
    DSUBU, TGE, TGEU, TLT, TLTU, TEQ, TNE, DSLL, DSRL, DSRA, DSLL32, DSRL32, DSRA32, BLTZ, B, BGEZ,
    BLTZL, BGEZL, BLTZAL, BAL, BGEZAL, J, JAL, BEQZ, BEQ, BNEZ, BNE, BLEZ, BGTZ, ADDI, LI, ADDIU,
    SLTI, SLTIU, ANDI, ORI, XORI, LUI, MFC0, MTC0, ERET, WAIT, MFC1, DMFC1, CFC1, MTC1, DMTC1,
    CTC1, BC1F, BC1T, BC1FL, BC1TL, ADD_S, SUB_S, MUL_S, DIV_S, SQRT_S, ABS_S, MOV_S, NEG_S,
    TRUNC_W_S, CVT_S_S, CVT_D_S, CVT_W_S, CVT_L_S, C_EQ_S, C_LT_S, C_LE_S, ADD_D, SUB_D, MUL_D,
    DIV_D, SQRT_D, ABS_D, MOV_D, NEG_D, TRUNC_W_D, CVT_S_D, CVT_D_D, CVT_W_D, CVT_L_D, C_EQ_D,
    C_LT_D, C_LE_D, ADD_W, SUB_W, MUL_W, DIV_W, SQRT_W, ABS_W, MOV_W, NEG_W, TRUNC_W_W, CVT_S_W,
    CVT_D_W, CVT_W_W, CVT_L_W, C_EQ_W, C_LT_W, C_LE_W, ADD_L, SUB_L, MUL_L, DIV_L, SQRT_L, ABS_L,
    MOV_L, NEG_L, TRUNC_W_L, CVT_S_L, CVT_D_L, CVT_W_L, CVT_L_L, C_EQ_L, C_LT_L, C_LE_L, BEQZL,
    BEQL, BNEZL, BNEL, BLEZL, BGTZL, DADDI, DADDIU, LDL, LDR, MADD, MADDU, MUL, MSUB, CLZ, CLO,
    EXT, INS, WSBH, SEB, SEH, RDHWR, LB, LH, LWL, LW, LBU, LHU, LWR, LWU, SB, SH, SWL, SW, SDL,
    SDR, SWR, CACHE, LL, LWC1, PREF, LLD, LDC1, LD, SC, SWC1, SCD, SDC1, SD,
];

// ── written by hand ──

// Nobody calls it: it is here to be proved.
#[tactic(auto, unfolding(crate::specs::Kind::kinds))]
fn all() -> [u8; MANY as usize]
    ensures { result ≡ kinds }
{
    ALL
}
