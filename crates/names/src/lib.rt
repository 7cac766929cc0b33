// The names of registers and of mnemonics: the source's `REGS` and string literals. From a kind to its name, and back.
// Depends on `reading` for the kinds, on `text` for what a padded text is, and on `buffers`.
#![tactic(auto)]

ghost use Rattle.std.specs.Prelude.{◌≡◌, ◌+◌, ◌*◌, ◌≤◌, ◌<◌};
ghost use Rattle.names.specs.Names.{register_bytes, name_bytes, kind_named};
ghost use Rattle.names.specs.Private.Table.{IsRow, IsEntry, Candidate};

// ── tables ──

// The tables are constant arrays of bytes. They go to these two by value: so a table is built once, and only where it
// is needed; by reference, the compiler builds all that a function names before it chooses one.

// One row of a table whose rows have SIZE bytes: a name, then zeros.
fn row_in<const SIZE: usize, const ALL: usize>(table: [u8; ALL], row: usize) -> [u8; SIZE]
    requires { SIZE * row + SIZE ≤ ALL }
    ensures { IsRow SIZE table.entry row result }
{
    *table.as_slice()[SIZE * row..].first_chunk().unwrap()
}

// One byte of a table.
fn entry_in<const ALL: usize>(table: [u8; ALL], place: usize) -> u8
    requires { place < ALL }
    ensures { IsEntry table.entry place result }
{
    table[place]
}

// ── registers ──

const REGISTERS: u8 = 32;

// Four bytes for each register, by its number.
const REGS: [u8; 128] = *b"zeroat\0\0v0\0\0v1\0\0a0\0\0a1\0\0a2\0\0a3\0\0\
    t0\0\0t1\0\0t2\0\0t3\0\0t4\0\0t5\0\0t6\0\0t7\0\0\
    s0\0\0s1\0\0s2\0\0s3\0\0s4\0\0s5\0\0s6\0\0s7\0\0\
    t8\0\0t9\0\0k0\0\0k1\0\0gp\0\0sp\0\0fp\0\0ra\0\0";

// A register's name; zeros alone for a number that no register has, as `register_bytes` has them, and no `None`.
pub fn register(n: u8) -> [u8; 4]
    ensures { result ≡ register_bytes n }
{
    if n < REGISTERS {
        row_in(REGS, n as usize)
    } else {
        [0u8; 4]
    }
}

// ── from a kind to its name ──

// How many names an array has. A constant array is built anew wherever it is used, so that one array of all the names
// would cost more than decoding a word: hence few names in an array, and an arm of `name_of` for each array.
const ROWS: u8 = 4;

// Sixteen bytes for each mnemonic, by their kinds: NAMES_3 has the kinds 3 * ROWS to 3 * ROWS + 3.
const NAMES_0: [u8; 64] = *b"nop\0\0\0\0\0\0\0\0\0\0\0\0\0ssnop\0\0\0\0\0\0\0\0\0\0\0\
    sll\0\0\0\0\0\0\0\0\0\0\0\0\0rotr\0\0\0\0\0\0\0\0\0\0\0\0";

const NAMES_1: [u8; 64] = *b"srl\0\0\0\0\0\0\0\0\0\0\0\0\0sra\0\0\0\0\0\0\0\0\0\0\0\0\0\
    sllv\0\0\0\0\0\0\0\0\0\0\0\0srlv\0\0\0\0\0\0\0\0\0\0\0\0";

const NAMES_2: [u8; 64] = *b"srav\0\0\0\0\0\0\0\0\0\0\0\0jr\0\0\0\0\0\0\0\0\0\0\0\0\0\0\
    jalr\0\0\0\0\0\0\0\0\0\0\0\0movz\0\0\0\0\0\0\0\0\0\0\0\0";

const NAMES_3: [u8; 64] = *b"movn\0\0\0\0\0\0\0\0\0\0\0\0syscall\0\0\0\0\0\0\0\0\0\
    break\0\0\0\0\0\0\0\0\0\0\0sync\0\0\0\0\0\0\0\0\0\0\0\0";

const NAMES_4: [u8; 64] = *b"mfhi\0\0\0\0\0\0\0\0\0\0\0\0mthi\0\0\0\0\0\0\0\0\0\0\0\0\
    mflo\0\0\0\0\0\0\0\0\0\0\0\0mtlo\0\0\0\0\0\0\0\0\0\0\0\0";

const NAMES_5: [u8; 64] = *b"dsllv\0\0\0\0\0\0\0\0\0\0\0dsrlv\0\0\0\0\0\0\0\0\0\0\0\
    dsrav\0\0\0\0\0\0\0\0\0\0\0mult\0\0\0\0\0\0\0\0\0\0\0\0";

const NAMES_6: [u8; 64] = *b"multu\0\0\0\0\0\0\0\0\0\0\0div\0\0\0\0\0\0\0\0\0\0\0\0\0\
    divu\0\0\0\0\0\0\0\0\0\0\0\0dmult\0\0\0\0\0\0\0\0\0\0\0";

const NAMES_7: [u8; 64] = *b"dmultu\0\0\0\0\0\0\0\0\0\0ddiv\0\0\0\0\0\0\0\0\0\0\0\0\
    ddivu\0\0\0\0\0\0\0\0\0\0\0add\0\0\0\0\0\0\0\0\0\0\0\0\0";

const NAMES_8: [u8; 64] = *b"move\0\0\0\0\0\0\0\0\0\0\0\0addu\0\0\0\0\0\0\0\0\0\0\0\0\
    sub\0\0\0\0\0\0\0\0\0\0\0\0\0negu\0\0\0\0\0\0\0\0\0\0\0\0";

const NAMES_9: [u8; 64] = *b"subu\0\0\0\0\0\0\0\0\0\0\0\0and\0\0\0\0\0\0\0\0\0\0\0\0\0\
    or\0\0\0\0\0\0\0\0\0\0\0\0\0\0xor\0\0\0\0\0\0\0\0\0\0\0\0\0";

const NAMES_10: [u8; 64] = *b"not\0\0\0\0\0\0\0\0\0\0\0\0\0nor\0\0\0\0\0\0\0\0\0\0\0\0\0\
    slt\0\0\0\0\0\0\0\0\0\0\0\0\0sltu\0\0\0\0\0\0\0\0\0\0\0\0";

const NAMES_11: [u8; 64] = *b"dadd\0\0\0\0\0\0\0\0\0\0\0\0daddu\0\0\0\0\0\0\0\0\0\0\0\
    dsub\0\0\0\0\0\0\0\0\0\0\0\0dsubu\0\0\0\0\0\0\0\0\0\0\0";

const NAMES_12: [u8; 64] = *b"tge\0\0\0\0\0\0\0\0\0\0\0\0\0tgeu\0\0\0\0\0\0\0\0\0\0\0\0\
    tlt\0\0\0\0\0\0\0\0\0\0\0\0\0tltu\0\0\0\0\0\0\0\0\0\0\0\0";

const NAMES_13: [u8; 64] = *b"teq\0\0\0\0\0\0\0\0\0\0\0\0\0tne\0\0\0\0\0\0\0\0\0\0\0\0\0\
    dsll\0\0\0\0\0\0\0\0\0\0\0\0dsrl\0\0\0\0\0\0\0\0\0\0\0\0";

const NAMES_14: [u8; 64] = *b"dsra\0\0\0\0\0\0\0\0\0\0\0\0dsll32\0\0\0\0\0\0\0\0\0\0\
    dsrl32\0\0\0\0\0\0\0\0\0\0dsra32\0\0\0\0\0\0\0\0\0\0";

const NAMES_15: [u8; 64] = *b"bltz\0\0\0\0\0\0\0\0\0\0\0\0b\0\0\0\0\0\0\0\0\0\0\0\0\0\0\0\
    bgez\0\0\0\0\0\0\0\0\0\0\0\0bltzl\0\0\0\0\0\0\0\0\0\0\0";

const NAMES_16: [u8; 64] = *b"bgezl\0\0\0\0\0\0\0\0\0\0\0bltzal\0\0\0\0\0\0\0\0\0\0\
    bal\0\0\0\0\0\0\0\0\0\0\0\0\0bgezal\0\0\0\0\0\0\0\0\0\0";

const NAMES_17: [u8; 64] = *b"j\0\0\0\0\0\0\0\0\0\0\0\0\0\0\0jal\0\0\0\0\0\0\0\0\0\0\0\0\0\
    beqz\0\0\0\0\0\0\0\0\0\0\0\0beq\0\0\0\0\0\0\0\0\0\0\0\0\0";

const NAMES_18: [u8; 64] = *b"bnez\0\0\0\0\0\0\0\0\0\0\0\0bne\0\0\0\0\0\0\0\0\0\0\0\0\0\
    blez\0\0\0\0\0\0\0\0\0\0\0\0bgtz\0\0\0\0\0\0\0\0\0\0\0\0";

const NAMES_19: [u8; 64] = *b"addi\0\0\0\0\0\0\0\0\0\0\0\0li\0\0\0\0\0\0\0\0\0\0\0\0\0\0\
    addiu\0\0\0\0\0\0\0\0\0\0\0slti\0\0\0\0\0\0\0\0\0\0\0\0";

const NAMES_20: [u8; 64] = *b"sltiu\0\0\0\0\0\0\0\0\0\0\0andi\0\0\0\0\0\0\0\0\0\0\0\0\
    ori\0\0\0\0\0\0\0\0\0\0\0\0\0xori\0\0\0\0\0\0\0\0\0\0\0\0";

const NAMES_21: [u8; 64] = *b"lui\0\0\0\0\0\0\0\0\0\0\0\0\0mfc0\0\0\0\0\0\0\0\0\0\0\0\0\
    mtc0\0\0\0\0\0\0\0\0\0\0\0\0eret\0\0\0\0\0\0\0\0\0\0\0\0";

const NAMES_22: [u8; 64] = *b"wait\0\0\0\0\0\0\0\0\0\0\0\0mfc1\0\0\0\0\0\0\0\0\0\0\0\0\
    dmfc1\0\0\0\0\0\0\0\0\0\0\0cfc1\0\0\0\0\0\0\0\0\0\0\0\0";

const NAMES_23: [u8; 64] = *b"mtc1\0\0\0\0\0\0\0\0\0\0\0\0dmtc1\0\0\0\0\0\0\0\0\0\0\0\
    ctc1\0\0\0\0\0\0\0\0\0\0\0\0bc1f\0\0\0\0\0\0\0\0\0\0\0\0";

const NAMES_24: [u8; 64] = *b"bc1t\0\0\0\0\0\0\0\0\0\0\0\0bc1fl\0\0\0\0\0\0\0\0\0\0\0\
    bc1tl\0\0\0\0\0\0\0\0\0\0\0add.s\0\0\0\0\0\0\0\0\0\0\0";

const NAMES_25: [u8; 64] = *b"sub.s\0\0\0\0\0\0\0\0\0\0\0mul.s\0\0\0\0\0\0\0\0\0\0\0\
    div.s\0\0\0\0\0\0\0\0\0\0\0sqrt.s\0\0\0\0\0\0\0\0\0\0";

const NAMES_26: [u8; 64] = *b"abs.s\0\0\0\0\0\0\0\0\0\0\0mov.s\0\0\0\0\0\0\0\0\0\0\0\
    neg.s\0\0\0\0\0\0\0\0\0\0\0trunc.w.s\0\0\0\0\0\0\0";

const NAMES_27: [u8; 64] = *b"cvt.s.s\0\0\0\0\0\0\0\0\0cvt.d.s\0\0\0\0\0\0\0\0\0\
    cvt.w.s\0\0\0\0\0\0\0\0\0cvt.l.s\0\0\0\0\0\0\0\0\0";

const NAMES_28: [u8; 64] = *b"c.eq.s\0\0\0\0\0\0\0\0\0\0c.lt.s\0\0\0\0\0\0\0\0\0\0\
    c.le.s\0\0\0\0\0\0\0\0\0\0add.d\0\0\0\0\0\0\0\0\0\0\0";

const NAMES_29: [u8; 64] = *b"sub.d\0\0\0\0\0\0\0\0\0\0\0mul.d\0\0\0\0\0\0\0\0\0\0\0\
    div.d\0\0\0\0\0\0\0\0\0\0\0sqrt.d\0\0\0\0\0\0\0\0\0\0";

const NAMES_30: [u8; 64] = *b"abs.d\0\0\0\0\0\0\0\0\0\0\0mov.d\0\0\0\0\0\0\0\0\0\0\0\
    neg.d\0\0\0\0\0\0\0\0\0\0\0trunc.w.d\0\0\0\0\0\0\0";

const NAMES_31: [u8; 64] = *b"cvt.s.d\0\0\0\0\0\0\0\0\0cvt.d.d\0\0\0\0\0\0\0\0\0\
    cvt.w.d\0\0\0\0\0\0\0\0\0cvt.l.d\0\0\0\0\0\0\0\0\0";

const NAMES_32: [u8; 64] = *b"c.eq.d\0\0\0\0\0\0\0\0\0\0c.lt.d\0\0\0\0\0\0\0\0\0\0\
    c.le.d\0\0\0\0\0\0\0\0\0\0add.w\0\0\0\0\0\0\0\0\0\0\0";

const NAMES_33: [u8; 64] = *b"sub.w\0\0\0\0\0\0\0\0\0\0\0mul.w\0\0\0\0\0\0\0\0\0\0\0\
    div.w\0\0\0\0\0\0\0\0\0\0\0sqrt.w\0\0\0\0\0\0\0\0\0\0";

const NAMES_34: [u8; 64] = *b"abs.w\0\0\0\0\0\0\0\0\0\0\0mov.w\0\0\0\0\0\0\0\0\0\0\0\
    neg.w\0\0\0\0\0\0\0\0\0\0\0trunc.w.w\0\0\0\0\0\0\0";

const NAMES_35: [u8; 64] = *b"cvt.s.w\0\0\0\0\0\0\0\0\0cvt.d.w\0\0\0\0\0\0\0\0\0\
    cvt.w.w\0\0\0\0\0\0\0\0\0cvt.l.w\0\0\0\0\0\0\0\0\0";

const NAMES_36: [u8; 64] = *b"c.eq.w\0\0\0\0\0\0\0\0\0\0c.lt.w\0\0\0\0\0\0\0\0\0\0\
    c.le.w\0\0\0\0\0\0\0\0\0\0add.l\0\0\0\0\0\0\0\0\0\0\0";

const NAMES_37: [u8; 64] = *b"sub.l\0\0\0\0\0\0\0\0\0\0\0mul.l\0\0\0\0\0\0\0\0\0\0\0\
    div.l\0\0\0\0\0\0\0\0\0\0\0sqrt.l\0\0\0\0\0\0\0\0\0\0";

const NAMES_38: [u8; 64] = *b"abs.l\0\0\0\0\0\0\0\0\0\0\0mov.l\0\0\0\0\0\0\0\0\0\0\0\
    neg.l\0\0\0\0\0\0\0\0\0\0\0trunc.w.l\0\0\0\0\0\0\0";

const NAMES_39: [u8; 64] = *b"cvt.s.l\0\0\0\0\0\0\0\0\0cvt.d.l\0\0\0\0\0\0\0\0\0\
    cvt.w.l\0\0\0\0\0\0\0\0\0cvt.l.l\0\0\0\0\0\0\0\0\0";

const NAMES_40: [u8; 64] = *b"c.eq.l\0\0\0\0\0\0\0\0\0\0c.lt.l\0\0\0\0\0\0\0\0\0\0\
    c.le.l\0\0\0\0\0\0\0\0\0\0beqzl\0\0\0\0\0\0\0\0\0\0\0";

const NAMES_41: [u8; 64] = *b"beql\0\0\0\0\0\0\0\0\0\0\0\0bnezl\0\0\0\0\0\0\0\0\0\0\0\
    bnel\0\0\0\0\0\0\0\0\0\0\0\0blezl\0\0\0\0\0\0\0\0\0\0\0";

const NAMES_42: [u8; 64] = *b"bgtzl\0\0\0\0\0\0\0\0\0\0\0daddi\0\0\0\0\0\0\0\0\0\0\0\
    daddiu\0\0\0\0\0\0\0\0\0\0ldl\0\0\0\0\0\0\0\0\0\0\0\0\0";

const NAMES_43: [u8; 64] = *b"ldr\0\0\0\0\0\0\0\0\0\0\0\0\0madd\0\0\0\0\0\0\0\0\0\0\0\0\
    maddu\0\0\0\0\0\0\0\0\0\0\0mul\0\0\0\0\0\0\0\0\0\0\0\0\0";

const NAMES_44: [u8; 64] = *b"msub\0\0\0\0\0\0\0\0\0\0\0\0clz\0\0\0\0\0\0\0\0\0\0\0\0\0\
    clo\0\0\0\0\0\0\0\0\0\0\0\0\0ext\0\0\0\0\0\0\0\0\0\0\0\0\0";

const NAMES_45: [u8; 64] = *b"ins\0\0\0\0\0\0\0\0\0\0\0\0\0wsbh\0\0\0\0\0\0\0\0\0\0\0\0\
    seb\0\0\0\0\0\0\0\0\0\0\0\0\0seh\0\0\0\0\0\0\0\0\0\0\0\0\0";

const NAMES_46: [u8; 64] = *b"rdhwr\0\0\0\0\0\0\0\0\0\0\0lb\0\0\0\0\0\0\0\0\0\0\0\0\0\0\
    lh\0\0\0\0\0\0\0\0\0\0\0\0\0\0lwl\0\0\0\0\0\0\0\0\0\0\0\0\0";

const NAMES_47: [u8; 64] = *b"lw\0\0\0\0\0\0\0\0\0\0\0\0\0\0lbu\0\0\0\0\0\0\0\0\0\0\0\0\0\
    lhu\0\0\0\0\0\0\0\0\0\0\0\0\0lwr\0\0\0\0\0\0\0\0\0\0\0\0\0";

const NAMES_48: [u8; 64] = *b"lwu\0\0\0\0\0\0\0\0\0\0\0\0\0sb\0\0\0\0\0\0\0\0\0\0\0\0\0\0\
    sh\0\0\0\0\0\0\0\0\0\0\0\0\0\0swl\0\0\0\0\0\0\0\0\0\0\0\0\0";

const NAMES_49: [u8; 64] = *b"sw\0\0\0\0\0\0\0\0\0\0\0\0\0\0sdl\0\0\0\0\0\0\0\0\0\0\0\0\0\
    sdr\0\0\0\0\0\0\0\0\0\0\0\0\0swr\0\0\0\0\0\0\0\0\0\0\0\0\0";

const NAMES_50: [u8; 64] = *b"cache\0\0\0\0\0\0\0\0\0\0\0ll\0\0\0\0\0\0\0\0\0\0\0\0\0\0\
    lwc1\0\0\0\0\0\0\0\0\0\0\0\0pref\0\0\0\0\0\0\0\0\0\0\0\0";

const NAMES_51: [u8; 64] = *b"lld\0\0\0\0\0\0\0\0\0\0\0\0\0ldc1\0\0\0\0\0\0\0\0\0\0\0\0\
    ld\0\0\0\0\0\0\0\0\0\0\0\0\0\0sc\0\0\0\0\0\0\0\0\0\0\0\0\0\0";

const NAMES_52: [u8; 64] = *b"swc1\0\0\0\0\0\0\0\0\0\0\0\0scd\0\0\0\0\0\0\0\0\0\0\0\0\0\
    sdc1\0\0\0\0\0\0\0\0\0\0\0\0sd\0\0\0\0\0\0\0\0\0\0\0\0\0\0";

// A mnemonic's name; zeros alone for a number that no kind has. Split so that no function exceeds 40 lines: the other
// arms are those of `name_in_upper_half`.
pub fn name_of(kind: u8) -> [u8; 16]
    ensures { result ≡ name_bytes kind }
{
    let row = (kind % ROWS) as usize;
    let array = kind / ROWS;
    match array {
        0 => row_in(NAMES_0, row),
        1 => row_in(NAMES_1, row),
        2 => row_in(NAMES_2, row),
        3 => row_in(NAMES_3, row),
        4 => row_in(NAMES_4, row),
        5 => row_in(NAMES_5, row),
        6 => row_in(NAMES_6, row),
        7 => row_in(NAMES_7, row),
        8 => row_in(NAMES_8, row),
        9 => row_in(NAMES_9, row),
        10 => row_in(NAMES_10, row),
        11 => row_in(NAMES_11, row),
        12 => row_in(NAMES_12, row),
        13 => row_in(NAMES_13, row),
        14 => row_in(NAMES_14, row),
        15 => row_in(NAMES_15, row),
        16 => row_in(NAMES_16, row),
        17 => row_in(NAMES_17, row),
        18 => row_in(NAMES_18, row),
        19 => row_in(NAMES_19, row),
        20 => row_in(NAMES_20, row),
        21 => row_in(NAMES_21, row),
        22 => row_in(NAMES_22, row),
        23 => row_in(NAMES_23, row),
        24 => row_in(NAMES_24, row),
        25 => row_in(NAMES_25, row),
        26 => row_in(NAMES_26, row),
        _ => name_in_upper_half(array, row),
    }
}

// The name in one row of an array from NAMES_27 on; past NAMES_52 there is none.
fn name_in_upper_half(array: u8, row: usize) -> [u8; 16]
    requires { (27 ≤ array) × (row < 4) }
    ensures { result ≡ name_bytes (4 * array + row) }
{
    match array {
        27 => row_in(NAMES_27, row),
        28 => row_in(NAMES_28, row),
        29 => row_in(NAMES_29, row),
        30 => row_in(NAMES_30, row),
        31 => row_in(NAMES_31, row),
        32 => row_in(NAMES_32, row),
        33 => row_in(NAMES_33, row),
        34 => row_in(NAMES_34, row),
        35 => row_in(NAMES_35, row),
        36 => row_in(NAMES_36, row),
        37 => row_in(NAMES_37, row),
        38 => row_in(NAMES_38, row),
        39 => row_in(NAMES_39, row),
        40 => row_in(NAMES_40, row),
        41 => row_in(NAMES_41, row),
        42 => row_in(NAMES_42, row),
        43 => row_in(NAMES_43, row),
        44 => row_in(NAMES_44, row),
        45 => row_in(NAMES_45, row),
        46 => row_in(NAMES_46, row),
        47 => row_in(NAMES_47, row),
        48 => row_in(NAMES_48, row),
        49 => row_in(NAMES_49, row),
        50 => row_in(NAMES_50, row),
        51 => row_in(NAMES_51, row),
        52 => row_in(NAMES_52, row),
        _ => [0u8; 16],
    }
}

// ── from a name to its kind ──

// Says in KINDS that no name has the place: a number that no kind has, since KINDS is a constant array of bytes.
const NO_KIND: u8 = 255;

// This stands for a map from names to kinds, which would need a heap: fixed memory is a rule of this project.
// A name's place in KINDS is computed from its first eight letters as a number, its ninth letter, and the entry of
// SHIFTS at that number modulo SHIFTS_DIVISOR. No two names have the same place: the shifts and both divisors were
// found by trying.
const SHIFTS_DIVISOR: u64 = 63;

const PLACE_DIVISOR: u64 = 265;

const PLACES: u64 = 256;

const SHIFTS: [u8; 63] = *b"\x00\x0b\x04\x0b\x0a\x02\x08\x00\x01\x05\x06\x00\x1c\x00\x07\x26\
    \x03\x00\x1a\x01\x00\x0b\x15\x1a\x00\x0f\x01\x00\x00\x00\x33\x06\
    \x0e\x0d\x05\x12\x01\x1f\x26\x12\x00\x3c\x00\x07\x06\x00\x06\x01\
    \x01\x0e\x00\x19\x0e\x05\x1a\x01\x2a\x04\x00\x01\x45\x31\x03";

// The kind of every name, at the name's place; NO_KIND where no name has the place.
const KINDS: [u8; 256] = *b"\xff\x81\xa7\x5c\x16\x10\x97\x1a\x5e\xb1\xd3\x46\xab\xce\xb7\x00\
    \x9c\x40\x79\xcf\xff\x7b\xb9\x80\x72\x07\x64\xbd\x42\x9b\x28\x45\
    \x0b\x99\x0c\x84\x6b\xc0\x31\xc1\x8b\x3e\xff\x55\xff\x85\xff\x06\
    \x18\x67\x76\xc5\x25\x65\x8d\x58\xff\x5d\x63\x1e\x13\x6a\x05\xbf\
    \x2a\x82\x32\xa9\x83\x50\xff\xff\xff\x91\xc7\x37\xff\xff\xff\x8f\
    \xff\x7e\x61\x57\x7c\x2d\x1b\x8a\xff\xae\x17\xff\x96\xa1\xff\xff\
    \x2b\xbc\xff\xff\xa4\x90\xff\x9d\xc4\x36\xbb\x5f\x33\x11\x59\xa6\
    \xb5\x44\x4e\x22\x3d\x89\x69\x43\x6d\xff\x3f\x51\x4f\xff\x38\x47\
    \xff\xcd\xcc\x29\xc3\x2f\xaa\x9f\x03\x0a\xff\x92\x09\xd2\x78\xff\
    \x27\x26\xff\x24\x5b\xa0\xaf\xff\x66\x2c\x77\x8c\x6f\xad\x04\x3a\
    \x08\x23\x49\x8e\xa2\x54\xff\x98\x1f\x3c\x52\x0f\x86\xbe\x1d\x12\
    \x2e\xff\x1c\xff\xb0\x53\x56\xd1\x21\xff\xb2\x5a\xa8\xff\x70\xff\
    \x71\xff\xff\x4b\x0e\xc9\x74\x01\x75\x15\xff\x35\xff\xff\x02\xa3\
    \xff\xb3\xff\xff\x9e\x62\x34\x94\xff\xa5\x95\x30\x7a\xff\x3b\x4d\
    \x0d\xff\xc8\x9a\xd0\x6e\x6c\x68\xba\x60\x87\xc6\x7d\x48\xac\xc2\
    \x19\xb4\x93\x88\x41\xcb\x39\x14\xca\x73\x20\x4c\xb8\x7f\x4a\xb6";

// The only kind that may have this name.
fn candidate(name: [u8; 16]) -> Option<u8>
    ensures { Candidate name result }
{
    let letters = buffers::get8(&name, 0);
    let ninth = name[8] as u64;
    let row = (letters % SHIFTS_DIVISOR) as usize;
    let shift = entry_in(SHIFTS, row) as u64;
    let place = ((letters % PLACE_DIVISOR + ninth + shift) % PLACES) as usize;
    let kind = entry_in(KINDS, place);
    if kind == NO_KIND { None } else { Some(kind) }
}

// The kind with this name: the candidate, if it has the name.
pub fn kind_of(name: [u8; 16]) -> Option<u8>
    ensures { result ≡ kind_named name }
{
    candidate(name).filter(|kind| name == name_of(*kind))
}
