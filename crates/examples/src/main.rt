// Document 01's examples that are not marked P: decodes each and writes what it found, a line for each.
// Those marked P are proved in proofs/, of the definition. Depends on `decode`, whose answers are of `reading` and
// `refusal`, and on the kit's `io`; the other crates of crates.txt are those that specs/ and proofs/ speak of.
#![tactic(auto)]

use reading::{Effect, Insn, Op, kind};
use refusal::Refusal;

const OUT: i32 = 1;

// 0x0080102d, its highest byte first, and a byte that does not count.
const FIVE: [u8; 5] = [0x00, 0x80, 0x10, 0x2d, 0xff];

// `print!` is no plainer here: `main` would take a runtime for it, and each call give a `Result` to hand on.
fn say(text: &[u8]) {
    io::write_all(OUT, text);
}

fn say_register(n: u8) {
    match n {
        0 => say(b"zero"),
        2 => say(b"v0"),
        4 => say(b"a0"),
        _ => say_number(u64::from(n)),
    }
}

fn say_number(n: u64) {
    io::print_decimal(OUT, n);
}

// The examples here have registers.
fn say_operand(o: Op) {
    match o {
        Op::Reg(n) => say_register(n),
        Op::Imm(z) => say_number(z.cast_unsigned()),
        _ => say(b"another"),
    }
}

fn say_mnemonic(m: u8) {
    match m {
        kind::MOVE => say(b"move "),
        kind::DADDU => say(b"daddu "),
        _ => say(b"another "),
    }
}

// Two operands or three.
fn say_reading(i: Insn) {
    say_mnemonic(i.mnemonic);
    say_operand(i.ops[0].op);
    say(b", ");
    say_operand(i.ops[1].op);
    if i.count == 3 {
        say(b", ");
        say_operand(i.ops[2].op);
    }
}

fn say_answer(answer: Result<Insn, Refusal>) {
    match answer {
        Ok(i) => {
            say(b"number ");
            say_number(0);
            say(b", ");
            say_reading(i);
        }
        Err(refusal) => {
            say(b"number ");
            say_number(u64::from(u8::from(refusal)));
        }
    }
    say(b"\n");
}

// What `lui` leaves in its register; 0 for another word.
fn say_value(answer: Result<Insn, Refusal>) {
    let value = match answer {
        Ok(
            Insn {
                effect: Effect::SetAddr(_, value),
                ..
            },
        ) => value,
        _ => 0,
    };
    say(b"value 0x");
    io::print_hex(OUT, value, 16);
    say(b"\n");
}

fn main() {
    say(b"3c048000: ");
    say_value(decode::decode_word(0x3c048000, 0, false));
    say(b"0080102d with the flag: ");
    say_answer(decode::decode_word(0x0080102d, 0, true));
    say(b"0080102d without it: ");
    say_answer(decode::decode_word(0x0080102d, 0, false));
    say(b"three bytes: ");
    say_answer(decode::decode(&FIVE[..3], 0, true, true));
    say(b"five bytes: ");
    say_answer(decode::decode(&FIVE, 0, true, true));
}
