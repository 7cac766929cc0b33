// Decodes the words of standard input and adds parts of the answers up, for bench/run to count instructions. The input:
// a byte that says whether to decode, a byte that is the width flag, two that are ignored, then the words,
// little-endian. Where it does not decode it adds up the words themselves, which is what the loop costs without the
// decoder. Depends on `decode`, whose answers are of `reading` and `refusal`, and on the kit's `io`.
#![tactic(auto)]

use reading::{Insn, Parts};
use refusal::Refusal;

const INPUT: i32 = 0;

const OUTPUT: i32 = 1;

// The bytes of a word, of which a buffer has a whole number.
const WORD: u64 = 4;

// Number, count, flow, the first operand's register and the target. The Rust has no number for a mnemonic.
fn add_parts(sum: u64, answer: Result<Insn, Refusal>) -> u64 {
    match answer {
        Ok(i) => {
            let first = Parts::from(i.ops[0].op);
            sum.wrapping_add(u64::from(i.count))
                .wrapping_add(u64::from(u8::from(i.flow)))
                .wrapping_add(u64::from(first.first))
                .wrapping_add(i.target.unwrap_or(0))
        }
        Err(refusal) => sum.wrapping_add(u64::from(u8::from(refusal))),
    }
}

// The sum over all words of standard input: `step` adds what it makes of a word at an address to the sum so far.
// bench_encode has a loop of its own: they are two programs by a rule of the project (docs/DECISIONS.md, Said once).
fn add_all<F: Fn(u64, u32, u64) -> u64>(start: u64, step: F) -> u64
    requires { F.IsAlwaysCallable step }
{
    let mut buffer = io::large_buffer();
    let mut sum = start;
    let mut va: u64 = 0;
    // A proved loop has to end, and nothing says that the input does; no run comes to 2^64 turns.
    for _ in 0..u64::MAX {
        let n = io::read_full(INPUT, &mut buffer);
        let (words, _) = buffer[..n].as_chunks::<4>();
        for word in words {
            sum = step(sum, u32::from_le_bytes(*word), va);
            va = va.wrapping_add(WORD);
        }
        if n < buffer.len() {
            break;
        }
    }
    sum
}

// The head is decoded too, by `decode`: with two callers `decode_word` stays a function of its own, as in a library.
fn main() {
    let mut head = [0u8; 4];
    io::read_full(INPUT, &mut head);
    let [decoding, wide, ..] = head;
    let wide = wide != 0;
    let start = add_parts(0, decode::decode(&head, 0, false, wide));
    let sum = if decoding != 0 {
        add_all(
            start,
            |sum, w, va| add_parts(sum, decode::decode_word(w, va, wide)),
        )
    } else {
        add_all(start, |sum, w, _| sum.wrapping_add(u64::from(w)))
    };
    io::print_hex(OUTPUT, sum, 16);
    io::write_all(OUTPUT, b"\n");
}
