// Decodes the words of standard input and encodes their readings again, for bench/run to count instructions. The input
// is that of bench_decode: a byte that says whether to encode, a byte that is the width flag, two that are ignored,
// then the words, little-endian. Where it does not encode it only decodes, which is what the loop costs without the
// encoder. Depends on `decode` and `encode`, whose answers are of `reading` and `refusal`, and on the kit's `io`.
#![tactic(auto)]

use reading::Insn;
use refusal::Refusal;

const INPUT: i32 = 0;

const OUTPUT: i32 = 1;

// The bytes of a word, of which a buffer has a whole number.
const WORD: u64 = 4;

#[derive(Clone, Copy)]
struct Sums {
    sum: u64,
    // How many words have a reading and, where the program encodes, were made of it again.
    words: u64,
}

impl Sums {
    fn with_reading(self, i: Insn) -> Sums {
        let kind = u64::from(i.mnemonic);
        Sums {
            sum: self.sum.wrapping_add(kind).wrapping_add(u64::from(i.count)),
            ..self
        }
    }

    fn with_word(self) -> Sums {
        Sums {
            words: self.words.wrapping_add(1),
            ..self
        }
    }

    fn with_encoded(self, encoded: Result<u32, Refusal>) -> Sums {
        match encoded {
            Ok(w) => Sums {
                sum: self.sum.wrapping_add(u64::from(w)),
                ..self.with_word()
            },
            Err(_) => self,
        }
    }
}

// The sums over all words of standard input that have a reading: `step` adds what it makes of a reading at an address.
// bench_decode has a loop of its own: they are two programs by a rule of the project (docs/DECISIONS.md, Said once).
fn add_all<F: Fn(Sums, Insn, u64) -> Sums>(start: Sums, wide: bool, step: F) -> Sums
    requires { F.IsAlwaysCallable step }
{
    let mut buffer = io::large_buffer();
    let mut sums = start;
    let mut va: u64 = 0;
    // A proved loop has to end, and nothing says that the input does; no run comes to 2^64 turns.
    for _ in 0..u64::MAX {
        let n = io::read_full(INPUT, &mut buffer);
        let (words, _) = buffer[..n].as_chunks::<4>();
        for word in words {
            if let Ok(insn) = decode::decode_word(u32::from_le_bytes(*word), va, wide) {
                sums = step(sums.with_reading(insn), insn, va);
            }
            va = va.wrapping_add(WORD);
        }
        if n < buffer.len() {
            break;
        }
    }
    sums
}

// What the sum begins with: the number and the word of an answer.
fn first_sum(encoded: Result<u32, Refusal>) -> u64 {
    match encoded {
        Ok(w) => u64::from(w),
        Err(refusal) => u64::from(u8::from(refusal)),
    }
}

// The head is decoded and encoded too, as a word or as the blank reading: with two callers `decode_word` and `encode`
// stay functions of their own, as in a library.
fn main() {
    let mut head = [0u8; 4];
    io::read_full(INPUT, &mut head);
    let [encoding, wide, ..] = head;
    let wide = wide != 0;
    let insn = reading::Decoded::from(decode::decode(&head, 0, false, wide)).insn;
    let start = Sums {
        sum: first_sum(encode::encode(insn, 0, wide)),
        words: 0,
    };
    let end = if encoding != 0 {
        add_all(
            start,
            wide,
            |sums, i, va| sums.with_encoded(encode::encode(i, va, wide)),
        )
    } else {
        add_all(start, wide, |sums, _, _| sums.with_word())
    };
    io::print_hex(OUTPUT, end.sum, 16);
    io::write_all(OUTPUT, b"\n");
    io::print_decimal(OUTPUT, end.words);
    io::write_all(OUTPUT, b" words\n");
}
