// Replays answers of the Rust. They come on standard input, a line for each, in the columns that
// tests/vectors/README.md lists. The program takes the question out of a line, writes the line that the library's
// answer makes, and compares the two byte by byte; so a line that is malformed differs as well. It prints how many
// lines came and how many agree, and before that the first line that does not, as the library has it. Depends on
// `decode`, `encode` and `record`, whose answers are of `reading` and `refusal`, on `text`, and on the kit's `io`.
#![tactic(auto)]

use reading::{Decoded, Insn};
use refusal::Refusal;

const INPUT: i32 = 0;

const OUTPUT: i32 = 1;

// Where the columns begin, and how many bytes a line has with its newline.
const WIDE: usize = 0;

const VA: usize = 2;

const WORD: usize = 19;

const RECORD: usize = 28;

const ANSWER: usize = 189;

const LINE: usize = 206;

const VA_DIGITS: usize = 16;

const WORD_DIGITS: usize = 8;

// How many numbers a word can be.
const WORDS: u64 = 0x1_0000_0000;

// The bytes of a record, and the hex digits of four of them.
const RECORD_BYTES: usize = 80;

const FOUR_DIGITS: usize = 8;

// The ways of decoding a word: as a number, and as bytes in either order.
#[derive(Clone, Copy)]
enum Way {
    Word,
    LittleEndian,
    BigEndian,
}

const WAYS: [Way; 3] = [Way::Word, Way::LittleEndian, Way::BigEndian];

#[derive(Clone, Copy)]
struct Question {
    wide: bool,
    va: u64,
    word: u32,
}

fn asked(kept: &[u8; LINE]) -> Question {
    Question {
        wide: kept[WIDE] == b'1',
        va: text::hex_in(kept, VA, VA_DIGITS),
        word: (text::hex_in(kept, WORD, WORD_DIGITS) % WORDS) as u32,
    }
}

// ── what the library answers ──

// What the word is read as, in one of the three ways.
fn decoded(q: Question, way: Way) -> Result<Insn, Refusal> {
    match way {
        Way::Word => decode::decode_word(q.word, q.va, q.wide),
        Way::LittleEndian => decode::decode(&q.word.to_le_bytes(), q.va, false, q.wide),
        Way::BigEndian => decode::decode(&q.word.to_be_bytes(), q.va, true, q.wide),
    }
}

fn record_of(q: Question, way: Way) -> [u8; RECORD_BYTES] {
    let mut record = [0u8; RECORD_BYTES];
    record::pack(Decoded::from(decoded(q, way)), &mut record);
    record
}

// The word that a record is encoded as. The next two do what the boundary's `calmuredda_encode` does, and do not call
// it: a rule of the project is that the boundary is compared from C (docs/DECISIONS.md, Tests said once).
fn word_of(q: Question, record: &[u8]) -> Result<u32, Refusal> {
    let insn = record::unpack(record)?;
    encode::encode(insn, q.va, q.wide)
}

// The refusal's number and the word, side by side.
fn encoded(q: Question, record: &[u8]) -> u64 {
    match word_of(q, record) {
        Ok(word) => u64::from(word),
        Err(refusal) => u64::from(u8::from(refusal)) * WORDS,
    }
}

// The record in hex, four bytes at a time, into the line.
fn put_record(record: &[u8; RECORD_BYTES], line: &mut [u8; LINE]) {
    let (fours, _) = record.as_chunks::<4>();
    for (k, four) in fours.iter().enumerate() {
        text::hex8(u32::from_be_bytes(*four), line, RECORD + FOUR_DIGITS * k);
    }
}

// The line that the answer makes.
fn line_of(q: Question, way: Way) -> [u8; LINE] {
    let record = record_of(q, way);
    let mut line = [b' '; LINE];
    put_record(&record, &mut line);
    line[WIDE] = if q.wide { b'1' } else { b'0' };
    line[LINE - 1] = b'\n';
    text::hex16(q.va, &mut line, VA);
    text::hex8(q.word, &mut line, WORD);
    text::hex16(encoded(q, &record), &mut line, ANSWER);
    line
}

// ── the comparison ──

// Through the kit's `io`, which reads too. `print!` is no plainer here: `main` would take a runtime for it, and each
// call give a `Result` to hand on.
fn print(text: &[u8]) {
    io::write_all(OUTPUT, text);
}

fn print_way(way: Way) {
    print(match way {
        Way::Word => b"as a number",
        Way::LittleEndian => b"from little-endian bytes",
        Way::BigEndian => b"from big-endian bytes",
    });
}

fn say_differing(number: u64, way: Way, line: &[u8]) {
    print(b"line ");
    io::print_decimal(OUTPUT, number);
    print(b" differs; decoded ");
    print_way(way);
    print(b" the word has\n");
    print(line);
}

// Does the line agree, whichever way its word is decoded? The first way in which it does not is said if nothing was
// said before.
fn agrees(kept: &[u8; LINE], number: u64, first: bool) -> bool {
    let q = asked(kept);
    for way in WAYS {
        let line = line_of(q, way);
        if line != *kept {
            if first {
                say_differing(number, way, &line);
            }
            return false;
        }
    }
    true
}

// A proved loop has to end, and nothing says that the input does; no run comes to 2^64 lines.
fn main() {
    let mut lines: u64 = 0;
    let mut differing: u64 = 0;
    for number in 1..u64::MAX {
        let mut kept = [0u8; LINE];
        if io::read_full(INPUT, &mut kept) == 0 {
            break;
        }
        lines = number;
        if !agrees(&kept, number, differing == 0) {
            differing = differing.saturating_add(1);
        }
    }
    io::print_decimal(OUTPUT, lines);
    print(b" answers, ");
    io::print_decimal(OUTPUT, lines.saturating_sub(differing));
    print(b" agree\n");
}
