// The words of a body: how many there are, where each stands, and what it is read as. Depends on `word` and `decode`
// for that, whose answers are of `reading` and `refusal`. specs/Body.antt has the definitions.
#![tactic(auto)]

ghost use Rattle.std.specs.Prelude.{◌≡◌};
ghost use Rattle.reading.specs.Reading.{answer_of};
ghost use Rattle.body.specs.Body.{view_of, words_in, address_at, word_or_zero, decoded_at, refused_in};

use reading::Insn;
use refusal::Refusal;

// The bytes of a word.
const WORD: usize = 4;

// This many words have addresses of their own.
const MOST_WORDS: u64 = 0x4000_0000_0000_0000;

// The bits of a section file's flags that have a meaning: big-endian words, and the width flag.
const BIG_ENDIAN: u8 = 1;

const WIDE: u8 = 2;

// How the words of a body are read: the address of the first, their byte order, and the width flag.
//
// The bytes go beside it. Tried: a struct of both, with methods. The reference in it gives it a value at exit, which
// each contract then has to fix too, since crate `contracts` proves that it fixes all that is left.
#[derive(Clone, Copy)]
pub struct View {
    pub va: u64,
    pub big_endian: bool,
    pub wide: bool,
}

// A body at this address, under a section file's flags. A bit is looked at by itself, so that the others do not matter.
pub fn view_of(va: u64, flags: u8) -> View
    ensures { result ≡ view_of va flags }
{
    View {
        va,
        big_endian: flags & BIG_ENDIAN != 0,
        wide: flags & WIDE != 0,
    }
}

// How many words a body has. A rest of fewer bytes than a word has is not read.
pub fn count(body: &[u8]) -> usize
    ensures { result ≡ words_in body.now }
{
    body.len() / WORD
}

// Where word n stands, for any n: after the last address comes the first.
pub fn address(v: View, n: usize) -> u64
    ensures { result ≡ address_at v n }
{
    let offset = WORD as u64 * (n as u64 % MOST_WORDS);
    v.va.wrapping_add(offset)
}

// What word n is read as. The decoder gets the body from that word on; past the last word there are too few bytes.
#[tactic(auto, using(crate::proofs::Words::past_last), unfolding(crate::specs::Body::decoded_at))]
pub fn decoded(body: &[u8], v: View, n: usize) -> Result<Insn, Refusal>
    ensures { answer_of result ≡ decoded_at v body.now n }
{
    if count(body) <= n {
        return Err(Refusal::Short);
    }
    let at = WORD * n;
    decode::decode(&body[at..], address(v, n), v.big_endian, v.wide)
}

// Word n as a number; 0 past the last word, since its clause (`word_or_zero`) says so.
#[tactic(auto, using(crate::proofs::Words::four), unfolding(crate::specs::Body::word_or_zero))]
pub fn word(body: &[u8], v: View, n: usize) -> u32
    ensures { result ≡ word_or_zero v body.now n }
{
    if count(body) <= n {
        return 0;
    }
    body[WORD * n..]
        .first_chunk()
        .map_or(0, |b| word::from_bytes(*b, v.big_endian))
}

// How many words of a body are refused. Tried: `filter` and `count`. The proof did not close, since the search did not
// find which numbers the range gives to `filter`.
#[tactic(auto, using(crate::proofs::Words::none_yet))]
pub fn refusals(body: &[u8], v: View) -> usize
    ensures { result ≡ refused_in v body.now }
{
    let mut found = 0;
    for n in 0..count(body) {
        if decoded(body, v, n).is_err() {
            found += 1;
        }
    }
    found
}
