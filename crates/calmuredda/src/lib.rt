// The boundary for programs in C: decoding and encoding through byte records, printed lines, section files, blocks,
// pages and listings. Every function that C may call is here, and nothing else; include/calmuredda.h describes them
// for C. Crate `calmuredda_c` exports them, as libcalmuredda.a. specs/Boundary.antt says what the answers mean.
// Where an answer is more than one number, C lends a place for each of the others, which is written whatever the answer
// is.
#![tactic(auto)]

ghost use Rattle.std.specs.Prelude.{◌≡◌, length};
ghost use Rattle.refusal.specs.Refusals.{number_in};
ghost use Rattle.buffers.specs.Bytes.{over, over_at};
ghost use Rattle.record.specs.Record.{pack_number, packed};
ghost use Rattle.section.specs.Section.{checked, refusal_of, count_of, flags_of, address_of, start_of, length_of};
ghost use Rattle.line.specs.Line.{plain, printing_of};
ghost use Rattle.body.specs.Body.{view_of};
ghost use Rattle.blocks.specs.Block.{block_of};
ghost use Rattle.pages.specs.Page.{page_number, page_words, page_bytes};
ghost use Rattle.listing.specs.Piece.{cursor, piece_number, piece_bytes, next_of};
ghost use Rattle.calmuredda.specs.Boundary.{on, decoded_for, EncodesRecord, line_number, line_bytes};
ghost use Rattle.calmuredda.specs.Private.Steps.{both};

use listing::Cursor;
use reading::Decoded;
use refusal::Refusal;

// The place value of the number in the encoder's answer.
const NUMBERS: u64 = 0x1_0000_0000;

// C gets an answer's number, which is 0 for what is accepted, and the values in places of their own.
fn number<T: Copy>(answer: Result<T, Refusal>) -> u8
    ensures { result ≡ number_in answer }
{
    match answer {
        Ok(_) => 0,
        Err(refusal) => u8::from(refusal),
    }
}

// ── records ──

// Decodes the word in the first four bytes, and packs what that gives into the first 80 bytes of `record`. Answers with
// the number.
pub fn calmuredda_decode(bytes: &[u8], va: u64, big: u8, wide: u8, record: &mut [u8]) -> u8
    ensures value { result ≡ pack_number (decoded_for bytes.now va big wide) (length «record».old) }
    ensures record_after { «record».new ≡ packed (decoded_for bytes.now va big wide) «record».old }
{
    let d = Decoded::from(decode::decode(bytes, va, big != 0, wide != 0));
    record::pack(d, record)
}

// The smallest word whose record at this address and flag is the one in the first 80 bytes, below the number: 16 for
// fewer bytes, 9 if no word has it.
pub fn calmuredda_encode(record: &[u8], va: u64, wide: u8) -> u64
    ensures { EncodesRecord «record».now va (on wide) result }
{
    match word_of(record, va, wide != 0) {
        Ok(word) => u64::from(word),
        Err(refusal) => u64::from(u8::from(refusal)) * NUMBERS,
    }
}

fn word_of(record: &[u8], va: u64, wide: bool) -> Result<u32, Refusal>
    ensures { EncodesRecord «record».now va wide (both result) }
{
    let insn = record::unpack(record)?;
    encode::encode(insn, va, wide)
}

// ── lines, section files, blocks, pages and listings ──

// The line of the reading whose record is in the first 80 bytes, to the start of `out`. Answers with the number: 16 for
// fewer bytes, 9 if they are not the record of any reading, 10, 11; `written` is how many bytes the line has.
pub fn calmuredda_line(record: &[u8], out: &mut [u8], written: &mut usize) -> u8
    ensures value { result ≡ line_number «record».now (length out.old) }
    ensures written_after { written.new ≡ length (line_bytes «record».now (length out.old)) }
    ensures out_after { out.new ≡ over (line_bytes «record».now (length out.old)) out.old }
{
    let printed = print(record, out);
    *written = printed.unwrap_or(0);
    number(printed)
}

fn print(record: &[u8], out: &mut [u8]) -> Result<usize, Refusal>
    ensures value { number_in result ≡ line_number «record».now (length out.old) }
    ensures size { (printing_of result).length ≡ length (line_bytes «record».now (length out.old)) }
    ensures out_after { out.new ≡ over (line_bytes «record».now (length out.old)) out.old }
{
    let insn = record::unpack(record)?;
    line::print(insn, out)
}

// 0 for a good section file; 12 or 13.
pub fn calmuredda_section_check(file: &[u8]) -> u8
    ensures { result ≡ checked file.now }
{
    number(section::check(file))
}

// How many sections a good file has; 0 for another.
pub fn calmuredda_section_count(file: &[u8]) -> usize
    ensures { result ≡ count_of file.now }
{
    section::count(file)
}

// The flags of a good file; 0 for another.
pub fn calmuredda_section_flags(file: &[u8]) -> u8
    ensures { result ≡ flags_of file.now }
{
    section::flags(file)
}

// The address of section n; 0 if it is refused.
pub fn calmuredda_section_address(file: &[u8], n: usize) -> u64
    ensures { result ≡ address_of file.now n }
{
    section::address(file, n)
}

// 0 and which part of the file is the body of section n; or 12, 13 or 14, and the empty part at the file's start.
pub fn calmuredda_section_body(file: &[u8], n: usize, offset: &mut usize, size: &mut usize) -> u8
    ensures value { result ≡ refusal_of file.now n }
    ensures offset_after { offset.new ≡ start_of file.now n }
    ensures size_after { size.new ≡ length_of file.now n }
{
    *offset = section::start(file, n);
    *size = section::body(file, n).len();
    number(section::refusal(file, n))
}

// The block of a body from word `index` on: 0, or 15; `kind` is how it ends, `words` how many words it has.
pub fn calmuredda_block(
    body: &[u8],
    va: u64,
    flags: u8,
    index: usize,
    kind: &mut u8,
    words: &mut usize,
) -> u8
    ensures value { result ≡ (block_of (view_of va flags) body.now index).number }
    ensures kind_after { kind.new ≡ (block_of (view_of va flags) body.now index).kind }
    ensures words_after { words.new ≡ (block_of (view_of va flags) body.now index).words }
{
    let block = blocks::block(body, body::view_of(va, flags), index);
    (*kind, *words) = match block {
        Ok(b) => (u8::from(b.end), b.words),
        Err(_) => (0, 0),
    };
    number(block)
}

// The page of a body from word `index` on, into `out` from `place` on: 0, 15 or 11; `words` is how many words it has,
// `bytes` how many bytes.
pub fn calmuredda_page(
    body: &[u8],
    va: u64,
    flags: u8,
    index: usize,
    out: &mut [u8],
    place: usize,
    words: &mut usize,
    bytes: &mut usize,
) -> u8
    ensures value { result ≡ page_number plain (view_of va flags) body.now index (length out.old) place }
    ensures words_after { words.new ≡
        page_words plain (view_of va flags) body.now index (length out.old) place }
    ensures bytes_after { bytes.new ≡
        length (page_bytes plain (view_of va flags) body.now index (length out.old) place) }
    ensures out_after { out.new ≡
        over_at place (page_bytes plain (view_of va flags) body.now index (length out.old) place)
        out.old }
{
    let page = pages::page(body, body::view_of(va, flags), index, out, place);
    (*words, *bytes) = match page {
        Ok(p) => (p.words, p.bytes),
        Err(_) => (0, 0),
    };
    number(page)
}

// The listing of a section file from line `line` of section `section` on, as many whole lines of that section as fit in
// `out`: 0 or 11; `bytes` is how many bytes they have, `next_section` and `next_line` are where the listing goes on.
pub fn calmuredda_listing(
    file: &[u8],
    section: usize,
    line: usize,
    out: &mut [u8],
    next_section: &mut usize,
    next_line: &mut usize,
    bytes: &mut usize,
) -> u8
    ensures value { result ≡ piece_number file.now (length out.old) (cursor section line) }
    ensures next_section_after { next_section.new ≡
        (next_of file.now (length out.old) (cursor section line)).section }
    ensures next_line_after { next_line.new ≡
        (next_of file.now (length out.old) (cursor section line)).line }
    ensures bytes_after { bytes.new ≡
        length (piece_bytes file.now (length out.old) (cursor section line)) }
    ensures out_after { out.new ≡
        over (piece_bytes file.now (length out.old) (cursor section line)) out.old }
{
    let piece = listing::piece(file, Cursor { section, line }, out);
    (*bytes, *next_section, *next_line) = match piece {
        Ok(p) => (p.bytes, p.next.section, p.next.line),
        Err(_) => (0, section, line),
    };
    number(piece)
}
