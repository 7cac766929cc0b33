// The functions that C calls: each is the function of that name in crate `calmuredda`, and promises what that one
// promises. include/calmuredda.h describes them for C. tools/archive builds this crate, as libcalmuredda.a. It says all
// of that again because of the C interface: only a static library exports, and no crate can use one, while `contracts`
// speaks of the functions of `calmuredda` (docs/DECISIONS.md, How tight the contracts are).
#![tactic(auto)]

ghost use Rattle.std.specs.Prelude.{◌≡◌, length};
ghost use Rattle.buffers.specs.Bytes.{over, over_at};
ghost use Rattle.record.specs.Record.{pack_number, packed};
ghost use Rattle.section.specs.Section.{checked, refusal_of, count_of, flags_of, address_of, start_of, length_of};
ghost use Rattle.line.specs.Line.{plain};
ghost use Rattle.body.specs.Body.{view_of};
ghost use Rattle.blocks.specs.Block.{block_of};
ghost use Rattle.pages.specs.Page.{page_number, page_words, page_bytes};
ghost use Rattle.listing.specs.Piece.{cursor, piece_number, piece_bytes, next_of};
ghost use Rattle.calmuredda.specs.Boundary.{on, decoded_for, EncodesRecord, line_number, line_bytes};

#[unsafe(no_mangle)]
pub extern "C" fn calmuredda_decode(
    bytes: &[u8],
    va: u64,
    big: u8,
    wide: u8,
    record: &mut [u8],
) -> u8
    ensures value { result ≡ pack_number (decoded_for bytes.now va big wide) (length «record».old) }
    ensures record_after { «record».new ≡ packed (decoded_for bytes.now va big wide) «record».old }
{
    calmuredda::calmuredda_decode(bytes, va, big, wide, record)
}

#[unsafe(no_mangle)]
pub extern "C" fn calmuredda_encode(record: &[u8], va: u64, wide: u8) -> u64
    ensures { EncodesRecord «record».now va (on wide) result }
{
    calmuredda::calmuredda_encode(record, va, wide)
}

#[unsafe(no_mangle)]
pub extern "C" fn calmuredda_line(record: &[u8], out: &mut [u8], written: &mut usize) -> u8
    ensures value { result ≡ line_number «record».now (length out.old) }
    ensures written_after { written.new ≡ length (line_bytes «record».now (length out.old)) }
    ensures out_after { out.new ≡ over (line_bytes «record».now (length out.old)) out.old }
{
    calmuredda::calmuredda_line(record, out, written)
}

#[unsafe(no_mangle)]
pub extern "C" fn calmuredda_section_check(file: &[u8]) -> u8
    ensures { result ≡ checked file.now }
{
    calmuredda::calmuredda_section_check(file)
}

#[unsafe(no_mangle)]
pub extern "C" fn calmuredda_section_count(file: &[u8]) -> usize
    ensures { result ≡ count_of file.now }
{
    calmuredda::calmuredda_section_count(file)
}

#[unsafe(no_mangle)]
pub extern "C" fn calmuredda_section_flags(file: &[u8]) -> u8
    ensures { result ≡ flags_of file.now }
{
    calmuredda::calmuredda_section_flags(file)
}

#[unsafe(no_mangle)]
pub extern "C" fn calmuredda_section_address(file: &[u8], n: usize) -> u64
    ensures { result ≡ address_of file.now n }
{
    calmuredda::calmuredda_section_address(file, n)
}

#[unsafe(no_mangle)]
pub extern "C" fn calmuredda_section_body(
    file: &[u8],
    n: usize,
    offset: &mut usize,
    size: &mut usize,
) -> u8
    ensures value { result ≡ refusal_of file.now n }
    ensures offset_after { offset.new ≡ start_of file.now n }
    ensures size_after { size.new ≡ length_of file.now n }
{
    calmuredda::calmuredda_section_body(file, n, offset, size)
}

#[unsafe(no_mangle)]
pub extern "C" fn calmuredda_block(
    body: &[u8],
    va: u64,
    flags: u8,
    index: usize,
    kind: &mut u8,
    words: &mut usize,
) -> u8
    ensures value { result ≡ (block_of (view_of va flags) body.now index).number }
    ensures kind_after { kind.new ≡ (block_of (view_of va flags) body.now index).kind }
    ensures words_after { words.new ≡ (block_of (view_of va flags) body.now index).words }
{
    calmuredda::calmuredda_block(body, va, flags, index, kind, words)
}

#[unsafe(no_mangle)]
pub extern "C" fn calmuredda_page(
    body: &[u8],
    va: u64,
    flags: u8,
    index: usize,
    out: &mut [u8],
    place: usize,
    words: &mut usize,
    bytes: &mut usize,
) -> u8
    ensures value { result ≡ page_number plain (view_of va flags) body.now index (length out.old) place }
    ensures words_after { words.new ≡
        page_words plain (view_of va flags) body.now index (length out.old) place }
    ensures bytes_after { bytes.new ≡
        length (page_bytes plain (view_of va flags) body.now index (length out.old) place) }
    ensures out_after { out.new ≡
        over_at place (page_bytes plain (view_of va flags) body.now index (length out.old) place)
        out.old }
{
    calmuredda::calmuredda_page(body, va, flags, index, out, place, words, bytes)
}

#[unsafe(no_mangle)]
pub extern "C" fn calmuredda_listing(
    file: &[u8],
    section: usize,
    line: usize,
    out: &mut [u8],
    next_section: &mut usize,
    next_line: &mut usize,
    bytes: &mut usize,
) -> u8
    ensures value { result ≡ piece_number file.now (length out.old) (cursor section line) }
    ensures next_section_after { next_section.new ≡
        (next_of file.now (length out.old) (cursor section line)).section }
    ensures next_line_after { next_line.new ≡
        (next_of file.now (length out.old) (cursor section line)).line }
    ensures bytes_after { bytes.new ≡
        length (piece_bytes file.now (length out.old) (cursor section line)) }
    ensures out_after { out.new ≡
        over (piece_bytes file.now (length out.old) (cursor section line)) out.old }
{
    calmuredda::calmuredda_listing(file, section, line, out, next_section, next_line, bytes)
}
