// The pages of a body: the lines that reviewers sign. Depends on `body` for the words, on `reading` and `refusal` for
// what they are read as, and on `line`, `text` and `buffers` for the lines. specs/Page.antt says what a page is.
#![tactic(auto)]

ghost use Rattle.std.specs.Prelude.{◌≡◌, ◌≤◌, ◌<◌, length};
ghost use Rattle.buffers.specs.Bytes.{over, over_at, whole};
ghost use Rattle.buffers.specs.Writes.{Wrote};
ghost use Rattle.line.specs.Line.{plain, longest};
ghost use Rattle.body.specs.Body.{words_in};
ghost use Rattle.reading.specs.Reading.{answer_of};
ghost use Rattle.pages.specs.Page.{answer_text, word_line, text_column, longest_line, page_words, page_bytes};
ghost use Rattle.pages.specs.Page.{paging_of, page_of};
ghost use Rattle.pages.specs.Private.Steps.{Answers, columns_of};

mod extent;

use body::View;
pub use extent::Page;
use reading::Insn;
use refusal::Refusal;

// The columns of a line.
const WORD_COLUMN: usize = 17;

const TEXT_COLUMN: usize = 26;

// Where the number of a refusal is in its text.
const NUMBER_COLUMN: usize = 8;

// The longest line: its columns, the longest text and a newline.
const LONGEST: usize = TEXT_COLUMN + line::LONGEST + 1;

const NEWLINE: u8 = b'\n';

// The text of an answer: its line, or `refused` and the number. Answers how many bytes it has.
fn put_text(d: Result<Insn, Refusal>, out: &mut [u8]) -> usize
    requires { (Answers plain (answer_of d)) × (longest ≤ length out.old) }
    ensures value { result ≡ length (answer_text plain (answer_of d)) }
    ensures out_after { out.new ≡ over (answer_text plain (answer_of d)) out.old }
{
    match d {
        Ok(i) => line::print(i, out).unwrap(),
        Err(refusal) => {
            buffers::put(b"refused ", out, 0);
            NUMBER_COLUMN + text::count(u64::from(u8::from(refusal)), out, NUMBER_COLUMN)
        }
    }
}

// That word n is there is asked of the callers of the next four functions: a struct of body, view and word would have
// a reference in it, which `View` of `body` speaks against.

// The address and the word of a line, with a space after each.
#[tactic(auto, using(crate::proofs::Pieces::columns_written, body::proofs::Words::there))]
fn put_columns(body: &[u8], v: View, n: usize, out: &mut [u8])
    requires { (n < words_in body.now) × (text_column ≤ length out.old) }
    ensures { out.new ≡ over (columns_of v body.now n) out.old }
{
    text::hex16(body::address(v, n), out, 0);
    buffers::put1(b' ', out, WORD_COLUMN - 1);
    text::hex8(body::word(body, v, n), out, WORD_COLUMN);
    buffers::put1(b' ', out, TEXT_COLUMN - 1);
}

// The line of word n. Answers how many bytes it has.
fn line_of(body: &[u8], v: View, n: usize, out: &mut [u8]) -> usize
    requires { (n < words_in body.now) × (length out.old ≡ longest_line) }
    ensures { Wrote 0 longest_line (word_line plain v body.now n) out.old out.new result }
{
    put_columns(body, v, n, out);
    let end = TEXT_COLUMN + put_text(body::decoded(body, v, n), &mut out[TEXT_COLUMN..]);
    buffers::put1(NEWLINE, out, end);
    end + 1
}

// The same to the start of `out`, which is the free part of a page; nothing if it has no room there. Answers how many
// bytes were written, 0 where it has no room: that is what `buffers::put_whole` answers, by its clause. The array and
// its size go to one call, so a struct of the two would say no more.
fn put_line(body: &[u8], v: View, n: usize, out: &mut [u8]) -> usize
    requires { n < words_in body.now }
    ensures value { result ≡ length (whole (word_line plain v body.now n) (length out.old)) }
    ensures out_after { out.new ≡
        over (whole (word_line plain v body.now n) (length out.old)) out.old }
{
    let mut line = [0u8; LONGEST];
    let size = line_of(body, v, n, &mut line);
    buffers::put_whole(&line[..size], out)
}

// The lines from word n on, as many as fit.
fn lines(body: &[u8], v: View, n: usize, out: &mut [u8], place: usize) -> Page
    requires { (n < words_in body.now) × (place ≤ length out.old) }
    ensures value { (result.words ≡ page_words plain v body.now n (length out.old) place) ×
        (result.bytes ≡ length (page_bytes plain v body.now n (length out.old) place)) }
    ensures out_after { out.new ≡
        over_at place (page_bytes plain v body.now n (length out.old) place) out.old }
{
    let mut page = Page { words: 0, bytes: 0 };
    for k in n..body::count(body) {
        let size = put_line(body, v, k, &mut out[place + page.bytes..]);
        // No line is empty, so it had no room.
        if size == 0 {
            break;
        }
        page.words += 1;
        page.bytes += size;
    }
    page
}

// The page from word n on, into `out` from a place on.
pub fn page(body: &[u8], v: View, n: usize, out: &mut [u8], place: usize) -> Result<Page, Refusal>
    ensures value { paging_of result ≡ page_of plain v body.now n (length out.old) place }
    ensures out_after { out.new ≡
        over_at place (page_bytes plain v body.now n (length out.old) place) out.old }
{
    if body::count(body) <= n {
        return Err(Refusal::NoIndex);
    }
    if out.len() < place {
        return Err(Refusal::NoRoom);
    }
    let page = lines(body, v, n, out, place);
    if page.words == 0 {
        return Err(Refusal::NoRoom);
    }
    Ok(page)
}
