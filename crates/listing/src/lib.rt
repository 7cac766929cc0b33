// The listing of a section file, piece by piece: every byte that the program `sweep` writes. Depends on `section` and
// `refusal` for the file, on `body` and `pages` for its words and their lines, on `text` and `buffers` for the other
// lines. specs/Swept.antt says what the listing is, specs/Piece.antt what a piece of it is.
#![tactic(auto)]

ghost use Rattle.std.specs.Prelude.{◌≡◌, ◌++◌, ◌+◌, ◌≤◌, ◌<◌, length};
ghost use Rattle.buffers.specs.Bytes.{over};
ghost use Rattle.buffers.specs.Writes.{Wrote};
ghost use Rattle.text.specs.Text.{numeral_of};
ghost use Rattle.refusal.specs.Refusals.{number_of};
ghost use Rattle.section.specs.Section.{count_of};
ghost use Rattle.listing.specs.Swept.{view_in, word_count, counted, head_line, total_line};
ghost use Rattle.listing.specs.Piece.{onward, lines_in, last_line, piece_bytes, listing_of, piece_of};
ghost use Rattle.listing.specs.Private.Steps.{digits, refused_with, Totals, Put, Ran};

mod extent;

use body::View;
pub use extent::Piece;
use refusal::Refusal;
use std::cmp::Ordering;

// Where a listing goes on. Line 0 of a section is its head, line w + 1 that of word w; in the place of one more section
// is the last line of all. Any two numbers are a cursor: where there is no line, nothing is left. The default is where
// every listing begins.
#[derive(Clone, Copy, Default, PartialEq, Eq)]
pub struct Cursor {
    pub section: usize,
    pub line: usize,
}

// All words of a file, and how many of them are refused.
#[derive(Clone, Copy)]
struct Counts {
    words: usize,
    refused: usize,
}

// How many lines were written, and how many bytes they have.
#[derive(Clone, Copy)]
struct Run {
    lines: usize,
    bytes: usize,
}

// The longest line that has no word: two texts of 15 bytes in all, two numbers of 20 digits, a newline.
const LONGEST: usize = 56;

const NEWLINE: u8 = b'\n';

// ── the sections of a file ──

// The file and the number of a section go side by side, as they do into `section`; a struct with a reference in it
// would need a clause more at each function (`View` of `body` says why).

fn view(file: &[u8], n: usize) -> View
    ensures { result ≡ view_in file.now n }
{
    body::view_of(section::address(file, n), section::flags(file))
}

fn words(file: &[u8], n: usize) -> usize
    ensures { result ≡ word_count file.now n }
{
    body::count(section::body(file, n))
}

fn count_all(file: &[u8]) -> Counts
    ensures { Totals file.now (count_of file.now) result.words result.refused }
{
    let mut all = Counts {
        words: 0,
        refused: 0,
    };
    for n in 0..section::count(file) {
        all.words += words(file, n);
        all.refused += body::refusals(section::body(file, n), view(file, n));
    }
    all
}

// ── lines without a word ──

// A text and a number after it, from a place on, in the form that all writers of `text` have. Answers where they end.
// A struct of the bytes and their end, as `line` has for its many pushes, would be that one again for three calls.
#[tactic(auto, using(text::proofs::Lengths::numeral_most))]
fn put_number(before: &[u8], n: usize, out: &mut [u8], at: usize) -> usize
    requires { at + (length before.now + digits) ≤ length out.old }
    ensures { Wrote at (length before.now + digits) (before.now ++ numeral_of 10 n)
        out.old out.new result }
{
    buffers::put(before, out, at);
    let end = at + before.len();
    end + text::count(n as u64, out, end)
}

// Each of these writes its line to the start of `out`, if it has room there. Answers how many bytes were written, 0
// where it has no room: that is what `buffers::put_whole` answers, by its clause, and `Put` says of each.

// Two texts, each with a number after it.
fn put_counts(before: &[u8], m: usize, between: &[u8], n: usize, out: &mut [u8]) -> usize
    requires { length before.now + length between.now ≤ 15 }
    ensures { Put (counted before.now m between.now n) out.old out.new result }
{
    let mut line = [0u8; LONGEST];
    let at = put_number(before, m, &mut line, 0);
    let end = put_number(between, n, &mut line, at);
    buffers::put1(NEWLINE, &mut line, end);
    buffers::put_whole(&line[..end + 1], out)
}

#[tactic(auto, using(crate::proofs::Texts::head_is))]
fn head(file: &[u8], n: usize, out: &mut [u8]) -> usize
    ensures { Put (head_line file.now n) out.old out.new result }
{
    put_counts(b"section ", n, b" words ", words(file, n), out)
}

#[tactic(auto, using(crate::proofs::Texts::total_is))]
fn total(file: &[u8], out: &mut [u8]) -> usize
    ensures { Put (total_line file.now) out.old out.new result }
{
    let c = count_all(file);
    put_counts(b"words ", c.words, b" refused ", c.refused, out)
}

fn refused(refusal: Refusal, out: &mut [u8]) -> usize
    ensures { Put (refused_with (number_of refusal)) out.old out.new result }
{
    let mut line = [0u8; LONGEST];
    let number = usize::from(u8::from(refusal));
    let end = put_number(b"file refused ", number, &mut line, 0);
    buffers::put1(NEWLINE, &mut line, end);
    buffers::put_whole(&line[..end + 1], out)
}

// The last line of all.
#[tactic(auto, unfolding(crate::specs::Piece::last_line, crate::specs::Swept::refused_line))]
fn last(file: &[u8], out: &mut [u8]) -> usize
    ensures { Put (last_line file.now) out.old out.new result }
{
    match section::check(file) {
        Ok(()) => total(file, out),
        Err(refusal) => refused(refusal, out),
    }
}

// ── pieces ──

#[tactic(auto, unfolding(crate::specs::Piece::lines_in))]
fn lines_in(file: &[u8], n: usize) -> usize
    ensures { result ≡ lines_in file.now n }
{
    match n.cmp(&section::count(file)) {
        Ordering::Less => words(file, n) + 1,
        Ordering::Equal => 1,
        Ordering::Greater => 0,
    }
}

// The last line of all, if it has room.
fn last_run(file: &[u8], out: &mut [u8]) -> Run
    ensures { Ran file.now (count_of file.now) 0
        out.old out.new result.lines result.bytes }
{
    let size = last(file, out);
    Run {
        lines: usize::from(size != 0),
        bytes: size,
    }
}

// Where a page is refused, since not one line has room, it has no words and no bytes.

// The head of section n and the lines of its words, as many as fit.
fn first_run(file: &[u8], n: usize, out: &mut [u8]) -> Run
    requires { n < count_of file.now }
    ensures { Ran file.now n 0 out.old out.new result.lines result.bytes }
{
    let size = head(file, n, out);
    if size == 0 {
        return Run { lines: 0, bytes: 0 };
    }
    let p = pages::page(section::body(file, n), view(file, n), 0, out, size).unwrap_or_default();
    Run {
        lines: p.words + 1,
        bytes: size + p.bytes,
    }
}

// The lines of a section from line j on, as many as fit.
fn run_from(file: &[u8], n: usize, j: usize, out: &mut [u8]) -> Run
    requires { j < lines_in file.now n }
    ensures { Ran file.now n j out.old out.new result.lines result.bytes }
{
    if section::count(file) <= n {
        return last_run(file, out);
    }
    if j == 0 {
        return first_run(file, n, out);
    }
    let p = pages::page(section::body(file, n), view(file, n), j - 1, out, 0).unwrap_or_default();
    Run {
        lines: p.words,
        bytes: p.bytes,
    }
}

impl Cursor {
    // Where a listing goes on after some lines of the `all` that a section has.
    fn after(self, lines: usize, all: usize) -> Cursor
        requires { (self.line + lines ≤ all) × (self.section ≤ 64) × (all ≤ 65536) }
        ensures { result ≡ onward self lines all }
    {
        let line = self.line + lines;
        if line < all {
            return Cursor {
                section: self.section,
                line,
            };
        }
        Cursor {
            section: self.section + 1,
            line: 0,
        }
    }
}

// The piece of the listing from a cursor on: as many whole lines of one section as fit in `out`. Without a line that
// fits the caller's cursor stays where it was.
pub fn piece(file: &[u8], c: Cursor, out: &mut [u8]) -> Result<Piece, Refusal>
    ensures value { listing_of c result ≡ piece_of file.now (length out.old) c }
    ensures out_after { out.new ≡ over (piece_bytes file.now (length out.old) c) out.old }
{
    let all = lines_in(file, c.section);
    if all <= c.line {
        return Ok(Piece { bytes: 0, next: c });
    }
    let run = run_from(file, c.section, c.line, out);
    if run.lines == 0 {
        return Err(Refusal::NoRoom);
    }
    Ok(Piece {
        bytes: run.bytes,
        next: c.after(run.lines, all),
    })
}
