// Lists a section file from standard input on standard output. Every byte of the listing is a matter of the library
// `listing`; here the file is read, and each piece is asked for and written. A write that fails ends the program.
#![tactic(auto)]

use listing::Cursor;

const INPUT: i32 = 0;

const OUTPUT: i32 = 1;

// The bytes of a page, which has room for any line.
const PAGE: usize = 4096;

// The pieces of the listing, one after the other, until nothing is left.
fn list(file: &[u8]) {
    let mut page = [b' '; PAGE];
    let mut at = Cursor::default();
    loop {
        // Any line has room in a page, so no piece is refused: the listing ends with one that has no bytes.
        let piece = listing::piece(file, at, &mut page).unwrap();
        if piece.bytes == 0 {
            return;
        }
        if !io::write_all(OUTPUT, &page[..piece.bytes]) {
            return;
        }
        at = piece.next;
    }
}

// A file that fills the buffer is too long, and its listing says so.
fn main() {
    let mut file = [0; 65536];
    let n = io::read_full(INPUT, &mut file);
    list(&file[..n]);
}
