// How far a piece goes. In a file of its own since a module cannot have names that differ only in case, as `Piece` and
// `piece` do.
use crate::Cursor;

// How many bytes it has, and where the listing goes on.
#[derive(Clone, Copy, PartialEq, Eq)]
pub struct Piece {
    pub bytes: usize,
    pub next: Cursor,
}
