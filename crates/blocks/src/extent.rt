// How far a block goes. In a file of its own since a module cannot have names that differ only in case, as `Block` and
// `block` do.
use crate::End;

// How it ends, and how many words it has.
#[derive(Clone, Copy, PartialEq, Eq)]
pub struct Block {
    pub end: End,
    pub words: usize,
}
