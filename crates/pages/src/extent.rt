// How far a page goes. In a file of its own since a module cannot have names that differ only in case, as `Page` and
// `page` do.

// How many words it has, and how many bytes their lines have.
#[derive(Clone, Copy, Default, PartialEq, Eq)]
pub struct Page {
    pub words: usize,
    pub bytes: usize,
}
