// What trimming gives. The code is in crate lines.

// Where a part of a text stands.
#[derive(Clone, Copy)]
pub struct Place {
    pub start: usize,
    pub len: usize,
}
