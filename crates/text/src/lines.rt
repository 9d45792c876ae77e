// What the lines of a text are. The code is in crate lines.

// A line by its number: from start up to, not including, end. The next line begins at next.
#[derive(Clone, Copy)]
pub struct Line {
    pub number: usize,
    pub start: usize,
    pub end: usize,
    pub next: usize,
}
