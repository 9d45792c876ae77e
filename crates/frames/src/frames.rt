// A message as words and pieces. Nothing is written yet, so that the message's length is known first.
use crate::words::{Head, Middle};
use script::records::Place;

// A piece of a message that is no fixed word: a part of the text, a part of the response's bytes, the value looked up, a number.
#[derive(Clone, Copy)]
pub enum Piece {
    Nothing,
    Text(Place),
    Held(Place),
    Value,
    Number(i64),
}

// How a message ends: with nothing more, or with a word and the value.
#[derive(Clone, Copy)]
pub enum Ending {
    Nothing,
    Got, // , got
    PatternGot, // /, got
}

// A message: words and pieces, one behind the other. The first piece is a part of the text, which may have no bytes. A frame is handed on by value,
// so it is kept small.
#[derive(Clone, Copy)]
pub struct Frame {
    pub first: Head,
    pub a: Place,
    pub second: Middle,
    pub b: Piece,
    pub ending: Ending,
}

// How a matcher stands between `expected` and `got`.
#[derive(Clone, Copy)]
pub struct Shown {
    pub before: Middle,
    pub piece: Piece,
    pub behind: Ending,
}

// What a value is shown behind: a word if it passed, and one between a field and the value; another word if it failed.
#[derive(Clone, Copy)]
pub struct Heading {
    pub passed: Head,
    pub between: Middle,
    pub failed: Head,
    pub field: Place,
}

// A part of the text that has no bytes.
pub const NOWHERE: Place = Place { start: 0, len: 0 };
