// The room that is left of a lent slice. Lengths of forged places may add up beyond any number: no sum is made.
ghost use Rattle.std.specs.Prelude.{◌≡◌};
ghost use Rattle.writing.specs.Room.{less_by};

// What is left once n more bytes stand there.
pub fn less(room: Option<usize>, n: usize) -> Option<usize>
    ensures { result ≡ less_by room n }
{
    room?.checked_sub(n)
}
