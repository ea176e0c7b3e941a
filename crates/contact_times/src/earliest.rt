// The smallest of three or four numbers: its place, on a tie the lowest.

ghost use Rattle.std.specs.Prelude.{◌≡◌, [], ◌∷◌};
ghost use Rattle.contact_times.specs.Earliest.{Earliest};

// For the three pieces of a point and a triangle: the piece with the earliest contact, on a tie the lowest.
pub fn of_three(a: u32, b: u32, c: u32) -> usize
    ensures { Earliest (a ∷ b ∷ c ∷ []) result }
{
    if a <= b {
        if a <= c { 0 } else { 2 }
    } else if b <= c {
        1
    } else {
        2
    }
}

// The same for the four pieces of two edges.
pub fn of_four(a: u32, b: u32, c: u32, d: u32) -> usize
    ensures { Earliest (a ∷ b ∷ c ∷ d ∷ []) result }
{
    if a.min(b) <= c.min(d) {
        if a <= b { 0 } else { 1 }
    } else if c <= d {
        2
    } else {
        3
    }
}
