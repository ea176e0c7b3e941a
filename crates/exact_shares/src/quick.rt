// A share cut by as few divisions as its numbers allow: long division takes eleven.

ghost use Rattle.std.specs.Prelude.{◌^◌, ◌≤◌, ◌<◌};
ghost use Rattle.cutting.specs.Cut.{CutTo};

// Below this 2^20 times a part fits 64 bits, and below the next 2^10 times a part does: 2^44 and 2^54.
const ONCE: u64 = 17592186044416;

const TWICE: u64 = 18014398509481984;

fn in_two(part: u64, whole: u64) -> u32
    requires { (0 < whole) × (part ≤ whole) × (whole < 2 ^ 54) }
    ensures { CutTo part whole result }
{
    let first = part * 1024 / whole;
    let rest = part * 1024 % whole;
    (first * 1024 + rest * 1024 / whole) as u32
}

// A part of a whole in parts of 2^20, cut, by the shortest way that fits 64 bits: one division, two, or else long division.
pub fn quick_cut(part: u64, whole: u64) -> u32
    requires { (0 < whole) × (part ≤ whole) × (whole < 2 ^ 62) }
    ensures { CutTo part whole result }
{
    if whole < ONCE {
        return (part * 1048576 / whole) as u32;
    }
    if whole < TWICE {
        return in_two(part, whole);
    }
    cutting::cut(part, whole)
}
