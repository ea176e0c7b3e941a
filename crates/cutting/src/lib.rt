// A part of a whole as a whole number of 2^20ths, cut and not rounded, and such a number as an f64.

#![tactic(auto)]

ghost use Rattle.std.specs.Prelude.{◌^◌, ◌≤◌, ◌<◌, ◌≡◌};
ghost use Rattle.cutting.specs.Cut.{CutTo};
ghost use Rattle.cutting.specs.Floats.{handed_out};

// 2^20 times the part over the whole, cut to a whole number: long division with the digit 4, ten digits behind the first. No number on
// the way is larger than four times the whole.
pub fn cut(part: u64, whole: u64) -> u32
    requires { (0 < whole) × (part ≤ whole) × (whole < 2 ^ 62) }
    ensures { CutTo part whole result }
{
    let mut number = part / whole;
    let mut rest = part % whole;
    for _ in 0..10u32 {
        let four = rest * 4;
        number = number * 4 + four / whole;
        rest = four % whole;
    }
    number as u32
}

// A whole number of 2^20ths as the f64 that is handed out.
pub fn handed_out(number: u32) -> f64
    ensures { result ≡ handed_out number }
{
    number as f64 / 1048576.0
}
