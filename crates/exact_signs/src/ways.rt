// When the numbers that four volumes give to six corners are of one sign.

ghost use Rattle.std.specs.Prelude.{◌≡◌};
ghost use Rattle.exact.specs.Volumes.{four, four_of, Small};
ghost use Rattle.exact_signs.specs.OneWay.{not_below, all_not_below, one_way, zero_but};
ghost use Rattle.exact_signs.specs.Sums.{worth};

use super::{Sum, at_least_zero, at_most_zero, sum_where};
use exact::Volumes;

fn not_below(up: bool, n: i64) -> bool
    ensures { result ≡ not_below up n }
{
    if up { n >= 0 } else { n <= 0 }
}

fn sum_not_below(up: bool, s: Sum) -> bool
    ensures { result ≡ not_below up (worth s) }
{
    if up {
        at_least_zero(s)
    } else {
        at_most_zero(s)
    }
}

// Are all volumes 0 but those that count?
pub fn zero_but(v: Volumes, c0: bool, c1: bool, c2: bool, c3: bool) -> bool
    ensures { result ≡ zero_but (four c0 c1 c2 c3) (four_of v) }
{
    (c0 | ((v.e0 <= 0) & (v.e0 >= 0)))
        & (c1 | ((v.e1 <= 0) & (v.e1 >= 0)))
        & (c2 | ((v.e2 <= 0) & (v.e2 >= 0)))
        & (c3 | ((v.e3 <= 0) & (v.e3 >= 0)))
}

// The numbers of four corners and, turned round, of two bases, each by the simplex it belongs to.
fn all_not_below(
    v: Volumes,
    f0: bool,
    f1: bool,
    f2: bool,
    f3: bool,
    s: bool,
    e: bool,
    starts: Sum,
    ends: Sum,
) -> bool
    requires { Small v }
    ensures { result ≡ all_not_below (four f0 f1 f2 f3) s e (four_of v) (worth starts) (worth ends) }
{
    not_below(f0, v.e0)
        & not_below(f1, v.e1)
        & not_below(f2, v.e2)
        & not_below(f3, v.e3)
        & sum_not_below(!s, starts)
        & sum_not_below(!e, ends)
}

// Are the numbers that the volumes give to six corners of one sign? The t say which of the four are at the end, the f which are in
// the first simplex; s and e say the latter of the bases at the start and at the end.
pub fn one_way(
    v: Volumes,
    t0: bool,
    t1: bool,
    t2: bool,
    t3: bool,
    f0: bool,
    f1: bool,
    f2: bool,
    f3: bool,
    s: bool,
    e: bool,
) -> bool
    requires { Small v }
    ensures { result ≡ one_way (four t0 t1 t2 t3) (four f0 f1 f2 f3) s e (four_of v) }
{
    let starts = sum_where(v, !t0, !t1, !t2, !t3);
    let ends = sum_where(v, t0, t1, t2, t3);
    all_not_below(v, f0, f1, f2, f3, s, e, starts, ends)
        | all_not_below(v, !f0, !f1, !f2, !f3, !s, !e, starts, ends)
}
