// A sum of determinants as a share of another, in whole 2^20ths. In the range that coordinates had at first four determinants fit 64 bits
// together, so here, and in that range alone, a sum is a number.

#![tactic(auto)]

mod quick; // quick.rt: a share cut by as few divisions as its numbers allow

ghost use Rattle.std.specs.Prelude.{◌≡◌, nat_abs};
ghost use Rattle.cutting.specs.Cut.{CutTo};
ghost use Rattle.exact.specs.Volumes.{four, four_of, Small};
ghost use Rattle.exact_signs.specs.BySigns.{sum, kept};
ghost use Rattle.exact_shares.specs.InRange.{InRange, Part};

use exact::Volumes;
use exact_signs::keep_where;
use quick::quick_cut;

// The size of the sum of four.
fn size_of_sum(v: Volumes) -> u64
    requires { InRange (four_of v) }
    ensures { result ≡ nat_abs (sum (four_of v)) }
{
    (v.e0 + v.e1 + v.e2 + v.e3).unsigned_abs()
}

// The sum of the volumes that the p count, as a share of the sum of those that the w count.
pub fn share(
    v: Volumes,
    p0: bool,
    p1: bool,
    p2: bool,
    p3: bool,
    w0: bool,
    w1: bool,
    w2: bool,
    w3: bool,
) -> u32
    requires { Small v × InRange (four_of v) × Part (four p0 p1 p2 p3) (four w0 w1 w2 w3) (four_of v) }
    ensures { CutTo (nat_abs (sum (kept (four p0 p1 p2 p3) (four_of v))))
        (nat_abs (sum (kept (four w0 w1 w2 w3) (four_of v)))) result }
{
    let part = size_of_sum(keep_where(v, p0, p1, p2, p3));
    let whole = size_of_sum(keep_where(v, w0, w1, w2, w3));
    quick_cut(part, whole)
}
