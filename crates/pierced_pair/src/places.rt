// An edge and a triangle at one time, each vertex by the place of its first coordinate in the positions. So it serves a mesh of any size, with both
// its times in one list or with one alone.

ghost use Rattle.std.specs.Prelude.{◌<◌, ◌≡◌};
ghost use Rattle.pierced_pair.specs.Places.{FiveIn, PlacesTell};
ghost use Rattle.pierced_pair.specs.Vertices.{offset_of, vertex_numbers, FiveThere, VerticesTell};

use corner_leaf::SixPoints;
use corner_search::piece_touches;
use meaning::Frame;

// Do the edge a b and the triangle c d e have a point in common? The search decides pieces of six points, from a start to an end: so the last
// corner stands there twice, the second time at the end, where nothing can balance it.
pub fn in_common(positions: &[i32], a: usize, b: usize, c: usize, d: usize, e: usize) -> bool
    requires { FiveIn positions.now a b c d e }
    ensures { PlacesTell positions.now a b c d e result }
{
    let six = SixPoints {
        at: [a, b, c, d, e, e],
        ends: [false, false, false, false, false, true],
        first: 2,
    };
    piece_touches(positions, six)
}

// Where the first coordinate of vertex v stands in the positions, at the start or at the end.
pub fn place_of(frame: Frame, v: usize) -> usize
    requires { v < vertex_numbers }
    ensures { result ≡ offset_of frame v }
{
    match frame {
        Frame::Start => 6 * v,
        Frame::End => 6 * v + 3,
    }
}

// The same by vertices: do the edge from p to q and the triangle a b c have a point in common at that time?
pub fn vertices_in_common(
    positions: &[i32],
    frame: Frame,
    p: usize,
    q: usize,
    a: usize,
    b: usize,
    c: usize,
) -> bool
    requires { FiveThere positions.now p q a b c }
    ensures { VerticesTell positions.now frame p q a b c result }
{
    in_common(
        positions,
        place_of(frame, p),
        place_of(frame, q),
        place_of(frame, a),
        place_of(frame, b),
        place_of(frame, c),
    )
}
