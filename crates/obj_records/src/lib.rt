// A vertex or a face of an OBJ file, below the records above it: its first fault; or it goes to its place in a draft, a face with the edges that it
// brings.

#![tactic(auto)]

ghost use Rattle.std.specs.Prelude.{◌+◌, ◌*◌, ◌≤◌, ◌<◌, length, [], ◌∷◌, ◌≡◌};
ghost use Rattle.sequences.specs.Wrote.{Wrote};
ghost use Rattle.meaning.specs.Limits.{coordinate_limit, vertex_limit};
ghost use Rattle.meaning.specs.ObjFile.{signed};
ghost use Rattle.text_line.specs.Above.{Bounded};
ghost use Rattle.obj_edges.specs.Chains.{Knows};
ghost use Rattle.obj_records.specs.Faults.{VertexFault, FaceFault};
ghost use Rattle.obj_records.specs.Adding.{Near, point_of, VertexAdded, Positive, FaceRoom, FaceAdded};
ghost use Rattle.meaning.specs.Refusals.{outcome_alone};

use meaning::{
    COORDINATE_LIMIT, EDGE_LIMIT, Hundredths, Refusal, SceneCounts, TRIANGLE_LIMIT, VERTEX_LIMIT,
};
use obj_edges::add_sides;
use text_line::first_fault;

// The largest size of a coordinate, as sizes are held.
const LARGEST: u64 = COORDINATE_LIMIT as u64;

fn judge_vertex(c: SceneCounts, x: Hundredths, y: Hundredths, z: Hundredths) -> Result<(), Refusal>
    ensures { VertexFault c x y z (outcome_alone result) }
{
    first_fault(
        (0 < c.edges) | (0 < c.triangles) | (0 < c.seams),
        VERTEX_LIMIT <= c.vertices,
        (LARGEST < x.size) | (LARGEST < y.size) | (LARGEST < z.size),
        false,
        false,
    )
}

// A face by vertices counted from 0.
fn judge_face(c: SceneCounts, i: u64, j: u64, k: u64) -> Result<(), Refusal>
    ensures { FaceFault c i j k (outcome_alone result) }
{
    let n = c.vertices as u64;
    first_fault(
        0 < c.seams,
        TRIANGLE_LIMIT <= c.triangles,
        false,
        (n <= i) | (n <= j) | (n <= k),
        (i == j) | (i == k) | (j == k),
    )
}

fn coordinate(h: Hundredths) -> i32
    requires { h.size ≤ coordinate_limit }
    ensures { result ≡ signed h }
{
    let size = h.size;
    if h.minus {
        0 - (size as i32)
    } else {
        size as i32
    }
}

fn put_point(out: &mut [i32], at: usize, x: Hundredths, y: Hundredths, z: Hundredths)
    requires at_in_bounds { at + 3 ≤ length out.old }
    requires near { Near x y z }
    ensures { Wrote out.old at (point_of x y z) out.new (at + 3) }
{
    out[at] = coordinate(x);
    out[at + 1] = coordinate(y);
    out[at + 2] = coordinate(z);
}

fn put_triangle(out: &mut [u16], at: usize, a: u16, b: u16, d: u16)
    requires { at + 3 ≤ length out.old }
    ensures { Wrote out.old at (a ∷ b ∷ d ∷ []) out.new (at + 3) }
{
    out[at] = a;
    out[at + 1] = b;
    out[at + 2] = d;
}

// A vertex: where it stands is where it starts and where it ends. The counts with it, or its fault.
pub fn add_vertex(
    c: SceneCounts,
    x: Hundredths,
    y: Hundredths,
    z: Hundredths,
    positions: &mut [i32],
) -> Result<SceneCounts, Refusal>
    requires { 6 * vertex_limit ≤ length positions.old }
    ensures { VertexAdded c x y z positions.old positions.new result }
{
    judge_vertex(c, x, y, z)?;
    let at = 6 * c.vertices;
    put_point(positions, at, x, y, z);
    put_point(positions, at + 3, x, y, z);
    Ok(SceneCounts {
        vertices: c.vertices + 1,
        ..c
    })
}

// A face by vertices counted from 1: its corners, and its sides where they are new, with the table that knows them. The counts with it, or its fault.
pub fn add_face(
    c: SceneCounts,
    a: u64,
    b: u64,
    d: u64,
    edges: &mut [u16],
    triangles: &mut [u16],
) -> Result<SceneCounts, Refusal>
    requires positive { Positive a b d }
    requires bounded { Bounded c }
    requires face_room { FaceRoom edges.old triangles.old }
    requires knows { Knows edges.old c.edges }
    ensures { FaceAdded c a b d edges.old triangles.old edges.new triangles.new result }
{
    let i = a - 1;
    let j = b - 1;
    let k = d - 1;
    judge_face(c, i, j, k)?;
    let count = add_sides(edges, c.edges, i as u16, j as u16, k as u16);
    put_triangle(triangles, 3 * c.triangles, i as u16, j as u16, k as u16);
    if EDGE_LIMIT < count {
        return Err(Refusal::TooMany);
    }
    Ok(SceneCounts {
        edges: count,
        triangles: c.triangles + 1,
        ..c
    })
}
