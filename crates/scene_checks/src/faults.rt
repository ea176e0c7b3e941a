// What the refusals 1, 2, 3 and 4 ask of the whole scene; 15 is decided as the table of seams is made.

ghost use Rattle.std.specs.Prelude.{◌+◌, ◌-◌, ◌≤◌, ◌<◌, [], ◌≡◌, length};
ghost use Rattle.meaning.specs.Scene.{scene_of, edge_count, triangle_count, some_below, wrong_shape, outside, out_of_range};
ghost use Rattle.meaning.specs.Scene.{unknown_in, unknown_vertex, twice_in_edge, twice_in_triangle, repeated_vertex};
ghost use Rattle.scene_seams.specs.Alone.{only_positions, only_edges, only_triangles, edges_sewn, triangles_sewn, tabled};
ghost use Rattle.scene_checks.specs.AsWritten.{written_twice_in_edge, written_twice_in_triangle};
ghost use Rattle.scene_checks.specs.InRows.{row_numbers, written_again};

use meaning::{COORDINATE_LIMIT, EDGE_LIMIT, SEAM_LIMIT, TRIANGLE_LIMIT, VERTEX_LIMIT};
use scene_parts::written::{corner, edge_end};
use scene_parts::{corner_counts_as, end_counts_as};
use scene_seams::wide;

// So many triangles make a row, and so many numbers.
const ROW_TRIANGLES: usize = 16;

const ROW_NUMBERS: usize = 3 * ROW_TRIANGLES;

// 1: a length that is no multiple, or a count over its size.
pub fn wrong_shape(positions: &[i32], edges: &[u16], triangles: &[u16], seams: &[u16]) -> bool
    ensures { result ≡ wrong_shape (scene_of positions.now edges.now triangles.now seams.now) }
{
    let uneven = (positions.len() % 6 != 0)
        | (edges.len() % 2 != 0)
        | (triangles.len() % 3 != 0)
        | (seams.len() % 2 != 0);
    let over = (VERTEX_LIMIT < positions.len() / 6)
        | (EDGE_LIMIT < edges.len() / 2)
        | (TRIANGLE_LIMIT < triangles.len() / 3)
        | (SEAM_LIMIT < seams.len() / 2);
    uneven | over
}

// 2: a coordinate outside its range.
fn outside(coordinate: i32) -> bool
    ensures { result ≡ outside coordinate }
{
    (coordinate < -COORDINATE_LIMIT) | (COORDINATE_LIMIT < coordinate)
}

// 2 of a whole scene. Every coordinate is looked at, whether one was found or not, so that the loop has one way out.
#[tactic(auto, using(scene_seams::specs::Scanning::scans))]
pub fn out_of_range(positions: &[i32]) -> bool
    ensures { result ≡ out_of_range (only_positions positions.now) }
{
    let mut found = false;
    for coordinate in positions {
        found |= outside(*coordinate);
    }
    found
}

// 3: a vertex number that is not below the count.
#[tactic(auto, using(scene_seams::specs::Scanning::scans))]
fn unknown_in(list: &[u16], count: usize) -> bool
    ensures { result ≡ unknown_in count list.now }
{
    let mut found = false;
    for number in list {
        found |= count <= wide(*number);
    }
    found
}

// 3 of a whole scene: of edges, triangles and seams alike.
pub fn unknown_vertex(positions: &[i32], edges: &[u16], triangles: &[u16], seams: &[u16]) -> bool
    ensures { result ≡ unknown_vertex (scene_of positions.now edges.now triangles.now seams.now) }
{
    let count = positions.len() / 6;
    unknown_in(edges, count) | unknown_in(triangles, count) | unknown_in(seams, count)
}

// 4: a vertex twice in one edge or triangle, by the vertex stood for.
fn twice_in_edge(edges: &[u16], stands: &[u16], j: usize) -> bool
    requires { j < edge_count (only_edges edges.now) }
    ensures { result ≡ twice_in_edge (edges_sewn edges.now stands.now) j }
{
    end_counts_as(edges, stands, j, 0) == end_counts_as(edges, stands, j, 1)
}

fn twice_in_triangle(triangles: &[u16], stands: &[u16], j: usize) -> bool
    requires { j < triangle_count (only_triangles triangles.now) }
    ensures { result ≡ twice_in_triangle (triangles_sewn triangles.now stands.now) j }
{
    let a = corner_counts_as(triangles, stands, j, 0);
    let b = corner_counts_as(triangles, stands, j, 1);
    let c = corner_counts_as(triangles, stands, j, 2);
    (a == b) | (a == c) | (b == c)
}

#[tactic(auto, using(scene_seams::specs::Scanning::scans))]
fn repeated_in_edges(edges: &[u16], stands: &[u16]) -> bool
    ensures { result ≡ some_below (edge_count (only_edges edges.now))
        (twice_in_edge (edges_sewn edges.now stands.now)) }
{
    let mut found = false;
    for j in 0..edges.len() / 2 {
        found |= twice_in_edge(edges, stands, j);
    }
    found
}

#[tactic(auto, using(scene_seams::specs::Scanning::scans))]
fn repeated_in_triangles(triangles: &[u16], stands: &[u16]) -> bool
    ensures { result ≡ some_below (triangle_count (only_triangles triangles.now))
        (twice_in_triangle (triangles_sewn triangles.now stands.now)) }
{
    let mut found = false;
    for j in 0..triangles.len() / 3 {
        found |= twice_in_triangle(triangles, stands, j);
    }
    found
}

// The same without seams, by the numbers as they are written: loops of their own, in which the compiler takes many parts at a time.
fn written_twice_in_edge(edges: &[u16], j: usize) -> bool
    requires { j < edge_count (only_edges edges.now) }
    ensures { result ≡ written_twice_in_edge edges.now j }
{
    edge_end(edges, j, 0) == edge_end(edges, j, 1)
}

fn written_twice_in_triangle(triangles: &[u16], j: usize) -> bool
    requires { j < triangle_count (only_triangles triangles.now) }
    ensures { result ≡ written_twice_in_triangle triangles.now j }
{
    let a = corner(triangles, j, 0);
    let b = corner(triangles, j, 1);
    let c = corner(triangles, j, 2);
    let first = (a == b) | (a == c);
    first | (b == c)
}

#[tactic(auto, using(scene_seams::specs::Scanning::scans))]
fn written_in_edges(edges: &[u16]) -> bool
    ensures { result ≡ some_below (edge_count (only_edges edges.now)) (written_twice_in_edge edges.now) }
{
    let mut found = false;
    for j in 0..edges.len() / 2 {
        found |= written_twice_in_edge(edges, j);
    }
    found
}

// Whether number k of a row of triangles is written again in its triangle, at the next place or at the one after. Asked of one number after the
// other, which the compiler takes eight at a time; to gather the first, the second and the third corners of eight triangles costs it more.
fn written_again(triangles: &[u16], from: usize, k: usize) -> bool
    requires { (from + k + 2 < length triangles.now) × (k < row_numbers) }
    ensures { result ≡ written_again triangles.now from k }
{
    let place = (k as u16) % 3;
    let next = (triangles[from + k] == triangles[from + k + 1]) & (place != 2);
    let after = (triangles[from + k] == triangles[from + k + 2]) & (place == 0);
    next | after
}

#[tactic(auto, using(scene_seams::specs::Scanning::scans))]
fn written_in_row(triangles: &[u16], from: usize) -> bool
    requires { from + row_numbers + 2 ≤ length triangles.now }
    ensures { result ≡ some_below row_numbers (written_again triangles.now from) }
{
    let mut found = false;
    for k in 0..ROW_NUMBERS {
        found |= written_again(triangles, from, k);
    }
    found
}

fn written_behind(triangles: &[u16], first: usize) -> bool
    requires { first ≤ triangle_count (only_triangles triangles.now) }
    ensures { result ≡ some_below (triangle_count (only_triangles triangles.now) - first)
        (λ i. written_twice_in_triangle triangles.now (first + i)) }
{
    let mut found = false;
    for j in first..triangles.len() / 3 {
        found |= written_twice_in_triangle(triangles, j);
    }
    found
}

// Row by row as long as two more numbers follow, and the rest triangle by triangle.
fn written_in_triangles(triangles: &[u16]) -> bool
    ensures { result ≡ some_below (triangle_count (only_triangles triangles.now))
        (written_twice_in_triangle triangles.now) }
{
    let rows = triangles.len().saturating_sub(2) / ROW_NUMBERS;
    let mut found = false;
    for row in 0..rows {
        found |= written_in_row(triangles, ROW_NUMBERS * row);
    }
    found | written_behind(triangles, ROW_TRIANGLES * rows)
}

// 4 of a whole scene. Without seams a vertex counts as itself, so that the numbers are compared as they are written.
pub fn repeated_vertex(edges: &[u16], triangles: &[u16], stands: &[u16]) -> bool
    ensures { result ≡ repeated_vertex (tabled [] edges.now triangles.now stands.now) }
{
    if stands.len() == 0 {
        written_in_edges(edges) | written_in_triangles(triangles)
    } else {
        repeated_in_edges(edges, stands) | repeated_in_triangles(triangles, stands)
    }
}
