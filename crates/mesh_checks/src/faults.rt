// What the refusals 1, 3 and 4 ask of the whole mesh; 2 is asked by scene_checks, over positions of any number, and 15 is decided as the table of
// seams is made.

ghost use Rattle.std.specs.Prelude.{◌<◌, [], ◌≡◌};
ghost use Rattle.meaning.specs.Scene.{scene_of, edge_count, triangle_count, some_below};
ghost use Rattle.meaning.specs.Scene.{unknown_in, unknown_vertex, twice_in_edge, twice_in_triangle, repeated_vertex};
ghost use Rattle.meaning.specs.Mesh.{mesh_shape};
ghost use Rattle.scene_seams.specs.Alone.{only_edges, only_triangles, edges_sewn, triangles_sewn, tabled};

use mesh_parts::{corner_counts_as, end_counts_as};
use mesh_seams::wide;

// The vertices, edges, triangles and seams that a mesh may have, of each kind: 2^30, so that rows times parts stay below 2^63.
pub const PART_LIMIT: usize = 1073741824;

// 1: a length that is no multiple, or a count over its size.
pub fn wrong_shape(positions: &[i32], edges: &[u32], triangles: &[u32], seams: &[u32]) -> bool
    ensures { result ≡ mesh_shape (scene_of positions.now edges.now triangles.now seams.now) }
{
    let uneven = (positions.len() % 6 != 0)
        | (edges.len() % 2 != 0)
        | (triangles.len() % 3 != 0)
        | (seams.len() % 2 != 0);
    let over = (PART_LIMIT < positions.len() / 6)
        | (PART_LIMIT < edges.len() / 2)
        | (PART_LIMIT < triangles.len() / 3)
        | (PART_LIMIT < seams.len() / 2);
    uneven | over
}

// 3: a vertex number that is not below the count.
fn unknown_in(list: &[u32], count: usize) -> bool
    ensures { result ≡ unknown_in count list.now }
{
    let mut found = false;
    for x in list {
        found |= count <= wide(*x);
    }
    found
}

// 3 of edges, triangles and seams.
pub fn unknown_vertex(positions: &[i32], edges: &[u32], triangles: &[u32], seams: &[u32]) -> bool
    ensures { result ≡ unknown_vertex (scene_of positions.now edges.now triangles.now seams.now) }
{
    let count = positions.len() / 6;
    unknown_in(edges, count) | unknown_in(triangles, count) | unknown_in(seams, count)
}

// 4: a vertex twice in one edge or triangle, by the vertex stood for.
fn twice_in_edge(edges: &[u32], stands: &[u32], j: usize) -> bool
    requires { j < edge_count (only_edges edges.now) }
    ensures { result ≡ twice_in_edge (edges_sewn edges.now stands.now) j }
{
    end_counts_as(edges, stands, j, 0) == end_counts_as(edges, stands, j, 1)
}

fn twice_in_triangle(triangles: &[u32], stands: &[u32], j: usize) -> bool
    requires { j < triangle_count (only_triangles triangles.now) }
    ensures { result ≡ twice_in_triangle (triangles_sewn triangles.now stands.now) j }
{
    let a = corner_counts_as(triangles, stands, j, 0);
    let b = corner_counts_as(triangles, stands, j, 1);
    let c = corner_counts_as(triangles, stands, j, 2);
    (a == b) | (a == c) | (b == c)
}

fn repeated_in_edges(edges: &[u32], stands: &[u32]) -> bool
    ensures { result ≡ some_below (edge_count (only_edges edges.now))
        (twice_in_edge (edges_sewn edges.now stands.now)) }
{
    let count = edges.len() / 2;
    let mut found = false;
    for j in 0..count {
        found |= twice_in_edge(edges, stands, j);
    }
    found
}

fn repeated_in_triangles(triangles: &[u32], stands: &[u32]) -> bool
    ensures { result ≡ some_below (triangle_count (only_triangles triangles.now))
        (twice_in_triangle (triangles_sewn triangles.now stands.now)) }
{
    let count = triangles.len() / 3;
    let mut found = false;
    for j in 0..count {
        found |= twice_in_triangle(triangles, stands, j);
    }
    found
}

// By the table, which has no entries where there are no seams.
pub fn repeated_vertex(edges: &[u32], triangles: &[u32], stands: &[u32]) -> bool
    ensures { result ≡ repeated_vertex (tabled [] edges.now triangles.now stands.now) }
{
    repeated_in_edges(edges, stands) | repeated_in_triangles(triangles, stands)
}
