// How long the lines of a scene are: one look over its numbers, and nothing written.

ghost use Rattle.std.specs.Prelude.{◌*◌, ◌≤◌, ◌≡◌, length};
ghost use Rattle.meaning.specs.Limits.{vertex_limit, edge_limit};
ghost use Rattle.meaning.specs.Scene.{scene_of, Accepted};
ghost use Rattle.saved_numbers.specs.Marked.{Coordinates};
ghost use Rattle.meaning.specs.Saved.{saved_text};
ghost use Rattle.saved_scene.specs.Lengths.{fields_long, numbers_long};

use saved_numbers::{coordinate_length, number_length};

fn coordinates_length(positions: &[i32]) -> usize
    requires { (length positions.now ≤ 6 * vertex_limit) × Coordinates positions.now }
    ensures { (result ≡ fields_long positions.now) × (result ≤ 48 * vertex_limit) }
{
    let mut total: usize = 0;
    for i in 0..positions.len() {
        total += coordinate_length(positions, i);
    }
    total
}

fn numbers_length(list: &[u16]) -> usize
    requires { length list.now ≤ 2 * edge_limit }
    ensures { (result ≡ numbers_long list.now) × (result ≤ 12 * edge_limit) }
{
    let mut total: usize = 0;
    for i in 0..list.len() {
        total += number_length(list, i);
    }
    total
}

// The length of the text: each number has a tab, each record a letter and an LF.
pub fn text_length(positions: &[i32], edges: &[u16], triangles: &[u16], seams: &[u16]) -> usize
    requires { Accepted (scene_of positions.now edges.now triangles.now seams.now) }
    ensures { result ≡ length (saved_text (scene_of positions.now edges.now triangles.now seams.now)) }
{
    let records = positions.len() / 6 + edges.len() / 2 + triangles.len() / 3 + seams.len() / 2;
    let vertices = coordinates_length(positions);
    let ends = numbers_length(edges);
    let corners = numbers_length(triangles);
    let sewn = numbers_length(seams);
    vertices + ends + corners + sewn + 2 * records
}
