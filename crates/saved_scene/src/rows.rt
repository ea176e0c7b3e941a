// The lines of a scene, written into a lent buffer from a place on where there is room for them. Each returns the place behind what it wrote.

ghost use Rattle.std.specs.Prelude.{◌+◌, ◌*◌, ◌/◌, ◌≤◌, ◌<◌, ◌≡◌, length, get_or};
ghost use Rattle.sequences.specs.Wrote.{Wrote};
ghost use Rattle.saved_numbers.specs.Marked.{Coordinates};
ghost use Rattle.saved_scene.specs.Rows.{three_fields, six_line, two_line, three_line, vertex_lines, pair_lines, triple_lines};

use saved_numbers::{put_byte, put_coordinate, put_number};

// A place of a vertex: three coordinates in a row.
fn put_place(out: &mut [u8], at: usize, positions: &[i32], i: usize) -> usize
    requires i_in_bounds { (i + 2 < length positions.now) × Coordinates positions.now }
    requires i_in_bounds_2 { at + length (three_fields positions.now i) ≤ length out.old }
    ensures { Wrote out.old at (three_fields positions.now i) out.new result }
{
    let mut next = put_coordinate(out, at, positions, i);
    next = put_coordinate(out, next, positions, i + 1);
    put_coordinate(out, next, positions, i + 2)
}

// `v`, where a vertex is at the start, and where at the end.
fn put_vertex(out: &mut [u8], at: usize, positions: &[i32], k: usize) -> usize
    requires k_in_bounds { (k < length positions.now / 6) × Coordinates positions.now }
    requires k_in_bounds_2 { at + length (six_line positions.now k) ≤ length out.old }
    ensures { Wrote out.old at (six_line positions.now k) out.new result }
{
    let mut next = put_byte(out, at, b'v');
    next = put_place(out, next, positions, 6 * k);
    next = put_place(out, next, positions, 6 * k + 3);
    put_byte(out, next, b'\n')
}

// The letter of an edge or of a seam, and its two numbers as they are stored.
fn put_pair(out: &mut [u8], at: usize, letter: u8, list: &[u16], k: usize) -> usize
    requires k_in_bounds { k < length list.now / 2 }
    requires k_in_bounds_2 { at + length (two_line letter (get_or list.now (2 * k) 0) (get_or list.now (2 * k + 1) 0)) ≤ length
        out.old }
    ensures { Wrote out.old at
        (two_line letter (get_or list.now (2 * k) 0) (get_or list.now (2 * k + 1) 0)) out.new result }
{
    let mut next = put_byte(out, at, letter);
    next = put_number(out, next, list, 2 * k);
    next = put_number(out, next, list, 2 * k + 1);
    put_byte(out, next, b'\n')
}

// `t` and the three numbers of a triangle.
fn put_triangle(out: &mut [u8], at: usize, list: &[u16], k: usize) -> usize
    requires k_in_bounds { k < length list.now / 3 }
    requires k_in_bounds_2 { at + length (three_line (get_or list.now (3 * k) 0) (get_or list.now (3 * k + 1) 0)
        (get_or list.now (3 * k + 2) 0)) ≤ length out.old }
    ensures { Wrote out.old at
        (three_line (get_or list.now (3 * k) 0) (get_or list.now (3 * k + 1) 0)
        (get_or list.now (3 * k + 2) 0)) out.new result }
{
    let mut next = put_byte(out, at, b't');
    next = put_number(out, next, list, 3 * k);
    next = put_number(out, next, list, 3 * k + 1);
    next = put_number(out, next, list, 3 * k + 2);
    put_byte(out, next, b'\n')
}

// A v record for each vertex, in order: places count from 0, so that their order is all that numbers them.
pub fn put_vertices(out: &mut [u8], at: usize, positions: &[i32]) -> usize
    requires positions_len { (length positions.now ≡ 6 * (length positions.now / 6)) × Coordinates positions.now }
    requires positions_in_bounds { at + length (vertex_lines positions.now) ≤ length out.old }
    ensures { Wrote out.old at (vertex_lines positions.now) out.new result }
{
    let count = positions.len() / 6;
    let mut next = at;
    for k in 0..count {
        next = put_vertex(out, next, positions, k);
    }
    next
}

// Edges and seams, which differ by their letter.
pub fn put_pairs(out: &mut [u8], at: usize, letter: u8, list: &[u16]) -> usize
    requires list_len { length list.now ≡ 2 * (length list.now / 2) }
    requires list_in_bounds { at + length (pair_lines letter list.now) ≤ length out.old }
    ensures { Wrote out.old at (pair_lines letter list.now) out.new result }
{
    let count = list.len() / 2;
    let mut next = at;
    for k in 0..count {
        next = put_pair(out, next, letter, list, k);
    }
    next
}

// A t record for each triangle, in order, with its corners in the order in which they are stored.
pub fn put_triangles(out: &mut [u8], at: usize, list: &[u16]) -> usize
    requires list_len { length list.now ≡ 3 * (length list.now / 3) }
    requires list_in_bounds { at + length (triple_lines list.now) ≤ length out.old }
    ensures { Wrote out.old at (triple_lines list.now) out.new result }
{
    let count = list.len() / 3;
    let mut next = at;
    for k in 0..count {
        next = put_triangle(out, next, list, k);
    }
    next
}
