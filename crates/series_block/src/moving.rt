// A vertex goes on: it starts where it ended, and ends at the numbers of its line. Here too: 13, 2 and 15 of that line.

ghost use Rattle.std.specs.Prelude.{◌+◌, ◌*◌, ◌/◌, ◌≤◌, ◌<◌, length, replicate, ◌≡◌};
ghost use Rattle.sequences.specs.Wrote.{Wrote};
ghost use Rattle.meaning.specs.Limits.{vertex_limit};
ghost use Rattle.meaning.specs.Scene.{broken_seam};
ghost use Rattle.scene_seams.specs.Sewing.{seams_alone, Sewable};
ghost use Rattle.text_record.specs.Putting.{Near};
ghost use Rattle.series_block.specs.Moving.{three_at, moved_on, far_three, wrong_here, last_here, EndReady, EndIs};

use crate::BlockFault;
use meaning::{COORDINATE_LIMIT, VERTEX_LIMIT};
use scene_seams::sew_all;
use text_record::place::put_point;

// The largest size of a coordinate, as sizes are held.
const LARGEST: u64 = COORDINATE_LIMIT as u64;

// The three numbers behind a place of the positions, three further on, are put there too.
fn start_from_end(out: &mut [i32], at: usize)
    requires { at + 6 ≤ length out.old }
    ensures { Wrote out.old at (three_at out.old (at + 3)) out.new (at + 3) }
{
    out[at] = out[at + 3];
    out[at + 1] = out[at + 4];
    out[at + 2] = out[at + 5];
}

// Vertex v goes from its end to the three numbers in front of the buffers.
fn move_on(positions: &mut [i32], v: usize, sizes: &[u64], minus: &[bool])
    requires v_in_bounds { 6 * v + 6 ≤ length positions.old }
    requires in_bounds { 3 ≤ length sizes.now }
    requires in_bounds_2 { 3 ≤ length minus.now }
    requires near { Near sizes.now 0 }
    ensures { positions.new ≡ moved_on positions.old v sizes.now minus.now }
{
    start_from_end(positions, 6 * v);
    put_point(positions, 6 * v + 3, sizes, minus, 0);
}

// 2: whether one of the first three sizes is outside the range of a coordinate.
fn far_end(sizes: &[u64]) -> bool
    requires { 3 ≤ length sizes.now }
    ensures { result ≡ far_three sizes.now }
{
    (LARGEST < sizes[0]) | (LARGEST < sizes[1]) | (LARGEST < sizes[2])
}

// 15: whether a seam of these positions breaks its rules.
fn comes_apart(positions: &[i32], seams: &[u16]) -> bool
    requires { Sewable positions.now seams.now (replicate vertex_limit 0) }
    ensures { result ≡ broken_seam (seams_alone positions.now seams.now) }
{
    let mut stands = [0u16; VERTEX_LIMIT];
    sew_all(positions, seams, &mut stands)
}

// 13: a line too many, or the text's last line in a block that wants more.
fn wrong_here(last: bool, vertices: usize, k: usize) -> bool
    requires k_le_vertices { k ≤ vertices }
    requires vertices_le_vertex_limit { vertices ≤ vertex_limit }
    ensures { result ≡ wrong_here last vertices k }
{
    (vertices <= k) | (last & (k + 1 < vertices))
}

// Whether the line is its block's last, and a seam comes apart in the step that the block makes.
fn apart_here(positions: &[i32], seams: &[u16], k: usize) -> bool
    requires sewable { Sewable positions.now seams.now (replicate vertex_limit 0) }
    requires k_le_vertex_limit { k ≤ vertex_limit }
    ensures { result ≡ last_here positions.now seams.now k }
{
    if positions.len() / 6 <= k + 1 {
        return comes_apart(positions, seams);
    }
    false
}

// The line of the vertex behind k others: 13, then 2, then the vertex goes on, and 15.
pub(crate) fn take_end(
    last: bool,
    k: usize,
    positions: &mut [i32],
    seams: &[u16],
    sizes: &[u64],
    minus: &[bool],
) -> Result<(), BlockFault>
    requires { EndReady k positions.old seams.now sizes.now minus.now }
    ensures { EndIs last k seams.now sizes.now minus.now positions.old
        positions.new result }
{
    if wrong_here(last, positions.len() / 6, k) {
        return Err(BlockFault::Length);
    }
    if far_end(sizes) {
        return Err(BlockFault::Far);
    }
    move_on(positions, k, sizes, minus);
    if apart_here(positions, seams, k) {
        return Err(BlockFault::Apart);
    }
    Ok(())
}
