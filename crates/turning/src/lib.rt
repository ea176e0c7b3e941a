// A scene without seams turned round where it stands, so that a clip can be played backwards: start and end swapped, the vertices numbered
// from last to first, edges and triangles in their places.

#![tactic(auto)]

ghost use Rattle.meaning.specs.Scene.{unsewn_of};
ghost use Rattle.std.specs.Prelude.{◌*◌, ◌≤◌, ◌<◌, map, ◌≡◌, length};
ghost use Rattle.meaning.specs.Limits.{vertex_limit};
ghost use Rattle.meaning.specs.Backwards.{from_last, Turning};
ghost use Rattle.turning_laws.specs.Turned.{source};
ghost use Rattle.turning.specs.Exchanging.{exchanged};
ghost use Rattle.turning.specs.Renumbering.{AllBelow};
ghost use Rattle.turning.specs.Scene.{positions_turned};

use meaning::Refusal;
use scene_checks::check_scene;
use scene_seams::wide;

// Where the coordinate at place i comes from: the other half, start or end, of the vertex counted from the last.
fn source(count: usize, i: usize) -> usize
    requires { (count ≤ vertex_limit) × (i < 6 * count) }
    ensures { result ≡ source count i }
{
    6 * (count - 1 - i / 6) + (i + 3) % 6
}

fn exchange(positions: &mut [i32], i: usize, j: usize)
    requires { (i < length positions.old) × (j < length positions.old) }
    ensures { positions.new ≡ exchanged positions.old i j }
{
    let first = positions[i];
    positions[i] = positions[j];
    positions[j] = first;
}

// What comes from the second half comes from a place that gets what stands in the first: each exchange puts two coordinates right.
fn turn_positions(positions: &mut [i32])
    requires { length positions.old ≤ 6 * vertex_limit }
    ensures { positions.new ≡ positions_turned positions.old }
{
    let count = positions.len() / 6;
    for i in 0..3 * count {
        let j = source(count, i);
        exchange(positions, i, j);
    }
}

fn from_last(count: usize, v: u16) -> u16
    requires { (count ≤ vertex_limit) × (v < count) }
    ensures { result ≡ from_last count v }
{
    (count - 1 - wide(v)) as u16
}

fn renumber(numbers: &mut [u16], count: usize)
    requires { (count ≤ vertex_limit) × AllBelow count numbers.old }
    ensures { numbers.new ≡ map (from_last count) numbers.old }
{
    for number in numbers.iter_mut() {
        *number = from_last(count, *number);
    }
}

// Turns the scene in the lent slices, which has no seams, round. A refusal is the scene's own and changes nothing.
pub fn turn_scene(
    positions: &mut [i32],
    edges: &mut [u16],
    triangles: &mut [u16],
) -> Result<(), Refusal>
    ensures { Turning (unsewn_of positions.old edges.old triangles.old) (unsewn_of positions.new edges.new triangles.new) result }
{
    check_scene(positions, edges, triangles, &[])?;
    let count = positions.len() / 6;
    turn_positions(positions);
    renumber(edges, count);
    renumber(triangles, count);
    Ok(())
}
