// The table of seams of a mesh of any size, in a lent list of u32: at each vertex how far below it the vertex is that it stands for, and 0 for one
// that stands for itself. What the table means is told in scene_seams, over lists of any length; here are the functions that read and make it at this width.

#![tactic(auto)]

ghost use Rattle.std.specs.Prelude.{◌-◌, ◌<◌, ◌/◌, not, ◌≡◌, eqb, get_or};
ghost use Rattle.meaning.specs.Scene.{vertex_count, stood_for};
ghost use Rattle.scene_seams.specs.Alone.{only_positions};
ghost use Rattle.scene_seams.specs.Table.{seams_of, sewn_to};
ghost use Rattle.scene_seams.specs.Sewing.{breaks_rules, Sewn};
ghost use Rattle.mesh_seams.specs.Sewing.{MeshSewable};

use scene_seams::comes_apart;

// A number of a lent list, in the type of indices. A function of its own, so that proofs meet the cast in one place.
pub fn wide(x: u32) -> usize
    ensures { result ≡ x }
{
    x as usize
}

// The vertex stood for.
pub fn counts_as(stands: &[u32], v: usize) -> usize
    ensures { result ≡ stood_for (seams_of stands.now) v }
{
    if v < stands.len() {
        v.saturating_sub(wide(stands[v]))
    } else {
        v
    }
}

// Whether a seam replaces the vertex.
fn replaced(stands: &[u32], v: usize) -> bool
    ensures { result ≡ not (eqb (get_or stands.now v 0) 0) }
{
    if v < stands.len() {
        wide(stands[v]) != 0
    } else {
        false
    }
}

// 15 of one more seam: `least` is the lowest number that its first vertex may have.
fn breaks_rules(positions: &[i32], stands: &[u32], least: usize, i: usize, j: usize) -> bool
    requires { (i < vertex_count (only_positions positions.now))
        × (j < vertex_count (only_positions positions.now)) }
    ensures { result ≡ breaks_rules positions.now stands.now least i j }
{
    (i < least) | (i <= j) | replaced(stands, j) | comes_apart(positions, i, j)
}

fn sew(stands: &mut [u32], i: u32, j: u32)
    ensures { stands.new ≡ sewn_to stands.old i j }
{
    let v = wide(i);
    if v < stands.len() {
        stands[v] = i.saturating_sub(j);
    }
}

// One more seam: 15 is decided before it is taken into the table.
pub fn sew_next(positions: &[i32], stands: &mut [u32], least: usize, i: u32, j: u32) -> bool
    requires { (i < vertex_count (only_positions positions.now))
        × (j < vertex_count (only_positions positions.now)) }
    ensures { (result ≡ breaks_rules positions.now stands.old least i j)
        × (stands.new ≡ sewn_to stands.old i j) }
{
    let broken = breaks_rules(positions, stands, least, wide(i), wide(j));
    sew(stands, i, j);
    broken
}

// 15 of all seams, which are in the table then.
pub fn sew_all(positions: &[i32], seams: &[u32], stands: &mut [u32]) -> bool
    requires { MeshSewable positions.now seams.now stands.old }
    ensures { Sewn positions.now seams.now stands.old result stands.new }
{
    let mut broken = false;
    let mut least = 0;
    for k in 0..seams.len() / 2 {
        broken |= sew_next(positions, stands, least, seams[2 * k], seams[2 * k + 1]);
        least = wide(seams[2 * k]) + 1;
    }
    broken
}
