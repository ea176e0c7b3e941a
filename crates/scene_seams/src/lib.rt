// The table of seams: at each vertex how far below it the vertex is that it stands for, and 0 for one that stands for itself. It is made once a
// call, so that a vertex is looked up and not searched.

#![tactic(auto)]

ghost use Rattle.std.specs.Prelude.{◌-◌, ◌<◌, not, ◌≡◌, eqb, pos, length, get_or};
ghost use Rattle.meaning.specs.Scene.{vertex_count, stood_for, differ, comes_apart};
ghost use Rattle.scene_seams.specs.Alone.{only_positions};
ghost use Rattle.scene_seams.specs.Table.{seams_of, sewn_to};
ghost use Rattle.scene_seams.specs.Sewing.{breaks_rules, Sewable, Sewn};

// A vertex number as an index, in a function of its own, so that proofs meet the cast in one place.
pub fn wide(x: u16) -> usize
    ensures { result ≡ x }
{
    x as usize
}

// The vertex stood for.
pub fn counts_as(stands: &[u16], v: usize) -> usize
    ensures { result ≡ stood_for (seams_of stands.now) v }
{
    if v < stands.len() {
        v.saturating_sub(wide(stands[v]))
    } else {
        v
    }
}

// Whether a seam replaces the vertex.
fn replaced(stands: &[u16], v: usize) -> bool
    ensures { result ≡ not (eqb (get_or stands.now v 0) 0) }
{
    if v < stands.len() {
        wide(stands[v]) != 0
    } else {
        false
    }
}

// Whether two coordinates differ.
fn unequal(positions: &[i32], a: usize, b: usize) -> bool
    requires { (a < length positions.now) × (b < length positions.now) }
    ensures { result ≡ differ (get_or positions.now a (pos 0)) (get_or positions.now b (pos 0)) }
{
    let y = positions[a];
    let z = positions[b];
    (y < z) | (z < y)
}

// Whether two vertices are not in one place, at the start or at the end.
#[tactic(auto, using(crate::specs::Scanning::scans))]
pub fn comes_apart(positions: &[i32], a: usize, b: usize) -> bool
    requires { (a < vertex_count (only_positions positions.now))
        × (b < vertex_count (only_positions positions.now)) }
    ensures { result ≡ comes_apart (only_positions positions.now) a b }
{
    let mut found = false;
    for k in 0..6 {
        found |= unequal(positions, 6 * a + k, 6 * b + k);
    }
    found
}

// 15 of one more seam: `least` is the lowest number that its first vertex may have.
fn breaks_rules(positions: &[i32], stands: &[u16], least: usize, i: usize, j: usize) -> bool
    requires { (i < vertex_count (only_positions positions.now))
        × (j < vertex_count (only_positions positions.now)) }
    ensures { result ≡ breaks_rules positions.now stands.now least i j }
{
    (i < least) | (i <= j) | replaced(stands, j) | comes_apart(positions, i, j)
}

fn sew(stands: &mut [u16], i: u16, j: u16)
    ensures { stands.new ≡ sewn_to stands.old i j }
{
    let v = wide(i);
    if v < stands.len() {
        stands[v] = i.saturating_sub(j);
    }
}

// One more seam: 15 is decided before it is taken into the table.
pub fn sew_next(positions: &[i32], stands: &mut [u16], least: usize, i: u16, j: u16) -> bool
    requires { (i < vertex_count (only_positions positions.now))
        × (j < vertex_count (only_positions positions.now)) }
    ensures { (result ≡ breaks_rules positions.now stands.old least i j)
        × (stands.new ≡ sewn_to stands.old i j) }
{
    let broken = breaks_rules(positions, stands, least, wide(i), wide(j));
    sew(stands, i, j);
    broken
}

// 15 of all seams, which are in the table then.
pub fn sew_all(positions: &[i32], seams: &[u16], stands: &mut [u16]) -> bool
    requires { Sewable positions.now seams.now stands.old }
    ensures { Sewn positions.now seams.now stands.old result stands.new }
{
    let mut broken = false;
    let mut least = 0;
    for seam in seams.chunks_exact(2) {
        broken |= sew_next(positions, stands, least, seam[0], seam[1]);
        least = wide(seam[0]) + 1;
    }
    broken
}
