// Whether a seam would come apart if a vertex were moved, told before anything is moved.

ghost use Rattle.std.specs.Prelude.{ℕ, ◌<◌, ◌≡◌, pos, length, get_or};
ghost use Rattle.meaning.specs.Scene.{vertex_count, seam_count, sewn, onto, differ, comes_apart};
ghost use Rattle.meaning.specs.Dragging.{moved_scene, tears_seam};
ghost use Rattle.scene_seams.specs.Alone.{only_positions};
ghost use Rattle.scene_seams.specs.Sewing.{seams_alone};
ghost use Rattle.stored_laws.specs.Torn.{apart_from, Together};

use scene_seams::wide;

// Whether two numbers, each of its own list, differ.
fn unequal(list: &[i32], i: usize, other: &[i32], j: usize) -> bool
    requires { (i < length list.now) × (j < length other.now) }
    ensures { result ≡ differ (get_or list.now i (pos 0)) (get_or other.now j (pos 0)) }
{
    list[i] != other[j]
}

// Whether vertex u is not where v would be: six coordinates are compared.
fn apart_from(positions: &[i32], u: usize, coordinates: &[i32]) -> bool
    requires { (u < vertex_count (only_positions positions.now)) × (length coordinates.now ≡ 6) }
    ensures { result ≡ apart_from positions.now u coordinates.now }
{
    let mut found = false;
    for k in 0..6 {
        found |= unequal(positions, 6 * u + k, coordinates, k);
    }
    found
}

// Seam k, the two vertices of which are in one place before.
fn tears(positions: &[i32], seams: &[u16], v: usize, coordinates: &[i32], k: usize) -> bool
    requires { Together (seams_alone positions.now seams.now) k
        × (v < vertex_count (only_positions positions.now)) × (length coordinates.now ≡ 6) }
    ensures { result ≡ comes_apart (moved_scene (seams_alone positions.now seams.now) v
        coordinates.now) (sewn (seams_alone positions.now seams.now) k)
        (onto (seams_alone positions.now seams.now) k) }
{
    let i = wide(seams[2 * k]);
    let j = wide(seams[2 * k + 1]);
    if i == v {
        return apart_from(positions, j, coordinates);
    }
    if j == v {
        return apart_from(positions, i, coordinates);
    }
    false
}

pub(crate) fn tears_seam(positions: &[i32], seams: &[u16], v: usize, coordinates: &[i32]) -> bool
    requires { ((k : ℕ) → k < seam_count (seams_alone positions.now seams.now)
        → Together (seams_alone positions.now seams.now) k) × (v < vertex_count (only_positions positions.now))
        × (length coordinates.now ≡ 6) }
    ensures { result ≡ tears_seam (seams_alone positions.now seams.now) v coordinates.now }
{
    let mut found = false;
    for k in 0..seams.len() / 2 {
        found |= tears(positions, seams, v, coordinates, k);
    }
    found
}
