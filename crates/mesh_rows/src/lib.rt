// Rows of a mesh's list: the parts whose boxes meet the row's are found by the walk over a tree, those that share a vertex are left out, and from near
// rows the far ones, and what is left is counted and entered. One walk a row does both: an entry is stored while its place is below a bound, and all are
// counted.

#![tactic(auto)]

ghost use Rattle.scene_seams.specs.Alone.{tabled};
ghost use Rattle.std.specs.Prelude.{◌+◌, ◌≤◌, ◌<◌, true, ◌&&◌, ◌≡◌, length};
ghost use Rattle.sequences.specs.Chosen.{one};
ghost use Rattle.meaning.specs.MeshRows.{mesh_entries};
ghost use Rattle.mesh_near.specs.Spanned.{Spanned};
ghost use Rattle.mesh_entries.specs.Entering.{Entered};
ghost use Rattle.mesh_rows.specs.Asking.{left_out, passes, Askable};
ghost use Rattle.mesh_rows.specs.Rows.{RowTree, part_row, entry_of, SecondsPut};

use meaning::{Kind, RowPairs};
use mesh_entries::put_below;
use mesh_near::is_far;
use mesh_parts::asked::shares_vertex;
use mesh_walk::{climb, put_place, step};

// Whether a pair is left out of such rows for being far.
fn left_out(
    positions: &[i32],
    edges: &[u32],
    triangles: &[u32],
    stands: &[u32],
    which: RowPairs,
    kind: Kind,
    i: usize,
    j: usize,
) -> bool
    requires { Spanned positions.now edges.now triangles.now kind i j }
    ensures { result ≡ left_out which (tabled positions.now edges.now triangles.now stands.now) kind i j }
{
    match which {
        RowPairs::Listed => false,
        RowPairs::Near => is_far(positions, edges, triangles, kind, i, j),
    }
}

// Whether a part that was found shares no vertex with the row's, and is not left out.
fn is_listed(
    positions: &[i32],
    edges: &[u32],
    triangles: &[u32],
    stands: &[u32],
    which: RowPairs,
    kind: Kind,
    i: usize,
    j: usize,
) -> bool
    requires { Askable (tabled positions.now edges.now triangles.now stands.now) kind i j }
    ensures { result ≡ passes which (tabled positions.now edges.now triangles.now stands.now) kind i j }
{
    let shared = shares_vertex(positions, edges, triangles, stands, kind, i, j);
    if shared {
        return false;
    }
    match which {
        RowPairs::Listed => true,
        RowPairs::Near => !is_far(positions, edges, triangles, kind, i, j),
    }
}

// A part that was found is entered, and counted, if its pair is listed. Most that a walk comes by are not found, and of listed rows none is far: neither
// costs a call.
pub fn enter_found(
    positions: &[i32],
    edges: &[u32],
    triangles: &[u32],
    stands: &[u32],
    which: RowPairs,
    kind: Kind,
    i: usize,
    j: usize,
    found: bool,
    list: &mut [u64],
    most: usize,
    k: usize,
) -> usize
    requires askable { found ≡ true → Askable (tabled positions.now edges.now triangles.now stands.now) kind i j }
    requires most_in_bounds { (most ≤ length list.old) × (k < 9223372036854775808) }
    ensures { Entered most list.old k
        (one (found && passes which (tabled positions.now edges.now triangles.now stands.now) kind i j) (entry_of kind i j))
        list.new result }
{
    if !found {
        return k;
    }
    if shares_vertex(positions, edges, triangles, stands, kind, i, j) {
        return k;
    }
    if left_out(positions, edges, triangles, stands, which, kind, i, j) {
        return k;
    }
    put_below(list, most, k, kind, i, j);
    k + 1
}

// The row of one first part, whose own box is `row`: over the tree of the second parts, from the first of them that goes with it on.
pub fn walk_row(
    positions: &[i32],
    edges: &[u32],
    triangles: &[u32],
    stands: &[u32],
    boxes: &[i32],
    levels: &[usize],
    parts: usize,
    top: usize,
    which: RowPairs,
    kind: Kind,
    i: usize,
    row: usize,
    from: usize,
    list: &mut [u64],
    most: usize,
    at: usize,
) -> usize
    requires row_tree { RowTree (tabled positions.now edges.now triangles.now stands.now) kind i boxes.now levels.now parts top row from }
    requires most_in_bounds { (most ≤ length list.old) × (at < 4611686018427387904) }
    ensures { Entered most list.old at
        (mesh_entries (part_row which (tabled positions.now edges.now triangles.now stands.now) kind i)) list.new result }
{
    let start = climb(0, from, top, false);
    let mut level = start.level;
    let mut node = start.node;
    let mut k = at;
    // A `while`: up and down a tree the next node comes from what the step met.
    while node < levels[2 * level + 1] {
        let next = step(boxes, row, boxes, levels, parts, top, level, node);
        k = enter_found(
            positions, edges, triangles, stands, which, kind, i, node, next.found, list, most, k,
        );
        level = next.level;
        node = next.node;
    }
    k
}

// A place that was found is put down, and counted, if its pair is listed.
pub fn put_found(
    positions: &[i32],
    edges: &[u32],
    triangles: &[u32],
    stands: &[u32],
    which: RowPairs,
    kind: Kind,
    i: usize,
    j: usize,
    found: bool,
    places: &mut [u32],
    k: usize,
) -> usize
    requires askable { found ≡ true → Askable (tabled positions.now edges.now triangles.now stands.now) kind i j }
    requires k_bound { k < 9223372036854775808 }
    ensures { Entered (length places.old) places.old k
        (one (found && passes which (tabled positions.now edges.now triangles.now stands.now) kind i j) j) places.new result }
{
    if found {
        if is_listed(positions, edges, triangles, stands, which, kind, i, j) {
            put_place(places, k, j);
            k + 1
        } else {
            k
        }
    } else {
        k
    }
}

// The second places of the row of one first part, as `walk_row` finds them, in front of a lent list with room for all second parts; the rest of it is
// unchanged. Returned is how many.
pub fn place_row(
    positions: &[i32],
    edges: &[u32],
    triangles: &[u32],
    stands: &[u32],
    boxes: &[i32],
    levels: &[usize],
    parts: usize,
    top: usize,
    which: RowPairs,
    kind: Kind,
    i: usize,
    row: usize,
    from: usize,
    places: &mut [u32],
) -> usize
    requires row_tree { RowTree (tabled positions.now edges.now triangles.now stands.now) kind i boxes.now levels.now parts top row from }
    requires parts_in_bounds { parts ≤ length places.old }
    ensures { SecondsPut (part_row which (tabled positions.now edges.now triangles.now stands.now) kind i) places.old
        places.new result }
{
    let start = climb(0, from, top, false);
    let mut level = start.level;
    let mut node = start.node;
    let mut k = 0usize;
    // A `while`: up and down a tree the next node comes from what the step met.
    while node < levels[2 * level + 1] {
        let next = step(boxes, row, boxes, levels, parts, top, level, node);
        k = put_found(
            positions, edges, triangles, stands, which, kind, i, node, next.found, places, k,
        );
        level = next.level;
        node = next.node;
    }
    k
}
