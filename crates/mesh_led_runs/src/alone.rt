// The rows of a run one by one, where more parts were found for it than there is room for.

ghost use Rattle.scene_seams.specs.Alone.{tabled};
ghost use Rattle.std.specs.Prelude.{ℕ, ◌+◌, ◌*◌, ◌≤◌, ◌<◌, map, length, get_or, take};
ghost use Rattle.sequences.specs.Gather.{gather};
ghost use Rattle.list_candidates.specs.Rows.{first_count};
ghost use Rattle.mesh_entries.specs.Entering.{Entered};
ghost use Rattle.mesh_rows.specs.Rows.{entry_of};
ghost use Rattle.mesh_runs.specs.Runs.{kind_entries};
ghost use Rattle.mesh_order_rows.specs.Led.{LedTree};

use meaning::{Kind, RowPairs};
use mesh_entries::put_below;
use mesh_order_rows::order_places;
use mesh_seams::wide;

// The entries of a row, whose second places stand in front of a list.
fn enter_places(
    kind: Kind,
    i: usize,
    places: &[u32],
    count: usize,
    list: &mut [u64],
    most: usize,
    at: usize,
) -> usize
    requires count_in_bounds { (count ≤ length places.now) × (count ≤ 1073741824) × (i < 1073741824)
        × ((c : ℕ) → c < count → get_or places.now c 0 < 1073741824) }
    requires most_in_bounds { (most ≤ length list.old) × (at < 4611686018427387904) }
    ensures { Entered most list.old at (map (entry_of kind i) (take count places.now)) list.new result }
{
    let mut k = at;
    for place in &places[..count] {
        put_below(list, most, k, kind, i, wide(*place));
        k += 1;
    }
    k
}

// The rows from one up to another, each by a walk of its own. What stands in `places` afterwards is of no account.
pub fn enter_alone(
    positions: &[i32],
    edges: &[u32],
    triangles: &[u32],
    stands: &[u32],
    boxes: &[i32],
    levels: &[usize],
    parts: usize,
    top: usize,
    which: RowPairs,
    kind: Kind,
    order: &[u32],
    first: usize,
    end: usize,
    places: &mut [u32],
    list: &mut [u64],
    most: usize,
    at: usize,
) -> usize
    requires led_tree { LedTree (tabled positions.now edges.now triangles.now stands.now) kind boxes.now levels.now parts top order.now
        × (first ≤ end) × (end ≤ first + 16) × (end ≤ first_count (tabled positions.now edges.now triangles.now stands.now) kind) }
    requires parts_in_bounds { (2 * parts ≤ length places.old) × (most ≤ length list.old) × (at ≤ 2305843009213693952) }
    ensures { Entered most list.old at
        (gather (kind_entries which (tabled positions.now edges.now triangles.now stands.now) kind) first end) list.new result }
{
    let mut k = at;
    for i in first..end {
        let count = order_places(
            positions, edges, triangles, stands, boxes, levels, parts, top, which, kind, i, order,
            places,
        );
        k = enter_places(kind, i, places, count, list, most, k);
    }
    k
}
