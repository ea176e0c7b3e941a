// Where a run of rows ends: a guess at what is faster, and no answer depends on it. Rows go together while their first vertices stand near each other,
// by the size of what a tree has under one node: a joint box of rows that stand apart would meet what none of them does.

ghost use Rattle.std.specs.Prelude.{ℕ, ◌+◌, ◌*◌, ◌≤◌, ◌<◌, length};
ghost use Rattle.mesh_walk.specs.Steps.{Tree};
ghost use Rattle.mesh_order_rows.specs.Led.{OwnThere};

use meaning::Kind;
use mesh_order_rows::vertex_of;
use mesh_runs::run_end;

// The rows of a run, at most.
const RUN_ROWS: usize = 8;

// How many nodes are looked at.
const SAMPLES: usize = 64;

// How far apart two numbers of a list are.
fn gap(list: &[i32], i: usize, j: usize) -> usize
    requires { (i < length list.now) × (j < length list.now) }
    ensures { result ≤ 4294967296 }
{
    list[i].abs_diff(list[j]) as usize
}

// How far a box reaches, on all three axes together.
fn extent(boxes: &[i32], k: usize) -> usize
    requires { 6 * k + 5 < length boxes.now }
    ensures { result ≤ 12884901888 }
{
    let i = 6 * k;
    gap(boxes, i, i + 3) + gap(boxes, i + 1, i + 4) + gap(boxes, i + 2, i + 5)
}

// How far apart the low corners of two boxes are.
fn apart(boxes: &[i32], a: usize, b: usize) -> usize
    requires { (6 * a + 5 < length boxes.now) × (6 * b + 5 < length boxes.now) }
{
    let i = 6 * a;
    let j = 6 * b;
    gap(boxes, i, j) + gap(boxes, i + 1, j + 1) + gap(boxes, i + 2, j + 2)
}

// From one node to the next that is looked at, so that some are taken evenly.
fn stride_of(nodes: usize) -> usize
    ensures { (1 ≤ result) × (result ≤ nodes + 1) }
{
    if nodes < SAMPLES { 1 } else { nodes / SAMPLES }
}

// How near rows stand to each other that go together: 7 tenths of the mean extent of some of so many boxes from `first` on.
fn near_share(boxes: &[i32], first: usize, nodes: usize) -> usize
    requires { (6 * (first + nodes) ≤ length boxes.now) × (nodes ≤ 1073741824) }
{
    let stride = stride_of(nodes);
    let mut sum = 0usize;
    let mut looked = 0usize;
    for k in (0..nodes).step_by(stride) {
        sum += extent(boxes, first + k);
        looked += 1;
    }
    if looked == 0 {
        return 0;
    }
    sum / looked / 10 * 7
}

// The same of a tree: by the nodes above its parts, and 0 where it has none.
pub fn reach_of(boxes: &[i32], levels: &[usize], parts: usize, top: usize) -> usize
    requires { Tree boxes.now levels.now parts top × (parts ≤ 1073741824) }
{
    if top < 1 {
        return 0;
    }
    near_share(boxes, levels[2], levels[3])
}

// Whether a row stands near a vertex, by its own first one.
fn is_near(edges: &[u32], boxes: &[i32], kind: Kind, v: usize, i: usize, reach: usize) -> bool
    requires { (6 * v + 5 < length boxes.now) × OwnThere edges.now kind i (length boxes.now) }
{
    apart(boxes, v, vertex_of(edges, kind, i, 0)) <= reach
}

// Where the run ends that begins with a row.
pub fn near_end(
    edges: &[u32],
    boxes: &[i32],
    kind: Kind,
    first: usize,
    end: usize,
    reach: usize,
) -> usize
    requires { (first < end) × (end ≤ 1073741824)
        × ((i : ℕ) → i < end → OwnThere edges.now kind i (length boxes.now)) }
    ensures { (first < result) × (result ≤ end) × (result ≤ first + 16) }
{
    let last = run_end(first, end, RUN_ROWS);
    let v = vertex_of(edges, kind, first, 0);
    for i in first + 1..last {
        if !is_near(edges, boxes, kind, v, i, reach) {
            return i;
        }
    }
    last
}
