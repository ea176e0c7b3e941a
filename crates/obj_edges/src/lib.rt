// The edges of faces: each once, either way round, as it first appears. Behind the edges of a draft stands a table by which one is found: for each sum
// of two vertices the last edge with that sum, and for each edge the last one before it with its own, each counted from 1, or 0.

#![tactic(auto)]

ghost use Rattle.std.specs.Prelude.{◌+◌, ◌*◌, ◌≤◌, ◌<◌, length, take, ◌≡◌};
ghost use Rattle.meaning.specs.Limits.{vertex_limit, edge_limit};
ghost use Rattle.meaning.specs.ObjFile.{joined};
ghost use Rattle.obj_edges.specs.Chains.{sums, entered};
ghost use Rattle.obj_edges.specs.Sides.{Tabled, SideAdded, SidesAdded};

use meaning::{EDGE_LIMIT, VERTEX_LIMIT};

// The edges that a draft has ends for: as many as there may be, and three more of the face that is one too many.
const MOST_EDGES: usize = EDGE_LIMIT + 3;

// Where the last edges with a sum stand: behind the ends of the edges.
const LASTS: usize = 2 * MOST_EDGES;

// Where the edges before stand: behind a place for each sum of two vertices.
const BEFORES: usize = LASTS + 2 * VERTEX_LIMIT;

// The same for an edge that is counted from 1.
const BEFORE: usize = BEFORES - 1;

// How long a draft of edges is with its table.
pub const TABLED: usize = BEFORES + MOST_EDGES;

// Whether two vertices are the ends of one of so many edges. Those with the same sum are looked at, from the last to the first.
fn is_joined(edges: &[u16], count: usize, a: u16, b: u16) -> bool
    requires tabled { Tabled edges.now count (edge_limit + 2) }
    requires b_bound { a + b < sums }
    ensures { result ≡ joined a b (take (2 * count) edges.now) }
{
    let mut e = edges[LASTS + (a as usize + b as usize)] as usize;
    // A `while`, because the table says which edge comes next.
    while 0 < e {
        let x = edges[2 * e - 2];
        let y = edges[2 * e - 1];
        if ((x == a) & (y == b)) | ((x == b) & (y == a)) {
            return true;
        }
        e = edges[BEFORE + e] as usize;
    }
    false
}

// An edge goes behind so many others, and into the table.
fn enter(edges: &mut [u16], count: usize, a: u16, b: u16)
    requires tabled { Tabled edges.old count (edge_limit + 2) }
    requires b_bound { a + b < sums }
    ensures { edges.new ≡ entered edges.old count a b }
{
    let last = LASTS + (a as usize + b as usize);
    edges[BEFORES + count] = edges[last];
    edges[last] = (count + 1) as u16;
    edges[2 * count] = a;
    edges[2 * count + 1] = b;
}

// One side, behind so many edges; the number of edges then.
fn add_side(edges: &mut [u16], count: usize, a: u16, b: u16) -> usize
    requires tabled { Tabled edges.old count (edge_limit + 2) }
    requires b_bound { a + b < sums }
    ensures { SideAdded a b edges.old count edges.new result }
{
    if is_joined(edges, count, a, b) {
        return count;
    }
    enter(edges, count, a, b);
    count + 1
}

// The three sides of a face, behind so many edges; the number of edges then.
pub fn add_sides(edges: &mut [u16], count: usize, a: u16, b: u16, c: u16) -> usize
    requires tabled { Tabled edges.old count edge_limit }
    requires a_lt_vertex_limit { (a < vertex_limit) × (b < vertex_limit) × (c < vertex_limit) }
    ensures { SidesAdded a b c edges.old count edges.new result }
{
    let one = add_side(edges, count, a, b);
    let two = add_side(edges, one, b, c);
    add_side(edges, two, c, a)
}
