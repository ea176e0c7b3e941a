// The list of a scene that is accepted: counted, and made where there is room for it.

ghost use Rattle.scene_seams.specs.Alone.{tabled};
ghost use Rattle.std.specs.Prelude.{◌≤◌, [], ◌∷◌, ◌≡◌, length, take};
ghost use Rattle.sequences.specs.Wrote.{written};
ghost use Rattle.meaning.specs.Scene.{Accepted};
ghost use Rattle.meaning.specs.List.{pairs, entries, room_of};
ghost use Rattle.meaning.specs.Runs.{box_tests, Tested};
ghost use Rattle.list_walk.specs.Skipping.{Prepared};
ghost use Rattle.list_pairs.specs.Answering.{ListedIn};
ghost use Rattle.list_pairs.specs.Own.{OwnList};

use list_walk::skipping::{WALK_NUMBERS, prepare};
use list_walk::{Walk, walk_prepared};
use meaning::{Refusal, Refused};

// Most lists are shorter: they are walked once, into an array of one's own, and copied when it is known that there is room.
const OWN_ENTRIES: usize = 8192;

// One pass is told, also of a list that was walked twice.
pub fn put_tests(tests: &mut [usize; 1], walked: usize)
    ensures { tests.new ≡ walked ∷ [] }
{
    *tests = [walked];
}

// Of a scene whose boxes and runs are prepared.
pub fn count_prepared(
    positions: &[i32],
    edges: &[u16],
    triangles: &[u16],
    stands: &[u16],
    boxes: &[i32],
) -> Walk
    requires { Prepared (tabled positions.now edges.now triangles.now stands.now) boxes.now }
    ensures { (result.next ≡ length (pairs (tabled positions.now edges.now triangles.now stands.now)))
        × (result.tests ≡ box_tests (tabled positions.now edges.now triangles.now stands.now)) }
{
    let mut none = [0u32; 1];
    walk_prepared(positions, edges, triangles, stands, boxes, &mut none, 0)
}

// How many pairs an accepted scene lists, and how many box tests that took, with the boxes worked out here. Nothing is written.
pub fn count_accepted(positions: &[i32], edges: &[u16], triangles: &[u16], stands: &[u16]) -> Walk
    requires { Accepted (tabled positions.now edges.now triangles.now stands.now) }
    ensures { (result.next ≡ length (pairs (tabled positions.now edges.now triangles.now stands.now)))
        × (result.tests ≡ box_tests (tabled positions.now edges.now triangles.now stands.now)) }
{
    let mut boxes = [0i32; WALK_NUMBERS];
    prepare(positions, edges, triangles, stands, &mut boxes);
    count_prepared(positions, edges, triangles, stands, &boxes)
}

// The first entries of one list, in front of another.
fn copy_front(own: &[u32], list: &mut [u32], count: usize)
    requires { (count ≤ length own.now) × (count ≤ length list.old) }
    ensures { list.new ≡ written (take count own.now) list.old }
{
    for k in 0..count {
        list[k] = own[k];
    }
}

// The list of so many pairs, copied where one's own has it whole; a longer one is walked again.
fn enter(
    positions: &[i32],
    edges: &[u16],
    triangles: &[u16],
    stands: &[u16],
    boxes: &[i32],
    own: &[u32],
    list: &mut [u32],
    count: usize,
)
    requires { Prepared (tabled positions.now edges.now triangles.now stands.now) boxes.now
        × OwnList (tabled positions.now edges.now triangles.now stands.now) own.now count × (count ≤ length list.old) }
    ensures { list.new ≡ written (entries (pairs (tabled positions.now edges.now triangles.now stands.now)))
        list.old }
{
    if count <= own.len() {
        copy_front(own, list, count);
    } else {
        walk_prepared(positions, edges, triangles, stands, boxes, list, count);
    }
}

// Nothing is written before it is known that all of it has room. The tests are those of the first walk.
pub fn list_prepared(
    positions: &[i32],
    edges: &[u16],
    triangles: &[u16],
    stands: &[u16],
    boxes: &[i32],
    list: &mut [u32],
    room: usize,
    tests: &mut [usize; 1],
) -> Result<usize, Refused>
    requires { Prepared (tabled positions.now edges.now triangles.now stands.now) boxes.now × (room ≤ room_of list.old) }
    ensures { Tested (tabled positions.now edges.now triangles.now stands.now)
        (ListedIn (tabled positions.now edges.now triangles.now stands.now) room list.old list.new) tests.old
        tests.new result }
{
    let mut own = [0u32; OWN_ENTRIES];
    let walk = walk_prepared(
        positions,
        edges,
        triangles,
        stands,
        boxes,
        &mut own,
        OWN_ENTRIES,
    );
    let count = walk.next;
    if room < count {
        return Err(Refused {
            why: Refusal::NoRoom,
            carries: count,
        });
    }
    enter(
        positions, edges, triangles, stands, boxes, &own, list, count,
    );
    put_tests(tests, walk.tests);
    Ok(count)
}

// The list of an accepted scene into a lent buffer, of which so many entries may be used; or 7 with the count, and the buffer stays as it was.
pub fn list_accepted(
    positions: &[i32],
    edges: &[u16],
    triangles: &[u16],
    stands: &[u16],
    list: &mut [u32],
    room: usize,
    tests: &mut [usize; 1],
) -> Result<usize, Refused>
    requires { Accepted (tabled positions.now edges.now triangles.now stands.now) × (room ≤ room_of list.old) }
    ensures { Tested (tabled positions.now edges.now triangles.now stands.now)
        (ListedIn (tabled positions.now edges.now triangles.now stands.now) room list.old list.new) tests.old
        tests.new result }
{
    let mut boxes = [0i32; WALK_NUMBERS];
    prepare(positions, edges, triangles, stands, &mut boxes);
    list_prepared(
        positions, edges, triangles, stands, &boxes, list, room, tests,
    )
}
