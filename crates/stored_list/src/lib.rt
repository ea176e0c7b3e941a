// The list made from stored boxes, after one look over them: counted, made, and made with the word of each listed pair.

#![tactic(auto)]

ghost use Rattle.meaning.specs.Scene.{scene_of};
ghost use Rattle.meaning.specs.StoredBoxes.{CountedStored, ListedStored};
ghost use Rattle.meaning.specs.Runs.{Tested};
ghost use Rattle.meaning.specs.StoredBoxes.{SettledStored};

use list_entries::room;
use list_pairs::accepted::{count_prepared, list_prepared, put_tests};
use list_walk::skipping::{WALK_NUMBERS, prepare_stored};
use list_words::settle_prepared;
use meaning::{Refused, VERTEX_LIMIT};
use stored_checks::look;

// How many pairs are listed, and into the lent number how many boxes of the pt part are tested for that. The look is no test.
pub fn count_stored(
    positions: &[i32],
    edges: &[u16],
    triangles: &[u16],
    seams: &[u16],
    stored: &[i32],
    tests: &mut [usize; 1],
) -> Result<usize, Refused>
    ensures { Tested (scene_of positions.now edges.now triangles.now seams.now)
        (CountedStored (scene_of positions.now edges.now triangles.now seams.now) stored.now) tests.old tests.new
        result }
{
    let mut stands = [0u16; VERTEX_LIMIT];
    look(positions, edges, triangles, seams, stored, &mut stands)?;
    let mut boxes = [0i32; WALK_NUMBERS];
    prepare_stored(positions, edges, triangles, &stands, stored, &mut boxes);
    let walk = count_prepared(positions, edges, triangles, &stands, &boxes);
    put_tests(tests, walk.tests);
    Ok(walk.next)
}

// The list, in front of a lent buffer, and its box tests.
pub fn list_stored(
    positions: &[i32],
    edges: &[u16],
    triangles: &[u16],
    seams: &[u16],
    stored: &[i32],
    list: &mut [u32],
    tests: &mut [usize; 1],
) -> Result<usize, Refused>
    ensures { Tested (scene_of positions.now edges.now triangles.now seams.now)
        (ListedStored (scene_of positions.now edges.now triangles.now seams.now) stored.now list.old list.new)
        tests.old tests.new result }
{
    let mut stands = [0u16; VERTEX_LIMIT];
    look(positions, edges, triangles, seams, stored, &mut stands)?;
    let mut boxes = [0i32; WALK_NUMBERS];
    prepare_stored(positions, edges, triangles, &stands, stored, &mut boxes);
    let most = room(list);
    list_prepared(
        positions, edges, triangles, &stands, &boxes, list, most, tests,
    )
}

// The list, and the word of each listed pair as a byte.
pub fn settle_stored(
    positions: &[i32],
    edges: &[u16],
    triangles: &[u16],
    seams: &[u16],
    stored: &[i32],
    list: &mut [u32],
    out: &mut [u8],
) -> Result<usize, Refused>
    ensures { SettledStored (scene_of positions.now edges.now triangles.now seams.now) stored.now list.old
        list.new out.old out.new result }
{
    let mut stands = [0u16; VERTEX_LIMIT];
    look(positions, edges, triangles, seams, stored, &mut stands)?;
    let mut boxes = [0i32; WALK_NUMBERS];
    prepare_stored(positions, edges, triangles, &stands, stored, &mut boxes);
    settle_prepared(positions, edges, triangles, &stands, &boxes, list, out)
}
