// The list: the point-triangle and edge-edge pairs of a scene whose swept boxes meet, in order.

#![tactic(auto)]

pub mod accepted; // accepted.rt: the list of a scene that is accepted

ghost use Rattle.meaning.specs.Scene.{scene_of};
ghost use Rattle.meaning.specs.List.{Counted, Listing};
ghost use Rattle.meaning.specs.Runs.{Tested};
ghost use Rattle.scene_seams.specs.Sewing.{Blank};
ghost use Rattle.scene_checks.specs.Checking.{Stitched};

use accepted::{count_accepted, list_accepted, put_tests};
use list_entries::room;
use meaning::{Refused, VERTEX_LIMIT};
use scene_checks::check_into;

// As `count_pairs`, over a lent table without seams, which is that of the scene's seams afterwards.
fn count_into(
    positions: &[i32],
    edges: &[u16],
    triangles: &[u16],
    seams: &[u16],
    stands: &mut [u16],
    tests: &mut [usize; 1],
) -> Result<usize, Refused>
    requires { Blank seams.now stands.old }
    ensures { Tested (scene_of positions.now edges.now triangles.now seams.now)
        (Counted (scene_of positions.now edges.now triangles.now seams.now)) tests.old tests.new result
        × Stitched (scene_of positions.now edges.now triangles.now seams.now) stands.old stands.new }
{
    check_into(positions, edges, triangles, seams, stands)?;
    let walk = count_accepted(positions, edges, triangles, stands);
    put_tests(tests, walk.tests);
    Ok(walk.next)
}

// How many pairs are listed, and into the lent number how many boxes of the pt part are tested for that.
pub fn count_pairs(
    positions: &[i32],
    edges: &[u16],
    triangles: &[u16],
    seams: &[u16],
    tests: &mut [usize; 1],
) -> Result<usize, Refused>
    ensures { Tested (scene_of positions.now edges.now triangles.now seams.now)
        (Counted (scene_of positions.now edges.now triangles.now seams.now)) tests.old tests.new result }
{
    if seams.len() == 0 {
        let mut none = [0u16; 0];
        return count_into(positions, edges, triangles, seams, &mut none, tests);
    }
    let mut stands = [0u16; VERTEX_LIMIT];
    count_into(positions, edges, triangles, seams, &mut stands, tests)
}

// As `list_pairs`, over a lent table without seams, which is that of the scene's seams afterwards.
fn list_into(
    positions: &[i32],
    edges: &[u16],
    triangles: &[u16],
    seams: &[u16],
    stands: &mut [u16],
    list: &mut [u32],
    tests: &mut [usize; 1],
) -> Result<usize, Refused>
    requires { Blank seams.now stands.old }
    ensures { Tested (scene_of positions.now edges.now triangles.now seams.now)
        (Listing (scene_of positions.now edges.now triangles.now seams.now) list.old list.new) tests.old
        tests.new result × Stitched (scene_of positions.now edges.now triangles.now seams.now) stands.old stands.new }
{
    check_into(positions, edges, triangles, seams, stands)?;
    let most = room(list);
    list_accepted(positions, edges, triangles, stands, list, most, tests)
}

// The list, in front of a lent buffer, and its box tests.
pub fn list_pairs(
    positions: &[i32],
    edges: &[u16],
    triangles: &[u16],
    seams: &[u16],
    list: &mut [u32],
    tests: &mut [usize; 1],
) -> Result<usize, Refused>
    ensures { Tested (scene_of positions.now edges.now triangles.now seams.now)
        (Listing (scene_of positions.now edges.now triangles.now seams.now) list.old list.new) tests.old
        tests.new result }
{
    if seams.len() == 0 {
        let mut none = [0u16; 0];
        return list_into(positions, edges, triangles, seams, &mut none, list, tests);
    }
    let mut stands = [0u16; VERTEX_LIMIT];
    list_into(positions, edges, triangles, seams, &mut stands, list, tests)
}
