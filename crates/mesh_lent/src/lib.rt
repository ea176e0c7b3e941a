// A lent mesh with the list that is lent for its table of seams, whatever stood in it: 12 where it is too short, then the five checks.

#![tactic(auto)]

ghost use Rattle.meaning.specs.Scene.{scene_of};
ghost use Rattle.std.specs.Prelude.{◌≤◌, ◌≡◌, length};
ghost use Rattle.meaning.specs.Mesh.{table_room, MeshAccepted};
ghost use Rattle.mesh_lent.specs.Blanking.{blank_of};
ghost use Rattle.mesh_lent.specs.Answering.{table_short, MeshSewn};

use meaning::Refusal;
use mesh_checks::check_mesh_into;

// Every number of a lent list set to 0: a table without seams.
pub fn blank(table: &mut [u32])
    ensures { table.new ≡ blank_of table.old }
{
    table.fill(0);
}

// 12: there are seams, and the lent list has no room for a table of the vertices.
pub fn table_short(positions: &[i32], seams: &[u32], table: &[u32]) -> bool
    ensures { result ≡ table_short (length positions.now) (length seams.now) (length table.now) }
{
    (seams.len() != 0) & (table.len() < positions.len() / 6)
}

// The five checks over a list that is long enough. It is blanked before it is used, so that what stood in it has no part in the answer; where the mesh is
// accepted, its seams stand there afterwards.
pub fn check_over(
    positions: &[i32],
    edges: &[u32],
    triangles: &[u32],
    seams: &[u32],
    table: &mut [u32],
) -> Result<(), Refusal>
    requires { table_room (scene_of positions.now edges.now triangles.now seams.now) ≤ length table.old }
    ensures { MeshSewn (scene_of positions.now edges.now triangles.now seams.now) table.new result }
{
    blank(table);
    check_mesh_into(positions, edges, triangles, seams, table)
}

// May this mesh be used? A mesh without seams needs no table. What stands in the lent list afterwards is of no account.
pub fn check_mesh(
    positions: &[i32],
    edges: &[u32],
    triangles: &[u32],
    seams: &[u32],
    table: &mut [u32],
) -> Result<(), Refusal>
    ensures { MeshAccepted (scene_of positions.now edges.now triangles.now seams.now) (length table.old) result }
{
    if table_short(positions, seams, table) {
        return Err(Refusal::ShortBuffer);
    }
    check_over(positions, edges, triangles, seams, table)
}
