// What is asked before a list is made from stored boxes: 12, the scene's own checks, and 17, the look over them.

#![tactic(auto)]

ghost use Rattle.std.specs.Prelude.{ℕ, ◌≤◌, List, length};
ghost use Rattle.meaning.specs.Scene.{unsewn_of, scene_of};
ghost use Rattle.meaning.specs.StoredBoxes.{box_numbers, stale_checks};
ghost use Rattle.answers_order.specs.InOrder.{Checked};
ghost use Rattle.scene_seams.specs.Sewing.{Blank};
ghost use Rattle.list_boxes.specs.Parts.{Drawn};
ghost use Rattle.stored_checks.specs.Looked.{LookedAt};

use answers_order::refused_if;
use meaning::{BOX_NUMBERS, Refusal};
use scene_checks::check_into;
use stored_look::stale_box;

// 17. A box looks at no seam, so this is told of the scene with any seams.
fn look_over(
    positions: &[i32],
    edges: &[u16],
    triangles: &[u16],
    stored: &[i32],
) -> Result<(), Refusal>
    requires { Drawn (unsewn_of positions.now edges.now triangles.now) × (box_numbers ≤ length stored.now) }
    ensures { (w : List ℕ) → Checked (stale_checks (scene_of positions.now edges.now
        triangles.now w) stored.now) result }
{
    let stale = stale_box(positions, edges, triangles, stored);
    refused_if(stale, Refusal::StaleBox)
}

// 12, the scene's own checks and 17, in this order; the table of seams is made on the way.
pub fn look(
    positions: &[i32],
    edges: &[u16],
    triangles: &[u16],
    seams: &[u16],
    stored: &[i32],
    stands: &mut [u16],
) -> Result<(), Refusal>
    requires { Blank seams.now stands.old }
    ensures { LookedAt (scene_of positions.now edges.now triangles.now seams.now) stored.now stands.old
        stands.new result }
{
    if stored.len() < BOX_NUMBERS {
        return Err(Refusal::ShortBuffer);
    }
    check_into(positions, edges, triangles, seams, stands)?;
    look_over(positions, edges, triangles, stored)
}
