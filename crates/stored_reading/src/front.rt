// The boxes of a scene that stands in front of larger buffers, as after reading or an import.

ghost use Rattle.std.specs.Prelude.{◌≤◌, List, [], ℕ, length};
ghost use Rattle.meaning.specs.StoredBoxes.{box_numbers, Filled};
ghost use Rattle.list_boxes.specs.Parts.{Drawn};
ghost use Rattle.stored_reading.specs.Front.{front_with, InFront};

use list_boxes::filling::fill;
use meaning::SceneCounts;

// As much of the buffers as the counts say is the scene. A box looks at no seam, so its boxes are those of that scene with any seams.
pub fn fill_front(
    c: SceneCounts,
    positions: &[i32],
    edges: &[u16],
    triangles: &[u16],
    boxes: &mut [i32],
)
    requires in_front { InFront c positions.now edges.now triangles.now }
    requires drawn { Drawn (front_with c positions.now edges.now triangles.now [])
        × (box_numbers ≤ length boxes.old) }
    ensures { (w : List ℕ) → Filled (front_with c positions.now edges.now triangles.now w)
        boxes.old boxes.new }
{
    let p = 6 * c.vertices;
    let e = 2 * c.edges;
    let t = 3 * c.triangles;
    fill(&positions[..p], &edges[..e], &triangles[..t], boxes);
}
