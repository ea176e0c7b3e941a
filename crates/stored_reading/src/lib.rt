// A scene brought in with its boxes, in one call: from a text, and from two OBJ files.

#![tactic(auto)]

pub mod front; // front.rt: the boxes of a scene that stands in front of larger buffers

ghost use Rattle.meaning.specs.Scene.{scene_of};
ghost use Rattle.meaning.specs.StoredBoxes.{BoxedRead};
ghost use Rattle.meaning.specs.ObjBoxes.{BoxedImport};

use front::fill_front;
use meaning::{BOX_NUMBERS, ImportRefusal, Refusal, Refused, SceneCounts};
use obj_scene::import_plain;
use text_scene::read_scene;

// Reads a scene text into the lent buffers, and fills in the boxes of its scene. 12 is for all five; a refusal changes none of them.
pub fn read_boxed(
    text: &[u8],
    positions: &mut [i32],
    edges: &mut [u16],
    triangles: &mut [u16],
    seams: &mut [u16],
    boxes: &mut [i32],
) -> Result<SceneCounts, Refused>
    ensures { BoxedRead text.now (scene_of positions.old edges.old triangles.old seams.old)
        (scene_of positions.new edges.new triangles.new seams.new) boxes.old boxes.new result }
{
    if boxes.len() < BOX_NUMBERS {
        return Err(Refused::from(Refusal::ShortBuffer));
    }
    let counts = read_scene(text, positions, edges, triangles, seams)?;
    fill_front(counts, positions, edges, triangles, boxes);
    Ok(counts)
}

// Brings two OBJ files in as one scene, into the lent buffers, with its boxes. The answer is the counts of the scene that then stands in front of
// them, or the refusal; a refusal changes none of the five. The scene has no seams.
pub fn import_scene(
    start: &[u8],
    end: &[u8],
    positions: &mut [i32],
    edges: &mut [u16],
    triangles: &mut [u16],
    seams: &mut [u16],
    boxes: &mut [i32],
) -> Result<SceneCounts, ImportRefusal>
    ensures { BoxedImport start.now end.now (scene_of positions.old edges.old triangles.old seams.old)
        (scene_of positions.new edges.new triangles.new seams.new) boxes.old boxes.new result }
{
    if boxes.len() < BOX_NUMBERS {
        return Err(ImportRefusal::Of(Refusal::ShortBuffer));
    }
    let counts = import_plain(start, end, positions, edges, triangles, seams)?;
    fill_front(counts, positions, edges, triangles, boxes);
    Ok(counts)
}
