// Two OBJ files for C and for Rust.

ghost use Rattle.meaning.specs.Scene.{scene_of};
ghost use Rattle.meaning.specs.Numbers.{Numbered};
ghost use Rattle.meaning.specs.ImportNumbers.{import_number, ImportInto};

use c_numbers::{import_number, put_counts};
use stored_reading::import_scene;

// Brings two OBJ files in as one scene with its boxes, into the lent buffers, and its four counts into the lent array.
#[unsafe(no_mangle)]
pub extern "C" fn makhnodri_import_scene_slices(
    start: &[u8],
    end: &[u8],
    positions: &mut [i32],
    edges: &mut [u16],
    triangles: &mut [u16],
    seams: &mut [u16],
    boxes: &mut [i32],
    counts: &mut [usize; 4],
) -> u64
    ensures { Numbered import_number
        (ImportInto start.now end.now (scene_of positions.old edges.old triangles.old seams.old)
        (scene_of positions.new edges.new triangles.new seams.new) boxes.old boxes.new counts.old counts.new)
        result }
{
    let answer = import_scene(start, end, positions, edges, triangles, seams, boxes);
    put_counts(counts, answer);
    import_number(answer)
}
