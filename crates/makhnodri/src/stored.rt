// A scene that keeps its boxes, for C and for Rust: filled in, read with a text, a vertex moved, the list made from them.

ghost use Rattle.meaning.specs.Scene.{scene_of};
ghost use Rattle.meaning.specs.Runs.{Tested};
ghost use Rattle.meaning.specs.StoredBoxes.{BoxesFilled, CountedStored, ListedStored, SettledStored};
ghost use Rattle.meaning.specs.Dragging.{VertexMoved};
ghost use Rattle.meaning.specs.Numbers.{scene_number, list_number, text_number, Numbered};
ghost use Rattle.meaning.specs.Numbers.{BoxedInto};

use super::put_counts;
use c_numbers::{count_number, refused, scene_number};
use meaning::Refused;

// The boxes of a scene, in front of a lent buffer.
#[unsafe(no_mangle)]
pub extern "C" fn makhnodri_fill_boxes_slices(
    positions: &[i32],
    edges: &[u16],
    triangles: &[u16],
    seams: &[u16],
    boxes: &mut [i32],
) -> u64
    ensures { Numbered scene_number
        (BoxesFilled (scene_of positions.now edges.now triangles.now seams.now) boxes.old boxes.new) result }
{
    scene_number(stored_move::fill_boxes(positions, edges, triangles, seams, boxes))
}

// A vertex moved: its six coordinates, start and end, and the boxes of the parts that have it.
#[unsafe(no_mangle)]
pub extern "C" fn makhnodri_move_vertex_slices(
    positions: &mut [i32],
    edges: &[u16],
    triangles: &[u16],
    seams: &[u16],
    boxes: &mut [i32],
    vertex: usize,
    coordinates: &[i32; 6],
) -> u64
    ensures { Numbered scene_number
        (VertexMoved (scene_of positions.old edges.now triangles.now seams.now) vertex coordinates.now positions.new
        boxes.old boxes.new) result }
{
    scene_number(stored_move::move_vertex(
        positions,
        edges,
        triangles,
        seams,
        boxes,
        vertex,
        coordinates,
    ))
}

// How many pairs are listed, from the stored boxes, and into the lent number how many boxes of the pt part are tested for that.
#[unsafe(no_mangle)]
pub extern "C" fn makhnodri_count_stored_slices(
    positions: &[i32],
    edges: &[u16],
    triangles: &[u16],
    seams: &[u16],
    boxes: &[i32],
    tests: &mut [usize; 1],
) -> u64
    ensures { Numbered list_number (Tested (scene_of positions.now edges.now triangles.now seams.now)
        (CountedStored (scene_of positions.now edges.now triangles.now seams.now) boxes.now) tests.old tests.new)
        result }
{
    count_number(stored_list::count_stored(positions, edges, triangles, seams, boxes, tests))
}

// The list made from the stored boxes, in front of a lent buffer, and its box tests.
#[unsafe(no_mangle)]
pub extern "C" fn makhnodri_list_stored_slices(
    positions: &[i32],
    edges: &[u16],
    triangles: &[u16],
    seams: &[u16],
    boxes: &[i32],
    list: &mut [u32],
    tests: &mut [usize; 1],
) -> u64
    ensures { Numbered list_number (Tested (scene_of positions.now edges.now triangles.now seams.now)
        (ListedStored (scene_of positions.now edges.now triangles.now seams.now) boxes.now list.old list.new)
        tests.old tests.new) result }
{
    count_number(stored_list::list_stored(positions, edges, triangles, seams, boxes, list, tests))
}

// The list, and the word of each listed pair as a byte: hit, miss, touch or apart.
#[unsafe(no_mangle)]
pub extern "C" fn makhnodri_settle_stored_slices(
    positions: &[i32],
    edges: &[u16],
    triangles: &[u16],
    seams: &[u16],
    boxes: &[i32],
    list: &mut [u32],
    words: &mut [u8],
) -> u64
    ensures { Numbered list_number (SettledStored (scene_of positions.now edges.now triangles.now seams.now) boxes.now
        list.old list.new words.old words.new) result }
{
    count_number(stored_list::settle_stored(positions, edges, triangles, seams, boxes, list, words))
}

// Reads a scene text into the lent buffers, with the boxes of its scene, and its four counts into the lent array.
#[unsafe(no_mangle)]
pub extern "C" fn makhnodri_read_boxed_slices(
    text: &[u8],
    positions: &mut [i32],
    edges: &mut [u16],
    triangles: &mut [u16],
    seams: &mut [u16],
    boxes: &mut [i32],
    counts: &mut [usize; 4],
) -> u64
    ensures { Numbered text_number (BoxedInto text.now (scene_of positions.old edges.old triangles.old seams.old)
        (scene_of positions.new edges.new triangles.new seams.new) boxes.old boxes.new counts.old counts.new)
        result }
{
    match stored_reading::read_boxed(text, positions, edges, triangles, seams, boxes) {
        Ok(c) => {
            put_counts(counts, c);
            0
        }
        Err(Refused { why, carries }) => refused(why, carries),
    }
}
