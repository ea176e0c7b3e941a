// A series for C and for Rust.

ghost use Rattle.meaning.specs.Scene.{scene_of};
ghost use Rattle.meaning.specs.SeriesNumbers.{SeriesInto};

use c_series::LOG_NUMBERS;

// Tells a series: the last step in the lent buffers with its boxes and its list; its four counts, the rows of its log and the eight numbers told of
// it in lent arrays. The answer is how many pairs the last step lists, or the refusal with its line or the count needed, which changes nothing.
#[unsafe(no_mangle)]
pub extern "C" fn makhnodri_tell_series_slices(
    text: &[u8],
    positions: &mut [i32],
    edges: &mut [u16],
    triangles: &mut [u16],
    seams: &mut [u16],
    boxes: &mut [i32],
    list: &mut [u32],
    counts: &mut [usize; 4],
    log: &mut [u32; LOG_NUMBERS],
    told: &mut [u64; 8],
) -> u64
    ensures { SeriesInto text.now (scene_of positions.old edges.old triangles.old seams.old)
        (scene_of positions.new edges.new triangles.new seams.new) boxes.old boxes.new list.old list.new
        counts.old counts.new log.old log.new told.old told.new result }
{
    c_series::tell_series(
        text, positions, edges, triangles, seams, boxes, list, counts, log, told,
    )
}
