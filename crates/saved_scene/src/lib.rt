// A scene written as text into a lent buffer: what the reader of scene texts reads back.

#![tactic(auto)]

mod rows; // rows.rt: the lines of each list
mod lengths; // lengths.rt: how long they are

ghost use Rattle.std.specs.Prelude.{◌≤◌, length};
ghost use Rattle.meaning.specs.Scene.{scene_of, Accepted};
ghost use Rattle.sequences.specs.Wrote.{Wrote};
ghost use Rattle.meaning.specs.Saved.{saved_text, Measured, Saved};

use lengths::text_length;
use meaning::{Refusal, Refused, TEXT_LIMIT};
use rows::{put_pairs, put_triangles, put_vertices};

// The text of an accepted scene, in front of a buffer that has room for it.
fn write_text(
    text: &mut [u8],
    positions: &[i32],
    edges: &[u16],
    triangles: &[u16],
    seams: &[u16],
) -> usize
    requires accepted { Accepted (scene_of positions.now edges.now triangles.now seams.now) }
    requires seams_in_bounds { length (saved_text (scene_of positions.now edges.now triangles.now seams.now)) ≤ length text.old }
    ensures { Wrote text.old 0 (saved_text (scene_of positions.now edges.now triangles.now seams.now)) text.new result }
{
    let mut next = put_vertices(text, 0, positions);
    next = put_pairs(text, next, b'e', edges);
    next = put_triangles(text, next, triangles);
    put_pairs(text, next, b'w', seams)
}

// How many bytes the text of a scene has: the scene's own refusals, then 8.
pub fn saved_length(
    positions: &[i32],
    edges: &[u16],
    triangles: &[u16],
    seams: &[u16],
) -> Result<usize, Refused>
    ensures { Measured (scene_of positions.now edges.now triangles.now seams.now) result }
{
    scene_checks::check_scene(positions, edges, triangles, seams)?;
    let length = text_length(positions, edges, triangles, seams);
    if TEXT_LIMIT < length {
        return Err(Refused::from(Refusal::LongText));
    }
    Ok(length)
}

// The text, in front of a lent buffer: what the length is refused for, then 7.
pub fn save_scene(
    positions: &[i32],
    edges: &[u16],
    triangles: &[u16],
    seams: &[u16],
    text: &mut [u8],
) -> Result<usize, Refused>
    ensures { Saved (scene_of positions.now edges.now triangles.now seams.now) text.old text.new result }
{
    let length = saved_length(positions, edges, triangles, seams)?;
    if text.len() < length {
        return Err(Refused {
            why: Refusal::NoRoom,
            carries: length,
        });
    }
    write_text(text, positions, edges, triangles, seams);
    Ok(length)
}
