// What two OBJ files print, as bytes: the report of their scene, or its text; or the one line of a refusal, with its file where it has one.

#![tactic(auto)]

ghost use Rattle.std.specs.Prelude.{ℕ, ◌<◌, List, ◌≡◌, length};
ghost use Rattle.meaning.specs.Limits.{text_limit};
ghost use Rattle.meaning.specs.Report.{OfAllRead};
ghost use Rattle.meaning.specs.Scene.{scene_of, Accepted};
ghost use Rattle.meaning.specs.SceneLines.{SceneReport};
ghost use Rattle.meaning.specs.ObjPrinted.{SceneText, PairPrinted};
ghost use Rattle.pair_report.specs.Sizes.{report_length};
ghost use Rattle.obj_report.specs.Asking.{shown_for, Shown};

use answers::number_of;
use meaning::{
    EDGE_NUMBERS, ImportRefusal, POSITION_NUMBERS, READ_BYTES, REPORT_BYTES, SEAM_NUMBERS,
    TRIANGLE_NUMBERS,
};
use obj_scene::import_plain;
use report_words::file_lines::file_line;
use report_words::lines::refused_line;

// What is asked for of the scene.
#[derive(Clone, Copy, Debug, PartialEq, Eq)]
enum Asked {
    Report,
    Text,
}

// The text of a scene that is accepted, or 8. The buffer is longer than a text may be, so that there is always room.
fn text_shown(
    positions: &[i32],
    edges: &[u16],
    triangles: &[u16],
    seams: &[u16],
    out: &mut [u8],
) -> usize
    requires { Accepted (scene_of positions.now edges.now triangles.now seams.now) × (length out.old ≡ report_length) }
    ensures { Shown (SceneText (scene_of positions.now edges.now triangles.now seams.now)) out.old out.new result }
{
    match saved_scene::save_scene(positions, edges, triangles, seams, out) {
        Ok(count) => count,
        Err(_) => refused_line(out, 0, 8, 0),
    }
}

fn scene_shown(
    asked: Asked,
    positions: &[i32],
    edges: &[u16],
    triangles: &[u16],
    seams: &[u16],
    out: &mut [u8],
) -> usize
    requires { Accepted (scene_of positions.now edges.now triangles.now seams.now) × (length out.old ≡ report_length) }
    ensures { Shown (shown_for asked (scene_of positions.now edges.now triangles.now seams.now)) out.old out.new result }
{
    match asked {
        Asked::Report => scene_report::scene_report(positions, edges, triangles, seams, out),
        Asked::Text => text_shown(positions, edges, triangles, seams, out),
    }
}

fn pair_shown(asked: Asked, start: &[u8], end: &[u8], out: &mut [u8; REPORT_BYTES]) -> usize
    ensures { PairPrinted (shown_for asked) start.now end.now out.old out.new result }
{
    let mut positions = [0i32; POSITION_NUMBERS];
    let mut edges = [0u16; EDGE_NUMBERS];
    let mut triangles = [0u16; TRIANGLE_NUMBERS];
    let mut seams = [0u16; SEAM_NUMBERS];
    match import_plain(
        start,
        end,
        &mut positions,
        &mut edges,
        &mut triangles,
        &mut seams,
    ) {
        Ok(counts) => {
            let p = 6 * counts.vertices;
            let e = 2 * counts.edges;
            let t = 3 * counts.triangles;
            let w = 2 * counts.seams;
            scene_shown(
                asked,
                &positions[..p],
                &edges[..e],
                &triangles[..t],
                &seams[..w],
                out,
            )
        }
        Err(ImportRefusal::Of(why)) => refused_line(out, 0, number_of(why), 0),
        Err(ImportRefusal::In(file, refused)) => {
            file_line(out, 0, file, number_of(refused.why), refused.carries as u64)
        }
    }
}

// The report of the scene of two files, in front of the lent array; its length is returned.
pub fn write_obj_report(start: &[u8], end: &[u8], out: &mut [u8; REPORT_BYTES]) -> usize
    ensures { PairPrinted SceneReport start.now end.now out.old out.new result }
{
    pair_shown(Asked::Report, start, end, out)
}

// The text of the scene of two files, likewise.
pub fn write_import_text(start: &[u8], end: &[u8], out: &mut [u8; REPORT_BYTES]) -> usize
    ensures { PairPrinted SceneText start.now end.now out.old out.new result }
{
    pair_shown(Asked::Text, start, end, out)
}

// What is printed of what was read of two files into buffers that are longer than a file may be. Where it fills its buffer, a file is too long
// however it goes on; else it is the file.
fn front_shown(
    asked: Asked,
    start: &[u8],
    count: usize,
    end: &[u8],
    behind: usize,
    out: &mut [u8; REPORT_BYTES],
) -> usize
    requires { (text_limit < length start.now) × (text_limit < length end.now) }
    ensures { OfAllRead (λ (s : List ℕ). OfAllRead (λ (t : List ℕ). PairPrinted (shown_for asked) s t out.old
        out.new result) end.now behind) start.now count }
{
    let first = count.min(start.len());
    let second = behind.min(end.len());
    pair_shown(asked, &start[..first], &end[..second], out)
}

// The report of what a program read of two files: the first `count` bytes of the start's buffer, and the first `behind` of the end's.
pub fn obj_report_read(
    start: &[u8; READ_BYTES],
    count: usize,
    end: &[u8; READ_BYTES],
    behind: usize,
    out: &mut [u8; REPORT_BYTES],
) -> usize
    ensures { OfAllRead (λ (s : List ℕ). OfAllRead (λ (t : List ℕ). PairPrinted SceneReport s t out.old
        out.new result) end.now behind) start.now count }
{
    front_shown(Asked::Report, start, count, end, behind, out)
}

// The text of the scene, likewise.
pub fn import_text_read(
    start: &[u8; READ_BYTES],
    count: usize,
    end: &[u8; READ_BYTES],
    behind: usize,
    out: &mut [u8; REPORT_BYTES],
) -> usize
    ensures { OfAllRead (λ (s : List ℕ). OfAllRead (λ (t : List ℕ). PairPrinted SceneText s t out.old
        out.new result) end.now behind) start.now count }
{
    front_shown(Asked::Text, start, count, end, behind, out)
}
