// Two OBJ files are brought in as one scene: each is read into a draft of the reader's own, the two are compared, and only then do the lent buffers
// change.

#![tactic(auto)]

ghost use Rattle.meaning.specs.Scene.{scene_of};
ghost use Rattle.meaning.specs.ObjPair.{Imported};
ghost use Rattle.obj_scene.specs.Ending.{Lent, OnStart, EndImported};

mod copying; // copying.rt: from two drafts to the lent buffers

use copying::copy_pair;
use meaning::{
    EDGE_NUMBERS, ImportRefusal, POSITION_NUMBERS, Refusal, Refused, SEAM_NUMBERS, SceneCounts,
    TEXT_LIMIT, TRIANGLE_NUMBERS, WhichFile,
};
use obj_draft::draft_file;
use obj_edges::TABLED;

// The end file, beside a draft of the start file.
fn import_end(
    c: SceneCounts,
    p: &[i32],
    e: &[u16],
    t: &[u16],
    end: &[u8],
    positions: &mut [i32],
    edges: &mut [u16],
    triangles: &mut [u16],
) -> Result<SceneCounts, ImportRefusal>
    requires on_start { OnStart c p.now e.now t.now }
    requires lent { Lent positions.old edges.old triangles.old }
    ensures { EndImported c p.now e.now t.now end.now positions.old
        edges.old triangles.old positions.new edges.new triangles.new result }
{
    let mut q = [0i32; POSITION_NUMBERS];
    let mut f = [0u16; TABLED];
    let mut u = [0u16; TRIANGLE_NUMBERS];
    let d = draft_file(end, &mut q, &mut f, &mut u).map_err(|refused| ImportRefusal::In(
        WhichFile::End,
        refused,
    ))?;
    let corners = 3 * c.triangles;
    let others = 3 * d.triangles;
    let same = t[..corners] == u[..others];
    if (c.vertices != d.vertices) | !same {
        return Err(ImportRefusal::Of(Refusal::FilesDiffer));
    }
    copy_pair(c, p, &q, e, t, positions, edges, triangles);
    Ok(c)
}

// Brings two OBJ files in as one scene, into the lent buffers. The answer is the counts of the scene that then stands in front of them, or the
// refusal; a refusal changes none of them. The scene has no seams.
pub fn import_plain(
    start: &[u8],
    end: &[u8],
    positions: &mut [i32],
    edges: &mut [u16],
    triangles: &mut [u16],
    seams: &mut [u16],
) -> Result<SceneCounts, ImportRefusal>
    ensures { Imported start.now end.now (scene_of positions.old edges.old triangles.old seams.old)
        (scene_of positions.new edges.new triangles.new seams.new) result }
{
    let few = (positions.len() < POSITION_NUMBERS) | (edges.len() < EDGE_NUMBERS);
    if few | (triangles.len() < TRIANGLE_NUMBERS) | (seams.len() < SEAM_NUMBERS) {
        return Err(ImportRefusal::Of(Refusal::ShortBuffer));
    }
    if TEXT_LIMIT < start.len() {
        return Err(ImportRefusal::In(WhichFile::Start, Refused::from(Refusal::LongText)));
    }
    if TEXT_LIMIT < end.len() {
        return Err(ImportRefusal::In(WhichFile::End, Refused::from(Refusal::LongText)));
    }
    let mut p = [0i32; POSITION_NUMBERS];
    let mut e = [0u16; TABLED];
    let mut t = [0u16; TRIANGLE_NUMBERS];
    let c = draft_file(start, &mut p, &mut e, &mut t).map_err(|refused| ImportRefusal::In(
        WhichFile::Start,
        refused,
    ))?;
    import_end(c, &p, &e, &t, end, positions, edges, triangles)
}
