// The report as bytes: a line for each listed pair, then the totals; or the one line of a refusal.

#![tactic(auto)]

ghost use Rattle.scene_seams.specs.Alone.{tabled};
ghost use Rattle.std.specs.Prelude.{◌<◌, ◌≡◌, length};
ghost use Rattle.meaning.specs.Scene.{scene_of, Accepted};
ghost use Rattle.meaning.specs.Limits.{text_limit};
ghost use Rattle.meaning.specs.Report.{Reported, ReportedRead};
ghost use Rattle.pair_report.specs.Sizes.{report_length};
ghost use Rattle.scene_report.specs.Whole.{SceneReported};

use answers::number_of;
use meaning::{
    EDGE_NUMBERS, POSITION_NUMBERS, READ_BYTES, REPORT_BYTES, REPORT_ROOM, SEAM_NUMBERS,
    TEXT_LIMIT, TRIANGLE_NUMBERS, VERTEX_LIMIT,
};
use pair_report::pairs_report;
use report_words::lines::refused_line;
use scene_seams::sew_all;

// The report of a scene that is accepted, its seams in the table: 7 is found before anything is written.
fn tabled_report(
    positions: &[i32],
    edges: &[u16],
    triangles: &[u16],
    stands: &[u16],
    out: &mut [u8],
) -> usize
    requires { Accepted (tabled positions.now edges.now triangles.now stands.now) × (length out.old ≡ report_length) }
    ensures { SceneReported (tabled positions.now edges.now triangles.now stands.now) out.old out.new result }
{
    let mut list = [0u32; REPORT_ROOM];
    let mut verdicts = [0u8; REPORT_ROOM];
    match list_words::settle_accepted(
        positions,
        edges,
        triangles,
        stands,
        &mut list,
        &mut verdicts,
    ) {
        Ok(count) => pairs_report(&list, &verdicts, count, out),
        Err(refused) => refused_line(out, 0, 7, refused.carries as u64),
    }
}

// The report of a scene that is accepted.
pub fn scene_report(
    positions: &[i32],
    edges: &[u16],
    triangles: &[u16],
    seams: &[u16],
    out: &mut [u8],
) -> usize
    requires { Accepted (scene_of positions.now edges.now triangles.now seams.now) × (length out.old ≡ report_length) }
    ensures { SceneReported (scene_of positions.now edges.now triangles.now seams.now) out.old out.new result }
{
    let mut stands = [0u16; VERTEX_LIMIT];
    sew_all(positions, seams, &mut stands);
    tabled_report(positions, edges, triangles, &stands, out)
}

// The whole report of a text.
pub fn write_report(text: &[u8], out: &mut [u8; REPORT_BYTES]) -> usize
    ensures { Reported text.now out.old out.new result }
{
    let mut positions = [0i32; POSITION_NUMBERS];
    let mut edges = [0u16; EDGE_NUMBERS];
    let mut triangles = [0u16; TRIANGLE_NUMBERS];
    let mut seams = [0u16; SEAM_NUMBERS];
    match text_scene::read_scene(text, &mut positions, &mut edges, &mut triangles, &mut seams) {
        Ok(counts) => {
            let p = 6 * counts.vertices;
            let e = 2 * counts.edges;
            let t = 3 * counts.triangles;
            let w = 2 * counts.seams;
            scene_report(
                &positions[..p],
                &edges[..e],
                &triangles[..t],
                &seams[..w],
                out,
            )
        }
        Err(refused) => refused_line(out, 0, number_of(refused.why), refused.carries as u64),
    }
}

// The report of what was read of a text into a buffer that is longer than a text may be. Where it fills the buffer, the text is too long
// however it goes on; else it is the text.
fn front_report(read: &[u8], count: usize, out: &mut [u8; REPORT_BYTES]) -> usize
    requires { text_limit < length read.now }
    ensures { ReportedRead read.now count out.old out.new result }
{
    if count < read.len() {
        return write_report(&read[..count], out);
    }
    refused_line(out, 0, 8, 0)
}

// The report of what a program read: the first `count` bytes of its buffer.
pub fn report_read(read: &[u8; READ_BYTES], count: usize, out: &mut [u8; REPORT_BYTES]) -> usize
    ensures { ReportedRead read.now count out.old out.new result }
{
    front_report(read, count, out)
}
