// The contacts of a scene as bytes: a line for each listed pair that is hit, then the totals; or the one line of a refusal.

#![tactic(auto)]

ghost use Rattle.std.specs.Prelude.{◌<◌, ◌≡◌, length};
ghost use Rattle.meaning.specs.Limits.{text_limit};
ghost use Rattle.meaning.specs.Scene.{scene_of, Accepted};
ghost use Rattle.meaning.specs.ContactLines.{ContactsReported, ContactsRead};
ghost use Rattle.hit_report.specs.Sizes.{contacts_length};
ghost use Rattle.hit_report.specs.Told.{SceneTold};

use answers::number_of;
use hit_report::near_contacts;
use meaning::{
    CONTACTS_BYTES, EDGE_NUMBERS, POSITION_NUMBERS, READ_BYTES, SEAM_NUMBERS, TRIANGLE_NUMBERS,
    VERTEX_LIMIT,
};
use report_words::lines::refused_line;
use scene_seams::sew_all;

// The contacts of a scene that is accepted: 16 before 7.
fn scene_lines(
    positions: &[i32],
    edges: &[u16],
    triangles: &[u16],
    seams: &[u16],
    out: &mut [u8],
) -> usize
    requires { Accepted (scene_of positions.now edges.now triangles.now seams.now) × (length out.old ≡ contacts_length) }
    ensures { SceneTold (scene_of positions.now edges.now triangles.now seams.now) out.old out.new result }
{
    if contact_pair::beyond_old_range(positions) {
        return refused_line(out, 0, 16, 0);
    }
    let mut stands = [0u16; VERTEX_LIMIT];
    sew_all(positions, seams, &mut stands);
    near_contacts(positions, edges, triangles, &stands, out)
}

// The contacts of a text.
pub fn write_contacts(text: &[u8], out: &mut [u8; CONTACTS_BYTES]) -> usize
    ensures { ContactsReported text.now out.old out.new result }
{
    let mut positions = [0i32; POSITION_NUMBERS];
    let mut edges = [0u16; EDGE_NUMBERS];
    let mut triangles = [0u16; TRIANGLE_NUMBERS];
    let mut seams = [0u16; SEAM_NUMBERS];
    match text_scene::read_scene(text, &mut positions, &mut edges, &mut triangles, &mut seams) {
        Ok(counts) => {
            let p = 6 * counts.vertices;
            let e = 2 * counts.edges;
            let t = 3 * counts.triangles;
            let w = 2 * counts.seams;
            scene_lines(
                &positions[..p],
                &edges[..e],
                &triangles[..t],
                &seams[..w],
                out,
            )
        }
        Err(refused) => refused_line(out, 0, number_of(refused.why), refused.carries as u64),
    }
}

// The contacts of what was read of a text into a buffer that is longer than a text may be. Where it fills the buffer, the text is too long
// however it goes on; else it is the text.
fn front_contacts(read: &[u8], count: usize, out: &mut [u8; CONTACTS_BYTES]) -> usize
    requires { text_limit < length read.now }
    ensures { ContactsRead read.now count out.old out.new result }
{
    if count < read.len() {
        return write_contacts(&read[..count], out);
    }
    refused_line(out, 0, 8, 0)
}

// The contacts of what a program read: the first `count` bytes of its buffer.
pub fn contacts_read(read: &[u8; READ_BYTES], count: usize, out: &mut [u8; CONTACTS_BYTES]) -> usize
    ensures { ContactsRead read.now count out.old out.new result }
{
    front_contacts(read, count, out)
}
