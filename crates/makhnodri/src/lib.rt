// The library for C and for Rust: numbers and slices only, thin over the crates that do the work. include/makhnodri.h tells the same in C.

#![tactic(auto)]

pub mod own; // own.rt: a list of one's own
pub mod stored; // stored.rt: a scene that keeps its boxes
pub mod importing; // importing.rt: two OBJ files
pub mod series; // series.rt: a series
pub mod pierced; // pierced.rt: an edge through a triangle already
pub mod meshes; // meshes.rt: meshes of any size

ghost use Rattle.meaning.specs.Scene.{unsewn_of, scene_of};
ghost use Rattle.std.specs.Prelude.{[], ◌∷◌, ◌≡◌};
ghost use Rattle.meaning.specs.Refusals.{SceneChecked, PairJudged, PieceJudged};
ghost use Rattle.meaning.specs.Backwards.{Turning};
ghost use Rattle.meaning.specs.Resting.{PairDecided, PieceDecided};
ghost use Rattle.meaning.specs.List.{Counted, Listing};
ghost use Rattle.meaning.specs.Runs.{Tested};
ghost use Rattle.meaning.specs.SceneWords.{SettledScene};
ghost use Rattle.meaning.specs.declared.Kind.TheVariants.{PointTriangle, EdgeEdge};
ghost use Rattle.meaning.specs.Report.{Reported};
ghost use Rattle.meaning.specs.Claims.{ClaimsChecked};
ghost use Rattle.meaning.specs.WholeContacts.{row_left, ContactsListed};
ghost use Rattle.meaning.specs.Saved.{Measured, Saved};
ghost use Rattle.meaning.specs.Numbers.{scene_number, pair_number, settled_number, contact_number, list_number, text_number, claims_number, saved_number, ContactInto, ReadInto, Numbered};
ghost use Rattle.contact_entries.specs.Rows.{SmallContact};

use c_numbers::{count_number, pair_number, refused, scene_number, settled_number, word_number};
use meaning::{Kind, REPORT_BYTES, ROW_NUMBERS, Refused, SceneCounts, WholeContact};

pub(crate) fn put_counts(counts: &mut [usize; 4], c: SceneCounts)
    ensures { counts.new ≡ c.vertices ∷ c.edges ∷ c.triangles ∷ c.seams ∷ [] }
{
    *counts = [c.vertices, c.edges, c.triangles, c.seams];
}

// ---- a scene

// May this scene be used?
#[unsafe(no_mangle)]
pub extern "C" fn makhnodri_check_scene_slices(
    positions: &[i32],
    edges: &[u16],
    triangles: &[u16],
    seams: &[u16],
) -> u64
    ensures { Numbered scene_number (SceneChecked (scene_of positions.now edges.now triangles.now seams.now)) result }
{
    scene_number(scene_checks::check_scene(positions, edges, triangles, seams))
}

// The scene turned round where it stands: start and end swapped, vertices numbered from last to first.
#[unsafe(no_mangle)]
pub extern "C" fn makhnodri_turn_scene(
    positions: &mut [i32],
    edges: &mut [u16],
    triangles: &mut [u16],
) -> u64
    ensures { Numbered scene_number
        (Turning (unsewn_of positions.old edges.old triangles.old) (unsewn_of positions.new edges.new triangles.new)) result }
{
    scene_number(turning::turn_scene(positions, edges, triangles))
}

// How many pairs are listed, and into the lent number how many boxes of the pt part are tested for that.
#[unsafe(no_mangle)]
pub extern "C" fn makhnodri_count_pairs_slices(
    positions: &[i32],
    edges: &[u16],
    triangles: &[u16],
    seams: &[u16],
    tests: &mut [usize; 1],
) -> u64
    ensures { Numbered list_number (Tested (scene_of positions.now edges.now triangles.now seams.now)
        (Counted (scene_of positions.now edges.now triangles.now seams.now)) tests.old tests.new) result }
{
    count_number(list_pairs::count_pairs(positions, edges, triangles, seams, tests))
}

// The list, in front of a lent buffer, and its box tests.
#[unsafe(no_mangle)]
pub extern "C" fn makhnodri_list_pairs_slices(
    positions: &[i32],
    edges: &[u16],
    triangles: &[u16],
    seams: &[u16],
    list: &mut [u32],
    tests: &mut [usize; 1],
) -> u64
    ensures { Numbered list_number (Tested (scene_of positions.now edges.now triangles.now seams.now)
        (Listing (scene_of positions.now edges.now triangles.now seams.now) list.old list.new) tests.old
        tests.new) result }
{
    count_number(list_pairs::list_pairs(positions, edges, triangles, seams, list, tests))
}

// The list, and the word of each listed pair as a byte: hit, miss, touch or apart.
#[unsafe(no_mangle)]
pub extern "C" fn makhnodri_settle_scene_slices(
    positions: &[i32],
    edges: &[u16],
    triangles: &[u16],
    seams: &[u16],
    list: &mut [u32],
    words: &mut [u8],
) -> u64
    ensures { Numbered list_number (SettledScene (scene_of positions.now edges.now triangles.now seams.now) list.old
        list.new words.old words.new) result }
{
    count_number(list_words::settle_scene(positions, edges, triangles, seams, list, words))
}

// ---- the verdict of a pair and of a piece: hit, miss or degenerate. A kind has functions of its own, so that no bad kind can be asked for

// The verdict of a vertex and a triangle.
#[unsafe(no_mangle)]
pub extern "C" fn makhnodri_judge_pt_slices(
    positions: &[i32],
    edges: &[u16],
    triangles: &[u16],
    seams: &[u16],
    vertex: usize,
    triangle: usize,
) -> u64
    ensures { Numbered pair_number (PairJudged (scene_of positions.now edges.now triangles.now seams.now) PointTriangle
        vertex triangle) result }
{
    pair_number(three_words::judge_pair(
        positions,
        edges,
        triangles,
        seams,
        Kind::PointTriangle,
        vertex,
        triangle,
    ))
}

// The verdict of two edges.
#[unsafe(no_mangle)]
pub extern "C" fn makhnodri_judge_ee_slices(
    positions: &[i32],
    edges: &[u16],
    triangles: &[u16],
    seams: &[u16],
    first: usize,
    second: usize,
) -> u64
    ensures { Numbered pair_number (PairJudged (scene_of positions.now edges.now triangles.now seams.now) EdgeEdge first
        second) result }
{
    let kind = Kind::EdgeEdge;
    pair_number(three_words::judge_pair(positions, edges, triangles, seams, kind, first, second))
}

// The verdict of one of the three pieces of a vertex and a triangle.
#[unsafe(no_mangle)]
pub extern "C" fn makhnodri_judge_pt_piece_slices(
    positions: &[i32],
    edges: &[u16],
    triangles: &[u16],
    seams: &[u16],
    vertex: usize,
    triangle: usize,
    piece: usize,
) -> u64
    ensures { Numbered pair_number (PieceJudged (scene_of positions.now edges.now triangles.now seams.now) PointTriangle
        vertex triangle piece) result }
{
    pair_number(three_words::judge_piece(
        positions,
        edges,
        triangles,
        seams,
        Kind::PointTriangle,
        vertex,
        triangle,
        piece,
    ))
}

// The verdict of one of the four pieces of two edges.
#[unsafe(no_mangle)]
pub extern "C" fn makhnodri_judge_ee_piece_slices(
    positions: &[i32],
    edges: &[u16],
    triangles: &[u16],
    seams: &[u16],
    first: usize,
    second: usize,
    piece: usize,
) -> u64
    ensures { Numbered pair_number (PieceJudged (scene_of positions.now edges.now triangles.now seams.now) EdgeEdge first
        second piece) result }
{
    pair_number(three_words::judge_piece(
        positions,
        edges,
        triangles,
        seams,
        Kind::EdgeEdge,
        first,
        second,
        piece,
    ))
}

// ---- the same in the four words: a degenerate piece is decided too

// The word of a vertex and a triangle.
#[unsafe(no_mangle)]
pub extern "C" fn makhnodri_settle_pt_slices(
    positions: &[i32],
    edges: &[u16],
    triangles: &[u16],
    seams: &[u16],
    vertex: usize,
    triangle: usize,
) -> u64
    ensures { Numbered settled_number
        (PairDecided (scene_of positions.now edges.now triangles.now seams.now) PointTriangle vertex triangle) result }
{
    settled_number(four_words::settle_pair(
        positions,
        edges,
        triangles,
        seams,
        Kind::PointTriangle,
        vertex,
        triangle,
    ))
}

// The word of two edges.
#[unsafe(no_mangle)]
pub extern "C" fn makhnodri_settle_ee_slices(
    positions: &[i32],
    edges: &[u16],
    triangles: &[u16],
    seams: &[u16],
    first: usize,
    second: usize,
) -> u64
    ensures { Numbered settled_number
        (PairDecided (scene_of positions.now edges.now triangles.now seams.now) EdgeEdge first second) result }
{
    settled_number(four_words::settle_pair(
        positions,
        edges,
        triangles,
        seams,
        Kind::EdgeEdge,
        first,
        second,
    ))
}

// The word of one of the three pieces of a vertex and a triangle.
#[unsafe(no_mangle)]
pub extern "C" fn makhnodri_settle_pt_piece_slices(
    positions: &[i32],
    edges: &[u16],
    triangles: &[u16],
    seams: &[u16],
    vertex: usize,
    triangle: usize,
    piece: usize,
) -> u64
    ensures { Numbered settled_number
        (PieceDecided (scene_of positions.now edges.now triangles.now seams.now) PointTriangle vertex triangle piece) result }
{
    settled_number(four_words::settle_piece(
        positions,
        edges,
        triangles,
        seams,
        Kind::PointTriangle,
        vertex,
        triangle,
        piece,
    ))
}

// The word of one of the four pieces of two edges.
#[unsafe(no_mangle)]
pub extern "C" fn makhnodri_settle_ee_piece_slices(
    positions: &[i32],
    edges: &[u16],
    triangles: &[u16],
    seams: &[u16],
    first: usize,
    second: usize,
    piece: usize,
) -> u64
    ensures { Numbered settled_number
        (PieceDecided (scene_of positions.now edges.now triangles.now seams.now) EdgeEdge first second piece) result }
{
    settled_number(four_words::settle_piece(
        positions,
        edges,
        triangles,
        seams,
        Kind::EdgeEdge,
        first,
        second,
        piece,
    ))
}

// ---- when and where a pair is hit: its word as the answer, and the numbers of a hit in a lent array that nothing else changes

fn put_contact(contact: &mut [u32; ROW_NUMBERS], found: WholeContact)
    requires { SmallContact found }
    ensures { contact.new ≡ row_left found contact.old }
{
    if let WholeContact::Hit(m) = found {
        *contact = [m.piece as u32, m.k, m.first, m.second, m.third];
    }
}

fn contact_told(
    positions: &[i32],
    edges: &[u16],
    triangles: &[u16],
    seams: &[u16],
    kind: Kind,
    first: usize,
    second: usize,
    contact: &mut [u32; ROW_NUMBERS],
) -> u64
    ensures { Numbered contact_number
        (ContactInto (scene_of positions.now edges.now triangles.now seams.now) kind first second contact.old
        contact.new) result }
{
    match contact_pair::contact_pair(positions, edges, triangles, seams, kind, first, second) {
        Ok(found) => {
            put_contact(contact, found);
            word_number(found)
        }
        Err(why) => refused(why, 0),
    }
}

// The word of a vertex and a triangle and, where that is hit, when and where in five lent numbers; else these stay as they were.
#[unsafe(no_mangle)]
pub extern "C" fn makhnodri_contact_pt_slices(
    positions: &[i32],
    edges: &[u16],
    triangles: &[u16],
    seams: &[u16],
    vertex: usize,
    triangle: usize,
    contact: &mut [u32; ROW_NUMBERS],
) -> u64
    ensures { Numbered contact_number
        (ContactInto (scene_of positions.now edges.now triangles.now seams.now) PointTriangle vertex triangle contact.old
        contact.new) result }
{
    contact_told(
        positions,
        edges,
        triangles,
        seams,
        Kind::PointTriangle,
        vertex,
        triangle,
        contact,
    )
}

// The same of two edges.
#[unsafe(no_mangle)]
pub extern "C" fn makhnodri_contact_ee_slices(
    positions: &[i32],
    edges: &[u16],
    triangles: &[u16],
    seams: &[u16],
    first: usize,
    second: usize,
    contact: &mut [u32; ROW_NUMBERS],
) -> u64
    ensures { Numbered contact_number
        (ContactInto (scene_of positions.now edges.now triangles.now seams.now) EdgeEdge first second contact.old
        contact.new) result }
{
    contact_told(
        positions,
        edges,
        triangles,
        seams,
        Kind::EdgeEdge,
        first,
        second,
        contact,
    )
}

// The list, the word of each listed pair, and for each hit its five numbers in its row.
#[unsafe(no_mangle)]
pub extern "C" fn makhnodri_contact_scene_slices(
    positions: &[i32],
    edges: &[u16],
    triangles: &[u16],
    seams: &[u16],
    list: &mut [u32],
    words: &mut [u8],
    contacts: &mut [u32],
) -> u64
    ensures { Numbered list_number (ContactsListed (scene_of positions.now edges.now triangles.now seams.now) list.old
        list.new words.old words.new contacts.old contacts.new) result }
{
    count_number(contact_scene::contact_scene(
        positions, edges, triangles, seams, list, words, contacts,
    ))
}

// ---- a text

// Reads a scene text into the lent buffers, and its four counts into the lent array.
#[unsafe(no_mangle)]
pub extern "C" fn makhnodri_read_scene_slices(
    text: &[u8],
    positions: &mut [i32],
    edges: &mut [u16],
    triangles: &mut [u16],
    seams: &mut [u16],
    counts: &mut [usize; 4],
) -> u64
    ensures { Numbered text_number (ReadInto text.now (scene_of positions.old edges.old triangles.old seams.old)
        (scene_of positions.new edges.new triangles.new seams.new) counts.old counts.new) result }
{
    match text_scene::read_scene(text, positions, edges, triangles, seams) {
        Ok(c) => {
            put_counts(counts, c);
            0
        }
        Err(Refused { why, carries }) => refused(why, carries),
    }
}

// The whole report of a text, in front of the lent array; its length is returned.
#[unsafe(no_mangle)]
pub extern "C" fn makhnodri_write_report(text: &[u8], out: &mut [u8; REPORT_BYTES]) -> usize
    ensures { Reported text.now out.old out.new result }
{
    scene_report::write_report(text, out)
}

// ---- claims

// A partner's claims beside a scene, each answered with a byte in front of the lent buffer: 1 for yes, 0 for no.
#[unsafe(no_mangle)]
pub extern "C" fn makhnodri_check_claims_slices(
    positions: &[i32],
    edges: &[u16],
    triangles: &[u16],
    seams: &[u16],
    claims: &[u8],
    answers: &mut [u8],
) -> u64
    ensures { Numbered claims_number
        (ClaimsChecked (scene_of positions.now edges.now triangles.now seams.now) claims.now answers.old
        answers.new) result }
{
    count_number(claim_answers::check_claims(positions, edges, triangles, seams, claims, answers))
}

// ---- saving

// How many bytes the text of a scene has.
#[unsafe(no_mangle)]
pub extern "C" fn makhnodri_saved_length_slices(
    positions: &[i32],
    edges: &[u16],
    triangles: &[u16],
    seams: &[u16],
) -> u64
    ensures { Numbered saved_number (Measured (scene_of positions.now edges.now triangles.now seams.now)) result }
{
    count_number(saved_scene::saved_length(positions, edges, triangles, seams))
}

// The text of a scene, in front of the lent buffer.
#[unsafe(no_mangle)]
pub extern "C" fn makhnodri_save_scene_slices(
    positions: &[i32],
    edges: &[u16],
    triangles: &[u16],
    seams: &[u16],
    text: &mut [u8],
) -> u64
    ensures { Numbered saved_number
        (Saved (scene_of positions.now edges.now triangles.now seams.now) text.old text.new) result }
{
    count_number(saved_scene::save_scene(positions, edges, triangles, seams, text))
}
