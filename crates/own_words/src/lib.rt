// A list of one's own: the words of pairs that a caller asks for by their entries, in one call that checks the scene once.

#![tactic(auto)]

ghost use Rattle.scene_seams.specs.Alone.{tabled};
ghost use Rattle.std.specs.Prelude.{false, List, ◌≡◌, ℕ, ◌≤◌, length};
ghost use Rattle.meaning.specs.Scene.{scene_of, Accepted};
ghost use Rattle.scene_seams.specs.Sewing.{Blank};
ghost use Rattle.scene_checks.specs.Checking.{Stitched};
ghost use Rattle.meaning.specs.OwnList.{entry_missing, entry_shared, own_limit, OwnSettled};
ghost use Rattle.own_words.specs.Faults.{FaultFound};
ghost use Rattle.own_words.specs.Answering.{OwnJudged};

use meaning::{Kind, NO_NUMBER, Refusal, Refused, VERTEX_LIMIT};

// 2^32 - 1: so many entries a list may have, so that an entry's number and a count needed cross to C in 32 bits.
pub const OWN_LIMIT: usize = 4294967295;

// 5 of an entry.
fn entry_missing(positions: &[i32], edges: &[u16], triangles: &[u16], entry: u32) -> bool
    ensures { (w : List ℕ) → result ≡ entry_missing
        (scene_of positions.now edges.now triangles.now w) entry }
{
    let missing = scene_parts::asked::not_there(
        positions,
        edges,
        triangles,
        list_entries::kind_of(entry),
        list_entries::first_of(entry),
        list_entries::second_of(entry),
    );
    (NO_NUMBER <= entry) | missing
}

// 6 of an entry. Every entry is looked at, so its kind is told here: a call that takes both kinds would be lent all four slices for each.
fn entry_shared(
    positions: &[i32],
    edges: &[u16],
    triangles: &[u16],
    stands: &[u16],
    entry: u32,
) -> bool
    requires { entry_missing (tabled positions.now edges.now triangles.now stands.now) entry ≡ false }
    ensures { result ≡ entry_shared (tabled positions.now edges.now triangles.now stands.now) entry }
{
    let first = list_entries::first_of(entry);
    let second = list_entries::second_of(entry);
    match list_entries::kind_of(entry) {
        Kind::PointTriangle => scene_parts::shares_pt(triangles, stands, first, second),
        Kind::EdgeEdge => scene_parts::shares_ee(edges, stands, first, second),
    }
}

// The first entry at fault, counted from 1, in it 5 before 6; or how many entries there are.
pub fn first_fault(
    positions: &[i32],
    edges: &[u16],
    triangles: &[u16],
    stands: &[u16],
    list: &[u32],
) -> Result<usize, Refused>
    ensures { FaultFound (tabled positions.now edges.now triangles.now stands.now) list.now result }
{
    for (k, entry) in list.iter().enumerate() {
        if entry_missing(positions, edges, triangles, *entry) {
            return Err(Refused {
                why: Refusal::NotThere,
                carries: k + 1,
            });
        }
        if entry_shared(positions, edges, triangles, stands, *entry) {
            return Err(Refused {
                why: Refusal::SharedVertex,
                carries: k + 1,
            });
        }
    }
    Ok(list.len())
}

// For a scene that was checked already: nothing is written before it is known that no entry is at fault and that there is room.
fn settle_asked(
    positions: &[i32],
    edges: &[u16],
    triangles: &[u16],
    stands: &[u16],
    list: &[u32],
    words: &mut [u8],
) -> Result<usize, Refused>
    requires { Accepted (tabled positions.now edges.now triangles.now stands.now) }
    ensures { OwnJudged (tabled positions.now edges.now triangles.now stands.now) list.now words.old
        words.new result }
{
    let count = first_fault(positions, edges, triangles, stands, list)?;
    if words.len() < count {
        return Err(Refused {
            why: Refusal::NoRoom,
            carries: count,
        });
    }
    list_words::settle_entries(positions, edges, triangles, stands, list, words, count);
    Ok(count)
}

// For a scene that may be anything and a list that is not too long, over a lent table without seams, which is that of the scene's seams afterwards.
fn settle_into(
    positions: &[i32],
    edges: &[u16],
    triangles: &[u16],
    seams: &[u16],
    stands: &mut [u16],
    list: &[u32],
    words: &mut [u8],
) -> Result<usize, Refused>
    requires { Blank seams.now stands.old × (length list.now ≤ own_limit) }
    ensures { OwnSettled (scene_of positions.now edges.now triangles.now seams.now) list.now words.old
        words.new result × Stitched (scene_of positions.now edges.now triangles.now seams.now) stands.old stands.new }
{
    scene_checks::check_into(positions, edges, triangles, seams, stands)?;
    settle_asked(positions, edges, triangles, stands, list, words)
}

// The words of the pairs that a list asks for. Where there are no seams nothing is looked up.
pub fn settle_list(
    positions: &[i32],
    edges: &[u16],
    triangles: &[u16],
    seams: &[u16],
    list: &[u32],
    words: &mut [u8],
) -> Result<usize, Refused>
    ensures { OwnSettled (scene_of positions.now edges.now triangles.now seams.now) list.now words.old
        words.new result }
{
    if OWN_LIMIT < list.len() {
        return Err(Refused::from(Refusal::Shape));
    }
    if seams.len() == 0 {
        let mut none = [0u16; 0];
        return settle_into(positions, edges, triangles, seams, &mut none, list, words);
    }
    let mut stands = [0u16; VERTEX_LIMIT];
    settle_into(positions, edges, triangles, seams, &mut stands, list, words)
}
