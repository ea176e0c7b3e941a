// List a scene and judge each listed pair in the four words, in one call that checks the scene once.

#![tactic(auto)]

ghost use Rattle.scene_seams.specs.Alone.{tabled};
ghost use Rattle.std.specs.Prelude.{◌≤◌, ◌<◌, min, false, ◌≡◌, length};
ghost use Rattle.sequences.specs.Wrote.{written};
ghost use Rattle.meaning.specs.Scene.{scene_of, Accepted};
ghost use Rattle.meaning.specs.Refusals.{not_there};
ghost use Rattle.meaning.specs.List.{room_of};
ghost use Rattle.meaning.specs.SceneWords.{byte_of, SettledScene};
ghost use Rattle.scene_seams.specs.Sewing.{Blank};
ghost use Rattle.scene_checks.specs.Checking.{Stitched};
ghost use Rattle.list_entries.specs.Entries.{pair_at};
ghost use Rattle.list_words.specs.Listed.{word_of_pair, bytes_of, pairs_in, AllThere, StandsFor};
ghost use Rattle.list_walk.specs.Skipping.{Prepared};
ghost use Rattle.list_words.specs.Answering.{SettledIn};

use list_walk::skipping::{WALK_NUMBERS, prepare};
use meaning::{Refused, Settled, VERTEX_LIMIT};

// A word as the byte that stands for it in a lent buffer. No byte is 2, the number of degenerate: a number never stands for two words.
// They are no discriminants of the type, which is shared: only these buffers have the bytes.
#[tactic(auto, unfolding(meaning::specs::SceneWords::byte_of))]
pub fn byte_of(w: Settled) -> u8
    ensures { result ≡ byte_of w }
{
    match w {
        Settled::Hit => 0,
        Settled::Miss => 1,
        Settled::Touch => 3,
        Settled::Apart => 4,
    }
}

// And back: a buffer may hold any byte, and most stand for no word.
#[tactic(auto, using(crate::specs::Listed::no_word), unfolding(crate::specs::Listed::StandsFor, meaning::specs::SceneWords::byte_of))]
pub fn word_of(byte: u8) -> Option<Settled>
    ensures { StandsFor byte result }
{
    match byte {
        0 => Some(Settled::Hit),
        1 => Some(Settled::Miss),
        3 => Some(Settled::Touch),
        4 => Some(Settled::Apart),
        _ => None,
    }
}

// The k-th entry of a list, judged.
fn settle_entry(
    positions: &[i32],
    edges: &[u16],
    triangles: &[u16],
    stands: &[u16],
    list: &[u32],
    k: usize,
) -> u8
    requires { Accepted (tabled positions.now edges.now triangles.now stands.now) × (k < length list.now)
        × (not_there (tabled positions.now edges.now triangles.now stands.now) (pair_at list.now k).kind
        (pair_at list.now k).first (pair_at list.now k).second ≡ false) }
    ensures { result ≡ byte_of (word_of_pair (tabled positions.now edges.now triangles.now stands.now) (pair_at list.now k)) }
{
    let entry = list[k];
    let kind = list_entries::kind_of(entry);
    let first = list_entries::first_of(entry);
    let second = list_entries::second_of(entry);
    byte_of(four_words::accepted::pair(positions, edges, triangles, stands, kind, first, second))
}

// Each of the first entries in turn, whichever pairs they ask for.
pub fn settle_entries(
    positions: &[i32],
    edges: &[u16],
    triangles: &[u16],
    stands: &[u16],
    list: &[u32],
    out: &mut [u8],
    count: usize,
)
    requires { Accepted (tabled positions.now edges.now triangles.now stands.now) × (count ≤ length list.now)
        × AllThere (tabled positions.now edges.now triangles.now stands.now) count list.now × (count ≤ length out.old) }
    ensures { out.new ≡ written
        (bytes_of (tabled positions.now edges.now triangles.now stands.now) (pairs_in count list.now)) out.old }
{
    for k in 0..count {
        out[k] = settle_entry(positions, edges, triangles, stands, list, k);
    }
}

// For a scene that was checked already, and whose boxes and runs are prepared.
pub fn settle_prepared(
    positions: &[i32],
    edges: &[u16],
    triangles: &[u16],
    stands: &[u16],
    boxes: &[i32],
    list: &mut [u32],
    out: &mut [u8],
) -> Result<usize, Refused>
    requires { Prepared (tabled positions.now edges.now triangles.now stands.now) boxes.now }
    ensures { SettledIn (tabled positions.now edges.now triangles.now stands.now)
        (min (room_of list.old) (length out.old)) list.old list.new out.old out.new result }
{
    let room = list_entries::room(list).min(out.len());
    let mut tests = [0usize; 1];
    let count = list_pairs::accepted::list_prepared(
        positions, edges, triangles, stands, boxes, list, room, &mut tests,
    )?;
    settle_entries(positions, edges, triangles, stands, list, out, count);
    Ok(count)
}

// For a scene that was checked already.
pub fn settle_accepted(
    positions: &[i32],
    edges: &[u16],
    triangles: &[u16],
    stands: &[u16],
    list: &mut [u32],
    out: &mut [u8],
) -> Result<usize, Refused>
    requires { Accepted (tabled positions.now edges.now triangles.now stands.now) }
    ensures { SettledIn (tabled positions.now edges.now triangles.now stands.now)
        (min (room_of list.old) (length out.old)) list.old list.new out.old out.new result }
{
    let mut boxes = [0i32; WALK_NUMBERS];
    prepare(positions, edges, triangles, stands, &mut boxes);
    settle_prepared(positions, edges, triangles, stands, &boxes, list, out)
}

// As `settle_scene`, over a lent table without seams, which is that of the scene's seams afterwards.
fn settle_into(
    positions: &[i32],
    edges: &[u16],
    triangles: &[u16],
    seams: &[u16],
    stands: &mut [u16],
    list: &mut [u32],
    out: &mut [u8],
) -> Result<usize, Refused>
    requires { Blank seams.now stands.old }
    ensures { SettledScene (scene_of positions.now edges.now triangles.now seams.now) list.old list.new
        out.old out.new result × Stitched (scene_of positions.now edges.now triangles.now seams.now) stands.old
        stands.new }
{
    scene_checks::check_into(positions, edges, triangles, seams, stands)?;
    settle_accepted(positions, edges, triangles, stands, list, out)
}

// For a scene that may be anything.
pub fn settle_scene(
    positions: &[i32],
    edges: &[u16],
    triangles: &[u16],
    seams: &[u16],
    list: &mut [u32],
    out: &mut [u8],
) -> Result<usize, Refused>
    ensures { SettledScene (scene_of positions.now edges.now triangles.now seams.now) list.old list.new
        out.old out.new result }
{
    if seams.len() == 0 {
        let mut none = [0u16; 0];
        return settle_into(positions, edges, triangles, seams, &mut none, list, out);
    }
    let mut stands = [0u16; VERTEX_LIMIT];
    settle_into(positions, edges, triangles, seams, &mut stands, list, out)
}
