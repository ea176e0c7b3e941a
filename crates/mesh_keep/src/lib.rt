// Pairs of a mesh judged one behind the other: every one is counted by its word, and those whose word is asked for are entered with it, while there is room.

#![tactic(auto)]

ghost use Rattle.scene_seams.specs.Alone.{tabled};
ghost use Rattle.std.specs.Prelude.{◌+◌, ◌≤◌, ◌<◌, false, [], ◌∷◌, ◌≡◌, length};
ghost use Rattle.meaning.specs.Refusals.{not_there};
ghost use Rattle.meaning.specs.List.{pair};
ghost use Rattle.meaning.specs.MeshRows.{wants_word};
ghost use Rattle.list_entries.specs.UpTo.{kept};
ghost use Rattle.scene_checks.specs.Facts.{Sound};
ghost use Rattle.mesh_words.specs.Asked.{mesh_pair_at, mesh_pairs_in};
ghost use Rattle.mesh_keep.specs.Entries.{EntryOf, EntriesOf};
ghost use Rattle.mesh_keep.specs.Keeping.{KeptBy};
ghost use Rattle.mesh_keep.specs.OfRows.{RowOf, pairs_of};

use list_words::byte_of;
use meaning::{Kind, Settled, Wanted};
use mesh_entries::{first_of, kind_of, put_below, second_of};
use mesh_seams::wide;
use mesh_words::pairs::word;
use tally::Tally;

// How many are kept so far, and how many have each word.
#[derive(Clone, Copy, Debug, PartialEq, Eq)]
pub struct Going {
    pub count: usize,
    pub tally: Tally,
}

// Is this word asked for?
fn wants(wanted: Wanted, word: Settled) -> bool
    ensures { result ≡ wants_word wanted word }
{
    match word {
        Settled::Hit => wanted.hit,
        Settled::Miss => wanted.miss,
        Settled::Touch => wanted.touch,
        Settled::Apart => wanted.apart,
    }
}

// The byte is entered at place k where that is below a bound; else the list stays as it is.
fn put_byte(words: &mut [u8], most: usize, k: usize, byte: u8)
    requires { most ≤ length words.old }
    ensures { words.new ≡ kept most k byte words.old }
{
    if k < most {
        words[k] = byte;
    }
}

// One pair is judged and counted, and kept where its word is asked for.
fn keep_pair(
    positions: &[i32],
    edges: &[u32],
    triangles: &[u32],
    stands: &[u32],
    kind: Kind,
    i: usize,
    j: usize,
    wanted: Wanted,
    list: &mut [u64],
    words: &mut [u8],
    most: usize,
    going: Going,
) -> Going
    requires sound { Sound (tabled positions.now edges.now triangles.now stands.now) × (not_there (tabled positions.now edges.now triangles.now stands.now) kind i j ≡ false)
        × (i < 1073741824) × (j < 1073741824) }
    requires most_in_bounds { (most ≤ length list.old) × (most ≤ length words.old) × (going.count < 9223372036854775808) }
    ensures { KeptBy (tabled positions.now edges.now triangles.now stands.now) wanted most (pair kind i j ∷ []) list.old
        words.old going list.new words.new result }
{
    let found = word(positions, edges, triangles, stands, kind, i, j);
    let count = going.count;
    let counted = going.tally;
    let tally = counted.add(found);
    if wants(wanted, found) {
        put_below(list, most, count, kind, i, j);
        put_byte(words, most, count, byte_of(found));
        Going {
            count: count + 1,
            tally: tally,
        }
    } else {
        Going {
            count: count,
            tally: tally,
        }
    }
}

// The pairs of one row, whose second places stand in front of a list.
pub fn keep_row(
    positions: &[i32],
    edges: &[u32],
    triangles: &[u32],
    stands: &[u32],
    kind: Kind,
    i: usize,
    places: &[u32],
    parts: usize,
    wanted: Wanted,
    list: &mut [u64],
    words: &mut [u8],
    most: usize,
    going: Going,
) -> Going
    requires sound { Sound (tabled positions.now edges.now triangles.now stands.now)
        × RowOf (tabled positions.now edges.now triangles.now stands.now) kind i places.now parts }
    requires most_in_bounds { (most ≤ length list.old) × (most ≤ length words.old) × (going.count + parts < 9223372036854775808) }
    ensures { KeptBy (tabled positions.now edges.now triangles.now stands.now) wanted most (pairs_of kind i places.now parts)
        list.old words.old going list.new words.new result }
{
    let mut so_far = going;
    for k in 0..parts {
        so_far = keep_pair(
            positions,
            edges,
            triangles,
            stands,
            kind,
            i,
            wide(places[k]),
            wanted,
            list,
            words,
            most,
            so_far,
        );
    }
    so_far
}

// The pair of the k-th entry of a list.
fn keep_entry(
    positions: &[i32],
    edges: &[u32],
    triangles: &[u32],
    stands: &[u32],
    entries: &[u64],
    k: usize,
    wanted: Wanted,
    list: &mut [u64],
    words: &mut [u8],
    most: usize,
    going: Going,
) -> Going
    requires sound { Sound (tabled positions.now edges.now triangles.now stands.now)
        × EntryOf (tabled positions.now edges.now triangles.now stands.now) entries.now k }
    requires most_in_bounds { (most ≤ length list.old) × (most ≤ length words.old) × (going.count < 9223372036854775808) }
    ensures { KeptBy (tabled positions.now edges.now triangles.now stands.now) wanted most (mesh_pair_at entries.now k ∷ [])
        list.old words.old going list.new words.new result }
{
    let entry = entries[k];
    let kind = kind_of(entry);
    let first = first_of(entry);
    let second = second_of(entry);
    keep_pair(
        positions, edges, triangles, stands, kind, first, second, wanted, list, words, most, going,
    )
}

// The pairs of the first entries of a list, in their order.
pub fn keep_entries(
    positions: &[i32],
    edges: &[u32],
    triangles: &[u32],
    stands: &[u32],
    entries: &[u64],
    count: usize,
    wanted: Wanted,
    list: &mut [u64],
    words: &mut [u8],
    most: usize,
    going: Going,
) -> Going
    requires sound { Sound (tabled positions.now edges.now triangles.now stands.now)
        × EntriesOf (tabled positions.now edges.now triangles.now stands.now) entries.now count }
    requires most_in_bounds { (most ≤ length list.old) × (most ≤ length words.old) × (going.count + count < 9223372036854775808) }
    ensures { KeptBy (tabled positions.now edges.now triangles.now stands.now) wanted most (mesh_pairs_in count entries.now)
        list.old words.old going list.new words.new result }
{
    let mut so_far = going;
    for k in 0..count {
        so_far = keep_entry(
            positions, edges, triangles, stands, entries, k, wanted, list, words, most, so_far,
        );
    }
    so_far
}
