// The words of pairs of a mesh with the contact of each hit, asked for by their entries: a byte and a row of five numbers for each.

#![tactic(auto)]

mod pairs; // pairs.rt: the contact of one pair, from its word

ghost use Rattle.scene_seams.specs.Alone.{tabled};
ghost use Rattle.std.specs.Prelude.{◌*◌, ◌≤◌, ◌<◌, ◌≡◌, length, take};
ghost use Rattle.sequences.specs.Wrote.{written};
ghost use Rattle.meaning.specs.Limits.{contact_limit};
ghost use Rattle.meaning.specs.WholeContacts.{rows_left};
ghost use Rattle.scene_checks.specs.Facts.{SoundWithin};
ghost use Rattle.list_words.specs.Listed.{word_of_pair, bytes_of};
ghost use Rattle.contact_entries.specs.Listed.{whole_contact_of_pair, contacts_of};
ghost use Rattle.mesh_words.specs.Asked.{mesh_pair_at, mesh_pairs_in, PairThere, MeshThere};

use contact_entries::rows::put_contact_row;
use meaning::{ROW_NUMBERS, Settled, WholeContact};
use mesh_entries::{first_of, kind_of, second_of};
use mesh_kept::word_in;
use mesh_words::settle_mesh_entries;
use pairs::contact_of_word;

// The contact of the k-th entry, whose word is known.
fn entry_contact(
    positions: &[i32],
    edges: &[u32],
    triangles: &[u32],
    stands: &[u32],
    list: &[u64],
    k: usize,
    word: Settled,
) -> WholeContact
    requires { SoundWithin contact_limit (tabled positions.now edges.now triangles.now stands.now) × (k < length list.now)
        × PairThere (tabled positions.now edges.now triangles.now stands.now) (mesh_pair_at list.now k)
        × (word ≡ word_of_pair (tabled positions.now edges.now triangles.now stands.now) (mesh_pair_at list.now k)) }
    ensures { result ≡ whole_contact_of_pair (tabled positions.now edges.now triangles.now stands.now)
        (mesh_pair_at list.now k) }
{
    let entry = list[k];
    let kind = kind_of(entry);
    let first = first_of(entry);
    let second = second_of(entry);
    contact_of_word(
        positions, edges, triangles, stands, kind, first, second, word,
    )
}

// The rows of the first entries, whose words are known: nothing but a hit changes what stands in its row. No pair is judged again.
pub fn contact_hits(
    positions: &[i32],
    edges: &[u32],
    triangles: &[u32],
    stands: &[u32],
    list: &[u64],
    words: &[u8],
    contacts: &mut [u32],
    count: usize,
)
    requires { SoundWithin contact_limit (tabled positions.now edges.now triangles.now stands.now) × (count ≤ length list.now)
        × MeshThere (tabled positions.now edges.now triangles.now stands.now) count list.now × (count ≤ length words.now)
        × (take count words.now ≡ bytes_of (tabled positions.now edges.now triangles.now stands.now) (mesh_pairs_in count list.now))
        × (5 * count ≤ length contacts.old) }
    ensures { contacts.new ≡ rows_left
        (contacts_of (tabled positions.now edges.now triangles.now stands.now) (mesh_pairs_in count list.now))
        contacts.old }
{
    for k in 0..count {
        let word = word_in(words[k]);
        let contact = entry_contact(positions, edges, triangles, stands, list, k, word);
        put_contact_row(contacts, ROW_NUMBERS * k, contact);
    }
}

// The words of the first entries, whichever pairs of the mesh they ask for, and the rows of the hits among them.
pub fn contact_mesh_entries(
    positions: &[i32],
    edges: &[u32],
    triangles: &[u32],
    stands: &[u32],
    list: &[u64],
    words: &mut [u8],
    contacts: &mut [u32],
    count: usize,
)
    requires { SoundWithin contact_limit (tabled positions.now edges.now triangles.now stands.now) × (count ≤ length list.now)
        × MeshThere (tabled positions.now edges.now triangles.now stands.now) count list.now × (count ≤ length words.old)
        × (5 * count ≤ length contacts.old) }
    ensures { (words.new ≡ written
        (bytes_of (tabled positions.now edges.now triangles.now stands.now) (mesh_pairs_in count list.now)) words.old)
        × (contacts.new ≡ rows_left
        (contacts_of (tabled positions.now edges.now triangles.now stands.now) (mesh_pairs_in count list.now))
        contacts.old) }
{
    settle_mesh_entries(positions, edges, triangles, stands, list, words, count);
    contact_hits(
        positions, edges, triangles, stands, list, words, contacts, count,
    );
}
