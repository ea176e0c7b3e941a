// The contacts of the entries of a list, each by itself: its word as a byte, and the five numbers of a hit in its row.

#![tactic(auto)]

pub mod rows; // rows.rt: the five numbers of a contact in a lent buffer

ghost use Rattle.scene_seams.specs.Alone.{tabled};
ghost use Rattle.std.specs.Prelude.{◌*◌, ◌≤◌, ◌<◌, false, ◌≡◌, length};
ghost use Rattle.sequences.specs.Wrote.{written};
ghost use Rattle.meaning.specs.Limits.{contact_limit};
ghost use Rattle.meaning.specs.Scene.{AcceptedWithin};
ghost use Rattle.meaning.specs.Refusals.{not_there};
ghost use Rattle.meaning.specs.WholeContacts.{rows_left};
ghost use Rattle.list_entries.specs.Entries.{pair_at};
ghost use Rattle.list_words.specs.Listed.{pairs_in, AllThere};
ghost use Rattle.contact_entries.specs.Listed.{whole_contact_of_pair, contacts_of, contact_bytes};

use list_words::byte_of;
use meaning::{ROW_NUMBERS, WholeContact};
use rows::{put_contact_row, settled_of};

// The contact of the k-th entry of a list.
pub fn entry_contact(
    positions: &[i32],
    edges: &[u16],
    triangles: &[u16],
    stands: &[u16],
    list: &[u32],
    k: usize,
) -> WholeContact
    requires { AcceptedWithin contact_limit (tabled positions.now edges.now triangles.now stands.now) × (k < length list.now)
        × (not_there (tabled positions.now edges.now triangles.now stands.now) (pair_at list.now k).kind
        (pair_at list.now k).first (pair_at list.now k).second ≡ false) }
    ensures { result ≡ whole_contact_of_pair (tabled positions.now edges.now triangles.now stands.now) (pair_at list.now k) }
{
    let entry = list[k];
    let kind = list_entries::kind_of(entry);
    let first = list_entries::first_of(entry);
    let second = list_entries::second_of(entry);
    contact_pair::accepted::contact(positions, edges, triangles, stands, kind, first, second)
}

// Each of the first entries in turn, whichever pairs they ask for.
pub fn contact_entries(
    positions: &[i32],
    edges: &[u16],
    triangles: &[u16],
    stands: &[u16],
    list: &[u32],
    words: &mut [u8],
    contacts: &mut [u32],
    count: usize,
)
    requires { AcceptedWithin contact_limit (tabled positions.now edges.now triangles.now stands.now) × (count ≤ length list.now)
        × AllThere (tabled positions.now edges.now triangles.now stands.now) count list.now × (count ≤ length words.old)
        × (5 * count ≤ length contacts.old) }
    ensures { (words.new ≡ written
        (contact_bytes (tabled positions.now edges.now triangles.now stands.now) (pairs_in count list.now)) words.old)
        × (contacts.new ≡ rows_left (contacts_of (tabled positions.now edges.now triangles.now stands.now)
        (pairs_in count list.now)) contacts.old) }
{
    for k in 0..count {
        let contact = entry_contact(positions, edges, triangles, stands, list, k);
        words[k] = byte_of(settled_of(contact));
        put_contact_row(contacts, ROW_NUMBERS * k, contact);
    }
}
