// A list of one's own with contacts: the word of each pair that a caller asks for by its entry, and the contact of each hit in its row.

#![tactic(auto)]

ghost use Rattle.scene_seams.specs.Alone.{tabled};
ghost use Rattle.std.specs.Prelude.{◌≤◌, ◌≡◌, length};
ghost use Rattle.meaning.specs.Scene.{scene_of, Accepted};
ghost use Rattle.scene_seams.specs.Sewing.{Blank};
ghost use Rattle.scene_checks.specs.Checking.{Stitched};
ghost use Rattle.list_words.specs.Listed.{AllThere};
ghost use Rattle.meaning.specs.OwnList.{own_limit, OwnContacts};
ghost use Rattle.own_contacts.specs.Answering.{SoundMet, AskedMet};

use meaning::{ROW_NUMBERS, Refusal, Refused, VERTEX_LIMIT};
use own_words::OWN_LIMIT;

// Of entries that are not at fault: 16, then 7, else each is met.
fn contact_sound(
    positions: &[i32],
    edges: &[u16],
    triangles: &[u16],
    stands: &[u16],
    list: &[u32],
    words: &mut [u8],
    contacts: &mut [u32],
) -> Result<usize, Refused>
    requires { Accepted (tabled positions.now edges.now triangles.now stands.now)
        × AllThere (tabled positions.now edges.now triangles.now stands.now) (length list.now) list.now }
    ensures { SoundMet (tabled positions.now edges.now triangles.now stands.now) list.now words.old
        words.new contacts.old contacts.new result }
{
    if contact_pair::beyond_old_range(positions) {
        return Err(Refused::from(Refusal::BeyondOldRange));
    }
    let count = list.len();
    let room = words.len().min(contacts.len() / ROW_NUMBERS);
    if room < count {
        return Err(Refused {
            why: Refusal::NoRoom,
            carries: count,
        });
    }
    contact_entries::contact_entries(
        positions, edges, triangles, stands, list, words, contacts, count,
    );
    Ok(count)
}

// For a scene that was checked already: nothing is written before it is known that no entry is at fault and that there is room.
fn contact_asked(
    positions: &[i32],
    edges: &[u16],
    triangles: &[u16],
    stands: &[u16],
    list: &[u32],
    words: &mut [u8],
    contacts: &mut [u32],
) -> Result<usize, Refused>
    requires { Accepted (tabled positions.now edges.now triangles.now stands.now) }
    ensures { AskedMet (tabled positions.now edges.now triangles.now stands.now) list.now words.old
        words.new contacts.old contacts.new result }
{
    own_words::first_fault(positions, edges, triangles, stands, list)?;
    contact_sound(positions, edges, triangles, stands, list, words, contacts)
}

// For a scene that may be anything and a list that is not too long, over a lent table without seams, which is that of the scene's seams afterwards.
fn contact_into(
    positions: &[i32],
    edges: &[u16],
    triangles: &[u16],
    seams: &[u16],
    stands: &mut [u16],
    list: &[u32],
    words: &mut [u8],
    contacts: &mut [u32],
) -> Result<usize, Refused>
    requires { Blank seams.now stands.old × (length list.now ≤ own_limit) }
    ensures { OwnContacts (scene_of positions.now edges.now triangles.now seams.now) list.now words.old
        words.new contacts.old contacts.new result
        × Stitched (scene_of positions.now edges.now triangles.now seams.now) stands.old stands.new }
{
    scene_checks::check_into(positions, edges, triangles, seams, stands)?;
    contact_asked(positions, edges, triangles, stands, list, words, contacts)
}

// The words and contacts of the pairs that a list asks for. Where there are no seams nothing is looked up.
pub fn contact_list(
    positions: &[i32],
    edges: &[u16],
    triangles: &[u16],
    seams: &[u16],
    list: &[u32],
    words: &mut [u8],
    contacts: &mut [u32],
) -> Result<usize, Refused>
    ensures { OwnContacts (scene_of positions.now edges.now triangles.now seams.now) list.now words.old
        words.new contacts.old contacts.new result }
{
    if OWN_LIMIT < list.len() {
        return Err(Refused::from(Refusal::Shape));
    }
    if seams.len() == 0 {
        let mut none = [0u16; 0];
        return contact_into(
            positions, edges, triangles, seams, &mut none, list, words, contacts,
        );
    }
    let mut stands = [0u16; VERTEX_LIMIT];
    contact_into(
        positions,
        edges,
        triangles,
        seams,
        &mut stands,
        list,
        words,
        contacts,
    )
}
