// List a scene, judge each listed pair in the four words and give each hit its contact, in one call that checks the scene once.

#![tactic(auto)]

ghost use Rattle.scene_seams.specs.Alone.{tabled};
ghost use Rattle.std.specs.Prelude.{◌≡◌};
ghost use Rattle.meaning.specs.Limits.{contact_limit};
ghost use Rattle.meaning.specs.Scene.{scene_of, AcceptedWithin};
ghost use Rattle.meaning.specs.WholeContacts.{contact_room, ContactsListed};
ghost use Rattle.scene_seams.specs.Sewing.{Blank};
ghost use Rattle.scene_checks.specs.Checking.{Stitched};
ghost use Rattle.contact_scene.specs.Answering.{MetNear};

use contact_entries::contact_entries;
use meaning::{ROW_NUMBERS, Refusal, Refused, VERTEX_LIMIT};

// How many pairs the three lent buffers have room for.
fn room_for(list: &[u32], words: &[u8], contacts: &[u32]) -> usize
    ensures { result ≡ contact_room list.now words.now contacts.now }
{
    list_entries::room(list)
        .min(words.len())
        .min(contacts.len() / ROW_NUMBERS)
}

// For a scene that was checked already and is within the old range.
pub fn contact_near(
    positions: &[i32],
    edges: &[u16],
    triangles: &[u16],
    stands: &[u16],
    list: &mut [u32],
    words: &mut [u8],
    contacts: &mut [u32],
) -> Result<usize, Refused>
    requires { AcceptedWithin contact_limit (tabled positions.now edges.now triangles.now stands.now) }
    ensures { MetNear (tabled positions.now edges.now triangles.now stands.now)
        (contact_room list.old words.old contacts.old) list.old list.new words.old
        words.new contacts.old contacts.new result }
{
    let room = room_for(list, words, contacts);
    let mut tests = [0usize; 1];
    let count = list_pairs::accepted::list_accepted(
        positions, edges, triangles, stands, list, room, &mut tests,
    )?;
    contact_entries(
        positions, edges, triangles, stands, list, words, contacts, count,
    );
    Ok(count)
}

// As `contact_scene`, over a lent table without seams, which is that of the scene's seams afterwards.
fn contact_into(
    positions: &[i32],
    edges: &[u16],
    triangles: &[u16],
    seams: &[u16],
    stands: &mut [u16],
    list: &mut [u32],
    words: &mut [u8],
    contacts: &mut [u32],
) -> Result<usize, Refused>
    requires { Blank seams.now stands.old }
    ensures { ContactsListed (scene_of positions.now edges.now triangles.now seams.now) list.old list.new
        words.old words.new contacts.old contacts.new result
        × Stitched (scene_of positions.now edges.now triangles.now seams.now) stands.old stands.new }
{
    scene_checks::check_into(positions, edges, triangles, seams, stands)?;
    if contact_pair::beyond_old_range(positions) {
        return Err(Refused::from(Refusal::BeyondOldRange));
    }
    contact_near(positions, edges, triangles, stands, list, words, contacts)
}

// For a scene that may be anything: 1, 2, 3, 15, 4, then 16, then 7.
pub fn contact_scene(
    positions: &[i32],
    edges: &[u16],
    triangles: &[u16],
    seams: &[u16],
    list: &mut [u32],
    words: &mut [u8],
    contacts: &mut [u32],
) -> Result<usize, Refused>
    ensures { ContactsListed (scene_of positions.now edges.now triangles.now seams.now) list.old list.new
        words.old words.new contacts.old contacts.new result }
{
    if seams.len() == 0 {
        let mut none = [0u16; 0];
        return contact_into(
            positions, edges, triangles, seams, &mut none, list, words, contacts,
        );
    }
    let mut stands = [0u16; VERTEX_LIMIT];
    contact_into(
        positions,
        edges,
        triangles,
        seams,
        &mut stands,
        list,
        words,
        contacts,
    )
}
