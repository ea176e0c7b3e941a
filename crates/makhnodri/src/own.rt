// A list of one's own for C and for Rust.

ghost use Rattle.meaning.specs.Scene.{scene_of};
ghost use Rattle.meaning.specs.OwnList.{OwnSettled, OwnContacts};
ghost use Rattle.meaning.specs.Numbers.{list_number, Numbered};

use c_numbers::count_number;

// The word of each pair that a lent list asks for, as a byte: hit, miss, touch or apart.
#[unsafe(no_mangle)]
pub extern "C" fn makhnodri_settle_list_slices(
    positions: &[i32],
    edges: &[u16],
    triangles: &[u16],
    seams: &[u16],
    list: &[u32],
    words: &mut [u8],
) -> u64
    ensures { Numbered list_number (OwnSettled (scene_of positions.now edges.now triangles.now seams.now) list.now
        words.old words.new) result }
{
    count_number(own_words::settle_list(positions, edges, triangles, seams, list, words))
}

// The same, and for each hit its five numbers in its row.
#[unsafe(no_mangle)]
pub extern "C" fn makhnodri_contact_list_slices(
    positions: &[i32],
    edges: &[u16],
    triangles: &[u16],
    seams: &[u16],
    list: &[u32],
    words: &mut [u8],
    contacts: &mut [u32],
) -> u64
    ensures { Numbered list_number (OwnContacts (scene_of positions.now edges.now triangles.now seams.now) list.now
        words.old words.new contacts.old contacts.new) result }
{
    count_number(own_contacts::contact_list(
        positions, edges, triangles, seams, list, words, contacts,
    ))
}
