// Of a stretch of rows of a mesh the pairs whose words are asked for, in one call, with the contact of each hit among them. 16 is asked of all coordinates of
// the mesh, whichever rows and words are asked for, and comes before 7.

#![tactic(auto)]

ghost use Rattle.scene_seams.specs.Alone.{tabled};
ghost use Rattle.meaning.specs.Scene.{scene_of};
ghost use Rattle.std.specs.Prelude.{◌≤◌, length};
ghost use Rattle.meaning.specs.Limits.{contact_limit};
ghost use Rattle.meaning.specs.WholeContacts.{contact_room};
ghost use Rattle.meaning.specs.MeshRows.{lent_of, row_count, ContactsKept};
ghost use Rattle.scene_checks.specs.Facts.{SoundWithin};
ghost use Rattle.mesh_checks.specs.Meshes.{AcceptedMesh};
ghost use Rattle.mesh_trees.specs.Planting.{Plantable};
ghost use Rattle.mesh_ordered.specs.Either.{OrdersLent};
ghost use Rattle.mesh_met_kept.specs.Meeting.{KeptNear, KeptThere};

use contact_pair::beyond_old_range;
use meaning::{KeptRows, Refusal, Refused, RowPairs, Wanted};
use mesh_asked::{ask_rows, row_count};
use mesh_contacts::contact_hits;
use mesh_keeping::keep_there;
use mesh_met::room_for;

// Of a mesh within the old range, whose seams stand in a table. No pair is judged again for its contact.
fn contact_near(
    positions: &[i32],
    edges: &[u32],
    triangles: &[u32],
    stands: &[u32],
    edge_order: &[u32],
    triangle_order: &[u32],
    places: &mut [u32],
    boxes: &mut [i32],
    which: RowPairs,
    wanted: Wanted,
    first: usize,
    end: usize,
    list: &mut [u64],
    words: &mut [u8],
    contacts: &mut [u32],
) -> Result<KeptRows, Refused>
    requires plantable { Plantable (tabled positions.now edges.now triangles.now stands.now) boxes.old × (first ≤ end)
        × (end ≤ row_count (tabled positions.now edges.now triangles.now stands.now)) }
    requires orders_lent { OrdersLent (tabled positions.now edges.now triangles.now stands.now) edge_order.now triangle_order.now (length places.old) }
    requires sound_within { SoundWithin contact_limit (tabled positions.now edges.now triangles.now stands.now) }
    ensures { KeptNear which wanted (tabled positions.now edges.now triangles.now stands.now) first end
        (contact_room list.old words.old contacts.old) list.old list.new words.old
        words.new contacts.old contacts.new result }
{
    let room = room_for(list, words, contacts);
    let kept = keep_there(
        positions,
        edges,
        triangles,
        stands,
        edge_order,
        triangle_order,
        places,
        boxes,
        which,
        wanted,
        first,
        end,
        list,
        words,
        room,
    )?;
    contact_hits(
        positions, edges, triangles, stands, list, words, contacts, kept.count,
    );
    Ok(kept)
}

// Of an accepted mesh whose seams stand in a table.
fn contact_there(
    positions: &[i32],
    edges: &[u32],
    triangles: &[u32],
    stands: &[u32],
    edge_order: &[u32],
    triangle_order: &[u32],
    places: &mut [u32],
    boxes: &mut [i32],
    which: RowPairs,
    wanted: Wanted,
    first: usize,
    end: usize,
    list: &mut [u64],
    words: &mut [u8],
    contacts: &mut [u32],
) -> Result<KeptRows, Refused>
    requires plantable { Plantable (tabled positions.now edges.now triangles.now stands.now) boxes.old × (first ≤ end)
        × (end ≤ row_count (tabled positions.now edges.now triangles.now stands.now)) }
    requires orders_lent { OrdersLent (tabled positions.now edges.now triangles.now stands.now) edge_order.now triangle_order.now (length places.old) }
    requires accepted_mesh { AcceptedMesh (tabled positions.now edges.now triangles.now stands.now) }
    ensures { KeptThere which wanted (tabled positions.now edges.now triangles.now stands.now) first end list.old
        list.new words.old words.new contacts.old contacts.new result }
{
    if beyond_old_range(positions) {
        return Err(Refused::from(Refusal::BeyondOldRange));
    }
    contact_near(
        positions,
        edges,
        triangles,
        stands,
        edge_order,
        triangle_order,
        places,
        boxes,
        which,
        wanted,
        first,
        end,
        list,
        words,
        contacts,
    )
}

// Of the pairs of the rows from one up to another those whose words are asked for: their entries, their words, and in its row of five numbers the contact
// of each hit; 7 where the smallest of the three lent lists has not room for all that are kept. What lies behind is unchanged, and so is the row of a pair
// that is no hit.
pub fn keep_contacts(
    positions: &[i32],
    edges: &[u32],
    triangles: &[u32],
    seams: &[u32],
    edge_order: &[u32],
    triangle_order: &[u32],
    table: &mut [u32],
    places: &mut [u32],
    boxes: &mut [i32],
    which: RowPairs,
    wanted: Wanted,
    first: usize,
    end: usize,
    list: &mut [u64],
    words: &mut [u8],
    contacts: &mut [u32],
) -> Result<KeptRows, Refused>
    ensures { ContactsKept which wanted (scene_of positions.now edges.now triangles.now seams.now)
        (lent_of edge_order.now triangle_order.now (length table.old) (length places.old) (length boxes.old)) first end list.old list.new
        words.old words.new contacts.old contacts.new result }
{
    let rows = row_count(positions, edges);
    let lent = boxes.len();
    ask_rows(
        positions,
        edges,
        triangles,
        seams,
        edge_order,
        triangle_order,
        table,
        places,
        lent,
        rows,
        first,
        end,
    )?;
    contact_there(
        positions,
        edges,
        triangles,
        table,
        edge_order,
        triangle_order,
        places,
        boxes,
        which,
        wanted,
        first,
        end,
        list,
        words,
        contacts,
    )
}
