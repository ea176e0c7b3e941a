// Meshes of any size for C and for Rust. A call returns the refusal's number, 0 where there is none; counts and totals go into a lent array. What is lent as
// scratch may hold anything afterwards. Listed and near rows have functions of their own, so that no bad choice can be asked for.

ghost use Rattle.meaning.specs.Scene.{scene_of};
ghost use Rattle.std.specs.Prelude.{length};
ghost use Rattle.meaning.specs.Refusals.{outcome_alone, outcome_of};
ghost use Rattle.meaning.specs.Mesh.{MeshAccepted};
ghost use Rattle.meaning.specs.MeshEdges.{edges_say, EdgesChecked};
ghost use Rattle.meaning.specs.MeshRows.{lent_of, RowsCounted, RowsListed, RowsSettled, RowsContacts, RowsKept, ContactsKept};
ghost use Rattle.meaning.specs.PiercedRows.{PiercedListed};
ghost use Rattle.meaning.specs.MeshNumbers.{refusal_of, count_left, kept_left, edges_left, wanted_by, Left};
ghost use Rattle.meaning.specs.Numbers.{Numbered};
ghost use Rattle.meaning.specs.declared.RowPairs.TheVariants.{Listed, Near};
ghost use Rattle.meaning.specs.declared.Frame.TheVariants.{Start, End};

use c_meshes::{tell_count, tell_edges, tell_kept, tell_scene, wanted_by};
use meaning::{Frame, RowPairs};

// ---- a mesh

// May this mesh be used?
#[unsafe(no_mangle)]
pub extern "C" fn makhnodri_check_mesh_slices(
    positions: &[i32],
    edges: &[u32],
    triangles: &[u32],
    seams: &[u32],
    table: &mut [u32],
) -> u32
    ensures { Numbered (λ a. refusal_of (outcome_alone a))
        (MeshAccepted (scene_of positions.now edges.now triangles.now seams.now) (length table.old)) result }
{
    tell_scene(mesh_lent::check_mesh(positions, edges, triangles, seams, table))
}

// Is every side of every triangle an edge, and does none stand twice? By a lent certificate, both parts of which are looked at.
#[unsafe(no_mangle)]
pub extern "C" fn makhnodri_check_edges_slices(
    positions: &[i32],
    edges: &[u32],
    triangles: &[u32],
    seams: &[u32],
    sides: &[u32],
    order: &[u32],
    table: &mut [u32],
    places: &mut [u32],
    told: &mut [u64; 2],
) -> u32
    ensures { Left edges_say edges_left (EdgesChecked (scene_of positions.now edges.now triangles.now seams.now) sides.now
        order.now (length table.old) (length places.old)) told.old told.new result }
{
    let answer = mesh_edges::check_edges(
        positions, edges, triangles, seams, sides, order, table, places,
    );
    tell_edges(told, answer)
}

// ---- a stretch of rows of a mesh, listed or near

// How many pairs the rows from one up to another have.
#[unsafe(no_mangle)]
pub extern "C" fn makhnodri_count_rows_slices(
    positions: &[i32],
    edges: &[u32],
    triangles: &[u32],
    seams: &[u32],
    edge_order: &[u32],
    triangle_order: &[u32],
    table: &mut [u32],
    places: &mut [u32],
    boxes: &mut [i32],
    first: usize,
    end: usize,
    told: &mut [u64; 1],
) -> u32
    ensures { Left outcome_of count_left (RowsCounted Listed (scene_of positions.now edges.now triangles.now seams.now)
        (lent_of edge_order.now triangle_order.now (length table.old) (length places.old) (length boxes.old)) first end)
        told.old told.new result }
{
    let answer = mesh_list::count_rows(
        positions,
        edges,
        triangles,
        seams,
        edge_order,
        triangle_order,
        table,
        places,
        boxes,
        RowPairs::Listed,
        first,
        end,
    );
    tell_count(told, answer)
}

// How many of them are near.
#[unsafe(no_mangle)]
pub extern "C" fn makhnodri_count_near_rows_slices(
    positions: &[i32],
    edges: &[u32],
    triangles: &[u32],
    seams: &[u32],
    edge_order: &[u32],
    triangle_order: &[u32],
    table: &mut [u32],
    places: &mut [u32],
    boxes: &mut [i32],
    first: usize,
    end: usize,
    told: &mut [u64; 1],
) -> u32
    ensures { Left outcome_of count_left (RowsCounted Near (scene_of positions.now edges.now triangles.now seams.now)
        (lent_of edge_order.now triangle_order.now (length table.old) (length places.old) (length boxes.old)) first end)
        told.old told.new result }
{
    let answer = mesh_list::count_rows(
        positions,
        edges,
        triangles,
        seams,
        edge_order,
        triangle_order,
        table,
        places,
        boxes,
        RowPairs::Near,
        first,
        end,
    );
    tell_count(told, answer)
}

// Their entries, in front of a lent list.
#[unsafe(no_mangle)]
pub extern "C" fn makhnodri_list_rows_slices(
    positions: &[i32],
    edges: &[u32],
    triangles: &[u32],
    seams: &[u32],
    edge_order: &[u32],
    triangle_order: &[u32],
    table: &mut [u32],
    places: &mut [u32],
    boxes: &mut [i32],
    first: usize,
    end: usize,
    list: &mut [u64],
    told: &mut [u64; 1],
) -> u32
    ensures { Left outcome_of count_left (RowsListed Listed (scene_of positions.now edges.now triangles.now seams.now)
        (lent_of edge_order.now triangle_order.now (length table.old) (length places.old) (length boxes.old)) first end list.old list.new)
        told.old told.new result }
{
    let answer = mesh_list::list_rows(
        positions,
        edges,
        triangles,
        seams,
        edge_order,
        triangle_order,
        table,
        places,
        boxes,
        RowPairs::Listed,
        first,
        end,
        list,
    );
    tell_count(told, answer)
}

// The entries of the near ones.
#[unsafe(no_mangle)]
pub extern "C" fn makhnodri_list_near_rows_slices(
    positions: &[i32],
    edges: &[u32],
    triangles: &[u32],
    seams: &[u32],
    edge_order: &[u32],
    triangle_order: &[u32],
    table: &mut [u32],
    places: &mut [u32],
    boxes: &mut [i32],
    first: usize,
    end: usize,
    list: &mut [u64],
    told: &mut [u64; 1],
) -> u32
    ensures { Left outcome_of count_left (RowsListed Near (scene_of positions.now edges.now triangles.now seams.now)
        (lent_of edge_order.now triangle_order.now (length table.old) (length places.old) (length boxes.old)) first end list.old list.new)
        told.old told.new result }
{
    let answer = mesh_list::list_rows(
        positions,
        edges,
        triangles,
        seams,
        edge_order,
        triangle_order,
        table,
        places,
        boxes,
        RowPairs::Near,
        first,
        end,
        list,
    );
    tell_count(told, answer)
}

// Their entries, and the word of each as a byte.
#[unsafe(no_mangle)]
pub extern "C" fn makhnodri_settle_rows_slices(
    positions: &[i32],
    edges: &[u32],
    triangles: &[u32],
    seams: &[u32],
    edge_order: &[u32],
    triangle_order: &[u32],
    table: &mut [u32],
    places: &mut [u32],
    boxes: &mut [i32],
    first: usize,
    end: usize,
    list: &mut [u64],
    words: &mut [u8],
    told: &mut [u64; 1],
) -> u32
    ensures { Left outcome_of count_left (RowsSettled Listed (scene_of positions.now edges.now triangles.now seams.now)
        (lent_of edge_order.now triangle_order.now (length table.old) (length places.old) (length boxes.old)) first end list.old list.new words.old words.new)
        told.old told.new result }
{
    let answer = mesh_settled::settle_rows(
        positions,
        edges,
        triangles,
        seams,
        edge_order,
        triangle_order,
        table,
        places,
        boxes,
        RowPairs::Listed,
        first,
        end,
        list,
        words,
    );
    tell_count(told, answer)
}

// Those of the near ones.
#[unsafe(no_mangle)]
pub extern "C" fn makhnodri_settle_near_rows_slices(
    positions: &[i32],
    edges: &[u32],
    triangles: &[u32],
    seams: &[u32],
    edge_order: &[u32],
    triangle_order: &[u32],
    table: &mut [u32],
    places: &mut [u32],
    boxes: &mut [i32],
    first: usize,
    end: usize,
    list: &mut [u64],
    words: &mut [u8],
    told: &mut [u64; 1],
) -> u32
    ensures { Left outcome_of count_left (RowsSettled Near (scene_of positions.now edges.now triangles.now seams.now)
        (lent_of edge_order.now triangle_order.now (length table.old) (length places.old) (length boxes.old)) first end list.old list.new words.old words.new)
        told.old told.new result }
{
    let answer = mesh_settled::settle_rows(
        positions,
        edges,
        triangles,
        seams,
        edge_order,
        triangle_order,
        table,
        places,
        boxes,
        RowPairs::Near,
        first,
        end,
        list,
        words,
    );
    tell_count(told, answer)
}

// And the contact of each hit in its row of five numbers.
#[unsafe(no_mangle)]
pub extern "C" fn makhnodri_contact_rows_slices(
    positions: &[i32],
    edges: &[u32],
    triangles: &[u32],
    seams: &[u32],
    edge_order: &[u32],
    triangle_order: &[u32],
    table: &mut [u32],
    places: &mut [u32],
    boxes: &mut [i32],
    first: usize,
    end: usize,
    list: &mut [u64],
    words: &mut [u8],
    contacts: &mut [u32],
    told: &mut [u64; 1],
) -> u32
    ensures { Left outcome_of count_left (RowsContacts Listed (scene_of positions.now edges.now triangles.now seams.now)
        (lent_of edge_order.now triangle_order.now (length table.old) (length places.old) (length boxes.old)) first end list.old list.new words.old words.new
        contacts.old contacts.new) told.old told.new result }
{
    let answer = mesh_met::contact_rows(
        positions,
        edges,
        triangles,
        seams,
        edge_order,
        triangle_order,
        table,
        places,
        boxes,
        RowPairs::Listed,
        first,
        end,
        list,
        words,
        contacts,
    );
    tell_count(told, answer)
}

// The same of the near ones.
#[unsafe(no_mangle)]
pub extern "C" fn makhnodri_contact_near_rows_slices(
    positions: &[i32],
    edges: &[u32],
    triangles: &[u32],
    seams: &[u32],
    edge_order: &[u32],
    triangle_order: &[u32],
    table: &mut [u32],
    places: &mut [u32],
    boxes: &mut [i32],
    first: usize,
    end: usize,
    list: &mut [u64],
    words: &mut [u8],
    contacts: &mut [u32],
    told: &mut [u64; 1],
) -> u32
    ensures { Left outcome_of count_left (RowsContacts Near (scene_of positions.now edges.now triangles.now seams.now)
        (lent_of edge_order.now triangle_order.now (length table.old) (length places.old) (length boxes.old)) first end list.old list.new words.old words.new
        contacts.old contacts.new) told.old told.new result }
{
    let answer = mesh_met::contact_rows(
        positions,
        edges,
        triangles,
        seams,
        edge_order,
        triangle_order,
        table,
        places,
        boxes,
        RowPairs::Near,
        first,
        end,
        list,
        words,
        contacts,
    );
    tell_count(told, answer)
}

// Of the pairs of the rows those whose words are asked for, with their words, and the totals of all.
#[unsafe(no_mangle)]
pub extern "C" fn makhnodri_keep_rows_slices(
    positions: &[i32],
    edges: &[u32],
    triangles: &[u32],
    seams: &[u32],
    edge_order: &[u32],
    triangle_order: &[u32],
    table: &mut [u32],
    places: &mut [u32],
    boxes: &mut [i32],
    first: usize,
    end: usize,
    wanted: u32,
    list: &mut [u64],
    words: &mut [u8],
    told: &mut [u64; 6],
) -> u32
    ensures { Left outcome_of kept_left (RowsKept Listed (wanted_by wanted) (scene_of positions.now edges.now triangles.now seams.now)
        (lent_of edge_order.now triangle_order.now (length table.old) (length places.old) (length boxes.old)) first end list.old list.new words.old words.new)
        told.old told.new result }
{
    let answer = mesh_keeping::keep_rows(
        positions,
        edges,
        triangles,
        seams,
        edge_order,
        triangle_order,
        table,
        places,
        boxes,
        RowPairs::Listed,
        wanted_by(wanted),
        first,
        end,
        list,
        words,
    );
    tell_kept(told, answer)
}

// Of the near ones those whose words are asked for.
#[unsafe(no_mangle)]
pub extern "C" fn makhnodri_keep_near_rows_slices(
    positions: &[i32],
    edges: &[u32],
    triangles: &[u32],
    seams: &[u32],
    edge_order: &[u32],
    triangle_order: &[u32],
    table: &mut [u32],
    places: &mut [u32],
    boxes: &mut [i32],
    first: usize,
    end: usize,
    wanted: u32,
    list: &mut [u64],
    words: &mut [u8],
    told: &mut [u64; 6],
) -> u32
    ensures { Left outcome_of kept_left (RowsKept Near (wanted_by wanted) (scene_of positions.now edges.now triangles.now seams.now)
        (lent_of edge_order.now triangle_order.now (length table.old) (length places.old) (length boxes.old)) first end list.old list.new words.old words.new)
        told.old told.new result }
{
    let answer = mesh_keeping::keep_rows(
        positions,
        edges,
        triangles,
        seams,
        edge_order,
        triangle_order,
        table,
        places,
        boxes,
        RowPairs::Near,
        wanted_by(wanted),
        first,
        end,
        list,
        words,
    );
    tell_kept(told, answer)
}

// Of the pairs of the rows those whose words are asked for, with the contact of each hit among them in its row, and the totals of all.
#[unsafe(no_mangle)]
pub extern "C" fn makhnodri_keep_contacts_slices(
    positions: &[i32],
    edges: &[u32],
    triangles: &[u32],
    seams: &[u32],
    edge_order: &[u32],
    triangle_order: &[u32],
    table: &mut [u32],
    places: &mut [u32],
    boxes: &mut [i32],
    first: usize,
    end: usize,
    wanted: u32,
    list: &mut [u64],
    words: &mut [u8],
    contacts: &mut [u32],
    told: &mut [u64; 6],
) -> u32
    ensures { Left outcome_of kept_left (ContactsKept Listed (wanted_by wanted) (scene_of positions.now edges.now triangles.now seams.now)
        (lent_of edge_order.now triangle_order.now (length table.old) (length places.old) (length boxes.old)) first end list.old list.new words.old words.new
        contacts.old contacts.new) told.old told.new result }
{
    let answer = mesh_met_kept::keep_contacts(
        positions,
        edges,
        triangles,
        seams,
        edge_order,
        triangle_order,
        table,
        places,
        boxes,
        RowPairs::Listed,
        wanted_by(wanted),
        first,
        end,
        list,
        words,
        contacts,
    );
    tell_kept(told, answer)
}

// The same of the near ones.
#[unsafe(no_mangle)]
pub extern "C" fn makhnodri_keep_near_contacts_slices(
    positions: &[i32],
    edges: &[u32],
    triangles: &[u32],
    seams: &[u32],
    edge_order: &[u32],
    triangle_order: &[u32],
    table: &mut [u32],
    places: &mut [u32],
    boxes: &mut [i32],
    first: usize,
    end: usize,
    wanted: u32,
    list: &mut [u64],
    words: &mut [u8],
    contacts: &mut [u32],
    told: &mut [u64; 6],
) -> u32
    ensures { Left outcome_of kept_left (ContactsKept Near (wanted_by wanted) (scene_of positions.now edges.now triangles.now seams.now)
        (lent_of edge_order.now triangle_order.now (length table.old) (length places.old) (length boxes.old)) first end list.old list.new words.old words.new
        contacts.old contacts.new) told.old told.new result }
{
    let answer = mesh_met_kept::keep_contacts(
        positions,
        edges,
        triangles,
        seams,
        edge_order,
        triangle_order,
        table,
        places,
        boxes,
        RowPairs::Near,
        wanted_by(wanted),
        first,
        end,
        list,
        words,
        contacts,
    );
    tell_kept(told, answer)
}

// The edges from one up to another that are through a triangle at the start, each with each such triangle.
#[unsafe(no_mangle)]
pub extern "C" fn makhnodri_pierced_at_start_rows_slices(
    positions: &[i32],
    edges: &[u32],
    triangles: &[u32],
    seams: &[u32],
    edge_order: &[u32],
    triangle_order: &[u32],
    table: &mut [u32],
    places: &mut [u32],
    boxes: &mut [i32],
    first: usize,
    end: usize,
    list: &mut [u64],
    told: &mut [u64; 1],
) -> u32
    ensures { Left outcome_of count_left (PiercedListed Start (scene_of positions.now edges.now triangles.now seams.now)
        (lent_of edge_order.now triangle_order.now (length table.old) (length places.old) (length boxes.old)) first end list.old list.new)
        told.old told.new result }
{
    let answer = pierced_rows::pierced_rows(
        positions,
        edges,
        triangles,
        seams,
        edge_order,
        triangle_order,
        table,
        places,
        boxes,
        Frame::Start,
        first,
        end,
        list,
    );
    tell_count(told, answer)
}

// The same at the end.
#[unsafe(no_mangle)]
pub extern "C" fn makhnodri_pierced_at_end_rows_slices(
    positions: &[i32],
    edges: &[u32],
    triangles: &[u32],
    seams: &[u32],
    edge_order: &[u32],
    triangle_order: &[u32],
    table: &mut [u32],
    places: &mut [u32],
    boxes: &mut [i32],
    first: usize,
    end: usize,
    list: &mut [u64],
    told: &mut [u64; 1],
) -> u32
    ensures { Left outcome_of count_left (PiercedListed End (scene_of positions.now edges.now triangles.now seams.now)
        (lent_of edge_order.now triangle_order.now (length table.old) (length places.old) (length boxes.old)) first end list.old list.new)
        told.old told.new result }
{
    let answer = pierced_rows::pierced_rows(
        positions,
        edges,
        triangles,
        seams,
        edge_order,
        triangle_order,
        table,
        places,
        boxes,
        Frame::End,
        first,
        end,
        list,
    );
    tell_count(told, answer)
}
