// The contact of a pair that is asked for: a hit with its time and its place, or one of the other words with nothing; and refusal 16.

#![tactic(auto)]

pub mod accepted; // accepted.rt: the contact of a pair of a scene that was checked already
mod handed; // handed.rt: a contact as it is handed out, with f64s

ghost use Rattle.std.specs.Prelude.{◌≡◌};
ghost use Rattle.meaning.specs.Limits.{contact_limit};
ghost use Rattle.meaning.specs.Scene.{scene_of, beyond, reaches_beyond};
ghost use Rattle.meaning.specs.WholeContacts.{WholeContactFound, ContactGiven};
ghost use Rattle.scene_seams.specs.Alone.{only_positions};
ghost use Rattle.scene_seams.specs.Sewing.{Blank};
ghost use Rattle.scene_checks.specs.Checking.{Stitched};

use accepted::contact_of_word;
use handed::contact_of;
use meaning::{CONTACT_LIMIT, Contact, Kind, Refusal, VERTEX_LIMIT, WholeContact};

fn beyond(coordinate: i32) -> bool
    ensures { result ≡ beyond contact_limit coordinate }
{
    (coordinate < -CONTACT_LIMIT) | (CONTACT_LIMIT < coordinate)
}

// 16: a coordinate of the scene beyond the old range.
pub fn beyond_old_range(positions: &[i32]) -> bool
    ensures { result ≡ reaches_beyond contact_limit (only_positions positions.now) }
{
    let mut found = false;
    for coordinate in positions {
        found |= beyond(*coordinate);
    }
    found
}

// As `contact_pair`, over a lent table without seams, which is that of the scene's seams afterwards.
fn contact_into(
    positions: &[i32],
    edges: &[u16],
    triangles: &[u16],
    seams: &[u16],
    stands: &mut [u16],
    kind: Kind,
    first: usize,
    second: usize,
) -> Result<WholeContact, Refusal>
    requires { Blank seams.now stands.old }
    ensures { WholeContactFound (scene_of positions.now edges.now triangles.now seams.now) kind first second result
        × Stitched (scene_of positions.now edges.now triangles.now seams.now) stands.old stands.new }
{
    let word = four_words::settle_into(
        positions, edges, triangles, seams, stands, kind, first, second,
    )?;
    if beyond_old_range(positions) {
        return Err(Refusal::BeyondOldRange);
    }
    Ok(contact_of_word(
        positions, edges, triangles, stands, kind, first, second, word,
    ))
}

// The four words, the hit with its numbers, for a scene that may be anything. The refusals are those of a verdict, then 16.
pub fn contact_pair(
    positions: &[i32],
    edges: &[u16],
    triangles: &[u16],
    seams: &[u16],
    kind: Kind,
    first: usize,
    second: usize,
) -> Result<WholeContact, Refusal>
    ensures { WholeContactFound (scene_of positions.now edges.now triangles.now seams.now) kind first second result }
{
    if seams.len() == 0 {
        let mut none = [0u16; 0];
        return contact_into(
            positions, edges, triangles, seams, &mut none, kind, first, second,
        );
    }
    let mut stands = [0u16; VERTEX_LIMIT];
    contact_into(
        positions,
        edges,
        triangles,
        seams,
        &mut stands,
        kind,
        first,
        second,
    )
}

// The same with the time and the shares as they are handed out.
pub fn contact_pair_in_f64(
    positions: &[i32],
    edges: &[u16],
    triangles: &[u16],
    seams: &[u16],
    kind: Kind,
    first: usize,
    second: usize,
) -> Result<Contact, Refusal>
    ensures { ContactGiven (scene_of positions.now edges.now triangles.now seams.now) kind first second result }
{
    let contact = contact_pair(positions, edges, triangles, seams, kind, first, second)?;
    Ok(contact_of(kind, contact))
}
