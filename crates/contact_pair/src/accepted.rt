// The contact of a pair of a scene that was checked already and is within the old range.

ghost use Rattle.scene_seams.specs.Alone.{tabled};
ghost use Rattle.std.specs.Prelude.{◌≡◌, false};
ghost use Rattle.meaning.specs.Limits.{contact_limit};
ghost use Rattle.meaning.specs.Scene.{AcceptedWithin};
ghost use Rattle.meaning.specs.Refusals.{not_there};
ghost use Rattle.meaning.specs.Resting.{PairSettled};
ghost use Rattle.meaning.specs.WholeContacts.{ContactNumbersAre, WholeContactIs};
ghost use Rattle.meaning.specs.declared.Settled.TheVariants.{Hit};

use contact_times::{edges_contact_numbers, point_contact_numbers};
use meaning::{ContactNumbers, Kind, Settled, WholeContact};

// The numbers of a pair that is hit.
fn contact_numbers(
    positions: &[i32],
    edges: &[u16],
    triangles: &[u16],
    stands: &[u16],
    kind: Kind,
    i: usize,
    j: usize,
) -> ContactNumbers
    requires { AcceptedWithin contact_limit (tabled positions.now edges.now triangles.now stands.now)
        × (not_there (tabled positions.now edges.now triangles.now stands.now) kind i j ≡ false)
        × PairSettled (tabled positions.now edges.now triangles.now stands.now) kind i j Hit }
    ensures { ContactNumbersAre (tabled positions.now edges.now triangles.now stands.now) kind i j result }
{
    match kind {
        Kind::PointTriangle => {
            point_contact_numbers(positions, i, scene_parts::corners_of(triangles, stands, j))
        }
        Kind::EdgeEdge => {
            let first = scene_parts::ends_of(edges, stands, i.min(j));
            let second = scene_parts::ends_of(edges, stands, i.max(j));
            edges_contact_numbers(positions, first, second)
        }
    }
}

// From the word of a pair: only a hit goes on.
pub(crate) fn contact_of_word(
    positions: &[i32],
    edges: &[u16],
    triangles: &[u16],
    stands: &[u16],
    kind: Kind,
    i: usize,
    j: usize,
    word: Settled,
) -> WholeContact
    requires { AcceptedWithin contact_limit (tabled positions.now edges.now triangles.now stands.now)
        × (not_there (tabled positions.now edges.now triangles.now stands.now) kind i j ≡ false)
        × PairSettled (tabled positions.now edges.now triangles.now stands.now) kind i j word }
    ensures { WholeContactIs (tabled positions.now edges.now triangles.now stands.now) kind i j result }
{
    match word {
        Settled::Hit => WholeContact::Hit(contact_numbers(
            positions, edges, triangles, stands, kind, i, j,
        )),
        Settled::Miss => WholeContact::Miss,
        Settled::Touch => WholeContact::Touch,
        Settled::Apart => WholeContact::Apart,
    }
}

// When and where a pair of an accepted scene touched, or its word. For who has checked the scene already, so that nothing is checked twice.
pub fn contact(
    positions: &[i32],
    edges: &[u16],
    triangles: &[u16],
    stands: &[u16],
    kind: Kind,
    i: usize,
    j: usize,
) -> WholeContact
    requires { AcceptedWithin contact_limit (tabled positions.now edges.now triangles.now stands.now)
        × (not_there (tabled positions.now edges.now triangles.now stands.now) kind i j ≡ false) }
    ensures { WholeContactIs (tabled positions.now edges.now triangles.now stands.now) kind i j result }
{
    let word = four_words::accepted::pair(positions, edges, triangles, stands, kind, i, j);
    contact_of_word(positions, edges, triangles, stands, kind, i, j, word)
}
