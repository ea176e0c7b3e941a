// The contact of one pair of a mesh that is within the old range, where its vertices stand in the mesh's positions.

ghost use Rattle.scene_seams.specs.Alone.{tabled};
ghost use Rattle.std.specs.Prelude.{false, ◌≡◌};
ghost use Rattle.meaning.specs.Limits.{contact_limit};
ghost use Rattle.meaning.specs.Refusals.{not_there};
ghost use Rattle.meaning.specs.Resting.{PairSettled};
ghost use Rattle.meaning.specs.WholeContacts.{ContactNumbersAre, WholeContactIs};
ghost use Rattle.meaning.specs.declared.Settled.TheVariants.{Hit};
ghost use Rattle.scene_checks.specs.Facts.{SoundWithin};

use contact_times::{edges_contact_numbers, point_contact_numbers};
use meaning::{ContactNumbers, Kind, Settled, WholeContact};
use mesh_parts::{corners_of, ends_of};

// The numbers of a pair that is hit.
fn contact_numbers(
    positions: &[i32],
    edges: &[u32],
    triangles: &[u32],
    stands: &[u32],
    kind: Kind,
    i: usize,
    j: usize,
) -> ContactNumbers
    requires { SoundWithin contact_limit (tabled positions.now edges.now triangles.now stands.now)
        × (not_there (tabled positions.now edges.now triangles.now stands.now) kind i j ≡ false)
        × PairSettled (tabled positions.now edges.now triangles.now stands.now) kind i j Hit }
    ensures { ContactNumbersAre (tabled positions.now edges.now triangles.now stands.now) kind i j result }
{
    match kind {
        Kind::PointTriangle => {
            point_contact_numbers(positions, i, corners_of(triangles, stands, j))
        }
        Kind::EdgeEdge => {
            let first = ends_of(edges, stands, i.min(j));
            let second = ends_of(edges, stands, i.max(j));
            edges_contact_numbers(positions, first, second)
        }
    }
}

// From the word of a pair: only a hit goes on.
pub fn contact_of_word(
    positions: &[i32],
    edges: &[u32],
    triangles: &[u32],
    stands: &[u32],
    kind: Kind,
    i: usize,
    j: usize,
    word: Settled,
) -> WholeContact
    requires { SoundWithin contact_limit (tabled positions.now edges.now triangles.now stands.now)
        × (not_there (tabled positions.now edges.now triangles.now stands.now) kind i j ≡ false)
        × PairSettled (tabled positions.now edges.now triangles.now stands.now) kind i j word }
    ensures { WholeContactIs (tabled positions.now edges.now triangles.now stands.now) kind i j result }
{
    match word {
        Settled::Hit => WholeContact::Hit(contact_numbers(
            positions, edges, triangles, stands, kind, i, j,
        )),
        Settled::Miss => WholeContact::Miss,
        Settled::Touch => WholeContact::Touch,
        Settled::Apart => WholeContact::Apart,
    }
}
