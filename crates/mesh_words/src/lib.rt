// The words of pairs of a mesh of any size, asked for by their entries: a byte for each, in their order.

#![tactic(auto)]

pub mod verdicts; // verdicts.rt: the verdict of a pair, whether it rests, the six points of a piece
pub mod pairs; // pairs.rt: the word of one pair

ghost use Rattle.scene_seams.specs.Alone.{tabled};
ghost use Rattle.std.specs.Prelude.{◌≤◌, ◌<◌, false, ◌≡◌, length};
ghost use Rattle.sequences.specs.Wrote.{written};
ghost use Rattle.meaning.specs.Refusals.{not_there};
ghost use Rattle.meaning.specs.SceneWords.{byte_of};
ghost use Rattle.scene_checks.specs.Facts.{Sound};
ghost use Rattle.list_words.specs.Listed.{word_of_pair, bytes_of};
ghost use Rattle.mesh_words.specs.Asked.{mesh_pair_at, mesh_pairs_in, MeshThere};

use list_words::byte_of;
use mesh_entries::{first_of, kind_of, second_of};
use pairs::word;

// The word of the k-th entry.
fn settle_entry(
    positions: &[i32],
    edges: &[u32],
    triangles: &[u32],
    stands: &[u32],
    list: &[u64],
    k: usize,
) -> u8
    requires { Sound (tabled positions.now edges.now triangles.now stands.now) × (k < length list.now)
        × (not_there (tabled positions.now edges.now triangles.now stands.now) (mesh_pair_at list.now k).kind
        (mesh_pair_at list.now k).first (mesh_pair_at list.now k).second ≡ false) }
    ensures { result ≡ byte_of
        (word_of_pair (tabled positions.now edges.now triangles.now stands.now) (mesh_pair_at list.now k)) }
{
    let entry = list[k];
    let kind = kind_of(entry);
    let first = first_of(entry);
    let second = second_of(entry);
    byte_of(word(positions, edges, triangles, stands, kind, first, second))
}

// Each of the first entries in turn, whichever pairs of the mesh they ask for.
pub fn settle_mesh_entries(
    positions: &[i32],
    edges: &[u32],
    triangles: &[u32],
    stands: &[u32],
    list: &[u64],
    out: &mut [u8],
    count: usize,
)
    requires { Sound (tabled positions.now edges.now triangles.now stands.now) × (count ≤ length list.now)
        × MeshThere (tabled positions.now edges.now triangles.now stands.now) count list.now × (count ≤ length out.old) }
    ensures { out.new ≡ written
        (bytes_of (tabled positions.now edges.now triangles.now stands.now) (mesh_pairs_in count list.now)) out.old }
{
    for k in 0..count {
        out[k] = settle_entry(positions, edges, triangles, stands, list, k);
    }
}
