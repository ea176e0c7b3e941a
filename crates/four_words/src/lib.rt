// What a piece and a pair of a scene are in the four words: hit, miss, touch or apart. Only the degenerate goes on to the search.

#![tactic(auto)]

pub mod six; // six.rt: the six points of a piece, as places in the positions
pub mod accepted; // accepted.rt: pieces and pairs of a scene that was checked already

ghost use Rattle.meaning.specs.Scene.{scene_of};
ghost use Rattle.meaning.specs.Resting.{PairDecided, PieceDecided};
ghost use Rattle.scene_seams.specs.Sewing.{Blank};
ghost use Rattle.scene_checks.specs.Checking.{Stitched};

use meaning::{Kind, Refusal, Settled, VERTEX_LIMIT};

// The word of a pair, for a scene that may be anything; and the table of its seams. The refusals are those of its verdict.
pub fn settle_into(
    positions: &[i32],
    edges: &[u16],
    triangles: &[u16],
    seams: &[u16],
    stands: &mut [u16],
    kind: Kind,
    first: usize,
    second: usize,
) -> Result<Settled, Refusal>
    requires { Blank seams.now stands.old }
    ensures { PairDecided (scene_of positions.now edges.now triangles.now seams.now) kind first second result
        × Stitched (scene_of positions.now edges.now triangles.now seams.now) stands.old stands.new }
{
    let verdict = three_words::pair_into(
        positions, edges, triangles, seams, stands, kind, first, second,
    )?;
    Ok(accepted::pair_word(
        positions, edges, triangles, stands, kind, first, second, verdict,
    ))
}

// The word of a pair: hit, miss, touch or apart, or a refusal. A scene without seams gets by without a table of them.
pub fn settle_pair(
    positions: &[i32],
    edges: &[u16],
    triangles: &[u16],
    seams: &[u16],
    kind: Kind,
    first: usize,
    second: usize,
) -> Result<Settled, Refusal>
    ensures { PairDecided (scene_of positions.now edges.now triangles.now seams.now) kind first second result }
{
    if seams.len() == 0 {
        let mut none = [0u16; 0];
        return settle_into(
            positions, edges, triangles, seams, &mut none, kind, first, second,
        );
    }
    let mut stands = [0u16; VERTEX_LIMIT];
    settle_into(
        positions,
        edges,
        triangles,
        seams,
        &mut stands,
        kind,
        first,
        second,
    )
}

// The word of one piece of a pair; and the table of the scene's seams.
fn settle_piece_into(
    positions: &[i32],
    edges: &[u16],
    triangles: &[u16],
    seams: &[u16],
    stands: &mut [u16],
    kind: Kind,
    first: usize,
    second: usize,
    piece: usize,
) -> Result<Settled, Refusal>
    requires { Blank seams.now stands.old }
    ensures { PieceDecided (scene_of positions.now edges.now triangles.now seams.now) kind first second piece result
        × Stitched (scene_of positions.now edges.now triangles.now seams.now) stands.old stands.new }
{
    let verdict = three_words::piece_into(
        positions, edges, triangles, seams, stands, kind, first, second, piece,
    )?;
    Ok(accepted::piece_word(
        positions, edges, triangles, stands, kind, first, second, piece, verdict,
    ))
}

// The word of one piece of a pair, or a refusal; `settle_pair` gives that of all of its pieces together.
pub fn settle_piece(
    positions: &[i32],
    edges: &[u16],
    triangles: &[u16],
    seams: &[u16],
    kind: Kind,
    first: usize,
    second: usize,
    piece: usize,
) -> Result<Settled, Refusal>
    ensures { PieceDecided (scene_of positions.now edges.now triangles.now seams.now) kind first second piece result }
{
    if seams.len() == 0 {
        let mut none = [0u16; 0];
        return settle_piece_into(
            positions, edges, triangles, seams, &mut none, kind, first, second, piece,
        );
    }
    let mut stands = [0u16; VERTEX_LIMIT];
    settle_piece_into(
        positions,
        edges,
        triangles,
        seams,
        &mut stands,
        kind,
        first,
        second,
        piece,
    )
}
