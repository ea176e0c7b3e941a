// What a piece and a pair of a scene are: hit, miss or degenerate; and the refusals 5 and 6 of a pair that is asked for.

#![tactic(auto)]

mod pieces; // pieces.rt: the verdict of one piece, from the positions of its corners
pub mod accepted; // accepted.rt: pieces and pairs of a scene that was checked already

ghost use Rattle.meaning.specs.Scene.{scene_of};
ghost use Rattle.meaning.specs.Refusals.{Answers, outcome_alone, PairJudged, PieceJudged};
ghost use Rattle.scene_seams.specs.Sewing.{Blank};
ghost use Rattle.scene_checks.specs.Checking.{Stitched};
ghost use Rattle.three_words.specs.Asked.{Passes, asked_checks, PairAsked};

use meaning::{Kind, Refusal, VERTEX_LIMIT, Verdict};

// The first of 5 and 6 that holds.
fn first_of(missing: bool, shared: bool) -> Result<(), Refusal>
    ensures { Answers (asked_checks missing shared) Passes (outcome_alone result) }
{
    if missing {
        return Err(Refusal::NotThere);
    }
    if shared {
        return Err(Refusal::SharedVertex);
    }
    Ok(())
}

// The refusals of a pair that is asked for, in the table's order: those of the scene, then 5, then 6. `missing`: what is asked for of the pair
// isn't there. The seams are in the table then.
fn asked(
    positions: &[i32],
    edges: &[u16],
    triangles: &[u16],
    seams: &[u16],
    stands: &mut [u16],
    kind: Kind,
    first: usize,
    second: usize,
    missing: bool,
) -> Result<(), Refusal>
    requires { Blank seams.now stands.old }
    ensures { PairAsked (scene_of positions.now edges.now triangles.now seams.now) kind first second missing result
        × Stitched (scene_of positions.now edges.now triangles.now seams.now) stands.old stands.new }
{
    scene_checks::check_into(positions, edges, triangles, seams, stands)?;
    if scene_parts::asked::not_there(positions, edges, triangles, kind, first, second) {
        return first_of(true, false);
    }
    let shared = scene_parts::asked::shares_vertex(
        positions, edges, triangles, stands, kind, first, second,
    );
    first_of(missing, shared)
}

// The verdict of a pair, for a scene that may be anything; and the table of its seams.
pub fn pair_into(
    positions: &[i32],
    edges: &[u16],
    triangles: &[u16],
    seams: &[u16],
    stands: &mut [u16],
    kind: Kind,
    first: usize,
    second: usize,
) -> Result<Verdict, Refusal>
    requires { Blank seams.now stands.old }
    ensures { PairJudged (scene_of positions.now edges.now triangles.now seams.now) kind first second result
        × Stitched (scene_of positions.now edges.now triangles.now seams.now) stands.old stands.new }
{
    asked(
        positions, edges, triangles, seams, stands, kind, first, second, false,
    )?;
    Ok(accepted::pair(positions, edges, triangles, stands, kind, first, second))
}

// The verdict of a pair: hit, miss or degenerate, or a refusal. A scene without seams gets by without a table of them.
pub fn judge_pair(
    positions: &[i32],
    edges: &[u16],
    triangles: &[u16],
    seams: &[u16],
    kind: Kind,
    first: usize,
    second: usize,
) -> Result<Verdict, Refusal>
    ensures { PairJudged (scene_of positions.now edges.now triangles.now seams.now) kind first second result }
{
    if seams.len() == 0 {
        let mut none = [0u16; 0];
        return pair_into(
            positions, edges, triangles, seams, &mut none, kind, first, second,
        );
    }
    let mut stands = [0u16; VERTEX_LIMIT];
    pair_into(
        positions,
        edges,
        triangles,
        seams,
        &mut stands,
        kind,
        first,
        second,
    )
}

// The verdict of one piece of a pair; and the table of the scene's seams.
pub fn piece_into(
    positions: &[i32],
    edges: &[u16],
    triangles: &[u16],
    seams: &[u16],
    stands: &mut [u16],
    kind: Kind,
    first: usize,
    second: usize,
    piece: usize,
) -> Result<Verdict, Refusal>
    requires { Blank seams.now stands.old }
    ensures { PieceJudged (scene_of positions.now edges.now triangles.now seams.now) kind first second piece result
        × Stitched (scene_of positions.now edges.now triangles.now seams.now) stands.old stands.new }
{
    let missing = scene_parts::asked::piece_count(kind) <= piece;
    asked(
        positions, edges, triangles, seams, stands, kind, first, second, missing,
    )?;
    Ok(accepted::piece(
        positions, edges, triangles, stands, kind, first, second, piece,
    ))
}

// The verdict of one piece of a pair, or a refusal; `judge_pair` gives that of all of its pieces together.
pub fn judge_piece(
    positions: &[i32],
    edges: &[u16],
    triangles: &[u16],
    seams: &[u16],
    kind: Kind,
    first: usize,
    second: usize,
    piece: usize,
) -> Result<Verdict, Refusal>
    ensures { PieceJudged (scene_of positions.now edges.now triangles.now seams.now) kind first second piece result }
{
    if seams.len() == 0 {
        let mut none = [0u16; 0];
        return piece_into(
            positions, edges, triangles, seams, &mut none, kind, first, second, piece,
        );
    }
    let mut stands = [0u16; VERTEX_LIMIT];
    piece_into(
        positions,
        edges,
        triangles,
        seams,
        &mut stands,
        kind,
        first,
        second,
        piece,
    )
}
