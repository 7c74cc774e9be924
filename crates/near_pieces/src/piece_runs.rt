ghost use Rattle.near_pieces.specs.PieceRuns.{block_runs};
ghost use Rattle.std.specs.List.{prefix_len};
ghost use Rattle.std.specs.Prelude.{◌≡◌, ◌<◌, ◌==◌, ◌∷◌, ◌≤◌, length};

use line_graph::Piece;

/// Returns the first pieces that are of one block, and the others.
pub(crate) fn first_run(pieces: &[Piece]) -> (&[Piece], &[Piece])
    requires { 0 < length pieces.now }
    ensures runs { block_runs pieces.now ≡ result.0.now ∷ block_runs result.1.now }
    ensures shorter { length result.1.now < length pieces.now }
    ensures few { length result.0.now ≤ length pieces.now }
{
    match pieces {
        [first, more @ ..] => pieces.split_at(1 + in_block(first.block, more)),
        [] => (pieces, pieces),
    }
}

/// Returns the number of first pieces that are of a block.
fn in_block(block: u32, pieces: &[Piece]) -> usize
    ensures value { result ≡ prefix_len (λ piece. piece.block == block) pieces.now }
    ensures most { result ≤ length pieces.now }
{
    let mut count = 0;
    let mut rest = pieces;
    while let [piece, after @ ..] = rest {
        if piece.block != block {
            return count;
        }
        count += 1;
        rest = after;
    }
    count
}
