ghost use Rattle.certificate_text.specs.ReadCertificates.{draft_with_text_line, draft_with_line};
ghost use Rattle.certificate_text.specs.declared.lines.CertLine.TheVariants as line;
ghost use Rattle.std.specs.Prelude.{◌≡◌, ◌∷◌, ◌++◌, [], IfOk};

use crate::lines::{CertLine, line_of};
use design_model::Memory;
use line_graph::Walk;
use odd_cuts::{Cut, Cuts, PieceCert, PieceCerts};
use std::alloc::Global;

/// A draft: the certificate of the text lines so far.
#[derive(Drop)]
pub enum CertDraft {
    /// There is no line yet.
    Empty,
    /// There is the first line, and no piece yet.
    Headed,
    /// The pieces in `done` are complete, and a piece with the retraced cost needs its walk.
    AwaitingWalk { done: PieceCerts, retraced: u32 },
    /// The pieces in `done` are complete, and more cuts of `piece` may follow.
    InPiece { done: PieceCerts, piece: PieceCert },
    /// The certificate is complete.
    Complete { pieces: PieceCerts },
}

impl CertDraft {
    /// Returns the draft with one more line, if such a line may follow.
    pub(crate) fn with_line(self, alloc: Global, line: &[u8]) -> Result<Option<CertDraft>, Memory>
        ensures { IfOk result (λ new. new ≡ draft_with_text_line self line.now) }
    {
        match line_of(alloc, line)? {
            Some(said) => self.judge(alloc, said),
            None => Ok(None),
        }
    }

    fn judge(self, alloc: Global, said: CertLine) -> Result<Option<CertDraft>, Memory>
        ensures { IfOk result (λ new. new ≡ draft_with_line self said) }
    {
        match said {
            CertLine::Head => Ok(self.with_head()),
            CertLine::Piece(retraced) => self.with_piece(alloc, retraced),
            CertLine::Walk(walk) => Ok(self.with_walk(alloc, walk)),
            CertLine::Cut(cut) => self.with_cut(cut),
            CertLine::End => self.with_end(alloc),
        }
    }

    fn with_head(self) -> Option<CertDraft>
        ensures { result ≡ draft_with_line self line.Head }
    {
        match self {
            CertDraft::Empty => Some(CertDraft::Headed),
            _ => None,
        }
    }

    fn with_piece(self, alloc: Global, retraced: u32) -> Result<Option<CertDraft>, Memory>
        ensures { IfOk result (λ new. new ≡ draft_with_line self (line.Piece retraced)) }
    {
        let done = match self {
            CertDraft::Headed => PieceCerts::new(alloc),
            CertDraft::InPiece { done, piece } => with_piece_done(done, piece)?,
            _ => return Ok(None),
        };
        Ok(Some(CertDraft::AwaitingWalk { done, retraced }))
    }

    fn with_walk(self, alloc: Global, walk: Walk) -> Option<CertDraft>
        ensures { result ≡ draft_with_line self (line.Walk walk) }
    {
        match self {
            CertDraft::AwaitingWalk { done, retraced } => {
                let cuts = Cuts::new(alloc);
                let piece = PieceCert {
                    retraced,
                    walk,
                    cuts,
                };
                Some(CertDraft::InPiece { done, piece })
            }
            _ => None,
        }
    }

    fn with_cut(self, cut: Cut) -> Result<Option<CertDraft>, Memory>
        ensures { IfOk result (λ new. new ≡ draft_with_line self (line.Cut cut)) }
    {
        match self {
            CertDraft::InPiece { done, mut piece } => {
                piece.cuts.push(cut)?;
                Ok(Some(CertDraft::InPiece { done, piece }))
            }
            _ => Ok(None),
        }
    }

    fn with_end(self, alloc: Global) -> Result<Option<CertDraft>, Memory>
        ensures { IfOk result (λ new. new ≡ draft_with_line self line.End) }
    {
        let pieces = match self {
            CertDraft::Headed => PieceCerts::new(alloc),
            CertDraft::InPiece { done, piece } => with_piece_done(done, piece)?,
            _ => return Ok(None),
        };
        Ok(Some(CertDraft::Complete { pieces }))
    }
}

fn with_piece_done(done: PieceCerts, piece: PieceCert) -> Result<PieceCerts, Memory>
    ensures { IfOk result (λ pieces. pieces ≡ done ++ piece ∷ []) }
{
    let mut pieces = done;
    pieces.push(piece)?;
    Ok(pieces)
}
