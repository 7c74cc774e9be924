ghost use Rattle.design_model.specs.ActPositions.{leaves_thread_loose};
ghost use Rattle.design_model.specs.Acts.{numbered};
ghost use Rattle.design_model.specs.declared.act.NumberedAct.{NumberedAct as NumberedActValue};
ghost use Rattle.design_model.specs.declared.design.TheConstants.{MAX_COMMANDS};
ghost use Rattle.design_model.specs.declared.act.Act.TheVariants as act;
ghost use Rattle.design_review.specs.BlockSummaries.{lesser_length};
ghost use Rattle.design_review.specs.OpenBlocks.{HasSmallLength, continued_summary, empty_block, with_blocks};
ghost use Rattle.std.specs.Prelude.{◌≡◌, ◌+◌, ◌∷◌, ◌<◌, ◌≤◌, ℕ, List, IfOk, Some, true, OnOk, length};

use crate::straight_lengths::StraightLengths;
use design_model::{Act, Items, Memory, Point};

/// What a block sews: its needles, the length of the thread between them, and the lengths of the shortest and of the longest
/// stitch, in thousandths of a millimetre.
#[derive(Clone, Copy)]
pub struct BlockSummary {
    pub needles: u32,
    /// The length of all stitches and floats.
    pub length: u128,
    /// None without a stitch.
    pub shortest: Option<u64>,
    /// 0 without a stitch.
    pub longest: u64,
}

/// Summaries of blocks, in order.
pub type BlockSummaries = Items<BlockSummary>;

/// A block whose stop isn't read yet: its summary so far, and the needle that the thread comes from, if it isn't loose.
#[derive(Clone, Copy)]
pub struct OpenBlock {
    pub summary: BlockSummary,
    pub before: Option<Point>,
}

impl OpenBlock {
    /// Returns a block without an act.
    pub fn new() -> OpenBlock
        ensures value { result ≡ empty_block }
        ensures small { HasSmallLength result.summary }
    {
        OpenBlock {
            summary: BlockSummary {
                needles: 0,
                length: 0,
                shortest: None,
                longest: 0,
            },
            before: None,
        }
    }

    /// Returns the block after an act. A stop adds the block to those that ended, and begins another.
    #[inline]
    pub fn after(
        self,
        ended: &mut BlockSummaries,
        lengths: &mut StraightLengths,
        act: Act,
    ) -> Result<OpenBlock, Memory>
        requires small { HasSmallLength self.summary }
        requires few { self.summary.needles < MAX_COMMANDS }
        ensures blocks { IfOk result (λ block. (n : ℕ) (rest : List NumberedActValue) →
            with_blocks ended.new block rest ≡ with_blocks ended.old self (numbered n act ∷ rest)) }
        ensures small { IfOk result (λ block. HasSmallLength block.summary) }
        ensures most { IfOk result (λ block. block.summary.needles ≤ self.summary.needles + 1) }
        ensures ended { OnOk result (length ended.new ≤ length ended.old + 1) }
    {
        match act {
            Act::Needle { at, float } => Ok(self.after_needle(lengths, at, float)),
            Act::Trim | Act::Stop => self.after_cut(ended, act),
        }
    }

    /// Returns the block after a trim or a stop. Both are rare, and are kept out of the loop.
    #[cold]
    #[inline(never)]
    fn after_cut(self, ended: &mut BlockSummaries, act: Act) -> Result<OpenBlock, Memory>
        requires cut { leaves_thread_loose act ≡ true }
        requires small { HasSmallLength self.summary }
        ensures blocks { IfOk result (λ block. (n : ℕ) (rest : List NumberedActValue) →
            with_blocks ended.new block rest ≡ with_blocks ended.old self (numbered n act ∷ rest)) }
        ensures small { IfOk result (λ block. HasSmallLength block.summary) }
        ensures most { IfOk result (λ block. block.summary.needles ≤ self.summary.needles) }
        ensures ended { OnOk result (length ended.new ≤ length ended.old + 1) }
    {
        if let Act::Stop = act {
            ended.push(self.summary)?;
            return Ok(OpenBlock::new());
        }
        Ok(OpenBlock {
            before: None,
            ..self
        })
    }

    #[inline]
    fn after_needle(self, lengths: &mut StraightLengths, at: Point, float: bool) -> OpenBlock
        requires small { HasSmallLength self.summary }
        requires few { self.summary.needles < MAX_COMMANDS }
        ensures summary { (n : ℕ) (rest : List NumberedActValue) →
            continued_summary result rest ≡ continued_summary self (numbered n (act.Needle at float) ∷ rest) }
        ensures small { HasSmallLength result.summary }
        ensures most { result.summary.needles ≡ self.summary.needles + 1 }
    {
        let summary = match self.before {
            Some(before) => self.summary.with_span(lengths.between(before, at), float),
            None => self.summary,
        };
        OpenBlock {
            summary: BlockSummary {
                needles: summary.needles + 1,
                ..summary
            },
            before: Some(at),
        }
    }
}

impl BlockSummary {
    ghost use Rattle.design_review.specs.OpenBlocks.{summary_with_span};

    /// Returns the summary with a span of the given length, but not the needle at its end.
    #[inline]
    fn with_span(self, length: u64, float: bool) -> BlockSummary
        requires small { HasSmallLength self }
        requires few { self.needles < MAX_COMMANDS }
        ensures { result ≡ summary_with_span self float length }
    {
        let sewn = BlockSummary {
            length: self.length + length as u128,
            ..self
        };
        if float {
            return sewn;
        }
        BlockSummary {
            shortest: Some(lesser(self.shortest, length)),
            longest: self.longest.max(length),
            ..sewn
        }
    }
}

/// Returns the lesser of two lengths, of which the first may be missing.
#[inline]
fn lesser(least: Option<u64>, length: u64) -> u64
    ensures { Some result ≡ lesser_length least length }
{
    match least {
        Some(least) => least.min(length),
        None => length,
    }
}
