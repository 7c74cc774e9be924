ghost use Rattle.route_texts.specs.Summaries.{summary_counts, summary_costs, summary_text};
ghost use Rattle.std.specs.Prelude.{◌≡◌, IfOk, string_bytes};

use design_model::{Bytes, Memory};
use std::alloc::Global;

/// The summary of the sample drawing of a number, and of a route of it: the numbers of lines, junctions, odd
/// junctions, pieces and penetrations, and three costs. The cost of the lines and the retraced cost are in
/// steps, the total weight of all cuts in halves of a step.
#[derive(Clone, Copy)]
pub struct Summary {
    pub number: u32,
    pub lines: u32,
    pub junctions: u32,
    pub odd: u32,
    pub pieces: u32,
    pub cost: u32,
    pub retraced: u32,
    pub penetrations: u32,
    pub cuts: u64,
}

/// Returns the text of a summary, a line for each number.
pub fn describe_summary(alloc: Global, s: Summary) -> Result<Bytes, Memory>
    ensures { IfOk result (λ text. text ≡ summary_text s) }
{
    let mut text = Bytes::new(alloc);
    text.append(counts_text(alloc, s)?.as_bytes())?;
    text.append(costs_text(alloc, s)?.as_bytes())?;
    Ok(text)
}

/// Returns the lines about a sample drawing.
fn counts_text(alloc: Global, s: Summary) -> Result<String, Memory>
    ensures { IfOk result (λ text. string_bytes text ≡ summary_counts s) }
{
    Ok(format!(in alloc;
        "sample {}\nlines {}\njunctions {}\nodd {}\npieces {}\n",
        s.number, s.lines, s.junctions, s.odd, s.pieces
    )?)
}

/// Returns the lines about the costs of a route.
fn costs_text(alloc: Global, s: Summary) -> Result<String, Memory>
    ensures { IfOk result (λ text. string_bytes text ≡ summary_costs s) }
{
    Ok(format!(in alloc;
        "cost {}\nretraced {}\npenetrations {}\ncuts {}\n",
        s.cost, s.retraced, s.penetrations, s.cuts
    )?)
}
