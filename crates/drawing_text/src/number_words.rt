ghost use Rattle.design_model.specs.WholeNumbers.{parsed_whole};
ghost use Rattle.design_model.specs.declared.point.TheConstants.{NEEDLE_LIMIT as needle_limit};
ghost use Rattle.drawing_text.specs.TextLines.{parsed_coordinate, count_in_range, parsed_count};
ghost use Rattle.std.specs.Prelude.{◌≡◌, IfOk, ◌≤◌, unsigned_abs};

use design_model::{NEEDLE_LIMIT, Whole, parse_whole};
use line_graph::DrawKind;

/// Returns the number from `low` to `high` that a word denotes. Errors: `BadNumber` where it is no number,
/// `OutOfRange`.
pub fn count_in(low: u32, high: u32, word: &[u8]) -> Result<u32, DrawKind>
    ensures value { result ≡ parsed_count low high (parsed_whole word.now) }
    ensures low { IfOk result (λ n. low ≤ n) }
    ensures high { IfOk result (λ n. n ≤ high) }
{
    match parse_whole(word) {
        Whole::NotANumber => Err(DrawKind::BadNumber),
        Whole::Outside => Err(DrawKind::OutOfRange),
        Whole::Value(n) => count_from(low, high, n),
    }
}

fn count_from(low: u32, high: u32, n: i32) -> Result<u32, DrawKind>
    ensures value { result ≡ count_in_range low high n }
    ensures low { IfOk result (λ n. low ≤ n) }
    ensures high { IfOk result (λ n. n ≤ high) }
{
    match u32::try_from(n) {
        Ok(n) if low <= n && n <= high => Ok(n),
        _ => Err(DrawKind::OutOfRange),
    }
}

/// Returns the coordinate of a needle point that a word denotes, in tenths of a millimetre. Errors:
/// `BadNumber` where it is no number, `OutOfRange`.
pub fn coordinate(word: &[u8]) -> Result<i32, DrawKind>
    ensures value { result ≡ parsed_coordinate (parsed_whole word.now) }
    ensures within { IfOk result (λ n. unsigned_abs n ≤ needle_limit) }
{
    match parse_whole(word) {
        Whole::NotANumber => Err(DrawKind::BadNumber),
        Whole::Value(n) if n.unsigned_abs() <= NEEDLE_LIMIT => Ok(n),
        _ => Err(DrawKind::OutOfRange),
    }
}
