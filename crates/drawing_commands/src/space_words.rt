ghost use Rattle.command_words.specs.Arguments.{equals_sign, natural_within};
ghost use Rattle.design_model.specs.WholeNumbers.{parsed_whole};
ghost use Rattle.drawing_commands.specs.Mistakes.{mistaken_word};
ghost use Rattle.drawing_commands.specs.SpaceWords.{limits_by_key, limits_with_leeway, limits_with_length, limits_with_word, no_limits, parsed_spacing};
ghost use Rattle.std.specs.Prelude.{◌≡◌, map, string_bytes};
ghost use Rattle.std.specs.Result.{result_map_both};

use crate::mistake::{Misfit, Mistake};
use command_words::parse_natural;
use spaced_lines::SpacingLimits;
use text_parts::split_first;

/// The greatest straight length of a stitch that may be given, in tenths of a millimetre.
pub const MAX_LENGTH: u32 = 2_047;

/// The greatest leeway that may be given, in tenths of a millimetre.
pub const MAX_LEEWAY: u32 = 100;

/// Parses what arguments give of the rule of `space`.
pub fn parse_spacing(words: &[String]) -> Result<SpacingLimits, Mistake<'_>>
    ensures said { parsed_spacing no_limits (map (λ word. string_bytes word) words.now)
        ≡ result_map_both (λ limits. limits) mistaken_word result }
{
    let mut limits = SpacingLimits {
        length: None,
        leeway: None,
    };
    let mut rest = words;
    while let Some((word, after)) = rest.split_first() {
        limits = with_word(limits, word.as_str())?;
        rest = after;
    }
    Ok(limits)
}

fn with_word(limits: SpacingLimits, word: &str) -> Result<SpacingLimits, Mistake<'_>>
    ensures said { limits_with_word limits word.now
        ≡ result_map_both (λ next. next) mistaken_word result }
{
    match split_first(word.as_bytes(), b'=') {
        Some((key, value)) => with_key(limits, word, key, value),
        None => Err(Mistake {
            word,
            why: Misfit::NotUnderstood,
        }),
    }
}

fn with_key<'a>(
    limits: SpacingLimits,
    word: &'a str,
    key: &[u8],
    value: &[u8],
) -> Result<SpacingLimits, Mistake<'a>>
    ensures said { limits_by_key limits word.now key.now value.now
        ≡ result_map_both (λ next. next) mistaken_word result }
{
    match key {
        key if key == b"length".as_slice() => with_length(limits, word, value),
        key if key == b"leeway".as_slice() => with_leeway(limits, word, value),
        _ => Err(Mistake {
            word,
            why: Misfit::NotUnderstood,
        }),
    }
}

fn with_length<'a>(
    limits: SpacingLimits,
    word: &'a str,
    value: &[u8],
) -> Result<SpacingLimits, Mistake<'a>>
    ensures said { limits_with_length limits word.now (natural_within 1 MAX_LENGTH (parsed_whole value.now))
        ≡ result_map_both (λ next. next) mistaken_word result }
{
    match parse_natural(1, MAX_LENGTH, value) {
        Some(number) => Ok(SpacingLimits {
            length: Some(number as u16),
            leeway: limits.leeway,
        }),
        None => Err(Mistake {
            word,
            why: Misfit::LengthRange,
        }),
    }
}

fn with_leeway<'a>(
    limits: SpacingLimits,
    word: &'a str,
    value: &[u8],
) -> Result<SpacingLimits, Mistake<'a>>
    ensures said { limits_with_leeway limits word.now (natural_within 0 MAX_LEEWAY (parsed_whole value.now))
        ≡ result_map_both (λ next. next) mistaken_word result }
{
    match parse_natural(0, MAX_LEEWAY, value) {
        Some(number) => Ok(SpacingLimits {
            length: limits.length,
            leeway: Some(number as u16),
        }),
        None => Err(Mistake {
            word,
            why: Misfit::LeewayRange,
        }),
    }
}
