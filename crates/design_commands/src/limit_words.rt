ghost use Rattle.command_words.specs.Arguments.{natural_within, equals_sign};
ghost use Rattle.design_commands.specs.LimitWords.{key_of_name, limits_if_key, limits_with, parsed_limits, usual_limits, with_limit};
ghost use Rattle.design_commands.specs.Mistakes.{mistaken_word};
ghost use Rattle.design_model.specs.WholeNumbers.{parsed_whole};
ghost use Rattle.std.specs.Prelude.{◌≡◌, map, string_bytes};
ghost use Rattle.std.specs.Result.{result_map_both};

use crate::mistake::{Misfit, Mistake};
use command_words::parse_natural;
use design_review::ReviewLimits;
use text_parts::split_first;

/// The greatest limit.
pub const MAX_LIMIT: u32 = 1_000;

/// The key of a limit.
#[derive(Clone, Copy)]
pub enum LimitKey {
    Short,
    Long,
    Float,
    Tie,
    Hole,
}

/// Returns the limits where no argument gives another.
pub fn usual() -> ReviewLimits
    ensures { result ≡ usual_limits }
{
    ReviewLimits {
        short: 3,
        long: 70,
        float: 60,
        tie: 20,
        hole: 6,
    }
}

/// Parses limits in order, from the usual ones on.
pub fn parse_limits(words: &[String]) -> Result<ReviewLimits, Mistake<'_>>
    ensures said { parsed_limits usual_limits (map string_bytes words.now)
        ≡ result_map_both (λ limits. limits) mistaken_word result }
{
    let mut limits = usual();
    let mut rest = words;
    while let Some((word, after)) = rest.split_first() {
        limits = limits_with(limits, word.as_str())?;
        rest = after;
    }
    Ok(limits)
}

fn limits_with(limits: ReviewLimits, word: &str) -> Result<ReviewLimits, Mistake<'_>>
    ensures said { limits_with limits word.now
        ≡ result_map_both (λ next. next) mistaken_word result }
{
    match split_first(word.as_bytes(), b'=') {
        Some((name, value)) => limits_by_key(limits, word, name, value),
        None => Err(Mistake {
            word,
            why: Misfit::NotALimit,
        }),
    }
}

fn limits_by_key<'a>(
    limits: ReviewLimits,
    word: &'a str,
    name: &[u8],
    value: &[u8],
) -> Result<ReviewLimits, Mistake<'a>>
    ensures said { limits_if_key limits word.now value.now (key_of_name name.now)
        ≡ result_map_both (λ next. next) mistaken_word result }
{
    let Some(key) = key_of(name) else {
        return Err(Mistake {
            word,
            why: Misfit::NotALimit,
        });
    };
    match parse_natural(0, MAX_LIMIT, value) {
        Some(number) => Ok(with_limit(limits, key, number)),
        None => Err(Mistake {
            word,
            why: Misfit::LimitRange,
        }),
    }
}

fn key_of(name: &[u8]) -> Option<LimitKey>
    ensures { result ≡ key_of_name name.now }
{
    match name {
        name if name == b"short".as_slice() => Some(LimitKey::Short),
        name if name == b"long".as_slice() => Some(LimitKey::Long),
        name if name == b"float".as_slice() => Some(LimitKey::Float),
        name if name == b"tie".as_slice() => Some(LimitKey::Tie),
        name if name == b"hole".as_slice() => Some(LimitKey::Hole),
        _ => None,
    }
}

fn with_limit(limits: ReviewLimits, key: LimitKey, number: u32) -> ReviewLimits
    ensures { result ≡ with_limit limits key number }
{
    match key {
        LimitKey::Short => ReviewLimits {
            short: number,
            ..limits
        },
        LimitKey::Long => ReviewLimits {
            long: number,
            ..limits
        },
        LimitKey::Float => ReviewLimits {
            float: number,
            ..limits
        },
        LimitKey::Tie => ReviewLimits {
            tie: number,
            ..limits
        },
        LimitKey::Hole => ReviewLimits {
            hole: number,
            ..limits
        },
    }
}
