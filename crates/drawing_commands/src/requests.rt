ghost use Rattle.command_words.specs.ValidNames.{AreFileNames};
ghost use Rattle.design_model.specs.WholeNumbers.{parsed_whole};
ghost use Rattle.design_model.specs.declared.whole_number.Whole.TheVariants as whole;
ghost use Rattle.drawing_commands.specs.DrawingEditWords.{first_mistaken_edit, parsed_drawing_edits};
ghost use Rattle.drawing_commands.specs.Mistakes.{mistaken_word};
ghost use Rattle.drawing_commands.specs.Names.{gap_of, gap_or_mistake, name_or_mistake, named_words, nothing_after, parsed_gap, parsed_keep, parsed_names, unless_input};
ghost use Rattle.drawing_commands.specs.Requests.{command_order, drawing_edit_parsed, edits_after, edits_parsed, HasFileNames, order_of_request, parsed_cross, parsed_drawing_words, parsed_free, parsed_look, parsed_near, parsed_snap, parsed_space};
ghost use Rattle.outside_io.specs.Files.{IsFileName};
ghost use Rattle.drawing_commands.specs.declared.requests.TheConstants.{MAX_GAP};
ghost use Rattle.std.specs.Prelude.{◌≡◌, ◌≤◌, Err, IfErr, IfOk, IfSome, Ok, Some, length, map, option_map, string_bytes};
ghost use Rattle.std.specs.Result.{result_map_both};

use crate::drawing_edit_words::first_mistaken_edit;
use crate::mistake::{Misfit, Mistake};
use crate::space_words::parse_spacing;
use command_words::FileNames;
use design_model::{Whole, parse_whole};
use outside_io::is_name;
use spaced_lines::SpacingLimits;

/// The gap where none is given, in tenths of a millimetre.
const DEFAULT_GAP: u16 = 2;

/// The greatest gap, in tenths of a millimetre.
pub const MAX_GAP: u16 = 100;

/// What the arguments request.
#[derive(Clone, Copy)]
pub enum DrawingRequest<'a> {
    /// A report on a drawing, with a gap in tenths of a millimetre.
    Look {
        file: &'a str,
        gap: u16,
    },
    /// A snapped drawing, with a gap in tenths of a millimetre. Copies of segments are left out, unless they are
    /// kept.
    Snap {
        gap: u16,
        keeps_copies: bool,
        names: FileNames<'a>,
    },
    /// A drawing whose lines list where they cross. Copies of segments are left out, unless they are kept.
    Cross {
        keeps_copies: bool,
        names: FileNames<'a>,
    },
    /// A spaced drawing, with what is given of the rule.
    Space {
        limits: SpacingLimits,
        names: FileNames<'a>,
    },
    /// A drawing whose pieces have the best starts and ends.
    Free(FileNames<'a>),
    /// A drawing with little travel between its pieces.
    Near(FileNames<'a>),
    /// An edited drawing. The edits are arguments.
    Edit {
        names: FileNames<'a>,
        edits: &'a [String],
    },
    /// The usage text.
    Help,
    /// The name of the program, and its version.
    Version,
}

/// What the arguments of a command request, or the first that isn't understood.
type Requested<'a> = Result<DrawingRequest<'a>, Mistake<'a>>;

/// Parses the arguments: `look DRAWING [GAP]`, `snap GAP DRAWING OUT [--keep]`, `cross DRAWING OUT [--keep]`, `space DRAWING OUT [length=N] [leeway=N]`,
/// `free DRAWING OUT`, `near DRAWING OUT`, `edit DRAWING OUT EDIT...`, `--help` or `--version`. The error is the first that isn't understood, and `None` without
/// arguments. Allocates nothing.
pub fn drawing_request(words: &[String]) -> Result<DrawingRequest<'_>, Option<Mistake<'_>>>
    ensures ok { IfOk result (λ requested. parsed_drawing_words (map (λ word. string_bytes word) words.now)
        ≡ Ok (order_of_request requested)) }
    ensures err { IfErr result (λ mistake. parsed_drawing_words (map (λ word. string_bytes word) words.now)
        ≡ Err (option_map mistaken_word mistake)) }
    ensures sound { IfOk result HasFileNames }
{
    let [command, rest @ ..] = words else {
        return Err(None);
    };
    match command_request(command.as_str(), rest) {
        Ok(requested) => Ok(requested),
        Err(mistake) => Err(Some(mistake)),
    }
}

#[tactic(auto, unfolding(crate::specs::Requests::command_order))]
fn command_request<'a>(command: &'a str, words: &'a [String]) -> Requested<'a>
    ensures said { command_order command.now (map (λ word. string_bytes word) words.now)
        ≡ result_map_both order_of_request mistaken_word result }
    ensures sound { IfOk result HasFileNames }
{
    match command {
        name if name == "look" => look_request(command, words),
        name if name == "snap" => snap_request(command, words),
        name if name == "cross" => cross_request(command, words),
        name if name == "space" => space_request(command, words),
        name if name == "free" => free_request(command, words),
        name if name == "near" => near_request(command, words),
        name if name == "edit" => edit_request(command, words),
        name if name == "--help" => alone(DrawingRequest::Help, words),
        name if name == "--version" => alone(DrawingRequest::Version, words),
        _ => Err(Mistake {
            word: command,
            why: Misfit::NotACommand,
        }),
    }
}

fn look_request<'a>(command: &'a str, words: &'a [String]) -> Requested<'a>
    ensures said { parsed_look command.now (map (λ word. string_bytes word) words.now)
        ≡ result_map_both order_of_request mistaken_word result }
    ensures sound { IfOk result HasFileNames }
{
    let [file, rest @ ..] = words else {
        return Err(Mistake {
            word: command,
            why: Misfit::NoFile,
        });
    };
    let file = named(file.as_str())?;
    let gap = gap_after(rest)?;
    Ok(DrawingRequest::Look { file, gap })
}

/// Parses the arguments after the file of `look`.
fn gap_after(words: &[String]) -> Result<u16, Mistake<'_>>
    ensures said { parsed_gap (map (λ word. string_bytes word) words.now)
        ≡ result_map_both (λ gap. gap) mistaken_word result }
{
    match words {
        [] => Ok(DEFAULT_GAP),
        [gap] => parse_gap(gap.as_str()),
        [gap, more, ..] => {
            parse_gap(gap.as_str())?;
            Err(Mistake {
                word: more.as_str(),
                why: Misfit::NotUnderstood,
            })
        }
    }
}

fn snap_request<'a>(command: &'a str, words: &'a [String]) -> Requested<'a>
    ensures said { parsed_snap command.now (map (λ word. string_bytes word) words.now)
        ≡ result_map_both order_of_request mistaken_word result }
    ensures sound { IfOk result HasFileNames }
{
    let [gap_word, rest @ ..] = words else {
        return Err(Mistake {
            word: command,
            why: Misfit::NoGap,
        });
    };
    let gap = parse_gap(gap_word.as_str())?;
    let (names, after) = named_rest(gap_word.as_str(), rest)?;
    let keeps_copies = keep_after(after)?;
    Ok(DrawingRequest::Snap {
        gap,
        keeps_copies,
        names,
    })
}

fn cross_request<'a>(command: &'a str, words: &'a [String]) -> Requested<'a>
    ensures said { parsed_cross command.now (map (λ word. string_bytes word) words.now)
        ≡ result_map_both order_of_request mistaken_word result }
    ensures sound { IfOk result HasFileNames }
{
    let (names, after) = named_rest(command, words)?;
    let keeps_copies = keep_after(after)?;
    Ok(DrawingRequest::Cross {
        keeps_copies,
        names,
    })
}

/// Parses the arguments after the files of `snap` and `cross`: `--keep`, or none.
fn keep_after(words: &[String]) -> Result<bool, Mistake<'_>>
    ensures said { parsed_keep (map (λ word. string_bytes word) words.now)
        ≡ result_map_both (λ keeps. keeps) mistaken_word result }
{
    match words {
        [] => Ok(false),
        [word] if word.as_str() == "--keep" => Ok(true),
        [word, more, ..] if word.as_str() == "--keep" => Err(Mistake {
            word: more.as_str(),
            why: Misfit::NotUnderstood,
        }),
        [word, ..] => Err(Mistake {
            word: word.as_str(),
            why: Misfit::NotUnderstood,
        }),
    }
}

fn space_request<'a>(command: &'a str, words: &'a [String]) -> Requested<'a>
    ensures said { parsed_space command.now (map (λ word. string_bytes word) words.now)
        ≡ result_map_both order_of_request mistaken_word result }
    ensures sound { IfOk result HasFileNames }
{
    let (names, after) = named_rest(command, words)?;
    let limits = parse_spacing(after)?;
    Ok(DrawingRequest::Space { limits, names })
}

fn free_request<'a>(command: &'a str, words: &'a [String]) -> Requested<'a>
    ensures said { parsed_free command.now (map (λ word. string_bytes word) words.now)
        ≡ result_map_both order_of_request mistaken_word result }
    ensures sound { IfOk result HasFileNames }
{
    let (names, after) = named_rest(command, words)?;
    alone(DrawingRequest::Free(names), after)
}

fn near_request<'a>(command: &'a str, words: &'a [String]) -> Requested<'a>
    ensures said { parsed_near command.now (map (λ word. string_bytes word) words.now)
        ≡ result_map_both order_of_request mistaken_word result }
    ensures sound { IfOk result HasFileNames }
{
    let (names, after) = named_rest(command, words)?;
    alone(DrawingRequest::Near(names), after)
}

fn edit_request<'a>(command: &'a str, words: &'a [String]) -> Requested<'a>
    ensures said { drawing_edit_parsed command.now (map (λ word. string_bytes word) words.now)
        ≡ result_map_both order_of_request mistaken_word result }
    ensures sound { IfOk result HasFileNames }
{
    let (names, edits) = named_rest(command, words)?;
    match edits {
        [] => Err(Mistake {
            word: names.output,
            why: Misfit::NoEdit,
        }),
        [_, ..] => edits_request(names, edits),
    }
}

fn edits_request<'a>(names: FileNames<'a>, edits: &'a [String]) -> Requested<'a>
    requires names { AreFileNames names }
    requires some { 1 ≤ length edits.now }
    ensures said { edits_parsed names.entry.input.now names.entry.output.now
        (map (λ word. string_bytes word) edits.now)
        ≡ result_map_both order_of_request mistaken_word result }
    ensures sound { IfOk result HasFileNames }
{
    match first_mistaken_edit(edits) {
        Some(word) => Err(Mistake {
            word,
            why: Misfit::NotAnEdit,
        }),
        None => Ok(DrawingRequest::Edit { names, edits }),
    }
}

/// Returns a request after which no argument is left.
fn alone<'a>(requested: DrawingRequest<'a>, words: &'a [String]) -> Requested<'a>
    requires { HasFileNames requested }
    ensures said { nothing_after (order_of_request requested.entry)
        (map (λ word. string_bytes word) words.now)
        ≡ result_map_both order_of_request mistaken_word result }
    ensures sound { IfOk result HasFileNames }
{
    match words {
        [] => Ok(requested),
        [word, ..] => Err(Mistake {
            word: word.as_str(),
            why: Misfit::NotUnderstood,
        }),
    }
}

/// Returns the two different file names with which the arguments after another begin, and those after them.
fn named_rest<'a>(
    before: &'a str,
    words: &'a [String],
) -> Result<(FileNames<'a>, &'a [String]), Mistake<'a>>
    ensures said { parsed_names before.now (map (λ word. string_bytes word) words.now)
        ≡ result_map_both (λ all. named_words all.0 (map (λ word. string_bytes word) all.1.now)) mistaken_word result }
    ensures names { IfOk result (λ all. AreFileNames all.0) }
{
    match words {
        [input, output, rest @ ..] => {
            let input = named(input.as_str())?;
            let output = named(output.as_str())?;
            let output = apart(input, output)?;
            Ok((FileNames { input, output }, rest))
        }
        [input] => Err(Mistake {
            word: input.as_str(),
            why: Misfit::NoFile,
        }),
        [] => Err(Mistake {
            word: before,
            why: Misfit::NoFile,
        }),
    }
}

/// Returns an argument that is a file name.
fn named(word: &str) -> Result<&str, Mistake<'_>>
    ensures said { name_or_mistake word.now
        ≡ result_map_both (λ name. name.now) mistaken_word result }
    ensures name { IfOk result (λ name. IsFileName name.now) }
{
    if is_name(word) {
        Ok(word)
    } else {
        Err(Mistake {
            word,
            why: Misfit::NotAFileName,
        })
    }
}

/// Returns the name of the output, if it differs from that of the input.
fn apart<'a>(input: &str, output: &'a str) -> Result<&'a str, Mistake<'a>>
    requires { IsFileName output.now }
    ensures said { unless_input input.now output.now
        ≡ result_map_both (λ name. name.now) mistaken_word result }
    ensures name { IfOk result (λ name. IsFileName name.now) }
{
    if input == output {
        Err(Mistake {
            word: output,
            why: Misfit::IsInput,
        })
    } else {
        Ok(output)
    }
}

/// Parses a gap from 0 to 100.
fn parse_gap(word: &str) -> Result<u16, Mistake<'_>>
    ensures said { gap_or_mistake word.now
        ≡ result_map_both (λ gap. gap) mistaken_word result }
    ensures small { IfOk result (λ gap. gap ≤ MAX_GAP) }
{
    match gap_in(word.as_bytes()) {
        Some(gap) => Ok(gap),
        None => Err(Mistake {
            word,
            why: Misfit::GapRange,
        }),
    }
}

fn gap_in(word: &[u8]) -> Option<u16>
    ensures value { result ≡ gap_of (parsed_whole word.now) }
    ensures small { IfSome result (λ gap. gap ≤ MAX_GAP) }
{
    match parse_whole(word) {
        Whole::Value(n) => gap_in_range(n),
        Whole::Outside | Whole::NotANumber => None,
    }
}

fn gap_in_range(n: i32) -> Option<u16>
    ensures value { result ≡ gap_of (whole.Value n) }
    ensures small { IfSome result (λ gap. gap ≤ MAX_GAP) }
{
    match u16::try_from(n) {
        Ok(n) if n <= MAX_GAP => Some(n),
        _ => None,
    }
}
