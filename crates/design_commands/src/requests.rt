ghost use Rattle.design_commands.specs.Mistakes.{mistake_at, mistaken_word};
ghost use Rattle.command_words.specs.ValidNames.{AreFileNames};
ghost use Rattle.design_commands.specs.EditRequests.{compare, edits_after, edits_parsed, look, parsed_design_edit, pass, unless_input};
ghost use Rattle.design_commands.specs.Requests.{HasDesignNames, parsed_alone, parsed_command_words, parsed_compare, parsed_compare_flag, parsed_compare_flags, parsed_design_words, parsed_review, parsed_threads, requested_design};
ghost use Rattle.outside_io.specs.Files.{IsFileName, is_file_name};
ghost use Rattle.design_commands.specs.declared.mistake.Misfit.TheVariants as misfit;
ghost use Rattle.std.specs.Prelude.{◌≡◌, Err, IfErr, IfOk, List, Ok, false, map, option_map, string_bytes, true, ℕ};
ghost use Rattle.std.specs.Result.{result_map_both};

use crate::limit_words::parse_limits;
use crate::mistake::{Misfit, Mistake};
use command_words::FileNames;
use design_review::ReviewLimits;
use edited_designs::{edit_mistake, first_mistaken_edit};
use outside_io::is_name;

/// What the arguments request.
#[derive(Clone, Copy)]
pub enum DesignRequest<'a> {
    /// A report on the design of a file.
    Look {
        file: &'a str,
        limits: ReviewLimits,
    },
    /// Whether the design of a file has no place.
    Pass {
        file: &'a str,
        limits: ReviewLimits,
    },
    /// The edited design of a file, as another file. The edits are arguments.
    Edit {
        names: FileNames<'a>,
        edits: &'a [String],
    },
    /// The first difference of the designs of two files: of their acts, and of their threads if it is asked for.
    Compare {
        first: &'a str,
        second: &'a str,
        threads: bool,
    },
    /// The threads of the blocks of a file.
    Threads {
        file: &'a str,
    },
    /// The threads of the palette.
    Palette,
    /// The usage text.
    Help,
    /// The name of the program, and its version.
    Version,
}

/// Parses the arguments. The error is the first that isn't understood, and `None` without arguments. Allocates nothing.
pub fn request(words: &[String]) -> Result<DesignRequest<'_>, Option<Mistake<'_>>>
    ensures ok { IfOk result (λ requested.
        parsed_design_words (map string_bytes words.now) ≡ Ok (requested_design requested)) }
    ensures err { IfErr result (λ mistake.
        parsed_design_words (map string_bytes words.now) ≡ Err (option_map mistaken_word mistake)) }
    ensures names { IfOk result HasDesignNames }
{
    let [command, rest @ ..] = words else {
        return Err(None);
    };
    match command_request(command.as_str(), rest) {
        Ok(requested) => Ok(requested),
        Err(mistake) => Err(Some(mistake)),
    }
}

#[tactic(auto, unfolding(crate::specs::Requests::parsed_command_words))]
fn command_request<'a>(
    command: &'a str,
    words: &'a [String],
) -> Result<DesignRequest<'a>, Mistake<'a>>
    ensures said { parsed_command_words command.now (map string_bytes words.now)
        ≡ result_map_both requested_design mistaken_word result }
    ensures names { IfOk result HasDesignNames }
{
    match command {
        name if name == "look" => look_request(command, words),
        name if name == "pass" => pass_request(command, words),
        name if name == "edit" => edit_request(command, words),
        name if name == "compare" => compare_request(command, words),
        name if name == "threads" => threads_request(words),
        name if name == "--help" => alone(DesignRequest::Help, words),
        name if name == "--version" => alone(DesignRequest::Version, words),
        _ => Err(Mistake {
            word: command,
            why: Misfit::NotACommand,
        }),
    }
}

fn look_request<'a>(command: &'a str, words: &'a [String]) -> Result<DesignRequest<'a>, Mistake<'a>>
    ensures said { parsed_review look command.now (map string_bytes words.now)
        ≡ result_map_both requested_design mistaken_word result }
    ensures names { IfOk result HasDesignNames }
{
    let [file, rest @ ..] = words else {
        return Err(Mistake {
            word: command,
            why: Misfit::NoFile,
        });
    };
    let file = named(file.as_str())?;
    let limits = parse_limits(rest)?;
    Ok(DesignRequest::Look { file, limits })
}

fn pass_request<'a>(command: &'a str, words: &'a [String]) -> Result<DesignRequest<'a>, Mistake<'a>>
    ensures said { parsed_review pass command.now (map string_bytes words.now)
        ≡ result_map_both requested_design mistaken_word result }
    ensures names { IfOk result HasDesignNames }
{
    let [file, rest @ ..] = words else {
        return Err(Mistake {
            word: command,
            why: Misfit::NoFile,
        });
    };
    let file = named(file.as_str())?;
    let limits = parse_limits(rest)?;
    Ok(DesignRequest::Pass { file, limits })
}

fn edit_request<'a>(command: &'a str, words: &'a [String]) -> Result<DesignRequest<'a>, Mistake<'a>>
    ensures said { parsed_design_edit command.now (map string_bytes words.now)
        ≡ result_map_both requested_design mistaken_word result }
    ensures names { IfOk result HasDesignNames }
{
    match words {
        [input, output, edits @ ..] => {
            let input = named(input.as_str())?;
            let output = named(output.as_str())?;
            let output = apart(input, output)?;
            some_edits(FileNames { input, output }, edits)
        }
        [input] => Err(Mistake {
            word: input.as_str(),
            why: Misfit::NoFile,
        }),
        [] => Err(Mistake {
            word: command,
            why: Misfit::NoFile,
        }),
    }
}

fn some_edits<'a>(
    names: FileNames<'a>,
    edits: &'a [String],
) -> Result<DesignRequest<'a>, Mistake<'a>>
    requires { AreFileNames names }
    ensures said { edits_after names.entry.input.now names.entry.output.now (map string_bytes edits.now)
        ≡ result_map_both requested_design mistaken_word result }
    ensures names { IfOk result HasDesignNames }
{
    match edits {
        [] => Err(Mistake {
            word: names.output,
            why: Misfit::NoEdit,
        }),
        [_, ..] => edits_request(names, edits),
    }
}

fn edits_request<'a>(
    names: FileNames<'a>,
    edits: &'a [String],
) -> Result<DesignRequest<'a>, Mistake<'a>>
    requires { AreFileNames names }
    ensures said { edits_parsed names.entry.input.now names.entry.output.now (map string_bytes edits.now)
        ≡ result_map_both requested_design mistaken_word result }
    ensures names { IfOk result HasDesignNames }
{
    match first_mistaken_edit(edits) {
        Some(word) => Err(Mistake {
            word,
            why: Misfit::Edit(edit_mistake(word.as_bytes())),
        }),
        None => Ok(DesignRequest::Edit { names, edits }),
    }
}

/// Returns the name of the output, if it differs from that of the input.
fn apart<'a>(input: &str, output: &'a str) -> Result<&'a str, Mistake<'a>>
    requires { IsFileName output.now }
    ensures said { unless_input input.now output.now
        ≡ result_map_both (λ name. name.now) mistaken_word result }
    ensures name { IfOk result (λ name. IsFileName name.now) }
{
    if input == output {
        Err(Mistake {
            word: output,
            why: Misfit::IsInput,
        })
    } else {
        Ok(output)
    }
}

fn compare_request<'a>(
    command: &'a str,
    words: &'a [String],
) -> Result<DesignRequest<'a>, Mistake<'a>>
    ensures said { parsed_compare command.now (map string_bytes words.now)
        ≡ result_map_both requested_design mistaken_word result }
    ensures names { IfOk result HasDesignNames }
{
    match words {
        [first, second, rest @ ..] => {
            let first = named(first.as_str())?;
            let second = named(second.as_str())?;
            let threads = compare_flags(rest)?;
            Ok(DesignRequest::Compare {
                first,
                second,
                threads,
            })
        }
        [first] => Err(Mistake {
            word: first.as_str(),
            why: Misfit::NoFile,
        }),
        [] => Err(Mistake {
            word: command,
            why: Misfit::NoFile,
        }),
    }
}

/// Parses the arguments of `compare` after its files: whether the threads are compared.
fn compare_flags(words: &[String]) -> Result<bool, Mistake<'_>>
    ensures said { (a b : List ℕ) → parsed_compare_flags a b (map string_bytes words.now)
        ≡ result_map_both (λ threads. compare a b threads) mistaken_word result }
{
    match words {
        [] => Ok(false),
        [flag, rest @ ..] => compare_flag(flag.as_str(), rest),
    }
}

fn compare_flag<'a>(flag: &'a str, words: &'a [String]) -> Result<bool, Mistake<'a>>
    ensures said { (a b : List ℕ) → parsed_compare_flag a b flag.now (map string_bytes words.now)
        ≡ result_map_both (λ threads. compare a b threads) mistaken_word result }
{
    if flag != "--threads" {
        return Err(Mistake {
            word: flag,
            why: Misfit::NotUnderstood,
        });
    }
    match words {
        [] => Ok(true),
        [word, ..] => Err(Mistake {
            word: word.as_str(),
            why: Misfit::NotUnderstood,
        }),
    }
}

fn threads_request(words: &[String]) -> Result<DesignRequest<'_>, Mistake<'_>>
    ensures said { parsed_threads (map string_bytes words.now)
        ≡ result_map_both requested_design mistaken_word result }
    ensures names { IfOk result HasDesignNames }
{
    match words {
        [] => Ok(DesignRequest::Palette),
        [file] => {
            let file = named(file.as_str())?;
            Ok(DesignRequest::Threads { file })
        }
        [_, more, ..] => Err(Mistake {
            word: more.as_str(),
            why: Misfit::NotUnderstood,
        }),
    }
}

/// Returns a request after which no argument is left.
fn alone<'a>(
    requested: DesignRequest<'a>,
    words: &'a [String],
) -> Result<DesignRequest<'a>, Mistake<'a>>
    requires { HasDesignNames requested }
    ensures said { parsed_alone (requested_design requested.entry) (map string_bytes words.now)
        ≡ result_map_both requested_design mistaken_word result }
    ensures names { IfOk result HasDesignNames }
{
    match words {
        [] => Ok(requested),
        [word, ..] => Err(Mistake {
            word: word.as_str(),
            why: Misfit::NotUnderstood,
        }),
    }
}

/// Returns an argument that is a file name.
fn named(word: &str) -> Result<&str, Mistake<'_>>
    ensures ok { IfOk result (λ name.
        (name.now ≡ word.now) × ((is_file_name word.now ≡ true) × IsFileName word.now)) }
    ensures err { IfErr result (λ mistake. (is_file_name word.now ≡ false)
        × (mistaken_word mistake ≡ mistake_at word.now misfit.NotAFileName)) }
{
    if is_name(word) {
        Ok(word)
    } else {
        Err(Mistake {
            word,
            why: Misfit::NotAFileName,
        })
    }
}
