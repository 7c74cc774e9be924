ghost use Rattle.command_words.specs.Arguments.{parsed_edits};
ghost use Rattle.command_words.specs.Names.{names_and_rest, one_name, three_names, three_words, two_names};
ghost use Rattle.command_words.specs.RefitFlags.{are_in_either_order, parsed_refits};
ghost use Rattle.command_words.specs.Requests.{check, double, migrate, parsed_convert, parsed_edit_request, parsed_hoop, parsed_request, parsed_sample, route, show, trace};
ghost use Rattle.command_words.specs.ValidRequests.{IsValidRequest, request_value};
ghost use Rattle.std.specs.Prelude.{◌≡◌, IfSome, codes, is_some, map, option_map, string_bytes};

use crate::edit_words::parse_edit;
use crate::names::{
    FileNames, RouteNames, file_name, file_names, named_rest, only_name, route_names, three,
};
use crate::number_words::parse_natural;
use crate::requests::Request;

/// The maximum side of a hoop, in tenths of a millimetre.
pub const MAX_SIDE: u32 = 60_000;

/// The maximum number of a sample drawing.
pub const MAX_SAMPLE: u32 = 999_999;

/// Parses the arguments: `route DRAWING OUT CERT`, `check DRAWING FILE CERT`, `convert IN OUT [--split]
/// [--cut]`, `show FILE`, `edit IN OUT EDIT...`, `hoop FILE WIDTH HEIGHT`, `sample N DRAWING`, `migrate
/// DRAWING OUT`, `trace FILE DRAWING` or `double DRAWING OUT CERT`. Returns `None` for other arguments.
/// Allocates nothing.
pub fn request(words: &[String]) -> Option<Request<'_>>
    ensures value { option_map request_value result
        ≡ parsed_request (map (λ word. string_bytes word) words.now) }
    ensures sound { IfSome result IsValidRequest }
{
    match words {
        [command, rest @ ..] if command.as_str() == "route" => route_request(rest),
        [command, rest @ ..] if command.as_str() == "check" => check_request(rest),
        [command, rest @ ..] if command.as_str() == "convert" => convert_request(rest),
        [command, rest @ ..] if command.as_str() == "show" => show_request(rest),
        [command, rest @ ..] if command.as_str() == "edit" => edit_request(rest),
        [command, rest @ ..] if command.as_str() == "hoop" => hoop_request(rest),
        [command, rest @ ..] if command.as_str() == "sample" => sample_request(rest),
        [command, rest @ ..] if command.as_str() == "migrate" => migrate_request(rest),
        [command, rest @ ..] if command.as_str() == "trace" => trace_request(rest),
        [command, rest @ ..] if command.as_str() == "double" => double_request(rest),
        _ => None,
    }
}

fn route_request(words: &[String]) -> Option<Request<'_>>
    ensures value { option_map request_value result ≡ option_map (λ names. route names.0 names.1 names.2)
        (three_names (three_words (map (λ word. string_bytes word) words.now))) }
    ensures sound { IfSome result IsValidRequest }
{
    let RouteNames {
        drawing,
        design: out,
        cert,
    } = route_names(words)?;
    Some(Request::Route { drawing, out, cert })
}

fn check_request(words: &[String]) -> Option<Request<'_>>
    ensures value { option_map request_value result ≡ option_map (λ names. check names.0 names.1 names.2)
        (three_names (three_words (map (λ word. string_bytes word) words.now))) }
    ensures sound { IfSome result IsValidRequest }
{
    let RouteNames {
        drawing,
        design: file,
        cert,
    } = route_names(words)?;
    Some(Request::Check {
        drawing,
        file,
        cert,
    })
}

fn double_request(words: &[String]) -> Option<Request<'_>>
    ensures value { option_map request_value result ≡ option_map (λ names. double names.0 names.1 names.2)
        (three_names (three_words (map (λ word. string_bytes word) words.now))) }
    ensures sound { IfSome result IsValidRequest }
{
    let RouteNames {
        drawing,
        design: out,
        cert,
    } = route_names(words)?;
    Some(Request::Double { drawing, out, cert })
}

fn show_request(words: &[String]) -> Option<Request<'_>>
    ensures value { option_map request_value result
        ≡ option_map show (one_name (map (λ word. string_bytes word) words.now)) }
    ensures sound { IfSome result IsValidRequest }
{
    let file = only_name(words)?;
    Some(Request::Show { file })
}

fn migrate_request(words: &[String]) -> Option<Request<'_>>
    ensures value { option_map request_value result ≡ option_map (λ names. migrate names.0 names.1)
        (two_names (names_and_rest (map (λ word. string_bytes word) words.now))) }
    ensures sound { IfSome result IsValidRequest }
{
    let FileNames { input, output } = file_names(words)?;
    Some(Request::Migrate { input, output })
}

fn trace_request(words: &[String]) -> Option<Request<'_>>
    ensures value { option_map request_value result ≡ option_map (λ names. trace names.0 names.1)
        (two_names (names_and_rest (map (λ word. string_bytes word) words.now))) }
    ensures sound { IfSome result IsValidRequest }
{
    let FileNames {
        input: file,
        output: drawing,
    } = file_names(words)?;
    Some(Request::Trace { file, drawing })
}

fn convert_request(words: &[String]) -> Option<Request<'_>>
    ensures value { option_map request_value result
        ≡ parsed_convert (names_and_rest (map (λ word. string_bytes word) words.now)) }
    ensures sound { IfSome result IsValidRequest }
{
    let (FileNames { input, output }, flags) = named_rest(words)?;
    let (split, cut) = parse_refits(flags)?;
    Some(Request::Convert {
        input,
        output,
        split,
        cut,
    })
}

/// Parses the flags of `convert`: whether to split stitches, and whether to cut floats.
fn parse_refits(flags: &[String]) -> Option<(bool, bool)>
    ensures { result ≡ parsed_refits (map (λ word. string_bytes word) flags.now) }
{
    match flags {
        [] => Some((false, false)),
        [flag] if flag.as_str() == "--split" => Some((true, false)),
        [flag] if flag.as_str() == "--cut" => Some((false, true)),
        [first, second] if are_both(first.as_str(), second.as_str()) => Some((true, true)),
        _ => None,
    }
}

fn are_both(first: &str, second: &str) -> bool
    ensures { result ≡ are_in_either_order first.now second.now (codes "--split") (codes "--cut") }
{
    first == "--split" && second == "--cut" || first == "--cut" && second == "--split"
}

fn edit_request(words: &[String]) -> Option<Request<'_>>
    ensures value { option_map request_value result
        ≡ parsed_edit_request (names_and_rest (map (λ word. string_bytes word) words.now)) }
    ensures sound { IfSome result IsValidRequest }
{
    let (FileNames { input, output }, edits) = named_rest(words)?;
    if edits.is_empty() || !are_edits(edits) {
        return None;
    }
    Some(Request::Edit {
        input,
        output,
        edits,
    })
}

/// Returns whether each argument is an edit.
fn are_edits(words: &[String]) -> bool
    ensures { result ≡ is_some (parsed_edits (map (λ word. string_bytes word) words.now)) }
{
    words
        .iter()
        .all(|word| parse_edit(word.as_bytes()).is_some())
}

fn hoop_request(words: &[String]) -> Option<Request<'_>>
    ensures value { option_map request_value result
        ≡ parsed_hoop (three_words (map (λ word. string_bytes word) words.now)) }
    ensures sound { IfSome result IsValidRequest }
{
    let (file, width, height) = three(words)?;
    let w = parse_natural(1, MAX_SIDE, width.as_bytes())?;
    let h = parse_natural(1, MAX_SIDE, height.as_bytes())?;
    let file = file_name(file)?;
    Some(Request::Hoop { file, w, h })
}

fn sample_request(words: &[String]) -> Option<Request<'_>>
    ensures value { option_map request_value result
        ≡ parsed_sample (map (λ word. string_bytes word) words.now) }
    ensures sound { IfSome result IsValidRequest }
{
    match words {
        [number, rest @ ..] => {
            let n = parse_natural(1, MAX_SAMPLE, number.as_bytes())?;
            let drawing = only_name(rest)?;
            Some(Request::Sample { n, drawing })
        }
        [] => None,
    }
}
