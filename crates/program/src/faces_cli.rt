//! The command line of `faces`, read by `clap`: `overlay faces A [B ..]`, with the options of the other commands.

ghost use Rattle.std.specs.Prelude.{◌≡◌, true, IfOk, MatchResult, Some, codes, is_some, map};
ghost use Rattle.clap.specs.Matches.{matched_of};
ghost use Rattle.clap.specs.Words.{FailsBy, all_of, app_of, found_of, rows_of, rule_of};
ghost use Rattle.program.specs.Arguments.{IsRequired};
ghost use Rattle.program.specs.FacesLine.{HasFacesWords, IsFacesAskedBy, IsFacesCommand, IsFacesRefusalOf, IsFacesRequestOf, IsManyLayers, asks_for_faces, faces_app, faces_faults, faces_held, layers_rule};

use crate::asked::{CliFault, FacesRequest};
use crate::cli::{
    REPORT_HELP, described, fault_from, flag_arg, flag_held, number_arg, number_given, number_held,
    word_arg, workers_arg,
};
use clap::{Arg, ArgAction, ArgMatches, Command};
use engine::MOST_LAYERS;
use std::alloc::{AllocError, Global};
use std::convert::AsStr;

const TILE_HELP: &str =
    "The side of a tile, in grid units, 16 to 33554432 [default: 262144, or what fits]";

const SEGMENTS_HELP: &str =
    "The most segments of all layers together, 1 to 4294967295 [default: 1048576]";

/// Whether the words ask for faces: the first one behind the program's name is `faces`.
pub fn is_for_faces<S: AsStr>(words: &[S]) -> bool
    ensures { result ≡ asks_for_faces (map S.text words.now) }
{
    words.len() > 1 && words[1].as_str() == "faces"
}

fn layers_arg<'a>(alloc: Global) -> Arg<'a>
    ensures rule { rule_of result ≡ layers_rule }
    ensures required { IsRequired (codes "layers") result }
{
    Arg::new(alloc, "layers")
        .action(ArgAction::Append)
        .value_name("LAYER")
        .required(true)
        .num_args(1..MOST_LAYERS + 1)
        .help("The layers' files, 64 at most: POLYGON and MULTIPOLYGON texts")
}

/// The command as `clap` reads it.
fn parser<'a>(alloc: Global) -> Result<Command<'a>, AllocError>
    ensures shape { IfOk result (λ c. app_of c ≡ faces_app) }
    ensures chain { IfOk result (λ c. IsFacesCommand c) }
{
    described(alloc)
        .arg(word_arg(alloc))?
        .arg(layers_arg(alloc))?
        .arg(number_arg(alloc, "tile", 0, TILE_HELP))?
        .arg(workers_arg(alloc))?
        .arg(number_arg(alloc, "segments", 1, SEGMENTS_HELP))?
        .arg(flag_arg(alloc, "report", REPORT_HELP))
}

/// The names of the layers' files.
fn layers_held<'a>(alloc: Global, matches: &ArgMatches<'a>) -> Result<Vec<&'a str>, AllocError>
    requires { is_some (matched_of (found_of matches.now) (codes "layers")) ≡ true }
    ensures { IfOk result (λ v. all_of (codes "layers") (rows_of (found_of matches.now)) ≡ Some (map (λ n. n.now) v.items)) }
{
    match matches.get_strs("layers") {
        Some(names) => Vec::from_slice(alloc, names),
        None => unreachable!(),
    }
}

/// The parser takes at most 64 layers in a row, and may meet more where options stand between them.
fn request_of<'a>(alloc: Global, matches: &ArgMatches<'a>) -> Result<FacesRequest<'a>, CliFault>
    requires { HasFacesWords (found_of matches.now) }
    ensures { MatchResult result (IsFacesRequestOf (rows_of (found_of matches.now))) (IsManyLayers (rows_of (found_of matches.now))) }
{
    let Ok(layers) = layers_held(alloc, matches) else {
        return Err(CliFault::Memory);
    };
    if layers.len() > MOST_LAYERS {
        let Ok(text) = format!(in alloc; "overlay: more than {MOST_LAYERS} layers\n") else {
            return Err(CliFault::Memory);
        };
        return Err(CliFault::Refused(text));
    }
    Ok(FacesRequest {
        layers,
        side: number_given(matches, "tile"),
        workers: number_held(matches, "workers"),
        segments: number_given(matches, "segments"),
        report: flag_held(matches, "report"),
    })
}

/// What the words hold.
fn parsed<'a, S: AsStr>(alloc: Global, words: &'a [S]) -> Result<ArgMatches<'a>, clap::Error>
    ensures held { IfOk result (λ m. rows_of (found_of m) ≡ faces_held (map S.text words.entry.now)) }
    ensures faults { FailsBy (faces_faults (map S.text words.entry.now)) result }
    ensures words { IfOk result (λ m. HasFacesWords (found_of m)) }
{
    let command = parser(alloc)?;
    command.try_get_matches_from(words)
}

/// What the words ask of `faces`. The first word is the program's name, and the second one `faces`.
pub fn faces_request<'a, S: AsStr>(
    alloc: Global,
    words: &'a [S],
) -> Result<FacesRequest<'a>, CliFault>
    ensures { MatchResult result (IsFacesAskedBy (map S.text words.entry.now)) (IsFacesRefusalOf (map S.text words.entry.now)) }
{
    match parsed(alloc, words) {
        Ok(matches) => request_of(alloc, &matches),
        Err(error) => Err(fault_from(alloc, error)),
    }
}
