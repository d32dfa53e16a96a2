//! The command line, read by `clap`.

ghost use Rattle.std.specs.Prelude.{◌≡◌, IfOk, List, map, Some, true, is_some, false, [], ◌∷◌, MatchResult, codes, option_map};
ghost use Rattle.clap.specs.Facts.{WantsDefault};
ghost use Rattle.clap.specs.Words.{FailsBy, first_value, HasKind, Kinds, Row, app_of, args_of, first_of, found_of, groups_of, new_app, one_of, rows_of, rule_of};
ghost use Rattle.clap.specs.declared.builder.command.Command.TheViews.{out-Command as fields_of};
ghost use Rattle.program.specs.Arguments.{MayHaveNumber, HasNumber, HasWords, IsFlagArg, IsNumberArg, IsOverlayCommand, IsWanted};
ghost use Rattle.program.specs.CommandLine.{IsAskedBy, IsGivenNumber, IsHeldNumber, IsRefusalBy, IsRefusalIn, IsRefusalOf, is_set, IsRequestOf, command_of, faults, file_rule, flag_rule, held, number_rule, overlay_app, word_rule};

use crate::asked;
use crate::asked::{CliFault, Request};
use clap::builder::ValueParser;
use clap::error::ErrorKind;
use clap::{Arg, ArgAction, ArgMatches, Command};
use geom::Op;
use std::alloc::{AllocError, Global};
use std::convert::AsStr;

const ABOUT: &str =
    "Overlays two polygon layers on the integer grid, exactly and with proved rounding.";

const FIRST_HELP: &str = "The first layer's file: POLYGON and MULTIPOLYGON texts";

const TILE_HELP: &str =
    "The side of a tile, in grid units, 16 to 33554432 [default: 262144, or what fits]";

const WORKERS_HELP: &str = "The number of threads at work, 1 to 64";

const SEGMENTS_HELP: &str =
    "The most segments of both layers together, 1 to 4294967295 [default: 1048576]";

pub(crate) const REPORT_HELP: &str = "Prints the numbers of the run to standard error";

const COVERED_HELP: &str =
    "For an operation: a point lies in a layer where one of its features at least covers it";

const AREAS_HELP: &str =
    "For an operation: prints twice each area, and the steps of the routes, to standard error";

const AFTER: &str =
    "union, intersection, difference and symdifference print the result of that operation on the two
layers as one MULTIPOLYGON text.
edges prints a line `x1 y1 x2 y2 countA countB` for each edge of both layers after rounding.
faces, which stands before all other words, takes 1 to 64 layers, and prints a line for each set of
their features (polygon texts, numbered from 1) that covers some points together: twice the area, the
numbers of each layer's features, and the points as one MULTIPOLYGON text, with tabs between.
noded, which stands before all other words too, takes one file of lines `x1 y1 x2 y2`, as edges prints
them or another tool, and --workers N. It prints `noded` where no two different edges share a point but
a common end, and else refuses the least pair that does.

A layer is a text of POLYGON and MULTIPOLYGON geometries, at most 268435456 bytes long, with whole
coordinates from -268435456 to 268435456, in grid units. All layers together have at most 1048576
segments, or as many as --segments says, and each text then 256 bytes for each of them where that is
more, up to 4294967295; a million segments of parcels take some 110 MB. A layer is read by parity: a
point lies in it where an odd number of its rings have the point inside, so polygons of one layer that
overlap cancel each other there; faces reads each feature so, and features never cancel each other.
/dev/stdin reads a layer from standard input.

With --covered an operation reads each feature so too, and a point lies in a layer where one of its
features at least covers it, so that features of one layer that overlap don't cancel each other.

With --areas an operation without --covered prints two lines to standard error, behind those of
--report: `area2` with twice the areas of A, of B and of the result after rounding, in squares of the
grid, and `steps` with the sums of all countA and of all countB that edges prints.

The tiles and the number of threads have no influence on the text. Where no side of a tile is given
it is 262144, or where that gives more than 65536 tiles the least power of two that doesn't.

Exit status: 0 answered, 1 a file, the output or memory failed, 2 command line not accepted,
3 input refused.

Example: overlay intersection parcels.wkt zones.wkt > common.wkt

Version 2.0.0";

pub(crate) fn word_arg<'a>(alloc: Global) -> Arg<'a>
    ensures rule { rule_of result ≡ word_rule }
    ensures wanted { IsWanted (codes "command") result }
{
    Arg::new(alloc, "command")
        .action(ArgAction::Set)
        .required(true)
        .help(
            "What to compute: union, intersection, difference, symdifference, edges, faces or noded",
        )
}

fn file_arg<'a>(alloc: Global, id: &'a str, name: &'a str, help: &'a str) -> Arg<'a>
    ensures rule { rule_of result ≡ file_rule id.entry.now }
    ensures wanted { IsWanted id.entry.now result }
{
    Arg::new(alloc, id)
        .action(ArgAction::Set)
        .value_name(name)
        .required(true)
        .help(help)
}

/// An argument that takes a whole number, from the least one to 4,294,967,295.
pub(crate) fn number_arg<'a>(alloc: Global, id: &'a str, least: u32, help: &'a str) -> Arg<'a>
    ensures rule { rule_of result ≡ number_rule least id.entry.now [] }
    ensures number { IsNumberArg least id.entry.now result }
{
    Arg::new(alloc, id)
        .action(ArgAction::Set)
        .long(id)
        .value_name("N")
        .value_parser(ValueParser::signed(i64::from(least), i64::from(u32::MAX)))
        .help(help)
}

pub(crate) fn workers_arg<'a>(alloc: Global) -> Arg<'a>
    ensures rule { rule_of result ≡ number_rule 0 (codes "workers") (codes "4" ∷ []) }
    ensures number { IsNumberArg 0 (codes "workers") result }
    ensures default { WantsDefault result }
{
    number_arg(alloc, "workers", 0, WORKERS_HELP).default_value("4")
}

pub(crate) fn flag_arg<'a>(alloc: Global, id: &'a str, help: &'a str) -> Arg<'a>
    ensures rule { rule_of result ≡ flag_rule id.entry.now }
    ensures flag { IsFlagArg id.entry.now result }
{
    Arg::new(alloc, id)
        .long(id)
        .action(ArgAction::SetTrue)
        .help(help)
}

/// The bare command with its help, before it has arguments.
pub(crate) fn described<'a>(alloc: Global) -> Command<'a>
    ensures app { app_of result ≡ new_app (codes "overlay") }
    ensures empty { (args_of result ≡ []) × (groups_of result ≡ []) }
    ensures local { (fields_of result).has_globals ≡ false }
    ensures negates { (fields_of result).subcommand_negates_reqs ≡ false }
{
    Command::new(alloc, "overlay")
        .about(ABOUT)
        .after_help(AFTER)
}

/// The command as `clap` reads it.
fn parser<'a>(alloc: Global) -> Result<Command<'a>, AllocError>
    ensures shape { IfOk result (λ c. app_of c ≡ overlay_app) }
    ensures chain { IfOk result (λ c. IsOverlayCommand c) }
{
    described(alloc)
        .arg(word_arg(alloc))?
        .arg(file_arg(alloc, "a", "A", FIRST_HELP))?
        .arg(file_arg(alloc, "b", "B", "The second layer's file"))?
        .arg(number_arg(alloc, "tile", 0, TILE_HELP))?
        .arg(workers_arg(alloc))?
        .arg(number_arg(alloc, "segments", 1, SEGMENTS_HELP))?
        .arg(flag_arg(alloc, "report", REPORT_HELP))?
        .arg(flag_arg(alloc, "covered", COVERED_HELP))?
        .arg(flag_arg(alloc, "areas", AREAS_HELP))
}

/// What the words hold.
fn parsed<'a, S: AsStr>(alloc: Global, words: &'a [S]) -> Result<ArgMatches<'a>, clap::Error>
    ensures held { IfOk result (λ m. rows_of (found_of m) ≡ held (map S.text words.entry.now)) }
    ensures faults { FailsBy (faults (map S.text words.entry.now)) result }
    ensures words { IfOk result (λ m. HasWords (found_of m)) }
{
    let command = parser(alloc)?;
    command.try_get_matches_from(words)
}

pub(crate) fn fault_from(alloc: Global, error: clap::Error) -> CliFault
    ensures { (kinds : Kinds) → HasKind kinds error → (rows : List Row) → IsRefusalBy kinds rows result }
{
    let Ok(text) = error.to_string(alloc) else {
        return CliFault::Memory;
    };
    match error.kind() {
        ErrorKind::OutOfMemory => CliFault::Memory,
        ErrorKind::DisplayHelp => CliFault::Help(text),
        _ => CliFault::Refused(text),
    }
}

/// What a command word asks for, where it is offered.
fn command_named(word: &str) -> Option<asked::Command>
    ensures { result ≡ command_of word.now }
{
    match word {
        "edges" => Some(asked::Command::Edges),
        "union" => Some(asked::Command::Apply(Op::Union)),
        "intersection" => Some(asked::Command::Apply(Op::Intersection)),
        "difference" => Some(asked::Command::Apply(Op::Difference)),
        "symdifference" => Some(asked::Command::Apply(Op::SymDifference)),
        _ => None,
    }
}

fn word_held<'a>(matches: &ArgMatches<'a>, id: &str) -> &'a str
    requires { is_some (first_value (found_of matches.now) id.now) ≡ true }
    ensures { first_of id.now (rows_of (found_of matches.now)) ≡ Some result.now }
{
    match matches.get_str(id) {
        Some(word) => word,
        None => unreachable!(),
    }
}

pub(crate) fn number_held(matches: &ArgMatches<'_>, id: &str) -> u32
    requires { HasNumber (found_of matches.now) id.now }
    ensures { IsHeldNumber id.now (rows_of (found_of matches.now)) result }
{
    match matches.get_one::<u32>(id) {
        Some(number) => number,
        None => unreachable!(),
    }
}

pub(crate) fn number_given(matches: &ArgMatches<'_>, id: &str) -> Option<u32>
    requires { MayHaveNumber (found_of matches.now) id.now }
    ensures { IsGivenNumber id.now (rows_of (found_of matches.now)) result }
{
    matches.get_one::<u32>(id)
}

pub(crate) fn flag_held(matches: &ArgMatches<'_>, id: &str) -> bool
    ensures { result ≡ is_set (one_of id.now (rows_of (found_of matches.now))) }
{
    matches.get_one::<bool>(id).unwrap_or(false)
}

fn request_of<'a>(matches: &ArgMatches<'a>) -> Result<Request<'a>, CliFault>
    requires { HasWords (found_of matches.now) }
    ensures { MatchResult result (λ r. IsRequestOf (rows_of (found_of matches.now)) r) (IsRefusalIn (rows_of (found_of matches.now))) }
{
    let word = word_held(matches, "command");
    let a = word_held(matches, "a");
    let b = word_held(matches, "b");
    let report = flag_held(matches, "report");
    let covered = flag_held(matches, "covered");
    let areas = flag_held(matches, "areas");
    let side = number_given(matches, "tile");
    let workers = number_held(matches, "workers");
    let segments = number_given(matches, "segments");
    let Some(command) = command_named(word) else {
        return Err(CliFault::Unknown);
    };
    if covered && command == asked::Command::Edges {
        return Err(CliFault::CoveredEdges);
    }
    if areas && (covered || command == asked::Command::Edges) {
        return Err(CliFault::AreasElsewhere);
    }
    Ok(Request {
        command,
        a,
        b,
        side,
        workers,
        segments,
        report,
        covered,
        areas,
    })
}

/// What the words ask for. The first word is the program's name.
pub fn request<'a, S: AsStr>(alloc: Global, words: &'a [S]) -> Result<Request<'a>, CliFault>
    ensures { MatchResult result (IsAskedBy (map S.text words.entry.now)) (IsRefusalOf (map S.text words.entry.now)) }
{
    match parsed(alloc, words) {
        Ok(matches) => request_of(&matches),
        Err(error) => Err(fault_from(alloc, error)),
    }
}
