//! The command line of `noded`, read by `clap`: `overlay noded EDGES [--workers N]`.

ghost use Rattle.std.specs.Prelude.{◌≡◌, true, IfOk, MatchResult, Some, codes, is_some, map};
ghost use Rattle.clap.specs.Words.{FailsBy, app_of, first_of, first_value, found_of, rows_of, rule_of};
ghost use Rattle.program.specs.Arguments.{IsWanted};
ghost use Rattle.program.specs.NodedLine.{HasNodedWords, IsNodedAskedBy, IsNodedCommand, IsNodedRefusalOf, IsNodedRequestOf, asks_for_noded, edges_rule, noded_app, noded_faults, noded_held};

use crate::asked::CliFault;
use crate::cli::{described, fault_from, number_held, word_arg, workers_arg};
use clap::{Arg, ArgAction, ArgMatches, Command};
use std::alloc::{AllocError, Global};
use std::convert::AsStr;

/// A command line of `noded` that was accepted.
#[derive(Clone, Copy, Debug)]
pub struct NodedRequest<'a> {
    /// The name of the file of edges.
    pub edges: &'a str,
    /// The number of threads at work.
    pub workers: u32,
}

/// Whether the words ask for a test of edges: the first one behind the program's name is `noded`.
pub fn is_for_noded<S: AsStr>(words: &[S]) -> bool
    ensures { result ≡ asks_for_noded (map S.text words.now) }
{
    words.len() > 1 && words[1].as_str() == "noded"
}

fn edges_arg<'a>(alloc: Global) -> Arg<'a>
    ensures rule { rule_of result ≡ edges_rule }
    ensures wanted { IsWanted (codes "edges") result }
{
    Arg::new(alloc, "edges")
        .action(ArgAction::Set)
        .value_name("EDGES")
        .required(true)
        .help("The file of edges: lines `x1 y1 x2 y2`")
}

/// The command as `clap` reads it.
fn parser<'a>(alloc: Global) -> Result<Command<'a>, AllocError>
    ensures shape { IfOk result (λ c. app_of c ≡ noded_app) }
    ensures chain { IfOk result (λ c. IsNodedCommand c) }
{
    described(alloc)
        .arg(word_arg(alloc))?
        .arg(edges_arg(alloc))?
        .arg(workers_arg(alloc))
}

/// What the words hold.
fn parsed<'a, S: AsStr>(alloc: Global, words: &'a [S]) -> Result<ArgMatches<'a>, clap::Error>
    ensures held { IfOk result (λ m. rows_of (found_of m) ≡ noded_held (map S.text words.entry.now)) }
    ensures faults { FailsBy (noded_faults (map S.text words.entry.now)) result }
    ensures words { IfOk result (λ m. HasNodedWords (found_of m)) }
{
    let command = parser(alloc)?;
    command.try_get_matches_from(words)
}

/// The name of the file.
fn edges_held<'a>(matches: &ArgMatches<'a>) -> &'a str
    requires { is_some (first_value (found_of matches.now) (codes "edges")) ≡ true }
    ensures { first_of (codes "edges") (rows_of (found_of matches.now)) ≡ Some result.now }
{
    match matches.get_str("edges") {
        Some(name) => name,
        None => unreachable!(),
    }
}

fn request_of<'a>(matches: &ArgMatches<'a>) -> NodedRequest<'a>
    requires { HasNodedWords (found_of matches.now) }
    ensures { IsNodedRequestOf (rows_of (found_of matches.now)) result }
{
    NodedRequest {
        edges: edges_held(matches),
        workers: number_held(matches, "workers"),
    }
}

/// What the words ask of `noded`. The first word is the program's name, and the second one `noded`.
pub fn noded_request<'a, S: AsStr>(
    alloc: Global,
    words: &'a [S],
) -> Result<NodedRequest<'a>, CliFault>
    ensures { MatchResult result (IsNodedAskedBy (map S.text words.entry.now)) (IsNodedRefusalOf (map S.text words.entry.now)) }
{
    match parsed(alloc, words) {
        Ok(matches) => Ok(request_of(&matches)),
        Err(error) => Err(fault_from(alloc, error)),
    }
}
