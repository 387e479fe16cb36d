// The words as `clap` reads them.

ghost use Rattle.std.specs.Prelude.{◌≡◌, ◌≤◌, ◌⊎◌, ◌+◌, ◌∷◌, [], ℕ, List, IfErr, IfOk, IsSome, None, Some, codes, option_map};
ghost use Rattle.std.specs.String.{string_bytes};
ghost use Rattle.clap.specs.Words.{App, app_of, kind_of, new_app, subcommand_of, subcommand_rows_of, with_subcommand};
ghost use Rattle.command_line.specs.Values.{IsApp, cubes, demo_app, jobs_app, reports_app, run_app, step_app, value_of, with_ids};
ghost use Rattle.command_line.specs.Words.{AreLawful, Writes, bytes_of_words};

use crate::form::number;
use clap::error::ErrorKind;
use clap::{Arg, ArgMatches, Command, Error};
use std::alloc::{AllocError, Global};

// A subcommand with a path.
fn on_path<'a>(alloc: Global, name: &'a str) -> Result<Command<'a>, AllocError>
    ensures { IfOk result (λ c. IsApp c (with_ids (new_app name.entry.now) (codes "path" ∷ []))) }
{
    let path = Arg::new(alloc, "path");
    Command::new(alloc, name).arg(path)
}

// The subcommand with one argument more, at a place of its own.
fn with_place<'a>(
    alloc: Global,
    command: Command<'a>,
    id: &'a str,
) -> Result<Command<'a>, AllocError>
    ensures { (app : App) → IsApp command.entry app → IfOk result (λ c. IsApp c (with_ids app (id.entry.now ∷ []))) }
{
    command.arg(Arg::new(alloc, id))
}

// `run`.
fn run<'a>(alloc: Global) -> Result<Command<'a>, AllocError>
    ensures { IfOk result (λ c. IsApp c run_app) }
{
    let command = on_path(alloc, "run")?;
    command.arg(Arg::new(alloc, "workers").long("workers"))
}

// `demo`.
fn demo<'a>(alloc: Global) -> Result<Command<'a>, AllocError>
    ensures { IfOk result (λ c. IsApp c demo_app) }
{
    let numbered = with_place(alloc, Command::new(alloc, "demo"), "number")?;
    with_place(alloc, numbered, "rows")
}

// `step`.
fn step<'a>(alloc: Global) -> Result<Command<'a>, AllocError>
    ensures { IfOk result (λ c. IsApp c step_app) }
{
    let from_task = with_place(alloc, Command::new(alloc, "step"), "task")?;
    let to_product = with_place(alloc, from_task, "product")?;
    with_place(alloc, to_product, "stop")
}

// The command with a subcommand more, where that was built.
fn with_built<'a>(
    command: Command<'a>,
    built: Result<Command<'a>, AllocError>,
) -> Result<Command<'a>, AllocError>
    ensures { (app : App) → IfOk built.entry (λ c. IsApp c app) → IfOk result (λ c. app_of c ≡ with_subcommand (app_of command.entry) app.top) }
{
    let subcommand = built?;
    command.subcommand(subcommand)
}

// The program's command line so far: the subcommands that run jobs.
fn with_jobs<'a>(alloc: Global) -> Result<Command<'a>, AllocError>
    ensures { IfOk result (λ c. app_of c ≡ jobs_app) }
{
    let named = Command::new(alloc, "cubes").no_binary_name(true);
    let running = with_built(named, run(alloc))?;
    with_built(running, demo(alloc))
}

// .. and those that print what a file says.
fn with_reports<'a>(alloc: Global) -> Result<Command<'a>, AllocError>
    ensures { IfOk result (λ c. app_of c ≡ reports_app) }
{
    let jobs = with_jobs(alloc)?;
    let folding = with_built(jobs, on_path(alloc, "fold"))?;
    with_built(folding, on_path(alloc, "cuboids"))
}

// The program's command line.
fn program<'a>(alloc: Global) -> Result<Command<'a>, AllocError>
    ensures { IfOk result (λ c. app_of c ≡ cubes) }
{
    let reports = with_reports(alloc)?;
    with_built(reports, step(alloc))
}

/// The matches of words whose form was checked. They fail for want of memory alone.
pub fn matches_of<'a>(alloc: Global, words: &'a [String]) -> Result<ArgMatches<'a>, Error>
    requires { AreLawful (bytes_of_words words.now) }
    ensures ok { IfOk result (λ m. subcommand_rows_of m ≡ subcommand_of cubes (bytes_of_words words.entry.now)) }
    ensures err { IfErr result (λ e. kind_of e ≡ ErrorKind.OutOfMemory) }
{
    program(alloc)?.try_get_matches_from(words)
}

// The value of an argument of the subcommand.
fn text_of<'a>(matches: &ArgMatches<'a>, id: &str) -> Option<&'a str>
    ensures { option_map (λ s. s.now) result ≡ value_of matches.now id.now }
{
    let (_, values) = matches.subcommand()?;
    values.get_str(id)
}

/// The value of an argument that is there.
pub fn owned(alloc: Global, matches: &ArgMatches<'_>, id: &str) -> Result<String, AllocError>
    requires { IsSome (value_of matches.now id.now) }
    ensures { IfOk result (λ s. value_of matches.now id.now ≡ Some (string_bytes s)) }
{
    match text_of(matches, id) {
        Some(text) => String::from_str(alloc, text),
        None => unreachable!(),
    }
}

/// The number that an argument is, in at most `most` digits.
pub fn number_of(matches: &ArgMatches<'_>, id: &str, most: usize) -> u32
    requires { most ≤ 9 }

    ensures { (text : List ℕ) (n : ℕ) → value_of matches.now id.now ≡ Some text → Writes most text n → result ≡ n }
{
    match text_of(matches, id) {
        Some(text) => number(text, most).unwrap_or(0),
        None => 0,
    }
}

/// The number of workers, where it is there.
pub fn workers_of(matches: &ArgMatches<'_>) -> Option<u32>
    ensures none { value_of matches.now (codes "workers") ≡ None → result ≡ None }
    ensures some { (n : ℕ) → n ≤ 8 → value_of matches.now (codes "workers") ≡ Some ((48 + n) ∷ []) → result ≡ Some n }
{
    match text_of(matches, "workers") {
        Some(text) => number(text, 1),
        None => None,
    }
}
