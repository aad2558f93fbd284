//! The texts of the command line: the program's name, its commands, their options, its help and its version.

ghost use Rattle.std.specs.Prelude.{◌≡◌, ◌⊎◌, IfOk, codes, false};
ghost use Rattle.clap.specs.declared.builder.command.Command.TheViews.{out-Command as fields_of};
ghost use Rattle.clap.specs.Words.{App, app_of, kind_of, new_app, rule_of, with_rule, with_subcommand};
ghost use Rattle.mp_main.specs.CommandLine as spec;
ghost use Rattle.mp_main.specs.Inside.Alike.{IsAlike};

use clap::builder::ValueParser;
use clap::error::ErrorKind;
use clap::{Arg, ArgAction, Command, Error, value_parser};
use std::alloc::{AllocError, Global};

// `tools/package` writes the commit and the kit into a packed program, over the text after these words.
const VERSION: &str = "0.1.0\n\
    commit unknown                                         \n\
    kit unknown                                         ";

// The last is another word for the first.
const SIGNATURES: &[&str] = &["trial", "checked", "ed25519", "scenarios"];

const CLIENT_FILES: &[&str] = &["IN", "OUT"];

const EXAMPLES: &str = "\
Examples:
  keltuvar run scenario.scn         run the scenario in a file
  keltuvar run < scenario.scn       the same from standard input
  keltuvar run scenario.scn > out   keep the answers
  keltuvar run --explain scenario.scn
                                    also report what is wrong with a bad line
  keltuvar race --workers 4 scenario.scn
                                    deal the scenario's commands to 4 workers
  keltuvar race --workers 4 --history race.log --svg race.svg scenario.scn
                                    also write the history of the race and a picture
  keltuvar audit scenario.scn race.log
                                    report whether that history is legal over the scenario
  keltuvar audit pool.log           report whether the history of a served pool is legal
  keltuvar serve                    answer each line of standard input before reading the next
  keltuvar serve --signatures ed25519
                                    accept Ed25519 signatures
  keltuvar serve --signatures checked
                                    accept every signature, because the host has checked it
  keltuvar serve --client in out    share the pool with a client, whose lines come from a named pipe

Exit status: 0; 1 after a fault, like a scenario's bad line or a history that isn't legal; 2 if the
command line is refused.";

/// The program with its four commands.
pub(crate) fn program<'a>(alloc: Global) -> Result<Command<'a>, AllocError>
    ensures { IfOk result (λ c. IsAlike (app_of c) spec.program) }
{
    let names = SIGNATURES;
    let program = add_command(bare_program(alloc), run_command(alloc, names));
    let program = add_command(program, race_command(alloc, names));
    let program = add_command(program, audit_command(alloc, names));
    add_command(program, serve_command(alloc, names))
}

// Adds a command to the program, unless an allocation failed.
fn add_command<'a>(
    program: Result<Command<'a>, AllocError>,
    command: Result<Command<'a>, AllocError>,
) -> Result<Command<'a>, AllocError>
    ensures { (a b : App) → IfOk program.entry (λ p. app_of p ≡ a)
        → IfOk command.entry (λ c. (app_of c ≡ b) × ((fields_of c).has_globals ≡ false))
        → IfOk result (λ p. app_of p ≡ with_subcommand a b.top) }
{
    program?.subcommand(command?)
}

fn bare_program<'a>(alloc: Global) -> Result<Command<'a>, AllocError>
    ensures { IfOk result (λ c. app_of c ≡ spec.bare_program) }
{
    Command::new(alloc, "keltuvar")
        .version(VERSION)
        .about("A transaction pool whose every answer is proved correct")
        .after_help(EXAMPLES)
        .disable_help_subcommand(true)
        .subcommand_required(true)
        .bin_name("keltuvar")
}

fn run_command<'a>(alloc: Global, names: &'a [&'a str]) -> Result<Command<'a>, AllocError>
    ensures { IfOk result (λ c. (app_of c ≡ spec.run_command names.entry)
        × ((fields_of c).has_globals ≡ false)) }
{
    let about = "Run a scenario and write its answers to standard output";
    let command = new_command(alloc, "run", about).arg(explain_flag(alloc));
    let command = add_arg(command, signatures_option(alloc, names));
    add_arg(command, scenario_file(alloc))
}

fn race_command<'a>(alloc: Global, names: &'a [&'a str]) -> Result<Command<'a>, AllocError>
    ensures { IfOk result (λ c. (app_of c ≡ spec.race_command names.entry)
        × ((fields_of c).has_globals ≡ false)) }
{
    let about =
        "Deal a scenario's commands to workers that race for one pool, and audit the history";
    let command = new_command(alloc, "race", about).arg(workers_option(alloc));
    let explained = add_arg(add_wishes(alloc, command), explain_flag(alloc));
    let signed = add_arg(explained, signatures_option(alloc, names));
    add_arg(signed, scenario_file(alloc))
}

fn add_wishes<'a>(
    alloc: Global,
    command: Result<Command<'a>, AllocError>,
) -> Result<Command<'a>, AllocError>
    ensures { (a : App)
        → IfOk command.entry (λ c. (app_of c ≡ a) × ((fields_of c).has_globals ≡ false))
        → IfOk result (λ c. (app_of c ≡ spec.with_wishes a)
        × ((fields_of c).has_globals ≡ false)) }
{
    let history = value_option(
        alloc,
        "history",
        "FILE",
        "Also write the history of the race to this file",
    );
    let picture = value_option(
        alloc,
        "svg",
        "FILE",
        "Also write a picture of the race to this file",
    );
    let command = add_arg(add_arg(command, history), picture);
    add_arg(command, verify_us_option(alloc))
}

fn audit_command<'a>(alloc: Global, names: &'a [&'a str]) -> Result<Command<'a>, AllocError>
    ensures { IfOk result (λ c. (app_of c ≡ spec.audit_command names.entry)
        × ((fields_of c).has_globals ≡ false)) }
{
    let about = "Replay a history that a pool wrote, and report whether it is legal";
    let command = new_command(alloc, "audit", about).arg(explain_flag(alloc));
    let command = add_arg(command, signatures_option(alloc, names));
    add_arg(
        add_arg(command, audited_file(alloc)),
        scenario_history(alloc),
    )
}

fn serve_command<'a>(alloc: Global, names: &'a [&'a str]) -> Result<Command<'a>, AllocError>
    ensures { IfOk result (λ c. (app_of c ≡ spec.serve_command names.entry)
        × ((fields_of c).has_globals ≡ false)) }
{
    let about =
        "Hold a conversation with a pool: answer each line of standard input on standard output";
    let command = new_command(alloc, "serve", about).arg(signatures_option(alloc, names));
    let salted = add_arg(command, salt_option(alloc));
    let named = add_arg(salted, names_option(alloc));
    let history = value_option(
        alloc,
        "history",
        "FILE",
        "Also write each change of the pool to this file, for audit",
    );
    let recorded = add_arg(named, history);
    add_arg(recorded, client_option(alloc))
}

/// That more clients are named than a conversation may have.
pub(crate) fn too_many_clients(alloc: Global) -> Error
    ensures { (kind_of result ≡ ErrorKind.TooManyValues)
        ⊎ (kind_of result ≡ ErrorKind.OutOfMemory) }
{
    match refuse_clients(alloc) {
        Ok(error) => error,
        Err(error) => Error::from(error),
    }
}

fn refuse_clients(alloc: Global) -> Result<Error, AllocError>
    ensures { IfOk result (λ e. kind_of e ≡ ErrorKind.TooManyValues) }
{
    let message = "the argument '--client <IN> <OUT>' cannot be used more than 63 times";
    let mut command = serve_command(alloc, SIGNATURES)?.bin_name("keltuvar serve")?;
    command.error(ErrorKind::TooManyValues, message)
}

fn new_command<'a>(alloc: Global, name: &'a str, about: &'a str) -> Command<'a>
    ensures { (app_of result ≡ new_app name.now) × ((fields_of result).has_globals ≡ false) }
{
    Command::new(alloc, name).about(about)
}

// Adds an argument to the command, unless an allocation failed.
fn add_arg<'a>(
    command: Result<Command<'a>, AllocError>,
    arg: Arg<'a>,
) -> Result<Command<'a>, AllocError>
    requires local { arg.global ≡ false }
    ensures { (a : App)
        → IfOk command.entry (λ c. (app_of c ≡ a) × ((fields_of c).has_globals ≡ false))
        → IfOk result (λ c. (app_of c ≡ with_rule a (rule_of arg.entry))
        × ((fields_of c).has_globals ≡ false)) }
{
    command?.arg(arg)
}

fn workers_option<'a>(alloc: Global) -> Arg<'a>
    ensures rule { rule_of result ≡ spec.workers_rule }
    ensures local { result.global ≡ false }
{
    value_option(alloc, "workers", "N", "How many workers race, from 1 to 64")
        .value_parser(value_parser!(u64).range(1..=64))
        .required(true)
}

fn verify_us_option<'a>(alloc: Global) -> Arg<'a>
    ensures rule { rule_of result ≡ spec.verify_us_rule }
    ensures local { result.global ≡ false }
{
    let help = "For measurements: how long each check of a signature takes, from 0 to 1000000";
    value_option(alloc, "verify-us", "MICROSECONDS", help).value_parser(value_parser!(u64).range(
        0..=1_000_000,
    ))
}

fn signatures_option<'a>(alloc: Global, names: &'a [&'a str]) -> Arg<'a>
    ensures rule { rule_of result ≡ spec.signatures_rule names.entry }
    ensures local { result.global ≡ false }
{
    let help =
        "Which signatures to accept: trial ones, Ed25519 ones, or all, because the host has checked them";
    value_option(alloc, "signatures", "WHICH", help).value_parser(ValueParser::Names(names))
}

fn salt_option<'a>(alloc: Global) -> Arg<'a>
    ensures rule { rule_of result ≡ spec.salt_rule }
    ensures local { result.global ≡ false }
{
    let help = "A number that salts the pool's tables; random if it is left out";
    value_option(alloc, "salt", "N", help).value_parser(value_parser!(u64))
}

fn names_option<'a>(alloc: Global) -> Arg<'a>
    ensures rule { rule_of result ≡ spec.names_rule }
    ensures local { result.global ≡ false }
{
    let help = "How many names a conversation may declare; 65536 if it is left out";
    value_option(alloc, "names", "N", help).value_parser(value_parser!(u64).range(
        1..=4_294_967_296,
    ))
}

fn client_option<'a>(alloc: Global) -> Arg<'a>
    ensures rule { rule_of result ≡ spec.client_rule }
    ensures local { result.global ≡ false }
{
    let help =
        "Answer the lines of IN in OUT too, at the same time and by the same pool; up to 63 times";
    Arg::new(alloc, "client")
        .long("client")
        .value_names(CLIENT_FILES)
        .action(ArgAction::Append)
        .help(help)
}

// An option with a value, which the help names `value`.
fn value_option<'a>(alloc: Global, name: &'a str, value: &'a str, help: &'a str) -> Arg<'a>
    ensures rule { rule_of result ≡ spec.output_rule name.now }
    ensures local { result.global ≡ false }
{
    Arg::new(alloc, name)
        .long(name)
        .value_name(value)
        .help(help)
}

fn explain_flag<'a>(alloc: Global) -> Arg<'a>
    ensures rule { rule_of result ≡ spec.explain_rule }
    ensures local { result.global ≡ false }
{
    Arg::new(alloc, "explain")
        .long("explain")
        .action(ArgAction::SetTrue)
        .help("Report what is wrong with a bad line, in a second line on standard error")
}

fn scenario_file<'a>(alloc: Global) -> Arg<'a>
    ensures rule { rule_of result ≡ spec.file_rule }
    ensures local { result.global ≡ false }
{
    Arg::new(alloc, "FILE").help("The scenario; standard input if it is left out")
}

fn audited_file<'a>(alloc: Global) -> Arg<'a>
    ensures rule { rule_of result ≡ spec.audited_rule }
    ensures local { result.global ≡ false }
{
    Arg::new(alloc, "FILE")
        .value_name("FILE")
        .required(true)
        .help("The scenario of the history; the history of a served pool if there is no HISTORY")
}

fn scenario_history<'a>(alloc: Global) -> Arg<'a>
    ensures rule { rule_of result ≡ spec.history_rule }
    ensures local { result.global ≡ false }
{
    Arg::new(alloc, "history")
        .value_name("HISTORY")
        .help("The history over a scenario, as race --history writes it")
}
