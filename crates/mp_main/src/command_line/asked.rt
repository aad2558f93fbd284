//! What the words of a command line ask for.

ghost use Rattle.std.specs.Prelude.{◌≡◌, ◌≤◌, [], IfErr, IfOk, IfSome, IsSomeAnd, Some, codes};
ghost use Rattle.std.specs.Prelude.{is_some, length, map, option_map, true, unwrap_or};
ghost use Rattle.clap.specs.Values.{IsUnsignedIn};
ghost use Rattle.clap.specs.Kinds.{FailsBy};
ghost use Rattle.clap.specs.Walk.{texts};
ghost use Rattle.clap.specs.Words.{all_of, first_of, found_of, kind_of, one_of, rows_of};
ghost use Rattle.clap.specs.Words.{subcommand_rows_of, takes};
ghost use Rattle.mp_main.specs.CommandLine as spec;
ghost use Rattle.mp_main.specs.Inside.Taken.{IsSmall, IsTaken, IsWide};

use crate::command_line::program::{program, too_many_clients};
use clap::error::ErrorKind;
use clap::{ArgMatches, Error};
use std::alloc::{AllocError, Global};
use std::convert::AsStr;

const MAX_CLIENTS: usize = 63;

/// How many names a conversation may declare by default.
pub const MOST_NAMES: u64 = 65_536;

/// What the command line asks for.
#[derive(Drop)]
pub enum Asked<'a> {
    /// A run of a scenario.
    Run {
        input: Input<'a>,
        signatures: SchemeName,
    },
    /// A race of 1 to 64 workers, who share the commands of a scenario.
    Race {
        input: Input<'a>,
        workers: u32,
        signatures: SchemeName,
        wishes: Wishes<'a>,
    },
    /// An audit of a pool's history over a scenario, or of a served pool's history.
    Audit {
        /// The file of the scenario, or of the served pool's history.
        file: &'a str,
        /// The file of the history over the scenario.
        history: Option<&'a str>,
        signatures: SchemeName,
        /// Whether to say what is wrong with a bad line.
        explains: bool,
    },
    /// A conversation over standard input and output, and one with each client, over the same pool.
    Serve {
        signatures: SchemeName,
        /// The salt of the pool's tables, or `None` if none is given.
        salt: Option<u64>,
        /// How many names a conversation may declare: 1 to 2^32, by default 65,536.
        names: u64,
        /// The file for the pool's history.
        history: Option<&'a str>,
        /// At most 63.
        clients: Vec<ClientFiles<'a>>,
    },
}

/// The names of the files of a client's conversation.
#[derive(Clone, Copy)]
pub struct ClientFiles<'a> {
    /// The file that its lines are read from.
    pub input: &'a str,
    /// The file that their answers are written to.
    pub output: &'a str,
}

/// The name of the signatures that a pool accepts.
#[derive(Clone, Copy)]
pub enum SchemeName {
    /// The key followed by the transaction's id.
    Trial,
    /// All, because the host has verified them.
    Checked,
    /// Ed25519 signatures of the transaction's id.
    Ed25519,
}

/// The scenario, and how its faults are reported.
#[derive(Clone, Copy)]
pub struct Input<'a> {
    /// The scenario's file, or `None` for standard input.
    pub file: Option<&'a str>,
    /// Whether to say what is wrong with a bad line.
    pub explains: bool,
}

/// What a race writes next to its report, and how long the check of a signature takes in it.
#[derive(Clone, Copy)]
pub struct Wishes<'a> {
    /// The file for the race's history.
    pub history: Option<&'a str>,
    /// The file for a picture of the race, as an SVG.
    pub picture: Option<&'a str>,
    /// The microseconds that each check of a signature takes: up to 1,000,000, by default 0.
    pub verify_us: u32,
}

/// Returns what the command line asks for, if the program accepts the words.
///
/// # Errors
/// The help or the version if the words ask for one, the reason for a refusal, or `OutOfMemory`.
pub fn parse_words<'a, S: AsStr>(alloc: Global, words: &'a [S]) -> Result<Asked<'a>, Error>
    ensures taken { FailsBy (spec.fault_in (map S.text words.now)) result }
    ensures command { IfOk result (λ asked. spec.command_in (map S.text words.now)
        ≡ Some (spec.name_of asked)) }
    ensures file { IfOk result (λ asked. spec.scenario_of asked
        ≡ spec.file_of (spec.met_in (map S.text words.now))) }
    ensures explains { IfOk result (λ asked. spec.IsFlag
        (spec.explain_of (spec.met_in (map S.text words.now))) (spec.explains_of asked)) }
    ensures workers { IfOk result
        (spec.HasWorkers (spec.workers_of (spec.met_in (map S.text words.now)))) }
    ensures history { IfOk result
        (spec.HasHistory (spec.history_of (spec.met_in (map S.text words.now)))) }
    ensures picture { IfOk result
        (spec.HasPicture (spec.picture_of (spec.met_in (map S.text words.now)))) }
    ensures verify_us { IfOk result
        (spec.HasDelay (spec.verify_us_of (spec.met_in (map S.text words.now)))) }
    ensures signatures { IfOk result (λ asked. spec.IsChoice
        (spec.signatures_of (spec.met_in (map S.text words.now))) (spec.scheme_of asked)) }
    ensures salt { IfOk result
        (spec.HasSalt (spec.salt_of (spec.met_in (map S.text words.now)))) }
    ensures names { IfOk result
        (spec.HasNames (spec.most_names_of (spec.met_in (map S.text words.now)))) }
    ensures clients { IfOk result
        (spec.HasClients (spec.clients_of (spec.met_in (map S.text words.now)))) }
    ensures passes { IfErr result (λ e. takes spec.program (map S.text words.now) ≡ true
        → length (spec.clients_of (spec.met_in (map S.text words.now))) ≤ 63
        → kind_of e ≡ ErrorKind.OutOfMemory) }
{
    match program(alloc)?.try_get_matches_from(words) {
        Ok(matches) => match clients_in(alloc, &matches) {
            Ok(clients) => Ok(read_matches(&matches, clients)),
            Err(error) => Err(error),
        },
        Err(error) => Err(error),
    }
}

fn clients_in<'a>(alloc: Global, matches: &ArgMatches<'a>) -> Result<Vec<ClientFiles<'a>>, Error>
    ensures taken { FailsBy
        (spec.clients_fault (spec.clients_of (subcommand_rows_of matches.now))) result }
    ensures files { IfOk result (λ clients. map spec.files_of clients.items
        ≡ spec.clients_of (subcommand_rows_of matches.now)) }
{
    match matches.subcommand() {
        Some((_, given)) => clients_of(alloc, given),
        None => Ok(Vec::new(alloc)),
    }
}

fn clients_of<'a>(alloc: Global, given: &ArgMatches<'a>) -> Result<Vec<ClientFiles<'a>>, Error>
    ensures taken { FailsBy (spec.clients_fault (spec.pairs_of
        (unwrap_or (all_of (codes "client") (rows_of (found_of given.now))) []))) result }
    ensures files { IfOk result (λ clients. map spec.files_of clients.items ≡ spec.pairs_of
        (unwrap_or (all_of (codes "client") (rows_of (found_of given.now))) [])) }
{
    match given.get_strs("client") {
        Some(names) => {
            let clients = pair_up(alloc, names)?;
            if clients.len() > MAX_CLIENTS {
                Err(too_many_clients(alloc))
            } else {
                Ok(clients)
            }
        }
        None => Ok(Vec::new(alloc)),
    }
}

// Clients with the first and the second of these files, the third and the fourth, and so on.
fn pair_up<'a>(alloc: Global, names: &[&'a str]) -> Result<Vec<ClientFiles<'a>>, AllocError>
    ensures { IfOk result (λ clients. map spec.files_of clients.items
        ≡ spec.pairs_of (texts names.now)) }
{
    let mut clients = Vec::new(alloc);
    for client in 0..names.len() / 2 {
        clients.push(ClientFiles {
            input: names[2 * client],
            output: names[2 * client + 1],
        })?;
    }
    Ok(clients)
}

// With these clients, if it is a conversation.
fn read_matches<'a>(matches: &ArgMatches<'a>, clients: Vec<ClientFiles<'a>>) -> Asked<'a>
    requires taken { IsTaken (subcommand_rows_of matches.now) }
    requires clients { map spec.files_of clients.items
        ≡ spec.clients_of (subcommand_rows_of matches.now) }
    requires most { length (spec.clients_of (subcommand_rows_of matches.now)) ≤ 63 }
    ensures command { option_map (λ c. c.0) (subcommand_rows_of matches.now)
        ≡ Some (spec.name_of result) }
    ensures file { spec.scenario_of result ≡ spec.file_of (subcommand_rows_of matches.now) }
    ensures explains { spec.IsFlag (spec.explain_of (subcommand_rows_of matches.now))
        (spec.explains_of result) }
    ensures workers { spec.HasWorkers (spec.workers_of (subcommand_rows_of matches.now)) result }
    ensures history { spec.HasHistory (spec.history_of (subcommand_rows_of matches.now)) result }
    ensures picture { spec.HasPicture (spec.picture_of (subcommand_rows_of matches.now)) result }
    ensures verify_us { spec.HasDelay (spec.verify_us_of (subcommand_rows_of matches.now)) result }
    ensures signatures { spec.IsChoice (spec.signatures_of (subcommand_rows_of matches.now))
        (spec.scheme_of result) }
    ensures salt { spec.HasSalt (spec.salt_of (subcommand_rows_of matches.now)) result }
    ensures names { spec.HasNames (spec.most_names_of (subcommand_rows_of matches.now)) result }
    ensures clients { spec.HasClients (spec.clients_of (subcommand_rows_of matches.now)) result }
{
    match matches.subcommand() {
        Some((name, given)) => {
            if name == "race" {
                Asked::Race {
                    input: input_of(given),
                    workers: workers_of(given),
                    signatures: scheme_of(given),
                    wishes: wishes_of(given),
                }
            } else if name == "audit" {
                Asked::Audit {
                    file: value_of(given, "FILE"),
                    history: file_of(given, "history"),
                    signatures: scheme_of(given),
                    explains: explains_of(given),
                }
            } else if name == "serve" {
                let history = file_of(given, "history");
                Asked::Serve {
                    signatures: scheme_of(given),
                    salt: wide_number_of(given, "salt"),
                    names: names_of(given),
                    history,
                    clients,
                }
            } else {
                Asked::Run {
                    input: input_of(given),
                    signatures: scheme_of(given),
                }
            }
        }
        None => unreachable!(),
    }
}

fn input_of<'a>(given: &ArgMatches<'a>) -> Input<'a>
    ensures file { spec.file_text result.file
        ≡ first_of (codes "FILE") (rows_of (found_of given.now)) }
    ensures explains { spec.IsFlag (one_of (codes "explain") (rows_of (found_of given.now)))
        result.explains }
{
    Input {
        file: file_of(given, "FILE"),
        explains: explains_of(given),
    }
}

fn wishes_of<'a>(given: &ArgMatches<'a>) -> Wishes<'a>
    requires taken { IsSmall (one_of (codes "verify-us") (rows_of (found_of given.now))) }
    ensures history { spec.file_text result.history
        ≡ first_of (codes "history") (rows_of (found_of given.now)) }
    ensures picture { spec.file_text result.picture
        ≡ first_of (codes "svg") (rows_of (found_of given.now)) }
    ensures verify_us { result.verify_us ≡ unwrap_or
        (option_map spec.number_of (one_of (codes "verify-us") (rows_of (found_of given.now)))) 0 }
{
    Wishes {
        history: file_of(given, "history"),
        picture: file_of(given, "svg"),
        verify_us: number_of(given, "verify-us").unwrap_or(0),
    }
}

fn names_of(given: &ArgMatches<'_>) -> u64
    requires taken { IfSome (one_of (codes "names") (rows_of (found_of given.now)))
        (IsUnsignedIn 1 4294967296) }
    ensures { result ≡ unwrap_or
        (option_map spec.number_of (one_of (codes "names") (rows_of (found_of given.now)))) 65536 }
{
    wide_number_of(given, "names").unwrap_or(MOST_NAMES)
}

fn workers_of(given: &ArgMatches<'_>) -> u32
    requires taken { IsSomeAnd (one_of (codes "workers") (rows_of (found_of given.now)))
        (IsUnsignedIn 1 64) }
    ensures { Some result
        ≡ option_map spec.number_of (one_of (codes "workers") (rows_of (found_of given.now))) }
{
    match number_of(given, "workers") {
        Some(workers) => workers,
        None => unreachable!(),
    }
}

fn value_of<'a>(given: &ArgMatches<'a>, id: &str) -> &'a str
    requires taken { is_some (first_of id.now (rows_of (found_of given.now))) ≡ true }
    ensures { Some result.now ≡ first_of id.now (rows_of (found_of given.now)) }
{
    match file_of(given, id) {
        Some(file) => file,
        None => unreachable!(),
    }
}

fn file_of<'a>(given: &ArgMatches<'a>, id: &str) -> Option<&'a str>
    ensures { spec.file_text result ≡ first_of id.now (rows_of (found_of given.now)) }
{
    given.get_str(id)
}

fn explains_of(given: &ArgMatches<'_>) -> bool
    ensures { spec.IsFlag (one_of (codes "explain") (rows_of (found_of given.now))) result }
{
    given.get_flag("explain")
}

fn scheme_of(given: &ArgMatches<'_>) -> SchemeName
    requires taken { IfSome (first_of (codes "signatures") (rows_of (found_of given.now)))
        spec.IsSignatures }
    ensures { spec.IsChoice (first_of (codes "signatures") (rows_of (found_of given.now))) result }
{
    match given.get_str("signatures") {
        Some(name) => scheme_named(name),
        None => SchemeName::Trial,
    }
}

fn scheme_named(name: &str) -> SchemeName
    requires { spec.IsSignatures name.now }
    ensures { spec.IsNamed name.now result }
{
    if name == "checked" {
        SchemeName::Checked
    } else if name == "ed25519" {
        SchemeName::Ed25519
    } else {
        SchemeName::Trial
    }
}

fn number_of(given: &ArgMatches<'_>, id: &str) -> Option<u32>
    requires taken { IsSmall (one_of id.now (rows_of (found_of given.now))) }
    ensures { result ≡ option_map spec.number_of (one_of id.now (rows_of (found_of given.now))) }
{
    given.get_one::<u32>(id)
}

fn wide_number_of(given: &ArgMatches<'_>, id: &str) -> Option<u64>
    requires taken { IsWide (one_of id.now (rows_of (found_of given.now))) }
    ensures { result ≡ option_map spec.number_of (one_of id.now (rows_of (found_of given.now))) }
{
    given.get_one::<u64>(id)
}
