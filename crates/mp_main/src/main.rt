//! The program `keltuvar`. It ends with status 0, with 1 after a fault, and with 2 if the command line is refused.
//!
//! - `run [--explain] [FILE]` reads a scenario and writes its answers to standard output.
//! - `race --workers N [--explain] [FILE]` lets N threads race over it and writes the report, and if asked the history and a
//! picture.
//! - `audit SCENARIO HISTORY` says whether such a history is legal, and `audit HISTORY` whether that of a served pool is.
//! - `serve [--signatures WHICH] [--salt N] [--names N] [--history FILE] [--client IN OUT]..` holds a conversation, and one with each
//! client.
#![tactic(auto)]

mod audits;
mod channel;
mod clients;
mod command_line;
mod conversation;
mod ending;
mod files;
mod pictures;
mod races;
mod replays;
mod runs;
mod salt;
mod scenarios;
mod schemes;
mod slow;

use audits::audit_files;
use clients::converse_as;
use command_line::{Asked, parse_words};
use ending::{end_unparsed, end_unworded};
use races::race_scenario;
use replays::replay_file;
use runs::run_scenario;
use std::process::ExitCode;
use std::{env, io};

fn main(rt: HostRuntime) -> ExitCode {
    match read_words(&rt) {
        Ok(words) => match parse_words(rt.alloc(), &words) {
            Ok(Asked::Run { input, signatures }) => run_scenario(&rt, input, signatures),
            Ok(
                Asked::Race {
                    input,
                    workers,
                    signatures,
                    wishes,
                },
            ) => race_scenario(&rt, &rt, input, workers, signatures, wishes),
            Ok(
                Asked::Audit {
                    file,
                    history,
                    signatures,
                    explains,
                },
            ) => match history {
                Some(history) => audit_files(&rt, file, history, signatures, explains),
                None => replay_file(&rt, file, signatures),
            },
            Ok(
                Asked::Serve {
                    signatures,
                    salt,
                    names,
                    history,
                    clients,
                },
            ) => converse_as(&rt, &rt, signatures, salt, names, history, &clients),
            Err(error) => end_unparsed(&rt, error),
        },
        Err(error) => end_unworded(&rt, error),
    }
}

/// The words of the command line, the program's name first.
fn read_words(rt: &HostRuntime) -> io::Result<Vec<String>> {
    Ok(env::args(rt)?.collect(rt.alloc())?)
}
