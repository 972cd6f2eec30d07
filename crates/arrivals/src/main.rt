// Reads a script from standard input, runs it over an arrivals sheet, and prints an answer for each call.
#![tactic(auto)]

use crate::help::HELP;
use crate::session::Session;
use anyhow::anyhow;
use std::env;
use std::process::ExitCode;

mod answer;
mod help;
mod input;
mod output;
mod run;
mod session;
mod table;

// Whether help is asked for; there is no other argument.
fn asks_help(rt: &HostRuntime) -> anyhow::Result<bool> {
    let mut asked = false;
    let args = env::args(rt)?;
    for arg in args.skip(1) {
        if arg.as_str() != "--help" && arg.as_str() != "-h" {
            return Err(anyhow!(
                "a script is read from standard input, and the only argument is --help"
            ));
        }
        asked = true;
    }
    Ok(asked)
}

fn start(rt: &HostRuntime) -> anyhow::Result<()> {
    if asks_help(rt)? {
        rt.println(HELP)?;
        return Ok(());
    }
    let mut session = Session::new(rt)?;
    let ran = session.run();
    session.flush()?;
    ran
}

fn main(rt: HostRuntime) -> ExitCode {
    match start(&rt) {
        Ok(()) => ExitCode::SUCCESS,
        Err(error) => {
            let _ = eprintln!(rt; "arrivals: {error}");
            ExitCode::FAILURE
        }
    }
}
