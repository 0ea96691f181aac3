// Runs a script, from the file named as the argument or from standard input, and prints each line's answer.
#![tactic(auto)]

use anyhow::{anyhow, bail};
use script::session::Session;
use std::process::ExitCode;
use std::{env, fs, io};

fn read_script(rt: &HostRuntime) -> anyhow::Result<String> {
    let mut args = env::args(rt)?;
    let _program = args.next();
    let Some(path) = args.next() else {
        return Ok(io::read_to_string(rt.alloc(), rt.stdin())?);
    };
    if args.next().is_some() {
        bail!("give the name of one script, or none to read standard input");
    }
    fs::read_to_string(rt, path.as_str()).map_err(|error| anyhow!("{path}: {error}"))
}

// A line that cannot be read or done ends the script.
fn run(rt: &HostRuntime) -> anyhow::Result<()> {
    let heap = rt.alloc();
    let text = read_script(rt)?;
    let mut session = Session::new();
    for (index, line) in text.lines().enumerate() {
        let number = index.saturating_add(1);
        let entry = session
            .line(heap, line)
            .map_err(|error| anyhow!("line {number}: {error}"))?;
        if let Some(entry) = entry {
            rt.println(entry)?;
        }
    }
    Ok(())
}

fn main(rt: HostRuntime) -> anyhow::Result<ExitCode> {
    match run(&rt) {
        Ok(()) => Ok(ExitCode::SUCCESS),
        Err(error) => {
            eprintln!(rt; "{error}")?;
            Ok(ExitCode::FAILURE)
        }
    }
}
