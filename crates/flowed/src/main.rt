// The program: the text of support mail composed, and carried through the dot stage and back.
#![tactic(auto)]

mod carry_body;
mod carry_options;
mod compose_mail;
mod compose_options;
mod file_names;
mod files;
mod help;
mod mail_report;
mod number_option;
mod options;
mod report;
mod trouble;
mod usage;

use help::HELP;
use options::Command;
use std::process::ExitCode;
use trouble::Trouble;

fn run(rt: &HostRuntime) -> Result<(), Trouble> {
    match options::from_command_line(rt)? {
        Command::Help => {
            rt.print(HELP)?;
            Ok(())
        }
        Command::Carry(options) => carry_body::run(rt, &options),
        Command::Compose(options) => compose_mail::run(rt, &options),
    }
}

fn main(rt: HostRuntime) -> ExitCode {
    match run(&rt) {
        Ok(()) => ExitCode::SUCCESS,
        Err(trouble) => {
            let _ = eprintln!(rt; "flowed: {trouble}");
            ExitCode::FAILURE
        }
    }
}
