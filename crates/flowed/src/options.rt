// The command line, read by hand: an argument parser of the kit would tell a wrong one in other words.
use crate::carry_options::{CarryOptions, parse_carry};
use crate::compose_options::{ComposeOptions, parse_compose};
use crate::trouble::Trouble;
use crate::usage::usage;
use std::env;

#[derive(Drop)]
pub enum Command {
    Help,
    Carry(CarryOptions),
    Compose(ComposeOptions),
}

pub fn from_command_line(rt: &HostRuntime) -> Result<Command, Trouble> {
    let heap = rt.alloc();
    let mut words = env::args(rt)?;
    let _program = words.next();
    let Some(command) = words.next() else {
        return Err(usage(heap, "no command is given"));
    };
    match command.as_str() {
        "--help" | "-h" | "help" => Ok(Command::Help),
        "carry" => parse_carry(heap, words),
        "compose" => parse_compose(heap, words),
        other => Err(usage(heap, format_args!("unknown command {other}"))),
    }
}
