// The command line of flowed carry.
use crate::file_names::FileNames;
use crate::options::Command;
use crate::trouble::Trouble;
use std::alloc::Global;
use std::env::Args;

#[derive(Drop)]
pub struct CarryOptions {
    // turn LF line ends into CRLF first
    pub lf: bool,
    pub files: FileNames,
}

pub fn parse_carry(heap: Global, mut words: Args) -> Result<Command, Trouble> {
    let mut lf = false;
    let mut files = FileNames::default();
    while let Some(word) = words.next() {
        match word.as_str() {
            "--help" | "-h" => return Ok(Command::Help),
            "--lf" => lf = true,
            "--wire" => files.set_wire(heap, words.next())?,
            _ => files.set_input(heap, word, "body")?,
        }
    }
    Ok(Command::Carry(CarryOptions { lf, files }))
}
