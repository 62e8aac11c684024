// The command line of flowed compose.
use crate::file_names::FileNames;
use crate::number_option::NumberOption;
use crate::options::Command;
use crate::trouble::Trouble;
use crate::usage::usage;
use plain_text::line::Depths;
use std::alloc::Global;
use std::env::Args;

const WIDTH: NumberOption = NumberOption {
    name: "--width",
    least: 20,
    most: 998,
};

const DEPTH: NumberOption = NumberOption {
    name: "--depth",
    least: 0,
    most: 100,
};

#[derive(Drop)]
pub struct ComposeOptions {
    pub width: u32,
    // through the dot stage
    pub dot: bool,
    pub depths: Depths,
    pub files: FileNames,
}

pub fn parse_compose(heap: Global, mut words: Args) -> Result<Command, Trouble> {
    let mut width: Option<u32> = None;
    let mut depth: Option<u32> = None;
    let mut marks = false;
    let mut dot = false;
    let mut files = FileNames::default();
    while let Some(word) = words.next() {
        match word.as_str() {
            "--help" | "-h" => return Ok(Command::Help),
            "--width" => width = Some(WIDTH.value(heap, words.next())?),
            "--depth" => depth = Some(DEPTH.value(heap, words.next())?),
            "--wire" => files.set_wire(heap, words.next())?,
            "--marks" => marks = true,
            "--dot" => dot = true,
            _ => files.set_input(heap, word, "text")?,
        }
    }
    let width = width.ok_or_else(|| usage(heap, "compose wants a --width"))?;
    let depths = match (marks, depth) {
        (true, Some(_)) => return Err(usage(heap, "--marks and --depth do not go together")),
        (true, None) => Depths::Marks,
        (false, each) => Depths::Each(each.unwrap_or(0)),
    };
    Ok(Command::Compose(ComposeOptions {
        width,
        dot,
        depths,
        files,
    }))
}
