// The files that a command line names.
ghost use Rattle.std.specs.Prelude.{◌≡◌, OnOk, OnErr};

use crate::trouble::Trouble;
use crate::usage::usage;
use std::alloc::Global;

#[derive(Default, Drop)]
pub struct FileNames {
    // where the text or the body comes from
    pub input: Option<String>,
    // where the wire bytes go
    pub wire: Option<String>,
}

impl FileNames {
    // What stands behind --wire.
    pub fn set_wire(&mut self, heap: Global, name: Option<String>) -> Result<(), Trouble>
        ensures ok { OnOk result (self.new ≡ record self.old { wire = name }) }
        ensures err { OnErr result (self.new ≡ self.old) }
    {
        if name.is_none() {
            return Err(usage(heap, "--wire wants a file's name"));
        }
        self.wire = name;
        Ok(())
    }

    // A word that is no option of the command: the one text or body, as `what` says.
    pub fn set_input(&mut self, heap: Global, word: String, what: &str) -> Result<(), Trouble>
        ensures ok { OnOk result (self.new ≡ record self.old { input = Some word }) }
        ensures first { OnOk result (self.old.input ≡ None) }
        ensures err { OnErr result (self.new ≡ self.old) }
    {
        if word.len() > 1 && word.starts_with('-') {
            return Err(usage(heap, format_args!("unknown option {word}")));
        }
        if self.input.is_some() {
            return Err(usage(heap, format_args!("more than one {what}: {word}")));
        }
        self.input = Some(word);
        Ok(())
    }
}
