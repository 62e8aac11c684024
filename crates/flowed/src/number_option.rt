// An option whose value is a number.
ghost use Rattle.std.specs.Prelude.{◌≤◌, IfSome, IfOk};

use crate::trouble::Trouble;
use crate::usage::usage;
use std::alloc::Global;
use std::fmt;

pub struct NumberOption {
    pub name: &'static str,
    pub least: u32,
    pub most: u32,
}

impl NumberOption {
    fn number(&self, word: &str) -> Option<u32>
        ensures least { IfSome result (λ n. self.now.least ≤ n) }
        ensures most { IfSome result (λ n. n ≤ self.now.most) }
    {
        word.parse::<u32>()
            .ok()
            .filter(|n| (self.least..=self.most).contains(n))
    }

    // The number that stands behind the option.
    pub fn value(&self, heap: Global, word: Option<String>) -> Result<u32, Trouble>
        ensures least { IfOk result (λ n. self.now.least ≤ n) }
        ensures most { IfOk result (λ n. n ≤ self.now.most) }
    {
        let Some(word) = word else {
            return Err(usage(heap, self));
        };
        self.number(word.as_str())
            .ok_or_else(|| usage(heap, format_args!("{self}, not {word}")))
    }
}

impl fmt::Display for NumberOption {
    fn fmt<W: fmt::Write>(&self, f: &mut fmt::Formatter<W>) -> fmt::Result {
        let name = self.name;
        let least = self.least;
        let most = self.most;
        write!(f, "{name} wants a number from {least} to {most}")
    }
}
