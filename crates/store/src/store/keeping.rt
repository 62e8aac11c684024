// What the store writes into its records and bytes.
ghost use Rattle.std.specs.Prelude.{◌≡◌, ℕ, ◌+◌, ◌≤◌, min, true, false, vec_len, IfOk, IfErr, OnOk, OnErr};
ghost use Rattle.fault.specs.declared.cause.Cause.TheVariants.{Full as full_cause};
ghost use Rattle.store.specs.Written.{Opened, Unopened, Wrote, Unwritten, Ended};

use crate::record::Record;
use crate::store::Store;
use fault::cause::Cause;

impl Store {
    // The record of a new paragraph, and its number.
    pub(crate) fn write_open(&mut self, depth: u32) -> Result<u32, Cause>
        requires { self.old.inside ≡ false }
        ensures opened { IfOk result (λ n. Opened self.old self.new depth n) }
        ensures full { OnErr result (Unopened self.old self.new) }
        ensures cause { IfErr result (λ c. c ≡ full_cause) }
    {
        let n = self.count as usize;
        if n >= self.records.len() {
            return Err(Cause::Full);
        }
        let number = self.count.checked_add(1).ok_or(Cause::Full)?;
        self.records[n] = Record {
            depth,
            start: self.used,
            length: 0,
        };
        self.inside = true;
        Ok(number)
    }

    // A byte behind the open paragraph's text.
    pub(crate) fn write_text(&mut self, b: u8) -> Result<(), Cause>
        requires { self.old.inside ≡ true }
        ensures taken { OnOk result (Wrote self.old self.new b) }
        ensures full { OnErr result (Unwritten self.old self.new) }
        ensures cause { IfErr result (λ c. c ≡ full_cause) }
    {
        let at = self.used;
        if at >= self.bytes.len() {
            return Err(Cause::Full);
        }
        self.bytes[at] = b;
        self.records[self.count as usize].length += 1;
        self.used = at + 1;
        Ok(())
    }

    // The open paragraph is ended.
    pub(crate) fn write_end(&mut self)
        requires { self.old.inside ≡ true }
        ensures { Ended self.old self.new }
    {
        self.count += 1;
        self.inside = false;
    }
}
