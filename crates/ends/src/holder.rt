// What holds an end's bytes, and says which may join them.
ghost use Rattle.std.specs.Prelude.{◌≡◌, ℕ, List, [], ◌∷◌, ◌++◌, IfOk, IfErr};
ghost use Rattle.fault.specs.declared.layer.Layer.TheVariants.{End as end_layer};
ghost use Rattle.fault.specs.Answers.{answer, arisen};
ghost use Rattle.orders.specs.Behind.{Behind};
ghost use Rattle.orders.specs.Laws.{Hard};
ghost use Rattle.orders.specs.Meaning.{Permit};
ghost use Rattle.orders.specs.Permits.{Permitted};
ghost use Rattle.orders.specs.Steps.{shown};

use fault::cause::Cause;

pub trait Holder {
    ghost permit: { Self → Permit ℕ };

    // The bytes that came.
    ghost foot: { Self → List ℕ };

    // The memory at the bottom.
    ghost memory: { Self → List ℕ };

    // What the law of sinks asks of a permit, and of a foot under it.
    ghost hard: { (s : Self) → Hard (permit s) };

    ghost permitted: { (s : Self) → Permitted (permit s).bars (foot s) };

    fn came(&self) -> &[u8]
        ensures { result.now ≡ foot self.now };

    // One byte more, or why it may not come.
    fn push(&mut self, b: u8) -> Result<(), Cause>
        ensures permitted { arisen end_layer (shown (foot self.old)) result ≡ answer tt ((permit self.old).bars (foot self.old) b) }
        ensures came { IfOk result (λ _. foot self.new ≡ foot self.old ++ (b ∷ [])) }
        ensures barred { IfErr result (λ _. foot self.new ≡ foot self.old) }
        ensures same { permit self.new ≡ permit self.old }
        ensures behind { Behind (foot self.new) (memory self.old) (memory self.new) };

    // Why the end may not be closed yet.
    fn may_close(&self) -> Result<(), Cause>
        ensures { arisen end_layer (shown (foot self.now)) result ≡ answer tt ((permit self.now).ending (foot self.now)) };
}
