// Where a refusal arose.
ghost use Rattle.std.specs.Prelude.{◌≡◌};
ghost use Rattle.fault.specs.Numbers.{layer_number};

#[derive(Clone, Copy, Debug, PartialEq, Eq)]
pub enum Layer {
    Composer = 1,
    Reader = 2,
    Dot = 4,
    DotUndoing = 6,
    End = 7,
    Store = 8,
}

impl Layer {
    // The number by which a report names the layer; it casts itself, as causes do.
    pub fn number(self) -> u8
        ensures { result ≡ layer_number self }
    {
        self as u8
    }
}
