// The two ways in which registers move over gates: forward lowers lags, back raises them.
ghost use Rattle.std.specs.Prelude.{◌≡◌};
ghost use Rattle.retiming.specs.Tied.{opposite};

#[derive(Clone, Copy, PartialEq, Eq, Debug)]
pub enum Way {
    Forward,
    Back,
}

impl Way {
    // The other way.
    pub fn opposite(self) -> Way
        ensures { result ≡ opposite self }
    {
        match self {
            Way::Forward => Way::Back,
            Way::Back => Way::Forward,
        }
    }
}
