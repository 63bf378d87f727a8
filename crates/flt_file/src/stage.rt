//! How far a device in a file is with its one life.
ghost use Rattle.std.specs.Prelude.{◌≡◌};
ghost use Rattle.flt_file.specs.Stage.{is_off};

/// How far a device in a file is with its one life.
#[derive(Clone, Copy, Debug, PartialEq, Eq)]
pub(crate) enum Stage {
    /// The power did not come yet.
    Waiting,
    /// It is on.
    On,
    /// It went off when its store failed, and stays off.
    Broken,
}

impl Stage {
    /// Whether the device is off.
    pub(crate) fn is_off(self) -> bool
        ensures { result ≡ is_off self }
    {
        match self {
            Stage::On => false,
            Stage::Waiting | Stage::Broken => true,
        }
    }
}
