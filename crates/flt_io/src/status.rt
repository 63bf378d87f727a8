//! How a program ends.
ghost use Rattle.std.specs.Prelude.{◌≡◌};
ghost use Rattle.flt_io.specs.Status.{status_number};

/// How a program ends, with the number of its exit status (this profile).
#[derive(Clone, Copy, Debug, PartialEq, Eq)]
pub enum Status {
    /// All that was asked is done.
    Done = 0,
    /// The words are no command.
    Usage = 1,
    /// The input is refused: it is no script, or a script of another kind than the command takes.
    Refused = 2,
    /// Reading failed.
    ReadFault = 3,
    /// Writing failed; it takes the place of the status that was due.
    WriteFault = 4,
    /// The last life is dark, since the device failed three times in one job of its start-up.
    Dark = 5,
    /// The image is damaged, or of another configuration.
    Damaged = 6,
    /// Memory ran out.
    OutOfMemory = 7,
    /// The device has no sequence number left.
    SequenceSpent = 8,
    /// The input has more bytes than are taken.
    InputLarge = 9,
    /// The lines after the configuration of a dump are not the pages of its image.
    NoPages = 10,
    /// The input is no JSON.
    NoJson = 11,
    /// The input is JSON, but no trace of a life.
    NoTrace = 12,
    /// An answer of the trace is not the one that is due.
    OtherAnswer = 13,
    /// The file of the image has another size than the configuration asks for.
    ImageSize = 14,
    /// Another process has the file of the image open.
    ImageInUse = 15,
    /// The file of the image could not be made or opened.
    ImageUnopened = 16,
}

impl Status {
    /// The number.
    pub fn number(self) -> u8
        ensures { result ≡ status_number self }
    {
        self as u8
    }
}
