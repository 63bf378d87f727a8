/// What is done over a device.
#[derive(Clone, Copy, Debug, PartialEq, Eq)]
pub enum Command {
    /// The script is read and its steps are made.
    Run,
    /// The script is read, and the report says what it has.
    Check,
    /// The script of a load is made, of a number of reports, 1 to 60,000, in lanes or without.
    Load { count: u32, lanes: bool },
}
