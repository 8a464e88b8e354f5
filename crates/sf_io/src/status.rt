//! How a run of the program ended.

/// How a run of the program ended. The number is the exit status of the process.
#[derive(Clone, Copy, Debug, PartialEq, Eq)]
pub enum Status {
    /// What was asked for is done: the plan is proved to be the best, the certificate is accepted, the
    /// placement is legal, or the curve is printed.
    Done = 0,
    /// No slicing floorplan fits the outline.
    NoneFits = 1,
    /// The words of the command line have no meaning.
    Usage = 2,
    /// The search ended at its limit before the bound met the cost.
    Open = 3,
    /// The certificate is refused, or the placement isn't legal.
    No = 4,
    /// A text that was read is refused.
    BadInput = 5,
    /// A counted quantity passes its limit.
    OverLimit = 6,
    /// A load failed.
    ReadFault = 7,
    /// A store or a print failed.
    WriteFault = 8,
    /// The memory didn't suffice.
    NoMemory = 9,
}
