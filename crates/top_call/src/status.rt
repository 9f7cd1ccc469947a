/// How a call of the tool ended. The number is the program's exit code.
#[derive(Clone, Copy, Debug, PartialEq, Eq)]
pub enum Status {
    /// The command's output was put whole.
    Done = 0,
    /// Conditions aren't proved. Their lines were put whole.
    NotProved = 1,
    /// The input is refused. The refusal's line was put.
    Refused = 2,
    /// The words ask for nothing. The usage line was put.
    Usage = 3,
    /// A file that the words name could not be read. Nothing was put.
    ReadFailed = 4,
    /// The output could not be put whole. A prefix of it stands.
    WriteFailed = 5,
    /// Memory was wanted. Nothing was put.
    NoMemory = 6,
    /// A run needs more frames than are allowed. Nothing was put.
    Deep = 7,
}
