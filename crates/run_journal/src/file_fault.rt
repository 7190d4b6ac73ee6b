use thiserror::Error;

/// Why a call of a log file failed, or why there is none.
#[derive(Clone, Copy, Debug, PartialEq, Eq, Error)]
pub enum FileFault {
    /// It couldn't be opened, made, locked, written, cut or synced.
    #[error("Log")]
    Log,
    /// Another process has it.
    #[error("InUse")]
    InUse,
    /// It couldn't be read.
    #[error("Read")]
    Read,
    /// It has more bytes than are read.
    #[error("TooLong")]
    TooLong,
    /// Out of memory.
    #[error("Memory")]
    Memory,
}
