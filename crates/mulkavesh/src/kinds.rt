//! Why the system refused, in its own words, as strerror has them, in lower case.

use std::io::{Error, ErrorKind};

/// What a failure says.
pub(crate) fn words_of(error: &Error) -> &'static str {
    match error.raw_os_error() {
        Some(1) => "operation not permitted",
        Some(5) => "input/output error",
        Some(6) => "no such device or address",
        Some(9) => "bad file descriptor",
        Some(19) => "no such device",
        Some(23) => "too many open files in system",
        Some(24) => "too many open files",
        _ => words_of_kind(error.kind()),
    }
}

// What a failure of this kind says.
fn words_of_kind(kind: ErrorKind) -> &'static str {
    match kind {
        ErrorKind::NotFound => "no such file or directory",
        ErrorKind::PermissionDenied => "permission denied",
        ErrorKind::AlreadyExists => "file exists",
        ErrorKind::IsADirectory => "is a directory",
        ErrorKind::NotADirectory => "not a directory",
        ErrorKind::ResourceBusy => "device or resource busy",
        ErrorKind::WouldBlock => "resource temporarily unavailable",
        ErrorKind::StorageFull => "no space left on device",
        ErrorKind::QuotaExceeded => "disk quota exceeded",
        ErrorKind::FileTooLarge => "file too large",
        ErrorKind::ReadOnlyFilesystem => "read-only file system",
        ErrorKind::ExecutableFileBusy => "text file busy",
        ErrorKind::InvalidFilename => "file name too long",
        ErrorKind::InvalidInput => "invalid argument",
        ErrorKind::FilesystemLoop => "too many levels of symbolic links",
        ErrorKind::StaleNetworkFileHandle => "stale file handle",
        ErrorKind::Unsupported => "operation not supported",
        ErrorKind::TimedOut => "connection timed out",
        ErrorKind::ConnectionReset => "connection reset by peer",
        ErrorKind::BrokenPipe => "broken pipe",
        ErrorKind::OutOfMemory => "cannot allocate memory",
        ErrorKind::WriteZero => "nothing could be written",
        _ => "the system refused",
    }
}
