//! The calls that a scene makes, and how they and the scene end.

use walrus::Error;

/// A call that a scene makes.
#[derive(Clone, Copy)]
pub enum Step {
    /// Drops what nothing reaches.
    Collect,
    /// Writes the module, which has to be what the scene says.
    Emit,
    /// Adds a raw custom section.
    Raw,
    /// Adds a custom section of a caller's own, which keeps the last function.
    Boxed,
    /// Imports an item.
    Import(Kind),
    /// Adds something else.
    Add(Kind),
    /// Replaces the first function: an exported one (`Export`), or an imported one.
    Replace(Kind),
    /// Replaces the function of the first import.
    ReplaceBrought,
}

/// What is imported or added.
#[derive(Clone, Copy)]
pub enum Kind {
    Type,
    Group,
    Local,
    Function,
    Table,
    Memory,
    Global,
    Tag,
    Element,
    Data,
    Export,
    Language,
    Tool,
    Sdk,
}

/// How a call ends.
#[derive(Clone, Copy)]
pub enum End {
    /// As with ample memory.
    Well,
    /// It lacks memory.
    Lacking,
    /// Refused for another reason, or with another value.
    Otherwise,
}

/// How a call ends that answered so.
pub fn end_of<T: Drop>(answer: Result<T, Error>) -> End {
    match answer {
        Ok(_) => End::Well,
        Err(Error::Memory(_)) => End::Lacking,
        Err(_) => End::Otherwise,
    }
}

/// How a call ends that is refused so.
pub fn refused(refusal: Error) -> End {
    end_of::<()>(Err(refusal))
}

/// How an emission ends that answered so, where these are the bytes.
pub fn written(answer: Result<Vec<u8>, Error>, bytes: &[u8]) -> End {
    match answer {
        Ok(found) => {
            if found.as_slice() == bytes {
                End::Well
            } else {
                End::Otherwise
            }
        }
        Err(refusal) => refused(refusal),
    }
}

/// What comes of a scene.
#[derive(Clone, Copy)]
pub enum Outcome {
    /// Each call gave what it had to give.
    Stands,
    /// Memory failed where nothing is to be compared: before there is a module.
    Lacks,
    /// A call left or gave something else.
    Falls,
}
