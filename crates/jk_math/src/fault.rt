//! Why a call was refused.

ghost use Rattle.jk_math.specs.Memory.{IsMemory};

use std::alloc::{AllocError, AllocFailed};
use thiserror::Error;

/// A growth of memory that was refused. Its field is private and no call makes one, so a value of
/// this type comes from an `AllocError` or an `AllocFailed` alone.
#[derive(Clone, Copy, Debug, PartialEq, Eq)]
pub struct Refused {
    seen: (),
}

/// Why a call was refused. A file is judged from front to back, and the first fault is the answer.
#[derive(Clone, Copy, Debug, PartialEq, Eq, Error)]
pub enum Fault {
    /// A growth of memory was refused.
    #[error("F1 Memory")]
    Memory(Refused),
    /// The file, box or tile-part ends inside something that was begun, or EOC is missing at the
    /// end.
    #[error("F2 Truncated")]
    Truncated,
    /// A marker that can't stand here, a second one where one is allowed, or a required one absent.
    #[error("F3 BadMarker")]
    BadMarker,
    /// A segment's length contradicts its contents; Psot from 1 to 13; a length of SOP other than
    /// 4.
    #[error("F4 BadLength")]
    BadLength,
    /// A field has a value that T.800 doesn't allow, or another segmentation symbol stands than is
    /// due.
    #[error("F5 BadValue")]
    BadValue,
    /// T.800 allows it, and jk leaves it out.
    #[error("F6 Unsupported")]
    Unsupported,
    /// Past a limit of jk.
    #[error("F7 Limit")]
    Limit,
    /// A stuffed bit is 1, the zero bit planes pass Mb, a length field is wider than 32 bits, or
    /// other bytes stand where EPH must.
    #[error("F8 PacketHeader")]
    PacketHeader,
    /// More coding passes of a code-block than its bit planes have.
    #[error("F9 TooManyPasses")]
    TooManyPasses,
    /// The code value leaves the interval of the MQ coder.
    #[error("F10 CodeOutOfInterval")]
    CodeOutOfInterval,
    /// The tile-parts of a tile end with packets left, or a tile has no tile-part.
    #[error("F11 MissingPackets")]
    MissingPackets,
    /// Bytes stand after a tile's last packet, or after EOC.
    #[error("F12 SurplusBytes")]
    SurplusBytes,
    /// The structure of the JP2 boxes is broken.
    #[error("F13 BadBox")]
    BadBox,
    /// Not a PGM or PPM file of the kind that jk reads.
    #[error("F14 BadPnm")]
    BadPnm,
    /// Image, parameters or number of workers outside the profile.
    #[error("F15 BadParameters")]
    BadParameters,
    /// A reduction past the least number of levels, or a window without a sample.
    #[error("F16 BadWindow")]
    BadWindow,
    /// The name isn't listed.
    #[error("F17 NoSuchImage")]
    NoSuchImage,
    /// The name is listed, or waits to be published.
    #[error("F18 NameTaken")]
    NameTaken,
    /// Not 1 to 64 of `a` to `z`, `0` to `9`, `-` and `_`.
    #[error("F19 BadName")]
    BadName,
    /// A file, or a call of the shelf, failed during this call.
    #[error("F20 Shelf")]
    Shelf,
    /// The file isn't the one that was indexed.
    #[error("F21 Changed")]
    Changed,
    /// A thread couldn't be started, or the catalogue refused a reader.
    #[error("F23 WorkerFailed")]
    WorkerFailed,
}

impl From<AllocError> for Refused {
    fn from(_error: AllocError) -> Refused {
        Refused { seen: () }
    }
}

impl<T: Drop> From<AllocFailed<T>> for Refused {
    fn from(_error: AllocFailed<T>) -> Refused {
        Refused { seen: () }
    }
}

impl From<AllocError> for Fault {
    ghost from_gives = { λ _ e. IsMemory e };

    fn from(error: AllocError) -> Fault {
        Fault::Memory(Refused::from(error))
    }
}

impl<T: Drop> From<AllocFailed<T>> for Fault {
    ghost from_gives = { λ _ e. IsMemory e };

    fn from(error: AllocFailed<T>) -> Fault {
        Fault::Memory(Refused::from(error))
    }
}
