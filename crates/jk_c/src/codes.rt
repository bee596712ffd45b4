//! The numbers that calls answer.

ghost use Rattle.std.specs.Prelude.{◌≡◌};
ghost use Rattle.jk_c.specs.Codes.{code_of};

use jk_math::Fault;

/// The call has done what it is for.
pub(crate) const DONE: u32 = 0;
/// A growth of memory was refused.
pub(crate) const MEMORY: u32 = 1;
/// Image or parameters outside the profile.
pub(crate) const BAD_PARAMETERS: u32 = 15;
/// The caller's room is too small for what is handed out.
pub(crate) const SHORT: u32 = 64;
/// The list isn't one for the samples of the image.
pub(crate) const MISFIT: u32 = 65;

/// The number of a fault, as `jk faults` lists it.
pub(crate) fn code(fault: Fault) -> u32
    ensures { result ≡ code_of fault }
{
    match fault {
        Fault::Memory(_) => 1,
        Fault::Truncated => 2,
        Fault::BadMarker => 3,
        Fault::BadLength => 4,
        Fault::BadValue => 5,
        Fault::Unsupported => 6,
        Fault::Limit => 7,
        Fault::PacketHeader => 8,
        Fault::TooManyPasses => 9,
        Fault::CodeOutOfInterval => 10,
        Fault::MissingPackets => 11,
        Fault::SurplusBytes => 12,
        Fault::BadBox => 13,
        Fault::BadPnm => 14,
        Fault::BadParameters => 15,
        Fault::BadWindow => 16,
        Fault::NoSuchImage => 17,
        Fault::NameTaken => 18,
        Fault::BadName => 19,
        Fault::Shelf => 20,
        Fault::Changed => 21,
        Fault::WorkerFailed => 23,
    }
}
