//! Words of a line: what each stands for. The names are those of mmap(2), mprotect(2) and errno(3), and the SIGSEGV
//! codes of sigaction(2); the bits are those of the crate `page_types`. `specs/Words.antt` is the list, and each
//! function here gives exactly what it says.

ghost use Rattle.std.specs.Prelude.{◌≡◌};
ghost use Rattle.strace_reader.specs.Words.{prot_of, flag_of, access_of, may_of, errno_of};

use crate::item::Errno;
use bitflags::Flags;
use page_types::{Access, MapFlags, Prot};

/// The bits of a word that stands for none.
const NO_BITS: u8 = 0;

/// The bits of a protection word.
#[tactic(auto, unfolding(crate::specs::Words::prot_of))]
pub(crate) fn prot_bits(word: &[u8]) -> Option<u8>
    ensures { result ≡ prot_of word.now }
{
    if word == b"PROT_READ".as_slice() {
        Some(Prot::READ.bits())
    } else if word == b"PROT_WRITE".as_slice() {
        Some(Prot::WRITE.bits())
    } else if word == b"PROT_EXEC".as_slice() {
        Some(Prot::EXEC.bits())
    } else if word == b"PROT_NONE".as_slice() {
        Some(NO_BITS)
    } else {
        None
    }
}

/// The bits of a flag; None where the word leaves the line unplayed.
#[tactic(auto, unfolding(crate::specs::Words::flag_of))]
pub(crate) fn flag_bits(word: &[u8]) -> Option<u8>
    ensures { result ≡ flag_of word.now }
{
    if word == b"MAP_SHARED".as_slice() {
        Some(MapFlags::SHARED.bits())
    } else if word == b"MAP_PRIVATE".as_slice() {
        Some(MapFlags::PRIVATE.bits())
    } else if word == b"MAP_FIXED".as_slice() {
        Some(MapFlags::FIXED.bits())
    } else if word == b"MAP_FIXED_NOREPLACE".as_slice() {
        Some(MapFlags::FIXED_NOREPLACE.bits())
    } else if word == b"MAP_SHARED_VALIDATE".as_slice() {
        None
    } else {
        Some(NO_BITS)
    }
}

/// The access of a word.
#[tactic(auto, unfolding(crate::specs::Words::access_of))]
pub(crate) fn access_named(word: &[u8]) -> Option<Access>
    ensures { result ≡ access_of word.now }
{
    if word == b"PROT_READ".as_slice() {
        Some(Access::Read)
    } else if word == b"PROT_WRITE".as_slice() {
        Some(Access::Write)
    } else if word == b"PROT_EXEC".as_slice() {
        Some(Access::Exec)
    } else {
        None
    }
}

/// What a word of mremap's flags says of whether pages may be put elsewhere; None where it leaves the line unplayed.
#[tactic(auto, unfolding(crate::specs::Words::may_of))]
pub(crate) fn may_move(word: &[u8]) -> Option<bool>
    ensures { result ≡ may_of word.now }
{
    if word == b"MREMAP_MAYMOVE".as_slice() {
        Some(true)
    } else {
        None
    }
}

/// The error of a name.
#[tactic(auto, unfolding(crate::specs::Words::errno_of))]
pub(crate) fn errno_named(word: &[u8]) -> Errno
    ensures { result ≡ errno_of word.now }
{
    if word == b"EINVAL".as_slice() {
        Errno::Einval
    } else if word == b"ENOMEM".as_slice() {
        Errno::Enomem
    } else if word == b"EEXIST".as_slice() {
        Errno::Eexist
    } else if word == b"EPERM".as_slice() {
        Errno::Eperm
    } else if word == b"EFAULT".as_slice() {
        Errno::Efault
    } else if word == b"SEGV_MAPERR".as_slice() {
        Errno::MapErr
    } else if word == b"SEGV_ACCERR".as_slice() {
        Errno::AccErr
    } else {
        Errno::Other
    }
}
