//! How the body of a line begins, by which it is told from lines that aren't strace(1)'s or that an unknown option
//! changed. `specs/Beginnings.antt` has the forms.

ghost use Rattle.std.specs.Prelude.{◌≡◌};
ghost use Rattle.std.specs.Bool.{Decides};
ghost use Rattle.line_parts.specs.Reading.{taken};
ghost use Rattle.raw_lines.specs.Beginnings.{is_name_byte, names_call, IsKnown, IsOfProfile, ChangesSpace};
ghost use Rattle.raw_lines.specs.Beginnings.{IsMapHead, IsOtherHead, IsMapEnd, IsOtherEnd, IsForeignHead, IsRareHead, IsMapLikeHead};

use line_parts::begins;
use strace_reader::begins_with;

fn is_name_byte(byte: u8) -> bool
    ensures { result ≡ is_name_byte byte }
{
    byte.is_ascii_lowercase() || byte.is_ascii_digit() || byte == b'_' || byte == b'?'
}

/// What is left behind all the bytes of a name.
#[tactic(auto, unfolding(line_parts::specs::Reading::taken))]
fn skip_name(text: &[u8]) -> &[u8]
    ensures { result.now ≡ (taken is_name_byte text.now).1 }
{
    let mut rest = text;
    'name: while let [first, after @ ..] = rest {
        if !is_name_byte(*first) {
            break;
        }
        rest = after;
    }
    rest
}

/// Whether a body begins with a name and an opening parenthesis.
fn names_call(body: &[u8]) -> bool
    ensures { result ≡ names_call body.now }
{
    if begins(body, b'(') {
        return false;
    }
    begins(skip_name(body), b'(')
}

/// Whether the body of a line begins as one of strace(1)'s.
pub fn is_known(body: &[u8]) -> bool
    ensures { Decides result (IsKnown body.now) }
{
    names_call(body)
        || begins_with(body, b"<... ")
        || begins_with(body, b"--- ")
        || begins_with(body, b"+++ ")
}

#[tactic(auto, unfolding(crate::specs::Beginnings::IsMapHead))]
fn is_map_head(body: &[u8]) -> bool
    ensures { Decides result (IsMapHead body.now) }
{
    begins_with(body, b"mmap(")
        || begins_with(body, b"munmap(")
        || begins_with(body, b"mremap(")
        || begins_with(body, b"mprotect(")
}

#[tactic(auto, unfolding(crate::specs::Beginnings::IsOtherHead))]
fn is_other_head(body: &[u8]) -> bool
    ensures { Decides result (IsOtherHead body.now) }
{
    begins_with(body, b"brk(") || begins_with(body, b"mseal(") || begins_with(body, b"fault(")
}

#[tactic(auto, unfolding(crate::specs::Beginnings::IsMapEnd))]
fn is_map_end(body: &[u8]) -> bool
    ensures { Decides result (IsMapEnd body.now) }
{
    begins_with(body, b"<... mmap resumed>")
        || begins_with(body, b"<... munmap resumed>")
        || begins_with(body, b"<... mremap resumed>")
        || begins_with(body, b"<... mprotect resumed>")
}

#[tactic(auto, unfolding(crate::specs::Beginnings::IsOtherEnd))]
fn is_other_end(body: &[u8]) -> bool
    ensures { Decides result (IsOtherEnd body.now) }
{
    begins_with(body, b"<... brk resumed>")
        || begins_with(body, b"<... mseal resumed>")
        || begins_with(body, b"<... fault resumed>")
}

#[tactic(auto, unfolding(crate::specs::Beginnings::IsForeignHead))]
fn is_foreign_head(body: &[u8]) -> bool
    ensures { Decides result (IsForeignHead body.now) }
{
    begins_with(body, b"pkey_mprotect(")
        || begins_with(body, b"shmat(")
        || begins_with(body, b"shmdt(")
}

#[tactic(auto, unfolding(crate::specs::Beginnings::IsRareHead))]
fn is_rare_head(body: &[u8]) -> bool
    ensures { Decides result (IsRareHead body.now) }
{
    begins_with(body, b"remap_file_pages(") || begins_with(body, b"syscall_0x")
}

#[tactic(auto, unfolding(crate::specs::Beginnings::IsMapLikeHead))]
fn is_map_like_head(body: &[u8]) -> bool
    ensures { Decides result (IsMapLikeHead body.now) }
{
    begins_with(body, b"mmap2(")
        || begins_with(body, b"io_setup(")
        || begins_with(body, b"map_shadow_stack(")
}

/// Whether the body of a line is of a call of the profile, or of the second half of one.
pub fn is_of_profile(body: &[u8]) -> bool
    ensures { Decides result (IsOfProfile body.now) }
{
    is_map_head(body) || is_other_head(body) || is_map_end(body) || is_other_end(body)
}

/// Whether the body of a line names a call that changes an address space. One that the reader of lines passes over has
/// another form than those of the profile.
pub fn changes_space(body: &[u8]) -> bool
    ensures { Decides result (ChangesSpace body.now) }
{
    is_map_head(body)
        || is_other_head(body)
        || is_foreign_head(body)
        || is_rare_head(body)
        || is_map_like_head(body)
}
