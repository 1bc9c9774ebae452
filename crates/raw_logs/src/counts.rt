//! How many lines of each sort were changed or left out. `specs/Counting.antt` says how counts rise; none wraps.

ghost use Rattle.std.specs.Prelude.{◌≡◌, ◌+◌};
ghost use Rattle.raw_logs.specs.Counting.{within_32_bits, no_counts, one_more_of};

/// A sort of lines that were changed or left out.
#[derive(Clone, Copy, PartialEq, Eq, Debug)]
pub enum Sort {
    /// Messages of strace's own, left out.
    Messages,
    /// Lines of a stack, left out.
    Stack,
    /// Lines from which fields, times or carriage returns were taken.
    Stripped,
    /// Lines whose process number was written otherwise.
    Numbered,
    /// Lines of another address space, left out.
    Elsewhere,
    /// Lines of programs before the last execve(2), left out.
    Earlier,
    /// Lines whose beginning isn't known, left out.
    Unknown,
    /// Lines longer than 65,535 bytes that are of no call of the profile, left out.
    Long,
    /// Lines that make a thread or a process and don't show which.
    Untold,
    /// Calls in two halves, written as one line.
    Joined,
    /// Calls that were mended.
    Mended,
    /// First halves without their second, written as calls that never returned.
    Unreturned,
    /// Lines that bear the mark of an unread line.
    Unread,
    /// Calls that change an address space in a form that the profile hasn't.
    Forms,
    /// Calls whose result strace made up, so that the kernel didn't do them.
    Injected,
    /// Calls that failed for a reason outside the address space.
    Outside,
    /// Calls whose result isn't told.
    Unanswered,
}

/// How many lines of each sort there were.
#[derive(Clone, Copy, PartialEq, Eq, Debug)]
pub struct Counts {
    /// Messages of strace's own.
    pub messages: u32,
    /// Lines of stacks.
    pub stack: u32,
    /// Lines from which fields, times or carriage returns were taken.
    pub stripped: u32,
    /// Lines whose process number was written otherwise.
    pub numbered: u32,
    /// Lines of other address spaces.
    pub elsewhere: u32,
    /// Lines of programs before the last execve(2).
    pub earlier: u32,
    /// Lines whose beginning isn't known.
    pub unknown: u32,
    /// Lines longer than 65,535 bytes that are of no call of the profile.
    pub long: u32,
    /// Lines that make a thread or a process and don't show which.
    pub untold: u32,
    /// Numbers that calls made and that have no line.
    pub silent: u32,
    /// Numbers that have a line and that no call made, but for one.
    pub foreign: u32,
    /// Calls that made a number which an earlier call had made: two threads or processes have lines of that number.
    pub twice: u32,
    /// Calls in two halves.
    pub joined: u32,
    /// Calls that were mended.
    pub mended: u32,
    /// First halves without their second.
    pub unreturned: u32,
    /// Lines that are left unread.
    pub unread: u32,
    /// Calls that change an address space in a form that the profile hasn't.
    pub forms: u32,
    /// Calls whose result strace made up.
    pub injected: u32,
    /// Calls that failed for a reason outside the address space.
    pub outside: u32,
    /// Calls whose result isn't told.
    pub unanswered: u32,
}

/// A count with one line more; it stays at 2^32 - 1.
fn one_more(count: u32) -> u32
    ensures { result ≡ within_32_bits (count + 1) }
{
    count.saturating_add(1)
}

impl Counts {
    ghost use Rattle.raw_logs.specs.Counting.{both};

    /// No line.
    pub fn new() -> Counts
        ensures { result ≡ no_counts }
    {
        Counts {
            messages: 0,
            stack: 0,
            stripped: 0,
            numbered: 0,
            elsewhere: 0,
            earlier: 0,
            unknown: 0,
            long: 0,
            untold: 0,
            silent: 0,
            foreign: 0,
            twice: 0,
            joined: 0,
            mended: 0,
            unreturned: 0,
            unread: 0,
            forms: 0,
            injected: 0,
            outside: 0,
            unanswered: 0,
        }
    }

    /// Counts one line more; a count stays at 2^32 - 1.
    pub fn add(&mut self, sort: Sort)
        ensures { self.new ≡ one_more_of sort self.old }
    {
        match sort {
            Sort::Messages => self.messages = one_more(self.messages),
            Sort::Stack => self.stack = one_more(self.stack),
            Sort::Stripped => self.stripped = one_more(self.stripped),
            Sort::Numbered => self.numbered = one_more(self.numbered),
            Sort::Elsewhere => self.elsewhere = one_more(self.elsewhere),
            Sort::Earlier => self.earlier = one_more(self.earlier),
            Sort::Unknown => self.unknown = one_more(self.unknown),
            Sort::Long => self.long = one_more(self.long),
            Sort::Untold => self.untold = one_more(self.untold),
            Sort::Joined => self.joined = one_more(self.joined),
            Sort::Mended => self.mended = one_more(self.mended),
            Sort::Unreturned => self.unreturned = one_more(self.unreturned),
            Sort::Unread => self.unread = one_more(self.unread),
            Sort::Forms => self.forms = one_more(self.forms),
            Sort::Injected => self.injected = one_more(self.injected),
            Sort::Outside => self.outside = one_more(self.outside),
            Sort::Unanswered => self.unanswered = one_more(self.unanswered),
        }
    }

    /// The sums of two counts, each at most 2^32 - 1.
    pub fn with(self, other: Counts) -> Counts
        ensures { result ≡ both self other }
    {
        Counts {
            messages: self.messages.saturating_add(other.messages),
            stack: self.stack.saturating_add(other.stack),
            stripped: self.stripped.saturating_add(other.stripped),
            numbered: self.numbered.saturating_add(other.numbered),
            elsewhere: self.elsewhere.saturating_add(other.elsewhere),
            earlier: self.earlier.saturating_add(other.earlier),
            unknown: self.unknown.saturating_add(other.unknown),
            long: self.long.saturating_add(other.long),
            untold: self.untold.saturating_add(other.untold),
            silent: self.silent.saturating_add(other.silent),
            foreign: self.foreign.saturating_add(other.foreign),
            twice: self.twice.saturating_add(other.twice),
            joined: self.joined.saturating_add(other.joined),
            mended: self.mended.saturating_add(other.mended),
            unreturned: self.unreturned.saturating_add(other.unreturned),
            unread: self.unread.saturating_add(other.unread),
            forms: self.forms.saturating_add(other.forms),
            injected: self.injected.saturating_add(other.injected),
            outside: self.outside.saturating_add(other.outside),
            unanswered: self.unanswered.saturating_add(other.unanswered),
        }
    }
}
