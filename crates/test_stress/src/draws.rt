//! Numbers below a bound, drawn from the generator `Pcg32` of the crate `rand_pcg`. A thread's numbers follow from its
//! seed and its stream; in which order the threads use theirs, the schedule decides.
ghost use Rattle.std.specs.Prelude.{◌<◌};

use rand_core::utils::NextWord;
use rand_pcg::Pcg32;

/// The next number below the bound. Its remainder is taken, so of a bound that is no power of two the first numbers
/// come a little more often.
pub fn below(draws: &mut Pcg32, bound: u32) -> u32
    requires { 0 < bound }
    ensures { result < bound }
{
    draws.next_word() % bound
}
