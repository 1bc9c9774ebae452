//! The generator of numbers: a state that each draw moves on, and the draw's number, which is the state's upper bits.
//! It is the example of `rand` in the C standard (ISO C, 7.22.2), with 31 bits of state. A reader may rely on a draw
//! being below 2^15.
ghost use Rattle.std.specs.Prelude.{◌≡◌, ◌/◌, ◌<◌, ◌^◌};
ghost use Rattle.load_lines.specs.Generator.{next_state};

/// Moves the state on, and returns the number that is drawn.
pub fn draw(state: &mut u64) -> u64
    requires { state.old < 2 ^ 31 }
    ensures state { state.new ≡ next_state state.old }
    ensures bound { state.new < 2 ^ 31 }
    ensures drawn { result ≡ state.new / 65536 }
{
    *state = (1_103_515_245 * *state + 12_345) % 2_147_483_648;
    *state / 65_536
}
