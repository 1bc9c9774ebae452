//! The call on a log line. It ends at the first closing parenthesis that a space follows, and is read as a line of
//! strace(1).

ghost use Rattle.std.specs.Prelude.{◌≡◌, ◌++◌, ◌∷◌, List, ℕ, MatchOption};
ghost use Rattle.page_types.specs.declared.calls.Call.{Call as CallOf};
ghost use Rattle.page_types.specs.Named.{IsNamedCall};
ghost use Rattle.maps_printer.specs.Calls.{call_text};
ghost use Rattle.round_trip.specs.Logs.{FitsCall};

use line_parts::{What, until};
use page_types::Call;
use strace_reader::{Item, read_line};

/// More bytes than any call is written with.
const CALL_BYTES: usize = 200;

/// The call at the front, for each text of a call, and what is left behind it.
pub(crate) fn call(text: &[u8]) -> Option<(Call, &[u8])>
    ensures { (c : CallOf) → (rest : List ℕ) → IsNamedCall c → FitsCall c → text.now ≡ call_text c ++ 32 ∷ rest
        → MatchOption result ⊥ (λ x. (x.0 ≡ c) × (x.1.now ≡ 32 ∷ rest)) }
{
    let Ok(rest) = until(text, b')', b' ', What::Close) else {
        return None;
    };
    let len = text.len() - rest.len();
    if len > CALL_BYTES {
        return None;
    }
    let Ok(item) = read_line(&text[..len]) else {
        return None;
    };
    match item {
        Item::Played { call, .. } => Some((call, rest)),
        _ => None,
    }
}
