//! Lines of an input, one after another, as grep(1) sees them. A line ends at a newline; what comes behind the last
//! newline is a line too, unless nothing comes there. The definition, `lines_of`, goes from the back of the text and
//! this code from its front; a reader may rely on both giving the same lines.
ghost use Rattle.std.specs.Prelude.{◌≡◌, ◌∷◌, ◌<◌, ◌≤◌, ◌↔◌, [], length, IsNone, IfSome};
ghost use Rattle.line_parts.specs.Lines.{lines_of};

use memchr::memchr;

/// The first line of a text, without its newline, and the text behind it. `None` where the text is empty.
pub fn next_line(text: &[u8]) -> Option<(&[u8], &[u8])>
    ensures none { IsNone result ↔ (text.now ≡ []) }
    ensures line { IfSome result (λ x. lines_of text.now ≡ x.0.now ∷ lines_of x.1.now) }
    ensures shorter { IfSome result (λ x. length x.1.now < length text.now) }
    ensures within { IfSome result (λ x. length x.0.now ≤ length text.now) }
{
    if text.is_empty() {
        return None;
    }
    match memchr(b'\n', text) {
        Some(at) => Some((&text[..at], &text[at + 1..])),
        None => Some((text, &[])),
    }
}
