ghost use Rattle.std.specs.Prelude.{◌≡◌, ◌<◌, [], ◌∷◌, length, IfSome, IfNone};
ghost use Rattle.log_model.specs.Line.{lines_of, is_blank};

use memchr::memchr;

/// Returns the first line, without its line feed, and what stands after it.
pub(crate) fn next_line(input: &[u8]) -> Option<(&[u8], &[u8])>
    ensures line { IfSome result (λ cut. lines_of input.now ≡ cut.0.now ∷ lines_of cut.1.now) }
    ensures shorter { IfSome result (λ cut. length cut.1.now < length input.now) }
    ensures none { IfNone result (lines_of input.now ≡ []) }
{
    if input.is_empty() {
        return None;
    }
    match memchr(b'\n', input) {
        Some(end) => Some((&input[..end], &input[end + 1..])),
        None => Some((input, &input[input.len()..])),
    }
}

/// Returns whether the line has nothing but blanks, tabs and carriage returns.
pub(crate) fn is_blank(line: &[u8]) -> bool
    ensures { result ≡ is_blank line.now }
{
    line.iter()
        .all(|&byte| byte == b' ' || byte == b'\t' || byte == b'\r')
}
