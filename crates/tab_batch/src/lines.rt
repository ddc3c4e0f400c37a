//! The lines of a body, with their offsets.
ghost use Rattle.std.specs.Prelude.{◌≡◌, ◌+◌, ◌<◌, ◌≤◌, [], ◌∷◌, length, take, drop, MatchOption, IfSome};
ghost use Rattle.tab_batch.specs.Lines.{without_end, cut_lines};
ghost use Rattle.tab_batch.specs.Reading.{seen, lines_from};

/// A line of a body.
#[derive(Clone, Copy)]
pub struct BodyLine<'b> {
    /// Where it begins.
    pub start: usize,
    /// Its bytes, without the end of the line.
    pub text: &'b [u8],
    /// Where the next line begins.
    pub next: usize,
}

/// The line at that offset, if there is one.
pub fn line_at(bytes: &[u8], at: usize) -> Option<BodyLine<'_>>
    requires { at ≤ length bytes.now }
    ensures cases { MatchOption result (lines_from bytes.now at ≡ []) (λ line. lines_from bytes.now at ≡ seen line ∷ lines_from bytes.now line.next) }
    ensures further { IfSome result (λ line. (at ≡ line.start) × (at < line.next) × (line.start + length line.text.now ≤ line.next) × (line.next ≤ length bytes.now)) }
{
    let rest = &bytes[at..];
    if rest.is_empty() {
        return None;
    }
    let size = line_size(rest);
    Some(BodyLine {
        start: at,
        text: without_end(&rest[..size]),
        next: at + size,
    })
}

/// How many bytes the first line has, with its end.
fn line_size(bytes: &[u8]) -> usize
    requires { 0 < length bytes.now }
    ensures first { cut_lines bytes.now ≡ take result bytes.now ∷ cut_lines (drop result bytes.now) }
    ensures some { 0 < result }
    ensures within { result ≤ length bytes.now }
{
    match bytes.iter().position(|byte| *byte == b'\n') {
        Some(index) => index + 1,
        None => bytes.len(),
    }
}

/// A line without its line feed and the carriage return before it.
#[tactic(auto, unfolding(crate::specs::Lines::without_end))]
fn without_end(line: &[u8]) -> &[u8]
    ensures text { result.now ≡ without_end line.now }
    ensures shorter { length result.now ≤ length line.now }
{
    let [text @ .., b'\n'] = line else {
        return line;
    };
    match text {
        [text @ .., b'\r'] => text,
        _ => text,
    }
}
