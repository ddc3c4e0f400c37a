//! The lines of a schedule.
ghost use Rattle.std.specs.Prelude.{◌≡◌, ◌≢◌, IfSome, IsNone};
ghost use Rattle.tab_drive.specs.declared.lines.ScheduleLine.{ScheduleLine as TheLine};
ghost use Rattle.tab_drive.specs.Lines.{line_text, IsInRange};

use tab_http::decimal_value;

/// The longest message that a schedule may have, in bytes.
pub const LONGEST_MESSAGE: u64 = 4_227_072;

/// What one line of a schedule says.
#[derive(Clone, Copy, Debug)]
pub enum ScheduleLine {
    /// The schedule ends.
    End,
    /// An event that sets the moment.
    Now { moment: u64 },
    /// A message of this many bytes follows.
    Call { size: usize },
}

/// Reads a line, which is given without its line feed.
pub fn parse_line(line: &[u8]) -> Option<ScheduleLine>
    ensures some { IfSome result (λ parsed. (line.now ≡ line_text parsed) × IsInRange parsed) }
    ensures none { IsNone result → (parsed : TheLine) → IsInRange parsed → line.now ≢ line_text parsed }
{
    if line == b"end".as_slice() {
        return Some(ScheduleLine::End);
    }
    if let Some(digits) = line.strip_prefix(b"now ") {
        return decimal_value(digits).map(|moment| ScheduleLine::Now { moment });
    }
    let size = decimal_value(line.strip_prefix(b"call ")?)?;
    if size <= LONGEST_MESSAGE {
        Some(ScheduleLine::Call {
            size: size as usize,
        })
    } else {
        None
    }
}
