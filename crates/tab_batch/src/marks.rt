//! The lines that mark off the parts of a body (RFC 2046, section 5.1.1).
ghost use Rattle.std.specs.Prelude.{◌≡◌};
ghost use Rattle.std.specs.Option.{option_copied};
ghost use Rattle.tab_batch.specs.Marks.{behind, is_blank, mark_of};

use httparse::is_space_or_tab;

/// What a line marks.
#[derive(Clone, Copy, Debug, PartialEq, Eq)]
pub enum Mark {
    /// A part begins.
    Delimiter,
    /// The last part has ended.
    Closing,
}

/// What a line of that text marks under the boundary.
#[tactic(auto, unfolding(crate::specs::Marks::mark_of))]
pub fn mark_of(boundary: &[u8], text: &[u8]) -> Option<Mark>
    ensures { result ≡ mark_of boundary.now text.now }
{
    let rest = behind(behind(text, b"--")?, boundary)?;
    if is_blank(rest) {
        return Some(Mark::Delimiter);
    }
    let rest = behind(rest, b"--")?;
    if is_blank(rest) {
        Some(Mark::Closing)
    } else {
        None
    }
}

/// What is behind the front, if the text begins with it.
fn behind<'t>(text: &'t [u8], front: &[u8]) -> Option<&'t [u8]>
    ensures { option_copied result ≡ behind front.now text.now }
{
    text.strip_prefix(front)
}

/// Whether there are spaces and tabs alone.
fn is_blank(text: &[u8]) -> bool
    ensures { result ≡ is_blank text.now }
{
    text.iter().all(|byte| is_space_or_tab(*byte))
}
