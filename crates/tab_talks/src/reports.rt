//! What the program prints.

use crate::runs::Difference;
use std::io;

/// Prints how many replies a file has in how many talks, where all went as written.
pub fn print_as_written(
    rt: &impl Print,
    name: &str,
    replies: usize,
    talks: usize,
) -> io::Result<()> {
    println!(rt; "{name}: {replies} replies in {talks} talks as written")
}

/// Prints the first difference of a file.
pub fn print_difference(rt: &impl Print, name: &str, difference: &Difference) -> io::Result<()> {
    println!(rt; "{name}.talk:{}: {}", difference.line, difference.title)?;
    println!(rt; "  due:  {}", difference.due)?;
    println!(rt; "  came: {}", difference.came)
}
