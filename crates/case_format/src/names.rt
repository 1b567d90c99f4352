//! The names of cases, by which a difference in the output can be traced to its case.

use std::io;

/// Prints the name of the case that begins here.
pub fn begin_case(rt: &HostRuntime, name: &str) -> io::Result<()> {
    println!(rt; "case {name}")
}

/// Prints the name that a line begins with, and the rest of the line. Returns the rest.
pub fn begin_line<'a>(rt: &HostRuntime, line: &'a str) -> io::Result<&'a str> {
    let (name, rest) = line.split_once(' ').unwrap_or((line, ""));
    println!(rt; "case {name}\n{rest}")?;
    Ok(rest)
}
