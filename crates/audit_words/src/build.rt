//! The build of a program.

/// The version of a program, the commit of its sources, and the toolchain (`kit`) that proved and
/// built it.
#[derive(Clone, Copy)]
pub struct Build<'a> {
    pub version: &'a str,
    pub commit: &'a str,
    pub kit: &'a str,
}
