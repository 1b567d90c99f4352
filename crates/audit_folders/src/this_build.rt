//! The build that `--version` reports.

use audit_words::Build;

/// The version of the package, the commit of the sources, and the toolchain (`kit`).
///
/// `scripts/install.sh` writes the commit of the clone that it builds in place of `unknown`, and
/// restores `unknown` afterwards.
pub const THIS_BUILD: Build<'static> = Build {
    version: "0.3.0",
    commit: "unknown",
    kit: "unknown",
};
