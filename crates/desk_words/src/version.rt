//! Which version this is.

/// What `--version` says behind the program's name: the number of the version, and that this text was
/// proved. Whoever builds it without its proofs changes that here.
pub(crate) const VERSION: &str = "1.0.0 (proved)";
