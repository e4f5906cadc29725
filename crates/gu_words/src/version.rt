//! Which build this is.

/// The version of the program, and the kit that its proofs are written for: `--version` prints both after the program's name.
pub const VERSION: &str = "0.1.0 for rattle-kit-13f (logic dac8208d650f15bf)";
