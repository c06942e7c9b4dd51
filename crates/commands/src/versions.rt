//! The version of the program.

use command_line::VERSION;
use faults::Fault;
use std::io::Write;

/// The kit that the program is built with.
const KIT: &str = "rattle-kit-13 logic dac8208d650f15bf";

/// Writes the version of the program, and its kit.
pub(crate) fn write_version<O: Write>(output: &mut O) -> Result<(), Fault> {
    writeln!(output, "natpair {VERSION} ({KIT})")?;
    output.flush()?;
    Ok(())
}
