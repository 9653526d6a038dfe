//! Why a text is not read as a table.

/// Why a text was not read as a table. Lines are counted from 1, and byte offsets from 0.
#[derive(Clone, Copy, Debug, PartialEq, Eq)]
pub enum TableFault {
    /// A1: the offset of the first byte of the first line that does not have its form, or
    /// `LONGEST_TABLE_TEXT` if the text is longer than that.
    Syntax(u32),
    /// A2: the number of the line whose identifiers are not its window.
    WrongWindow(u32),
    /// A3: the number of the line whose channel is not below the number of channels.
    ChannelTooLarge(u32),
    /// A4: memory for the table was refused. This can replace any fault except that of the length.
    OutOfMemory,
}
