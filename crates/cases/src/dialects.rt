// The calls of the reader, the writer and the conversions, each in the dialect that it is told.
use crate::command::Dialect;
use term::Refusal;

impl Dialect {
    pub(crate) fn other(self) -> Dialect {
        match self {
            Dialect::Names => Dialect::Numbers,
            Dialect::Numbers => Dialect::Names,
        }
    }

    // Reads a text of it.
    pub(crate) fn read(self, text: &[u8], table: &mut [u16]) -> Result<u32, Refusal> {
        match self {
            Dialect::Names => reader::read(text, table),
            Dialect::Numbers => reader::read_numbers(text, table),
        }
    }

    // Writes a table's text in it.
    pub(crate) fn write(self, table: &[u16], n: u32, text: &mut [u8]) -> Result<u32, Refusal> {
        match self {
            Dialect::Names => writer::write(table, n, text),
            Dialect::Numbers => writer::write_numbers(table, n, text),
        }
    }

    // Converts a text of the other dialect into one of it.
    pub(crate) fn convert(self, text: &[u8], out: &mut [u8]) -> Result<u32, Refusal> {
        match self {
            Dialect::Names => dialect::to_names(text, out),
            Dialect::Numbers => dialect::to_numbers(text, out),
        }
    }
}
