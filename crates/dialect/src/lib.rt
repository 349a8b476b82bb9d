// A text of one dialect into the other: document 02, change 7.
#![tactic(auto)]

ghost use Rattle.std.specs.Prelude.{◌≡◌};
ghost use Rattle.text.specs.Dialects.{to_numbers_of, to_names_of};
ghost use Rattle.writer.specs.Types.{write_meant};

use term::Refusal;

// The words of a conversion's own table: 5 for each of the 3,000 nodes that a text has at most.
const OWN_TABLE: usize = 15000;

// A text with names into one of numbers, "as written from a table of its own": the reader's numbers 1 to 5, then 11.
pub fn to_numbers(text: &[u8], out: &mut [u8]) -> Result<u32, Refusal>
    ensures { write_meant result out.new ≡ to_numbers_of text.now out.old }
{
    let mut table = [0u16; OWN_TABLE];
    let n = reader::read(text, &mut table)?;
    writer::write_numbers(&table, n, out)
}

// A text of numbers into one with names, the same way: 1, 13 and 14, then 11.
pub fn to_names(text: &[u8], out: &mut [u8]) -> Result<u32, Refusal>
    ensures { write_meant result out.new ≡ to_names_of text.now out.old }
{
    let mut table = [0u16; OWN_TABLE];
    let n = reader::read_numbers(text, &mut table)?;
    writer::write(&table, n, out)
}
