// The writer: the table of a closed term to its text, in either dialect.
#![tactic(auto)]

ghost use Rattle.std.specs.Prelude.{◌≡◌};
ghost use Rattle.text.specs.Writing.{write_of, write_numbers_of};
ghost use Rattle.text.specs.Dialects.{write_in};
ghost use Rattle.writer.specs.Putting.{TextPut};
ghost use Rattle.writer.specs.Types.{dialect_meant, write_meant};

use numbers::put_numbers;
use part::put_part;
use term::{Refusal, Tree};

mod numbers;
mod part;
mod put;

// Document 02, change 3: the text with names. "The call answers its length."
pub fn write(table: &[u16], n: u32, text: &mut [u8]) -> Result<u32, Refusal>
    ensures { write_meant result text.new ≡ write_of table.now n text.old }
{
    write_in(Dialect::Names, table, n, text)
}

// Document 02, change 7: the text in numbers.
pub fn write_numbers(table: &[u16], n: u32, text: &mut [u8]) -> Result<u32, Refusal>
    ensures { write_meant result text.new ≡ write_numbers_of table.now n text.old }
{
    write_in(Dialect::Numbers, table, n, text)
}

// The two ways in which a text spells a term.
#[derive(Clone, Copy, Debug, PartialEq, Eq)]
enum Dialect {
    Names,
    Numbers,
}

// 7, then 11 where the text is over 3,000 bytes or over the lent buffer. The text is measured by putting it into none of the lent
// bytes, so that a refusal writes none.
fn write_in(dialect: Dialect, table: &[u16], n: u32, text: &mut [u8]) -> Result<u32, Refusal>
    ensures { write_meant result text.new ≡ write_in (dialect_meant dialect) table.now n text.old }
{
    let Some(tree) = Tree::accept(table, n) else {
        return Err(Refusal::NotATable);
    };
    let none = 0;
    let len = put_text(dialect, &tree, &mut text[0..none]);
    if 3000 < len {
        return Err(Refusal::NoRoom);
    }
    if text.len() < len {
        return Err(Refusal::NoRoom);
    }
    put_text(dialect, &tree, text);
    Ok(len as u32)
}

// The text of the whole table, from the first byte on. A match on two cases, as `text_in` of the definitions is: a function handed in would need that case in its contract.
fn put_text(dialect: Dialect, tree: &Tree<'_>, out: &mut [u8]) -> usize
    ensures { TextPut (dialect_meant dialect) tree.now.words tree.now.n out.old result out.new }
{
    match dialect {
        Dialect::Names => put_part(tree, 1, out, 0),
        Dialect::Numbers => put_numbers(&tree.copied(), out),
    }
}
