// The reader: the text of a closed term, in either dialect, to its table.
#![tactic(auto)]

ghost use Rattle.std.specs.Prelude.{◌≡◌, ◌≤◌, length};
ghost use Rattle.std.proofs.Math.Option.{Option};
ghost use Rattle.term.specs.Term.{Term};
ghost use Rattle.text.specs.Reading.{read_of};
ghost use Rattle.text.specs.NumberReading.{read_numbers_of};
ghost use Rattle.reader.specs.Types.{read_meant, number_meant};
ghost use Rattle.reader.specs.Answering.{InCode, AnsweredFor};
ghost use Rattle.reader.specs.Steps.{spelling_number, NamesCoded, NumbersCoded};

use term::Refusal;

mod bytes;
mod grammar;
mod layout;
mod numbers;
mod scan;
mod token;

// Document 01, "The nine numbers": 1 to 6, each put to the whole text. "The reader answers n", and where it refuses no word is written.
pub fn read(text: &[u8], table: &mut [u16]) -> Result<u32, Refusal>
    ensures { read_meant result table.new ≡ read_of text.now table.old }
{
    spelling(text)?;
    read_spelled(text, table)
}

// Numbers 4 to 6, of a text to which 1 to 3 do not apply. (A function of its own, so that its arrays cost nothing where those do.)
fn read_spelled(text: &[u8], table: &mut [u16]) -> Result<u32, Refusal>
    requires { spelling_number text.now ≡ 0 }
    ensures { read_meant result table.new ≡ read_of text.now table.old }
{
    let mut code = [0u32; 6000];
    let Some(n) = code_of(text, &mut code) else {
        return Err(Refusal::NotATerm);
    };
    answer_for(&code[..n], Refusal::FreeName, table)
}

// Document 02, change 7: 1, 13, 14 and 6 for a text of the number dialect, each put to the whole text.
pub fn read_numbers(text: &[u8], table: &mut [u16]) -> Result<u32, Refusal>
    ensures { read_meant result table.new ≡ read_numbers_of text.now table.old }
{
    if 3000 < text.len() {
        return Err(Refusal::TextTooLong);
    }
    let mut code = [0u32; 3000];
    let Some(n) = numbers_code(text, &mut code) else {
        return Err(Refusal::NotInNumbers);
    };
    answer_for(&code[..n], Refusal::FreeNumber, table)
}

// Numbers 1 to 3.
#[tactic(auto, unfolding(crate::specs::Steps::spelling_number))]
fn spelling(text: &[u8]) -> Result<(), Refusal>
    ensures { number_meant result ≡ spelling_number text.now }
{
    if 3000 < text.len() {
        return Err(Refusal::TextTooLong);
    }
    if scan::any_foreign(text) {
        return Err(Refusal::ForeignByte);
    }
    if scan::any_bad_name(text) {
        return Err(Refusal::BadName);
    }
    Ok(())
}

// Writes the preorder code of the term that the text spells, with 0 for a name without a binder, and answers how many words it has, one for each
// node. There is room for two words for each byte.
fn code_of(text: &[u8], code: &mut [u32]) -> Option<usize>
    requires { (length text.now ≤ 3000) × (6000 ≤ length code.old) }
    ensures { NamesCoded text.now result code.new }
{
    let mut scope = [0u32; 3000];
    let (end, n) = grammar::term(text, 0, &mut scope, 0, code, 0)?;
    if scan::skip(text, end) < text.len() {
        return None;
    }
    Some(n)
}

// The same of a text of the number dialect, with 0 for a number that reaches past the outermost binder. There is room for a word for each byte.
fn numbers_code(text: &[u8], code: &mut [u32]) -> Option<usize>
    requires { (length text.now ≤ 3000) × (3000 ≤ length code.old) }
    ensures { NumbersCoded text.now result code.new }
{
    let (end, n) = numbers::phrase(text, 0, 0, code, 0)?;
    if end < text.len() {
        return None;
    }
    Some(n)
}

// The number of a variable without a binder, number 6, and the table where neither applies.
fn answer_for(code: &[u32], unbound: Refusal, table: &mut [u16]) -> Result<u32, Refusal>
    requires { (o : Option Term) × InCode code.now (length code.now) o }
    ensures { AnsweredFor code.now (length code.now) unbound result table.old table.new }
{
    if code.contains(&0) {
        return Err(unbound);
    }
    if table.len() < 5 * code.len() {
        return Err(Refusal::TableTooShort);
    }
    layout::lay_out(code, table);
    Ok(code.len() as u32)
}
