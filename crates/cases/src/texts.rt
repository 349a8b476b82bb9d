// What the script asks of a text: that it is read, or converted, or one after the other.
use crate::command::{Dialect, TextCall};
use crate::desk::Desk;
use crate::show::{show_answer, show_words};
use crate::written::show_written;
use term::Refusal;

// Reads a text into as much of the table as is lent, and shows the answer and the table.
fn show_read(rt: &impl Print, which: Dialect, text: &[u8], desk: &mut Desk) {
    let answer = which.read(text, desk.table.lent_mut());
    desk.n = answer.unwrap_or(0);
    show_answer(rt, "n", answer);
    show_words(rt, " table", desk.table.words());
}

// Writes the text of the lent table, fills its words with others, so that reading the text shows what it writes, reads the text into them, and shows the
// answer and the table. A refused text is empty, and then the words stay.
pub(crate) fn show_read_back(rt: &impl Print, which: Dialect, desk: &mut Desk) {
    let mut text = [0u8; 3000];
    let answer = which.write(desk.table.lent(), desk.n, &mut text);
    if answer.is_ok() {
        desk.table.lent_mut().fill(8);
    }
    show_read(rt, which, text_of(answer, &text), desk);
}

// The text in the bytes that a call was lent: empty where it was refused.
fn text_of(answer: Result<u32, Refusal>, bytes: &[u8]) -> &[u8] {
    let len = answer.unwrap_or(0) as usize;
    bytes.get(..len).unwrap_or(bytes)
}

// Does what a call says of a text, and shows the answer. Of two conversions the second is back, and so shows whether it gives the text.
pub(crate) fn show_on_text(rt: &impl Print, call: TextCall, text: &[u8], desk: &mut Desk) {
    let mut there = [0u8; 3000];
    match call {
        TextCall::Read(which) => show_read(rt, which, text, desk),
        TextCall::Convert(which, room) => {
            show_written(rt, room, |out| which.convert(text, out));
        }
        TextCall::ConvertAndRead(which) => {
            let answer = which.convert(text, &mut there);
            show_read(rt, which, text_of(answer, &there), desk);
        }
        TextCall::ThereAndBack(which, room) => {
            let answer = which.convert(text, &mut there);
            let text = text_of(answer, &there);
            show_written(rt, room, |out| which.other().convert(text, out));
        }
    }
}
