// The calls that write a text, from a table or from a text of the other dialect, into lent bytes.
use crate::command::Room;
use crate::show::{show, show_answer, show_words};
use term::Refusal;

// Lends a call so many bytes, and shows what it answers: the numbers, the text as it is, and the bytes after it as numbers.
pub(crate) fn show_written<F: FnOnce(&mut [u8]) -> Result<u32, Refusal>>(
    rt: &impl Print,
    room: Room,
    call: F,
)
    requires { F.IsAlwaysCallable call }
{
    let mut all = [room.byte; 3010];
    let bytes = &mut all[..room.size];
    let answer = call(bytes);
    let len = (answer.unwrap_or(0) as usize).min(bytes.len());
    show_answer(rt, "len", answer);
    show(rt, b" text ");
    show(rt, &bytes[..len]);
    show_words(rt, " rest", &bytes[len..]);
}
