// The commands of the script: their words, the numbers that follow each, and what they are.
ghost use Rattle.std.specs.Prelude.{◌≤◌};

use crate::words::Words;
use session::{Dir, Session, Which};

// The two ways in which a text spells a term; `writer` has its own for itself alone.
#[derive(Clone, Copy)]
pub(crate) enum Dialect {
    Names,
    Numbers,
}

// Bytes for a call to write into: how many, and what each of them is.
#[derive(Clone, Copy)]
pub(crate) struct Room {
    pub(crate) size: usize,
    pub(crate) byte: u8,
    ghost fits: { size ≤ 3010 },
}

// What becomes of the words of a slice: it has so many, each the same; one of them is set, by its index; or a call gets so many of them.
#[derive(Clone, Copy)]
pub(crate) enum Change<T> {
    Fill(u32, T),
    Set(u32, T),
    Lend(u32),
}

// What a line sets for the calls after it. The table of a tower is that of so many abstractions over one variable, which the first of them binds.
#[derive(Clone, Copy)]
pub(crate) enum Setting {
    Nodes(u32),
    Stand(Session),
    Table(Change<u16>),
    Log(Change<u32>),
    Tape(Change<u32>),
    Tower(u32),
}

// What becomes of the text that the script says: it is read; it is converted into a dialect; and what that gives is read, or converted back.
#[derive(Clone, Copy)]
pub(crate) enum TextCall {
    Read(Dialect),
    Convert(Dialect, Room),
    ConvertAndRead(Dialect),
    ThereAndBack(Dialect, Room),
}

// A call that winds, with what it is told: a count, a position, the node and the direction of a visit, or the position and the count that a look handed out.
#[derive(Clone, Copy)]
pub(crate) enum Move {
    Forward(u32),
    Back(u32),
    GoTo(u32),
    BackTo(u32, Dir),
    ForwardTo(u32, Dir, u32),
    Go(u32, u32),
}

// The other calls. A walk is so many moves of one step each.
#[derive(Clone, Copy)]
pub(crate) enum Call {
    Accept,
    Write(Dialect, Room),
    ReadBack(Dialect),
    Open,
    Move(Move),
    Walk(u32),
    WalkBack(u32),
    Look(u32),
    Top(Which),
    Run(u32),
}

// A call has the name that its printed line begins with: what follows the command and its numbers, or the whole line where nothing does.
#[derive(Clone, Copy)]
pub(crate) enum Command<'a> {
    Nothing,
    Text(&'a [u8]),
    Set(Setting),
    OnText(TextCall, &'a [u8]),
    Call(Call, &'a [u8]),
}

impl<'a> Command<'a> {
    // None where the line is no command.
    pub(crate) fn of(line: &'a [u8]) -> Option<Command<'a>> {
        if let [] | [b'#', ..] = line {
            return Some(Command::Nothing);
        }
        let mut words = Words { rest: line };
        let word = words.word();
        if let b"text" = word {
            return Some(Command::Text(words.rest));
        }
        if let Some(setting) = setting_in(word, words) {
            return Some(Command::Set(setting));
        }
        let mut after = words;
        if let Some(call) = text_call_in(word, &mut after) {
            return Some(Command::OnText(call, name_in(line, after)));
        }
        let call = call_in(word, &mut words)?;
        Some(Command::Call(call, name_in(line, words)))
    }
}

fn name_in<'a>(line: &'a [u8], after: Words<'a>) -> &'a [u8] {
    if after.rest.is_empty() {
        line
    } else {
        after.rest
    }
}

// A setting, after which nothing follows.
fn setting_in(word: &[u8], numbers: Words) -> Option<Setting> {
    let mut words = numbers;
    let setting = match word {
        b"n" => Setting::Nodes(words.number()?),
        b"down" => Setting::Stand(session_in(Dir::Down, &mut words)?),
        b"up" => Setting::Stand(session_in(Dir::Up, &mut words)?),
        b"table" => Setting::Table(fill_in(&mut words)?),
        b"set-table" => Setting::Table(set_in(&mut words)?),
        b"lend-table" => Setting::Table(Change::Lend(words.number()?)),
        b"tower" => Setting::Tower(words.number()?),
        b"log" => Setting::Log(fill_in(&mut words)?),
        b"set-log" => Setting::Log(set_in(&mut words)?),
        b"lend-log" => Setting::Log(Change::Lend(words.number()?)),
        b"tape" => Setting::Tape(fill_in(&mut words)?),
        b"set-tape" => Setting::Tape(set_in(&mut words)?),
        b"lend-tape" => Setting::Tape(Change::Lend(words.number()?)),
        _ => return None,
    };
    words.end()?;
    Some(setting)
}

fn text_call_in(word: &[u8], words: &mut Words) -> Option<TextCall> {
    Some(match word {
        b"read" => TextCall::Read(Dialect::Names),
        b"read-numbers" => TextCall::Read(Dialect::Numbers),
        b"to-names" => TextCall::Convert(Dialect::Names, room_in(words)?),
        b"to-numbers" => TextCall::Convert(Dialect::Numbers, room_in(words)?),
        b"to-names-read" => TextCall::ConvertAndRead(Dialect::Names),
        b"to-numbers-read" => TextCall::ConvertAndRead(Dialect::Numbers),
        b"names-and-back" => TextCall::ThereAndBack(Dialect::Names, room_in(words)?),
        b"numbers-and-back" => TextCall::ThereAndBack(Dialect::Numbers, room_in(words)?),
        _ => return None,
    })
}

fn call_in(word: &[u8], words: &mut Words) -> Option<Call> {
    Some(match word {
        b"accept" => Call::Accept,
        b"write" => Call::Write(Dialect::Names, room_in(words)?),
        b"write-numbers" => Call::Write(Dialect::Numbers, room_in(words)?),
        b"read-back" => Call::ReadBack(Dialect::Names),
        b"read-numbers-back" => Call::ReadBack(Dialect::Numbers),
        b"open" => Call::Open,
        b"walk" => Call::Walk(words.number()?),
        b"walk-back" => Call::WalkBack(words.number()?),
        b"look" => Call::Look(words.number()?),
        b"log-top" => Call::Top(Which::Log),
        b"tape-top" => Call::Top(Which::Tape),
        b"run" => Call::Run(words.number()?),
        _ => Call::Move(move_in(word, words)?),
    })
}

fn move_in(word: &[u8], words: &mut Words) -> Option<Move> {
    Some(match word {
        b"forward" => Move::Forward(words.number()?),
        b"back" => Move::Back(words.number()?),
        b"go-to" => Move::GoTo(words.number()?),
        b"back-to" => Move::BackTo(words.number()?, dir_in(words)?),
        b"forward-to" => Move::ForwardTo(words.number()?, dir_in(words)?, words.number()?),
        b"go" => Move::Go(words.number()?, words.number()?),
        _ => return None,
    })
}

// A direction of the script: 0 is down, any other number up.
fn dir_in(words: &mut Words) -> Option<Dir> {
    let number = words.number()?;
    Some(if number == 0 { Dir::Down } else { Dir::Up })
}

// A session by hand.
fn session_in(dir: Dir, words: &mut Words) -> Option<Session> {
    Some(Session {
        node: words.number()?,
        dir,
        position: words.number()?,
        log_len: words.number()?,
        tape_len: words.number()?,
        turns: words.number()?,
    })
}

// A word of a slice; none where the number is greater than such a word.
fn word_in<T: TryFrom<u32>>(words: &mut Words) -> Option<T>
where
    T::Error: Drop,
{
    T::try_from(words.number()?).ok()
}

fn fill_in<T: TryFrom<u32>>(words: &mut Words) -> Option<Change<T>>
where
    T::Error: Drop,
{
    Some(Change::Fill(words.number()?, word_in(words)?))
}

fn set_in<T: TryFrom<u32>>(words: &mut Words) -> Option<Change<T>>
where
    T::Error: Drop,
{
    Some(Change::Set(words.number()?, word_in(words)?))
}

// None where the line asks for more bytes than there are, or for what is no byte's value.
fn room_in(words: &mut Words) -> Option<Room> {
    let size = words.number()? as usize;
    let byte = word_in(words)?;
    if size <= 3010 {
        Some(Room { size, byte })
    } else {
        None
    }
}
