// What the readers, the writers and the conversions answer, for a host.
ghost use Rattle.std.specs.Prelude.{◌≡◌, List, ℕ};
ghost use Rattle.reader.specs.Types.{read_meant};
ghost use Rattle.writer.specs.Types.{write_meant};
ghost use Rattle.face.specs.Told.{read_told, write_told};
ghost use Rattle.yildreuz.specs.Texts.{numbers_meant};

use face::{HostReading, HostWritten};
use term::Refusal;

// The number of nodes or bytes, and the refusal's number: of the two one is 0.
fn numbers(answer: Result<u32, Refusal>) -> (u32, u32)
    ensures { result ≡ numbers_meant answer }
{
    match answer {
        Ok(number) => (number, 0),
        Err(refusal) => (0, refusal.number()),
    }
}

pub(crate) fn reading_told(answer: Result<u32, Refusal>) -> HostReading
    ensures { (table : List ℕ) → (result, table) ≡ read_told (read_meant answer table) }
{
    let (n, refusal) = numbers(answer);
    HostReading { n, refusal }
}

pub(crate) fn written_told(answer: Result<u32, Refusal>) -> HostWritten
    ensures { (text : List ℕ) → (result, text) ≡ write_told (write_meant answer text) }
{
    let (len, refusal) = numbers(answer);
    HostWritten { len, refusal }
}
