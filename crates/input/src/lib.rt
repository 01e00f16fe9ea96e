// Reading an input into a lent buffer.
#![tactic(auto)]

ghost use Rattle.std.specs.Prelude.{IfOk, length, take, ◌<◌, ◌≡◌};
ghost use Rattle.std.specs.Io.{ReadsAtMost};
ghost use Rattle.std.specs.Io.KnownBytes.{Consumes, IsAtEnd};
ghost use Rattle.input.specs.Turn.{turn_of};

use std::io;
use std::io::Read;

// The bytes that are read of a text, one more than any book has.
pub const TEXT_ROOM: usize = 65536;

// What a read into `room` answered: its error, the input's end, or so many bytes.
fn taken<E: Drop>(got: Result<usize, E>, room: &[u8]) -> Result<Option<usize>, E>
    ensures { result ≡ turn_of got (length room.now) }
{
    match got {
        Err(e) => Err(e),
        Ok(k) => {
            let n = k.min(room.len());
            if n == 0 {
                return Ok(None);
            }
            Ok(Some(n))
        }
    }
}

// Reads until `buf` is full or the input ends, and returns how many bytes it put at the start of `buf`: the input's next, and fewer than there is room for only
// at its end. On an empty `buf` it makes no call.
pub fn read_full<R: Read>(input: &mut R, buf: &mut [u8]) -> io::Result<usize>
    ensures bound { ReadsAtMost result buf.new }
    ensures bytes { IfOk result (λ n. Consumes (R.remaining input.old) (R.remaining input.new) (take n buf.new)) }
    ensures whole { IfOk result (λ n. n < length buf.new → IsAtEnd (R.remaining input.new)) }
{
    let mut done = 0usize;
    // an input gives as many bytes as it likes, so the loop moves by what each read gave
    while done < buf.len() {
        let got = input.read(&mut buf[done..]);
        let Some(n) = taken(got, &buf[done..])? else {
            break;
        };
        done += n;
    }
    Ok(done)
}
