// cavewatch: reads a book on standard input and writes its listing to standard output. Where reading fails it writes no listing; a failure is
// said on standard error.
#![tactic(auto)]

ghost use Rattle.std.specs.Prelude.{IfOk, IfSome, take, ◌≡◌};
ghost use Rattle.std.specs.Counts.{IsPrefixLen};
ghost use Rattle.std.specs.Io.{ReadsAtMost};
ghost use Rattle.listing_text.specs.Listing.{listing};

use input::{TEXT_ROOM, read_full};
use listing::whole::list_book;
use std::io;
use std::io::Read;
use terms::limit::LISTING_BYTES;

// The listing of a text: the first bytes of `out`, so many.
fn list(text: &[u8], out: &mut [u8; LISTING_BYTES]) -> usize
    ensures prefix_len { IsPrefixLen result out.new }
    ensures out_after { take result out.new ≡ listing text.now }
{
    list_book(text, out).unwrap()
}

// Reads a book and lists it: the first bytes of `out`, so many, are the listing of the whole input. Of one that is too long for a book only the
// first bytes are read, which tell as much.
fn list_input<R: Read>(input: &mut R, out: &mut [u8; LISTING_BYTES]) -> io::Result<usize>
    ensures bound { ReadsAtMost result out.new }
    ensures lists { IfOk result (λ n. IfSome (R.remaining input.old) (λ text. take n out.new ≡ listing text)) }
{
    let mut text = [0u8; TEXT_ROOM];
    let n = read_full(input, &mut text)?;
    Ok(list(&text[..n], out))
}

fn main(rt: HostRuntime) -> io::Result<()> {
    let mut out = [0u8; LISTING_BYTES];
    match list_input(&mut rt.stdin(), &mut out) {
        Err(e) => { eprintln!(rt; "cavewatch: nothing is listed, reading the book failed: {e}") }
        Ok(n) => match rt.write_all(&out[..n]) {
            Ok(()) => Ok(()),
            Err(e) => eprintln!(rt; "cavewatch: the listing is cut short, writing it failed: {e}"),
        },
    }
}
