// Lists each book of data/books and holds the listing, byte for byte and to its whole length, to the Rust's answer in data/answers, one line
// a book. data/made says how the two files were made.
#![tactic(auto)]

use input::{TEXT_ROOM, read_full};
use listing::whole::list_book;
use std::io::Read;
use std::{fs, io};
use terms::limit::LISTING_BYTES;

// The most books that are read.
const BOOKS: usize = 10000;

// The length that eight digits say.
fn length(digits: &[u8]) -> Option<usize> {
    let mut n: usize = 0;
    for b in digits {
        if !b.is_ascii_digit() || 99999 < n {
            return None;
        }
        n = 10 * n + usize::from(*b - b'0');
    }
    Some(n)
}

// The length of a file's next text, if there is one.
fn next_length<R: Read>(file: &mut R) -> io::Result<Option<usize>> {
    let mut head = [0u8; 9];
    let got = read_full(file, &mut head)?;
    if got < 9 {
        return Ok(None);
    }
    Ok(length(&head[..8]))
}

// Reads a file's next text, if there is one and `text` has room for it; its length.
fn next_text<R: Read>(file: &mut R, text: &mut [u8]) -> io::Result<Option<usize>> {
    let Some(n) = next_length(file)? else {
        return Ok(None);
    };
    if text.len() < n {
        return Ok(Some(n));
    }
    let got = read_full(file, &mut text[..n])?;
    if got < n {
        return Ok(None);
    }
    Ok(Some(n))
}

// The length of a book's listing, which is put into `out`.
fn list(book: Option<&[u8]>, out: &mut [u8]) -> Option<usize> {
    list_book(book?, out).ok()
}

// The next book: whether its listing is the stored answer. None if there is no further book.
fn replay<R: Read>(
    rt: &impl Print,
    books: &mut R,
    answers: &mut R,
    k: usize,
) -> io::Result<Option<bool>> {
    let mut text = [0u8; TEXT_ROOM];
    let Some(n) = next_text(books, &mut text)? else {
        return Ok(None);
    };
    let mut answer = [0u8; TEXT_ROOM];
    let m = next_text(answers, &mut answer)?;
    let mut out = [0u8; LISTING_BYTES];
    let r = list(text.get(..n), &mut out);
    let same = agree(&out, r, &answer, m);
    if same {
        println!(rt; "{k} same")?;
    } else {
        println!(rt; "{k} DIFFERS")?;
    }
    Ok(Some(same))
}

// Whether the first r bytes of one are the first m of the other.
fn agree(out: &[u8], r: Option<usize>, answer: &[u8], m: Option<usize>) -> bool {
    match (r, m) {
        (Some(r), Some(m)) => { r <= out.len() && m <= answer.len() && out[..r] == answer[..m] }
        _ => false,
    }
}

fn main(rt: HostRuntime) -> io::Result<()> {
    let mut books = fs::open(&rt, "books")?;
    let mut answers = fs::open(&rt, "answers")?;
    let mut count: usize = 0;
    let mut differences: usize = 0;
    for k in 0..BOOKS {
        let Some(same) = replay(&rt, &mut books, &mut answers, k)? else {
            break;
        };
        count += 1;
        differences += usize::from(!same);
    }
    println!(&rt; "{count} books, {differences} differences")?;
    if next_length(&mut answers)?.is_some() {
        println!(&rt; "ANSWERS LEFT")?;
    }
    Ok(())
}
