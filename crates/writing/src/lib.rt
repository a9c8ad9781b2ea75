// The bytes of a record and of a trailer, put into a lent buffer from byte `at` on. Every other byte stays.
#![tactic(auto)]

ghost use Rattle.std.specs.Prelude.{◌≡◌, ◌∷◌, ◌+◌, ◌≤◌, length};
ghost use Rattle.little.specs.Little.{bytes_of};
ghost use Rattle.pages.specs.Pages.{splice};
ghost use Rattle.trace.specs.Encode.{record_bytes, trailer_bytes};

use trace::{Record, Trailer};

// A number in `width` bytes from byte `at` on.
fn put_number(buffer: &mut [u8], at: usize, width: usize, x: usize)
    requires { at + width ≤ length buffer.old }
    ensures { buffer.new ≡ splice at (bytes_of width x) buffer.old }
{
    little::put(&mut buffer[at..at + width], x as u64);
}

fn put_parts(buffer: &mut [u8], at: usize, letter: u8, value: u8, page: usize)
    requires { at + 4 ≤ length buffer.old }
    ensures { buffer.new ≡ splice at (letter ∷ value ∷ bytes_of 2 page) buffer.old }
{
    buffer[at] = letter;
    buffer[at + 1] = value;
    put_number(buffer, at + 2, 2, page);
}

pub fn put_record(buffer: &mut [u8], at: usize, what: Record)
    requires { at + 4 ≤ length buffer.old }
    ensures { buffer.new ≡ splice at (record_bytes what) buffer.old }
{
    match what {
        Record::Read(page) => put_parts(buffer, at, b'R', 0, page),
        Record::Write(page, value) => put_parts(buffer, at, b'W', value, page),
        Record::Flush => put_parts(buffer, at, b'F', 0, 0),
        Record::Drop(page) => put_parts(buffer, at, b'D', 0, page),
    }
}

pub fn put_trailer(buffer: &mut [u8], at: usize, trailer: Trailer)
    requires { at + 20 ≤ length buffer.old }
    ensures { buffer.new ≡ splice at (trailer_bytes trailer) buffer.old }
{
    put_number(buffer, at, 4, trailer.distance);
    put_number(buffer, at + 4, 4, trailer.records);
    put_number(buffer, at + 8, 2, trailer.numbers.frames);
    put_number(buffer, at + 10, 2, trailer.numbers.page_bytes);
    put_number(buffer, at + 12, 4, trailer.numbers.pages);
    put_number(buffer, at + 16, 2, trailer.numbers.read_cost as usize);
    put_number(buffer, at + 18, 2, trailer.numbers.write_cost as usize);
}
