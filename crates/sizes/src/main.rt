// The sizes program of 01: block sizes in, one a line, and for each a row of its segmentation out.
#![tactic(auto)]

ghost use Rattle.std.specs.Prelude.{◌≤◌, length};
ghost use Rattle.lines.specs.Text.{row_room};

use std::io;
use std::io::Read;

fn main(rt: HostRuntime) {
    // So that a run whose output is lost does not look whole, it says so.
    if print_answers(&rt).is_err() {
        let _ = eprintln!(rt; "sizes: the output can't be written; rows are missing");
    }
}

// Prints the header and the rows of the input's lines. Where the output can't be written it stops.
#[tactic(auto, using(lines::proofs::Putting::end_within))]
fn print_answers(rt: &HostRuntime) -> io::Result<()> {
    // The first 65,536 bytes: no byte after them is taken from the input.
    let mut text = [0u8; 65536];
    let count = read_full(rt, &mut text);
    let mut out = [0u8; 65536];
    let header = lines::put_header(&mut out);
    rt.write_all(&out[..header])?;
    print_rows(rt, &text[..count], &mut out)
}

// Reads until the text is full or the input ends, and tells how many bytes came. Where the input can't be read it ends too.
fn read_full(rt: &HostRuntime, text: &mut [u8]) -> usize
    ensures { result ≤ length text.new }
{
    // kept: a read takes as many bytes as come, so that the place moves by no step that a `for` could go by.
    let mut done = 0;
    while done < text.len() {
        let count = rt.stdin().read(&mut text[done..]).unwrap_or(0);
        if count == 0 {
            break;
        }
        done += count;
    }
    done
}

// Prints the row of each line of the text, as many at a time as surely fit in out.
#[tactic(auto, using(lines::proofs::Calls::goes_on, lines::proofs::Calls::written_within), unfolding(lines::specs::Text::progress_of))]
fn print_rows(rt: &HostRuntime, text: &[u8], out: &mut [u8]) -> io::Result<()>
    requires { row_room ≤ length out.old }
{
    // kept: a call answers as many lines as fit, so that the place moves by no step that a `for` could go by.
    let mut next = 0;
    while next < text.len() {
        let progress = lines::sizes_rows(text, next, out);
        let written = progress.written;
        rt.write_all(&out[..written])?;
        next = progress.next;
    }
    Ok(())
}
