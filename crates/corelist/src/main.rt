// Reads a kind and a sheet from standard input and prints the cores.
#![tactic(auto)]

ghost use Rattle.std.specs.Prelude.{◌≤◌, length, IfOk};

use console::{Console, Line};
use std::io;
use std::io::{Read, Write};

// Reads until the input ends or the places are full, and answers how many bytes came. (Not by `read_to_end`: its first read asks
// for 8,192 bytes, so that a longer message from a socket is cut, and it reads again where a signal interrupts it.)
fn fill(input: &mut io::Stdin, places: &mut [u8]) -> io::Result<usize>
    ensures within_the_places { IfOk result (λ n. n ≤ length places.old) }
{
    let mut count = 0;
    for _ in 0..places.len() {
        let got = input.read(&mut places[count..])?;
        if got == 0 {
            break;
        }
        count += got;
    }
    Ok(count)
}

// Prints the response to the input, by way of the output buffer.
fn print(rt: &HostRuntime, console: Console, input: &[u8], output: &mut [u8]) -> io::Result<()> {
    match console.respond(input, output) {
        Ok(len) => rt.stdout().write_all(&output[..len]),
        Err(refusal) => rt.stdout().write_all(Line::refused(refusal).as_slice()),
    }
}

fn main(rt: HostRuntime) -> io::Result<()> {
    let heap = rt.alloc();
    let console = Console::new(heap)?;
    let mut input = vec![in heap; 0u8; 24656]?;
    let mut output = vec![in heap; 0u8; 524544]?;
    let count = fill(&mut rt.stdin(), &mut input)?;
    print(&rt, console, &input[..count], &mut output)
}
