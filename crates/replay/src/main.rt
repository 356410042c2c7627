// Replays a stored sample of calls with the published Rust's answers: each goes through the proved functions, and the answer's five
// numbers and every cell of every lent buffer are compared with what the sample says. Writes how many agreed, and the first that does not.
// Ids, ranges and bytes are the Rust's. It does not count the characters that it drops: that number the oracle took from the library.
//
// The sample comes on standard input. crates/replay/stdin was made by
//
//     oracle/run RUST LIB --sample sample.jsonl --count 4000 --seed 1
//     tools/replay_sample.py sample.jsonl crates/replay/stdin
//
// and tools/replay_sample.py says how its bytes are laid out.

#![tactic(auto)]

mod calls;
mod cases;
mod columns;
mod compare;
mod head;
mod report;
mod rows;
mod sample;

ghost use Rattle.std.specs.Prelude.{◌≡◌, ◌≤◌, length, IfOk};

use std::io;
use std::io::Read;

// The longest sample, in bytes, numbers and flags.
const BYTES: usize = 524288;

const NUMBERS: usize = 262144;

const FLAGS: usize = 65536;

// Reads until `buffer` is full or there is no more, and answers how many bytes stand in it.
fn read_full(from: &mut impl Read, buffer: &mut [u8]) -> io::Result<usize>
    ensures { IfOk result (λ n. n ≤ length buffer.new) }
{
    let mut done = 0;
    // By as many bytes as a read gives.
    while done < buffer.len() {
        let more = from.read(&mut buffer[done..])?;
        if more == 0 {
            break;
        }
        done += more;
    }
    Ok(done)
}

// Callers know its length by this contract: they would compute a long list for it.
fn buffer<T: Copy, const N: usize>(blank: T) -> [T; N]
    ensures { N ≡ length result }
{
    [blank; N]
}

fn main(rt: HostRuntime) -> io::Result<()> {
    let mut input: [u8; BYTES] = buffer(0);
    let mut numbers: [u32; NUMBERS] = buffer(0);
    let mut flags: [bool; FLAGS] = buffer(false);
    let size = read_full(&mut rt.stdin(), &mut input)?;
    head::replay(&mut rt.stdout(), &input[..size], &mut numbers, &mut flags)
}
