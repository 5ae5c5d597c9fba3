// The programs' standard input and output: a read that fails is told from the end of the text. Of a read or a write that fails standard error tells.
#![tactic(auto)]

ghost use Rattle.std.specs.Prelude.{◌≡◌, MatchResult};
ghost use Rattle.std.specs.Counts.{IsPrefixLen};
ghost use Rattle.stdio.specs.Outcome.{outcome_of, ended};

use std::io;
use std::io::{Read, Write};

// What the answer of a read or a write says: how many bytes were moved, none at the end, or what failed.
#[tactic(auto, using(crate::proofs::Laws::outcome_end, crate::proofs::Laws::outcome_bytes, crate::proofs::Laws::outcome_failed))]
fn outcome_of(answer: io::Result<usize>) -> io::Result<Option<usize>>
    ensures { result ≡ outcome_of answer }
{
    match answer {
        Ok(0) => Ok(None),
        Ok(count) => Ok(Some(count)),
        Err(error) => Err(error),
    }
}

// A read failed after `length` bytes, so that the text may go on.
#[derive(Clone, Copy)]
pub struct ReadFailed {
    pub length: usize,
}

// Says what failed on standard error; where that fails too, nothing can be said.
fn say_failed(rt: HostRuntime, what: &str, error: io::Error) {
    let _ = eprintln!(rt; "{what}: {error}");
}

// The input of `length` bytes after its last read.
fn ended(
    rt: HostRuntime,
    length: usize,
    last: io::Result<Option<usize>>,
) -> Result<usize, ReadFailed>
    ensures { result ≡ ended length last }
{
    match last {
        Ok(_) => Ok(length),
        Err(error) => {
            say_failed(rt, "standard input", error);
            Err(ReadFailed { length })
        }
    }
}

// Reads standard input until `text` is full, the input ends or a read fails. One that a signal interrupts before it gives a byte counts as failed.
pub fn read(rt: HostRuntime, text: &mut [u8]) -> Result<usize, ReadFailed>
    ensures { MatchResult result (λ n. IsPrefixLen n text.new) (λ failed. IsPrefixLen failed.length text.new) }
{
    let mut stdin = rt.stdin();
    let mut done = 0;
    while done < text.len() {
        match outcome_of(stdin.read(&mut text[done..])) {
            Ok(Some(more)) => done += more,
            last => return ended(rt, done, last),
        }
    }
    Ok(done)
}

// Writes to standard output until all bytes are written or a write fails, and returns how many were written. A write that takes no byte is an error too.
pub fn write(rt: HostRuntime, bytes: &[u8]) -> usize
    ensures { IsPrefixLen result bytes.now }
{
    let mut stdout = rt.stdout();
    let mut done = 0;
    while done < bytes.len() {
        match outcome_of(stdout.write(&bytes[done..])) {
            Ok(Some(more)) => done += more,
            Ok(None) => {
                say_failed(rt, "standard output", io::Error::other("no more is taken"));
                return done;
            }
            Err(error) => {
                say_failed(rt, "standard output", error);
                return done;
            }
        }
    }
    done
}
