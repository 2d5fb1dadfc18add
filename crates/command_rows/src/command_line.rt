// The words of a command line.
ghost use Rattle.std.specs.Io.{WritesAtMost};

use capriccio_call::words_of;
use std::alloc::Global;
use std::env::FillError;
use std::rt::Env;

/// A command line of three words: the program's name, `serve` and a last word.
#[derive(Drop)]
struct CommandLine {
    last: &'static [u8],
}

impl Env for CommandLine {
    fn arg(&self, i: usize, buf: &mut [u8]) -> Result<usize, FillError> {
        match i {
            0 => fill(buf, b"capriccio"),
            1 => fill(buf, b"serve"),
            2 => fill(buf, self.last),
            _ => Err(FillError::NotPresent),
        }
    }

    fn var(&self, _name: &str, _buf: &mut [u8]) -> Result<usize, FillError> {
        Err(FillError::NotPresent)
    }

    fn var_at(&self, _i: usize, _buf: &mut [u8]) -> Result<usize, FillError> {
        Err(FillError::NotPresent)
    }
}

/// Copies a word to the front of a buffer.
fn fill(buf: &mut [u8], word: &[u8]) -> Result<usize, FillError>
    ensures { WritesAtMost result buf.new }
{
    if buf.len() < word.len() {
        return Err(FillError::TooLong);
    }
    buf[..word.len()].copy_from_slice(word);
    Ok(word.len())
}

/// Checks whether a command line has this number of words.
fn has_count(alloc: Global, last: &'static [u8], count: usize) -> bool {
    match words_of(alloc, &CommandLine { last }) {
        Ok(words) => {
            let is_so = words.len() == count;
            drop(words);
            is_so
        }
        Err(_) => false,
    }
}

// If a word isn't UTF-8, there are no words.
#[test]
fn words_of_the_command_line(rt: HostRuntime) {
    let alloc = rt.alloc();
    assert!(rt; has_count(alloc, b"put.c", 2) && has_count(alloc, b"put\xff.c", 0));
}
