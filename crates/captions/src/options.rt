// What the arguments ask for.
ghost use Rattle.std.specs.Prelude.{◌≤◌, length};

use crate::models::Name;
use std::env::{Env, FillError};

#[derive(Clone, Copy, PartialEq, Eq)]
pub(crate) enum Command {
    // No command: the built-in script, all the way.
    Show,
    Encode,
    Decode,
    Fragments,
    Normalise,
    Check,
}

impl Command {
    fn of(word: &[u8]) -> Option<Command> {
        match word {
            b"encode" => Some(Command::Encode),
            b"decode" => Some(Command::Decode),
            b"fragments" => Some(Command::Fragments),
            b"normalise" => Some(Command::Normalise),
            b"check" => Some(Command::Check),
            _ => None,
        }
    }

    // Whether it goes from text to ids and back.
    pub(crate) fn goes_back(self) -> bool {
        match self {
            Command::Show | Command::Check => true,
            _ => false,
        }
    }
}

// The arguments are told by their places.
#[derive(Clone, Copy)]
pub(crate) struct Options {
    pub command: Command,
    pub name: Name,
    pub bare: bool,
    pub help: bool,
    pub file: Option<usize>,
    // The first argument that is not understood.
    pub wrong: Option<usize>,
    // Whether the argument before was `--model`.
    pub expects_name: bool,
}

impl Options {
    fn take_wrong(&mut self, i: usize) {
        if self.wrong.is_none() {
            self.wrong = Some(i);
        }
    }

    // A file's name comes behind a command, and only one does.
    fn take_file(&mut self, i: usize) {
        if self.command == Command::Show || self.file.is_some() {
            self.take_wrong(i);
        } else {
            self.file = Some(i);
        }
    }

    fn take_name(&mut self, i: usize, word: &[u8]) {
        self.name = match word {
            b"T" => Name::T,
            b"U" => Name::U,
            b"embedded" => Name::Embedded,
            _ => return self.take_wrong(i),
        };
        self.expects_name = false;
    }

    fn take_flag(&mut self, i: usize, word: &[u8]) {
        match word {
            b"--ids" => self.bare = true,
            b"--help" => self.help = true,
            b"--model" => self.expects_name = true,
            _ => self.take_wrong(i),
        }
    }

    fn take_word(&mut self, i: usize, word: &[u8]) {
        match Command::of(word) {
            Some(command) if self.command == Command::Show => self.command = command,
            _ => self.take_file(i),
        }
    }
}

// Puts an argument at the start of `word`, and answers its length; 0 where there is none, or it is longer than `word`.
pub(crate) fn argument(env: &impl Env, i: usize, word: &mut [u8]) -> usize
    ensures { result ≤ length word.new }
{
    env.arg(i, word).unwrap_or(0)
}

fn is_given(env: &impl Env, i: usize) -> bool {
    match env.arg(i, &mut []) {
        Err(FillError::NotPresent) => false,
        _ => true,
    }
}

// An argument that is longer than all the words known reads as an empty one, which is a file's name like any other; its first bytes stay,
// and those of a flag tell it.
fn take_argument(env: &impl Env, options: &mut Options, i: usize) {
    let mut word = [0u8; 16];
    let length = argument(env, i, &mut word);
    if options.expects_name {
        options.take_name(i, &word[..length]);
    } else if word.starts_with(b"--") {
        options.take_flag(i, &word[..length]);
    } else {
        options.take_word(i, &word[..length]);
    }
}

pub(crate) fn read(env: &impl Env) -> Options {
    let mut options = Options {
        command: Command::Show,
        name: Name::Embedded,
        bare: false,
        help: false,
        file: None,
        wrong: None,
        expects_name: false,
    };
    for i in 1..usize::MAX {
        if !is_given(env, i) {
            break;
        }
        take_argument(env, &mut options, i);
    }
    options
}
