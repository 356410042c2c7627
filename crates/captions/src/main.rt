// Captions to token ids and back, by the proved calls: `captions --help` says what it does. Without arguments it shows the whole way of a
// short script on the embedded model.

#![tactic(auto)]

mod embedded;
mod help;
mod ids;
mod job;
mod lines;
mod models;
mod options;
mod output;
mod report;
mod script;
mod session;
mod tables;
mod tally;
mod tell;
mod work;

use job::Job;
use lines::Source;
use options::{Command, Options};
use output::Stream;
use std::fs::File;
use std::io;

// The file at a path, whose name has to be text.
fn opened(rt: &HostRuntime, path: &[u8]) -> io::Result<File> {
    match std::str::from_utf8(path) {
        Ok(path) => File::open(rt, path),
        Err(_) => Err(io::Error::from(io::ErrorKind::InvalidFilename)),
    }
}

fn job_of<'a>(rt: &HostRuntime, options: Options, command: Command, source: Source<'a>) -> Job<'a> {
    Job {
        command,
        name: options.name,
        bare: options.bare,
        source,
        output: Stream::Output(rt.stdout()),
        errors: Stream::Errors(rt.stderr()),
    }
}

// Reads the file that argument `i` names; says why in words, where there is none.
fn run_on_path(rt: &HostRuntime, options: Options, i: usize) -> io::Result<()> {
    let command = options.command;
    let errors = Stream::Errors(rt.stderr());
    let mut word = [0u8; 4096];
    let length = options::argument(rt, i, &mut word);
    let path = &word[..length];
    if path == b"-".as_slice() {
        embedded::run(job_of(rt, options, command, Source::Input(rt.stdin())));
        return Ok(());
    }
    match opened(rt, path) {
        Ok(file) => {
            embedded::run(job_of(rt, options, command, Source::File(&file)));
            Ok(())
        }
        Err(error) => {
            let _ = output::fail(errors, path, error);
            help::not_ok(errors, "nothing was read")
        }
    }
}

fn run_as_told(rt: &HostRuntime, options: Options) -> io::Result<()> {
    let errors = Stream::Errors(rt.stderr());
    if options.help {
        return help::tell(Stream::Output(rt.stdout()));
    }
    if let Some(i) = options.wrong {
        return help::tell_wrong(rt, errors, i);
    }
    if options.expects_name {
        return help::not_ok(errors, "--model wants embedded, T or U");
    }
    if let Some(i) = options.file {
        return run_on_path(rt, options, i);
    }
    let (command, source) = match options.command {
        Command::Show if options.bare => (Command::Encode, Source::Script),
        Command::Show => (Command::Show, Source::Script),
        // The one command that goes without a file.
        Command::Check => (Command::Check, Source::Nowhere),
        _ => {
            return help::not_ok(
                errors,
                "which FILE? - is standard input; captions --help says more",
            );
        }
    };
    embedded::run(job_of(rt, options, command, source));
    Ok(())
}

fn main(rt: HostRuntime) {
    let options = options::read(&rt);
    // What a run cannot write it says on standard error, as far as that takes it.
    let _ = run_as_told(&rt, options);
}
