// What is to be done with the lines, once the arguments are understood.
use crate::lines::Source;
use crate::models::Name;
use crate::options::Command;
use crate::output::Stream;

#[derive(Clone, Copy)]
pub(crate) struct Job<'a> {
    pub command: Command,
    pub name: Name,
    pub bare: bool,
    pub source: Source<'a>,
    pub output: Stream,
    pub errors: Stream,
}
