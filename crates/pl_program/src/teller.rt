//! What `serve` reports on standard error while it goes on.

ghost use Rattle.std.specs.Prelude.{Some};
ghost use Rattle.pl_program.specs.Teller.{crew_text};

use pl_conn::Watch;
use std::{fmt, io};

/// How many workers were started, of how many that were asked for.
#[derive(Clone, Copy)]
pub struct Crew {
    /// How many were started.
    pub started: usize,
    /// How many were asked for.
    pub asked: usize,
}

impl fmt::Display for Crew {
    ghost output = { λ crew. Some (crew_text crew.started crew.asked) };

    fn fmt<W: fmt::Write>(&self, f: &mut fmt::Formatter<W>) -> fmt::Result {
        let Crew { started, asked } = *self;
        writeln!(f, "workers: {started} of {asked}")
    }
}

/// Reports on the standard error of the process. If that is closed, nothing is reported.
#[derive(Clone, Copy)]
pub(crate) struct Teller<'a, R> {
    pub(crate) rt: &'a R,
}

impl<R: Eprint> Watch for Teller<'_, R> {
    fn few_workers(&self, started: usize, asked: usize) {
        let _is_told = self.rt.eprint(&Crew { started, asked });
    }

    fn accept_rests(&self, cause: &io::Error) {
        let _is_told = eprintln!(self.rt; "accept: {cause}");
    }
}
