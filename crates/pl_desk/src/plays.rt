//! What each atomic step reports to the pass that makes it.

ghost use Rattle.pl_core.specs.History.{History};

use crate::boxed::BoxedDb;
use crate::rule::View;
use atomic_table::{Join, Play, Split};
use std::marker::{Brand, PhantomData};

/// Loads the ticket word.
pub(crate) struct Asks;

impl Play<Option<BoxedDb>, View> for Asks {
    ghost use Rattle.pl_desk.specs.Steps.{asks_then};

    ghost then = { asks_then };
}

/// Adds 1 to the ticket word.
pub(crate) struct Draws;

impl Play<Option<BoxedDb>, View> for Draws {
    ghost use Rattle.pl_desk.specs.Steps.{draws_then};

    ghost then = { draws_then };
}

/// Loads the serving word.
pub(crate) struct Looks;

impl Play<Option<BoxedDb>, View> for Looks {
    ghost use Rattle.pl_desk.specs.Steps.{looks_then};

    ghost then = { looks_then };
}

/// The history that a count announces. Each call picks it.
pub(crate) trait Told {
    ghost use Rattle.pl_core.specs.History.{History};

    ghost told: { History };
}

impl Told for Brand {
    ghost use Rattle.pl_desk.specs.Steps.{no_history};

    ghost told = { no_history };
}

/// Adds 1 to the count of entries.
pub(crate) struct Counts<J> {
    told: PhantomData<J>,
}

impl<J: Told> Play<Option<BoxedDb>, View> for Counts<J> {
    ghost use Rattle.pl_desk.specs.Steps.{counts_then};

    ghost then = { counts_then J.told };
}

/// Adds 1 to the serving word.
pub(crate) struct Serves;

impl Play<Option<BoxedDb>, View> for Serves {
    ghost use Rattle.pl_desk.specs.Steps.{serves_then};

    ghost then = { serves_then };
}

/// Deals out one more pass.
pub(crate) struct Deals;

impl Split<View> for Deals {
    ghost use Rattle.pl_desk.specs.Steps.{dealing, dealt};

    ghost left = { dealing };

    ghost right = { dealt };
}

/// Takes in another pass.
pub(crate) struct Joins;

impl Join<View> for Joins {
    ghost use Rattle.pl_desk.specs.Steps.{meeting, gone};

    ghost both = { meeting };

    ghost spent = { gone };
}

/// Loads the count of entries for the meeting.
pub(crate) struct Meets;

impl Play<Option<BoxedDb>, View> for Meets {
    ghost use Rattle.pl_desk.specs.Steps.{meets_then};

    ghost then = { meets_then };
}
