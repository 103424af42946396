//! What each step tells its pass, and what becomes of the views of passes that part or meet.
//!
//! The types have no values: they name, for the table, a definition of specs/inside/Steps.antt or specs/Views.antt.
ghost use Rattle.turnstile.specs.inside.Steps.{drew, looked, laid, fetched, passed, recalled};
ghost use Rattle.turnstile.specs.Views.{with_number_given, fresh, joined, ended};

use crate::chronicle::Chronicle;
use crate::view::View;
use atomic_table::{Join, Play, Split};

/// Takes a ticket.
pub struct Draw;

impl<T: Chronicle> Play<Option<T>, View> for Draw {
    ghost then = { λ _. drew T.shown };
}

/// Looks at the number served, and takes the value where it is the ticket.
pub struct Look;

impl<T: Chronicle> Play<Option<T>, View> for Look {
    ghost then = { λ _. looked T.shown };
}

/// Sends the empty slot home.
pub struct Lay;

impl<T: Chronicle> Play<Option<T>, View> for Lay {
    ghost then = { λ _. laid T.shown };
}

/// Takes the empty slot again.
pub struct Fetch;

impl<T: Chronicle> Play<Option<T>, View> for Fetch {
    ghost then = { λ _. fetched T.shown };
}

/// Puts the value back and serves the next ticket.
pub struct Hand;

impl<T: Chronicle> Play<Option<T>, View> for Hand {
    ghost then = { λ _. passed T.shown };
}

/// Asks the rule what is true of the pass.
pub struct Recall;

impl<T: Chronicle> Play<Option<T>, View> for Recall {
    ghost then = { λ _. recalled T.shown };
}

/// A new pass comes from pass 0.
pub struct Give;

impl Split<View> for Give {
    ghost left = { with_number_given };

    ghost right = { fresh };
}

/// A pass meets another, which ends.
pub struct Meet;

impl Join<View> for Meet {
    ghost both = { joined };

    ghost spent = { ended };
}
