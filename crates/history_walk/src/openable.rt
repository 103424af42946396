//! When a path was opened last.
ghost use Rattle.std.specs.Prelude.{◌≡◌, ◌∷◌, List, fold};
ghost use Rattle.history_core.specs.declared.entry.Entry.{Entry};
ghost use Rattle.history_core.specs.Connection.{connections};
ghost use Rattle.history_core.specs.Openable.{rank_after, opened_rank};
ghost use Rattle.history_views.specs.Opened.{connection_of};

use history_core::Entry;
use history_views::connections::{Opened, opened_by};

/// The rank of the path of a text after a connection: one more than the moment of its opening, where it is of the path.
fn rank_after(text: &str, was: u128, opened: &Opened<'_>) -> u128
    ensures { result ≡ rank_after text.now was (connection_of opened.now) }
{
    if opened.path == text {
        u128::from(opened.at) + 1
    } else {
        was
    }
}

/// One more than the moment of the last opening of the path of a text, 0 where it was never opened.
pub fn opened_rank(entries: &[Entry], text: &str) -> u128
    ensures { result ≡ opened_rank entries.now text.now }
{
    let mut rank = 0;
    for entry in entries {
        rank = rank_with(text, rank, entry);
    }
    rank
}

/// The rank after an entry.
fn rank_with(text: &str, was: u128, entry: &Entry) -> u128
    ensures { (later : List Entry) → fold (rank_after text.now) was (connections (entry.now ∷ later))
        ≡ fold (rank_after text.now) result (connections later) }
{
    match opened_by(entry) {
        Some(opened) => rank_after(text, was, &opened),
        None => was,
    }
}
