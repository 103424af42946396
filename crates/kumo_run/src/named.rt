//! Which devices the words name: `main` makes them before it calls `perform`, which does not look at these options again.
ghost use Rattle.std.specs.Prelude.{◌≡◌, option_map};
ghost use Rattle.command_words.specs.Commands.{command_of};
ghost use Rattle.kumo_run.specs.Devices.{folder_of, start_of};

use command_words::{Command, command_of};
use kumo_base::Text;

/// What the words say of the devices of a run.
#[derive(Clone, Copy)]
pub struct Devices<'a> {
    /// The folder of the spool; where none is named the spool is in memory alone.
    pub spool: Option<&'a str>,
    /// The moment at which a clock that stands for the system's begins, in milliseconds since 1970.
    pub start: Option<u64>,
}

/// The devices that the words name. Words that are no command name none.
pub fn place<'a>(words: &'a [Text]) -> Devices<'a>
    ensures spool { option_map (λ s. s.now) result.spool ≡ folder_of (command_of words.now) }
    ensures start { result.start ≡ start_of (command_of words.now) }
{
    match command_of(words) {
        Some(Command::Spool(spool)) => Devices { spool, start: None },
        Some(Command::Send(sending)) | Some(Command::Crew(sending, _)) => Devices {
            spool: sending.spool,
            start: sending.start,
        },
        Some(Command::Load(_, _)) => Devices {
            spool: None,
            start: Some(0),
        },
        Some(Command::Check(_)) | Some(Command::Explain(_)) | None => Devices {
            spool: None,
            start: None,
        },
    }
}
