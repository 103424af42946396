//! The messages read so far, and their ids, by which a second message of one id is found.
ghost use Rattle.std.specs.Prelude.{◌≡◌, [], ◌∷◌, List, OnOk, IfErr, Ok};
ghost use Rattle.std.specs.List.{All};
ghost use Rattle.queue_name.specs.Message.{IsProperMessage};
ghost use Rattle.queue_name.specs.declared.message.Message as seen;
ghost use Rattle.mail_input.specs.Fields.{IsCauseOf};
ghost use Rattle.mail_input.specs.Inputs.{with_message, with_line};
ghost use Rattle.mail_input.specs.inside.Ids.{HasIds};

use crate::fault::LineFault;
use crate::line::read_line;
use crate::{MESSAGE_LIMIT, MailWhy};
use queue_name::Message;
use std::alloc::Global;
use std::collections::BTreeSet;
use std::marker::Model;

/// The messages read so far.
#[derive(Drop)]
pub struct Reading {
    messages: Vec<Message>,
    /// The ids of the messages.
    ids: BTreeSet<u128>,
}

impl Model for Reading {
    ghost Value = { List seen.Message };

    ghost view = { λ r. r.messages.items };

    ghost invariant = { λ r. HasIds r.ids r.messages.items };
}

impl Reading {
    /// No message.
    pub fn new(alloc: Global) -> Reading
        ensures { result ≡ [] }
    {
        Reading {
            messages: Vec::new(alloc),
            ids: BTreeSet::new(alloc),
        }
    }

    /// Adds the message of the next line.
    #[tactic(auto, unfolding(crate::specs::Inputs::with_line))]
    pub fn add_line(&mut self, alloc: Global, line: &[u8]) -> Result<(), LineFault>
        ensures ok { OnOk result (with_line self.old line.now ≡ Ok self.new) }
        ensures err { IfErr result (λ e. IsCauseOf e (with_line self.old line.now)) }
        ensures proper { All IsProperMessage self.old → OnOk result (All IsProperMessage self.new) }
    {
        if self.messages.len() >= MESSAGE_LIMIT {
            return Err(LineFault::Refused(MailWhy::TooMany));
        }
        let message = read_line(alloc, line)?;
        self.add(message)
    }

    /// Adds a message.
    #[tactic(auto, unfolding(crate::specs::Inputs::with_message))]
    fn add(&mut self, message: Message) -> Result<(), LineFault>
        ensures ok { OnOk result (with_message self.old message ≡ Ok self.new) }
        ensures err { IfErr result (λ e. IsCauseOf e (with_message self.old message)) }
        ensures proper { IsProperMessage message → All IsProperMessage self.old → OnOk result (All IsProperMessage self.new) }
    {
        if self.messages.reserve(1).is_err() {
            return Err(LineFault::Memory);
        }
        match self.ids.insert(message.id) {
            Ok(true) => {}
            Ok(false) => return Err(LineFault::Refused(MailWhy::Duplicate)),
            Err(_) => return Err(LineFault::Memory),
        }
        let Ok(()) = self.messages.push(message) else {
            return Err(LineFault::Memory);
        };
        Ok(())
    }

    /// The messages.
    pub fn messages(self) -> Vec<Message>
        ensures { result.items ≡ self }
    {
        self.messages
    }
}
