//! That the limits of the code are those that the definitions state, and that what is written is read. Each function does
//! nothing that a caller sees: its contract is the law, and the check proves it.
ghost use Rattle.std.specs.Prelude.{◌≡◌, ◌≤◌, List, [], ◌∷◌, Ok, IfSome, length, flat_map, IsTrue};
ghost use Rattle.std.specs.List.{All};
ghost use Rattle.std.specs.Str.{is_utf8};
ghost use Rattle.queue_name.specs.Message.{IsProperMessage};
ghost use Rattle.queue_name.specs.declared.message.Message.{Message as Seen};
ghost use Rattle.mail_input.specs.Fields.{line_of};
ghost use Rattle.mail_input.specs.Inputs.{messages, mail_of};
ghost use Rattle.mail_input.specs.Limits.{message_limit};
ghost use Rattle.mail_input.specs.MailLine.{mail_text_of, mail_line_of, IsInUtf8, have_distinct_ids};
ghost use Rattle.mail_input.specs.declared.TheConstants.{MESSAGE_LIMIT};

use kumo_base::Text;
use queue_name::Message;

/// The limits that the code has are those that the definitions state.
pub fn limits_are_as_stated()
    ensures { MESSAGE_LIMIT ≡ message_limit }
{}

/// The mail line of a message that is in memory is UTF-8.
pub fn line_is_utf8(message: &Message)
    ensures { IsTrue (is_utf8 (mail_line_of message.now)) }
{
    let _created = message.created;
    is_in_utf8(message);
}

/// The line of a proper message is read, without its line feed, as that message.
pub fn written_line_is_read(message: &Message)
    ensures { IsProperMessage message.now → line_of (mail_text_of message.now) ≡ Ok message.now }
{
    is_in_utf8(message);
}

/// The lines of proper messages, one behind another, are read as those messages in their order: where there are no more than a
/// mail text may have, and no two have one id. The texts of each message that is in memory are UTF-8.
pub fn written_lines_are_read()
    ensures { (ms : List Seen) → All IsProperMessage ms → All IsInUtf8 ms → IsTrue (have_distinct_ids ms)
        → length ms ≤ message_limit → mail_of (flat_map mail_line_of ms) ≡ messages ms }
{}

/// The text that is one mail line is read as its message.
pub fn written_text_is_read(message: &Message)
    ensures { IsProperMessage message.now → mail_of (mail_line_of message.now) ≡ messages (message.now ∷ []) }
{
    is_in_utf8(message);
}

/// A message that is in memory has texts in UTF-8.
pub fn is_in_utf8(message: &Message)
    ensures { IsInUtf8 message.now }
{
    let _sender = message.sender.as_str();
    let _recipient = message.recipient.as_str();
    is_component_in_utf8(&message.name.campaign);
    is_component_in_utf8(&message.name.tenant);
    let _body = message.body.as_str();
}

/// So has a component, where it is there.
fn is_component_in_utf8(component: &Option<Text>)
    ensures { IfSome component.now (λ c. IsTrue (is_utf8 c)) }
{
    if let Some(text) = component {
        let _text = text.as_str();
    }
}
