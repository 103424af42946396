//! Laws of replies, each the contract of a function that does nothing.
ghost use Rattle.std.specs.Prelude.{◌≡◌, ◌≤◌, ◌<◌, ◌∷◌, ◌++◌, ℕ, List, length, take, true, false};
ghost use Rattle.smtp_reply.specs.declared.reader.Heard.TheVariants.{Whole, More};
ghost use Rattle.smtp_reply.specs.declared.reader.ReplyReader.{ReplyReader};
ghost use Rattle.smtp_reply.specs.declared.reader.TheConstants.{REPLY_LIMIT};
ghost use Rattle.smtp_reply.specs.Grammar.{is_reply, is_front};
ghost use Rattle.smtp_reply.specs.Replies.{heard, fed};
ghost use Rattle.smtp_reply.specs.Reading.{IsWhole, Reads, IsProperReply};
ghost use Rattle.smtp_reply.specs.Limits.{reply_limit};

/// What is heard does not change when more bytes come: the pieces in which a reply comes do not matter.
pub fn heard_stays()
    ensures { (bytes more : List ℕ) → ((heard bytes).what ≡ More → ⊥) → heard (bytes ++ more) ≡ heard bytes }
{}

/// A reply goes on with each of its proper fronts.
pub fn fronts_go_on()
    ensures { (front : List ℕ) (b : ℕ) (more : List ℕ) → is_reply (front ++ b ∷ more) ≡ true
        → is_front front ≡ true }
{}

/// Each front is the front of some reply.
pub fn front_becomes_a_reply()
    ensures { (front : List ℕ) → is_front front ≡ true → (more : List ℕ) × (is_reply (front ++ more) ≡ true) }
{}

/// With a whole reply no longer one goes on.
pub fn reply_is_no_front()
    ensures { (bytes : List ℕ) → is_reply bytes ≡ true → is_front bytes ≡ false }
{}

/// A reply that is not too long is heard as whole, whatever stands behind it.
pub fn reply_is_heard()
    ensures { (bytes more : List ℕ) → is_reply bytes ≡ true → length bytes ≤ REPLY_LIMIT → heard (bytes ++ more)
        ≡ fed (length bytes) Whole }
{}

/// What is heard as whole is a reply that is not too long, with a code from 200 to 599 and a text that keeps its rules.
pub fn whole_is_a_reply()
    ensures within { (bytes : List ℕ) → (heard bytes).what ≡ Whole → (heard bytes).used ≤ length bytes }
    ensures proper { (bytes : List ℕ) → (heard bytes).what ≡ Whole → IsProperReply (take (heard bytes).used bytes) }
{}

/// More bytes are needed of a front alone, all of which is used and which is not too long.
pub fn more_is_a_front()
    ensures front { (bytes : List ℕ) → (heard bytes).what ≡ More → is_front bytes ≡ true }
    ensures short { (bytes : List ℕ) → (heard bytes).what ≡ More → length bytes < REPLY_LIMIT }
    ensures used { (bytes : List ℕ) → (heard bytes).what ≡ More → (heard bytes).used ≡ length bytes }
{}

/// A reader that answered that the reply is whole took a reply that is not too long, with a code from 200 to 599 and a
/// text that keeps its rules.
pub fn reader_took_a_reply()
    ensures { (reader : ReplyReader) (bytes : List ℕ) → IsWhole reader → Reads reader bytes → IsProperReply bytes }
{}

/// The limits that the code has are those that the definitions state.
pub fn limits_are_as_stated()
    ensures { REPLY_LIMIT ≡ reply_limit }
{}
