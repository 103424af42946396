//! Laws of names and their spellings. Each function does nothing: its contract is the law, and the check proves it.
ghost use Rattle.std.specs.Prelude.{◌≡◌, ℕ, List, Ok, IsTrue};
ghost use Rattle.queue_name.specs.QueueName.{Name, is_name, spelling};
ghost use Rattle.queue_name.specs.NameText.{name_in};
ghost use Rattle.queue_name.specs.Limits.{name_limit, address_limit, body_limit};
ghost use Rattle.queue_name.specs.declared.name.TheConstants.{NAME_LIMIT};
ghost use Rattle.queue_name.specs.declared.message.TheConstants.{ADDRESS_LIMIT, BODY_LIMIT};

/// The spelling of a name is read, and gives that name.
pub fn spelling_of_name_is_read()
    ensures { (n : Name) → IsTrue (is_name n) → name_in (spelling n) ≡ Ok n }
{}

/// What is read is a name, and the text is its spelling.
pub fn read_text_is_spelling_of_name()
    ensures { (text : List ℕ) (n : Name) → name_in text ≡ Ok n → IsTrue (is_name n) × (spelling n ≡ text) }
{}

/// Two names with one spelling are one name.
pub fn names_with_one_spelling_are_one()
    ensures { (m : Name) (n : Name) → IsTrue (is_name m) → IsTrue (is_name n) → spelling m ≡ spelling n → m ≡ n }
{}

/// The limits that the code has are those that the definitions state.
pub fn limits_are_as_stated()
    ensures name_is { NAME_LIMIT ≡ name_limit }
    ensures address_is { ADDRESS_LIMIT ≡ address_limit }
    ensures body_is { BODY_LIMIT ≡ body_limit }
{}
