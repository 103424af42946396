//! Laws of legal histories. Each function does nothing: its contract is the law, and the check proves it.
ghost use Rattle.std.specs.Prelude.{◌≡◌, ◌≤◌, ◌<◌, ◌+◌, ◌⊎◌, ℕ, List, [], ◌∷◌, ◌++◌, Some, length, filter, slice_index_or, IsTrue};
ghost use Rattle.std.specs.List.{Contains};
ghost use Rattle.queue_name.specs.declared.message.Message.{Message};
ghost use Rattle.throttle_spec.specs.Throttle.{Throttle, Conforms};
ghost use Rattle.policy_core.specs.PathTables.{base_of};
ghost use Rattle.policy_core.specs.Policy.{Policy};
ghost use Rattle.history_core.specs.declared.entry.Entry.{Entry};
ghost use Rattle.history_core.specs.declared.entry.Event.TheVariants.{Opened, Begun};
ghost use Rattle.history_core.specs.declared.path.Path.{Path};
ghost use Rattle.history_core.specs.Allowed.{AllowsAttempt, AllowsOpening};
ghost use Rattle.history_core.specs.Connection.{Connection, busy_with, connections};
ghost use Rattle.history_core.specs.Fate.{fate_of, pending};
ghost use Rattle.history_core.specs.History.{has_id, messages, path_named};
ghost use Rattle.history_core.specs.KeyRates.{IsOnlyPath, connection_rate_of_key, message_rate_of_key};
ghost use Rattle.history_core.specs.Legal.{IsLegal, MayFollow};
ghost use Rattle.history_core.specs.Limits.{begun_moments, opened_moments};
ghost use Rattle.history_core.specs.Ready.{is_ready, ready};

/// A legal history stays legal with one more entry that may follow it.
pub fn legal_history_grows()
    ensures { (policy : Policy) (h : List Entry) (e : Entry) → IsLegal policy h → MayFollow policy h e
        → IsLegal policy (h ++ e ∷ []) }
{}

/// What a legal history begins with is legal.
pub fn front_of_legal_history_is_legal()
    ensures { (policy : Policy) (h : List Entry) (later : List Entry) → IsLegal policy (h ++ later) → IsLegal policy h }
{}

/// In a legal history no two messages that were recovered or accepted share an id.
pub fn no_id_comes_twice()
    ensures { (policy : Policy) (h : List Entry) → IsLegal policy h → (id : ℕ)
        → length (filter (has_id id) (messages h)) ≤ 1 }
{}

/// In a legal history each message has at most one fate: no message is settled twice.
pub fn message_has_one_fate_at_most()
    ensures { (policy : Policy) (h : List Entry) → IsLegal policy h → (id : ℕ) → length (fate_of h id) ≤ 1 }
{}

/// In a legal history each message is pending or has one fate, and not both.
pub fn message_is_pending_or_has_one_fate()
    ensures one_of_both { (policy : Policy) (h : List Entry) → IsLegal policy h → (m : Message) → Contains (messages h) m
        → Contains (pending h) m ⊎ (length (fate_of h m.id) ≡ 1) }
    ensures not_both { (policy : Policy) (h : List Entry) → IsLegal policy h → (m : Message) → Contains (pending h) m
        → fate_of h m.id ≡ [] }
{}

/// In a legal history a message that has its fate is not attempted: what a connection is busy with has none.
pub fn attempted_message_has_no_fate()
    ensures { (policy : Policy) (h : List Entry) → IsLegal policy h → (conn : ℕ) (id : ℕ) → busy_with h conn ≡ Some id
        → fate_of h id ≡ [] }
{}

/// In a legal history no message is attempted on two connections at a time.
pub fn message_is_attempted_on_one_connection()
    ensures { (policy : Policy) (h : List Entry) → IsLegal policy h → (conn : ℕ) (other : ℕ) (id : ℕ)
        → busy_with h conn ≡ Some id → busy_with h other ≡ Some id → conn ≡ other }
{}

/// In a legal history a message that has its fate is not ready, and in no ready queue.
pub fn ready_message_has_no_fate()
    ensures anywhere { (policy : Policy) (h : List Entry) → IsLegal policy h → (id : ℕ) → IsTrue (is_ready h id)
        → fate_of h id ≡ [] }
    ensures on_its_path { (policy : Policy) (h : List Entry) → IsLegal policy h → (path : Path) (id : ℕ)
        → Contains (ready policy h path) id → fate_of h id ≡ [] }
{}

/// In a legal history connections have the numbers 1, 2, 3 and so on in the order of their opening, so no number is
/// opened twice.
pub fn connections_are_numbered_from_one()
    ensures { (policy : Policy) (h : List Entry) → IsLegal policy h → (k : ℕ) (d : Connection)
        → k < length (connections h) → (slice_index_or (connections h) k d).number ≡ k + 1 }
{}

/// In a legal history a connection was opened only where its path allowed it.
pub fn an_opening_was_allowed()
    ensures { (policy : Policy) (h : List Entry) (e : Entry) (later : List Entry) → IsLegal policy (h ++ e ∷ later)
        → (conn : ℕ) (path : List ℕ) (key : ℕ) → e.what ≡ Opened conn path key → AllowsOpening policy h e.at path key }
{}

/// In a legal history an attempt began only where its connection, its path and its message allowed it.
pub fn an_attempt_was_allowed()
    ensures { (policy : Policy) (h : List Entry) (e : Entry) (later : List Entry) → IsLegal policy (h ++ e ∷ later)
        → (conn : ℕ) (id : ℕ) (key : ℕ) → e.what ≡ Begun conn id key → AllowsAttempt policy h e.at conn id key }
{}

/// Over a whole legal history the attempts on a path that began under a key keep the rate that the key stands for.
pub fn attempts_keep_their_rates()
    ensures { (policy : Policy) (h : List Entry) → IsLegal policy h → (text : List ℕ) (p : Path)
        → path_named policy h text ≡ Some p → (key : ℕ) (s : Throttle)
        → message_rate_of_key (base_of policy p.site p.source) key ≡ Some s → Conforms s (begun_moments h text key) }
{}

/// Over a whole legal history the openings of a path under a key keep the rate that the key stands for, where no other
/// path of the history has its text.
pub fn openings_keep_their_rates()
    ensures { (policy : Policy) (h : List Entry) → IsLegal policy h → (text : List ℕ) (p : Path)
        → IsOnlyPath policy h text p → (key : ℕ) (s : Throttle)
        → connection_rate_of_key (base_of policy p.site p.source) key ≡ Some s → Conforms s (opened_moments h text key) }
{}
