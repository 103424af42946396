//! Goes through the rows: each entry may follow those before it, or may not where its line says so; and the log of the
//! entries is the row's.
ghost use Rattle.std.specs.Prelude.{IfOk, OnOk, IsTrue};
ghost use Rattle.history_core.specs.Legal.{MayFollow};
ghost use Rattle.sending_state.specs.State.{AllExamined};

use crate::answers::{is_owed, shows};
use crate::policies::policy_of;
use crate::reader::{Line, read_line};
use crate::rows::{Row, rows};
use delivery_log::write_log;
use history_core::{Entry, History};
use history_walk::{Breach, legal_next};
use kumo_base::Text;
use kumo_outside::{MemSink, RegexSearch};
use sending_state::SendingState;
use std::alloc::Global;
use std::str::from_utf8;
use std::test::Fail;

/// Searches the replies of a state's history.
fn examine_all(alloc: Global, state: &mut SendingState) -> Result<(), Fail>
    ensures { OnOk result (AllExamined state.new) }
{
    let mut search = RegexSearch::new(alloc, Vec::new(alloc));
    match state.examine(&mut search) {
        Ok(()) => Ok(()),
        Err(_) => Err(Fail::new("a reply is not searched")),
    }
}

/// Whether an entry may follow the history of a state.
fn may_follow(alloc: Global, state: &SendingState, entry: &Entry) -> Result<bool, Fail>
    ensures { IfOk result (λ may. IsTrue may → MayFollow state.now.policy state.now.history entry.now) }
{
    let mut search = RegexSearch::new(alloc, Vec::new(alloc));
    match legal_next(alloc, state.policy(), state.entries(), entry, &mut search) {
        Ok(()) => Ok(true),
        Err(Breach::NotAllowed) => Ok(false),
        Err(_) => Err(Fail::new("neither allowed nor refused")),
    }
}

/// Takes an entry that may follow.
fn take(state: &mut SendingState, entry: Entry) -> Result<(), Fail>
    requires { MayFollow state.old.policy state.old.history entry }
{
    if is_owed(&entry.what) {
        state.reserve_owed(1)?;
        state.take_owed(entry);
    } else {
        state.take(entry)?;
    }
    Ok(())
}

/// Whether an entry may follow the history of a state that was examined; where it may, the answers of the state show it.
fn follows(alloc: Global, state: &SendingState, entry: &Entry) -> Result<bool, Fail>
    requires { AllExamined state.now }
    ensures { IfOk result (λ may. IsTrue may → MayFollow state.now.policy state.now.history entry.now) }
{
    if !may_follow(alloc, state, entry)? {
        return Ok(false);
    }
    if !shows(state, entry)? {
        return Err(Fail::new("the state answers otherwise"));
    }
    Ok(true)
}

/// Tries the entry of a line behind the history of a state, and takes it where it may follow. Answers whether it may, as the line
/// says.
fn is_so(alloc: Global, state: &mut SendingState, line: Line) -> Result<bool, Fail> {
    let Line { entry, may_follow } = line;
    examine_all(alloc, state)?;
    if follows(alloc, state, &entry)? {
        take(state, entry)?;
        Ok(may_follow)
    } else {
        Ok(!may_follow)
    }
}

/// What is said of a line that is not so.
fn not_so(text: &str) -> Fail {
    Fail::new(format_args!("not so: {text}"))
}

/// The history of a row, whose entries were tried one after the other.
fn go_through(alloc: Global, row: &Row) -> Result<History, Fail> {
    let mut state = SendingState::new(alloc, policy_of(alloc, row)?);
    for text in row.history.lines() {
        if !is_so(alloc, &mut state, read_line(alloc, text)?)? {
            return Err(not_so(text));
        }
    }
    Ok(state.into_history())
}

/// The log of a history.
fn log_of(alloc: Global, history: &History) -> Result<Text, Fail> {
    let mut out = MemSink::new(alloc, Vec::new(alloc));
    write_log(alloc, history, &mut out)?;
    Ok(Text::of(alloc, from_utf8(out.bytes())?)?)
}

#[test]
fn histories_are_legal_entry_by_entry(rt: HostRuntime) -> Result<(), Fail> {
    let alloc = rt.alloc();
    for row in rows(alloc)?.iter() {
        let history = go_through(alloc, row)?;
        assert_eq!(rt;
            log_of(alloc, &history)?.as_str(),
            row.log,
            "in {}",
            row.name
        );
    }
    Ok(())
}
