//! The top call: from the words, the bytes of texts and the disk to the bytes of the delivery log, or of a text on policies or on
//! a spool.
//!
//! `perform` finds the command and has it done; each command reads, and either is refused, which prints one line, or writes the
//! text of its deed.
ghost use Rattle.std.specs.Prelude.{◌≡◌, ◌≤◌, ℕ, List, Option, [], None, Some, IsTrue};
ghost use Rattle.queue_name.specs.QueueName.{is_name};
ghost use Rattle.kumo_outside.specs.Search.{SearchSeen};
ghost use Rattle.kumo_outside.specs.Content.{TextsSeen};
ghost use Rattle.command_words.specs.Commands.{check, command_of, explain, send, spool};
ghost use Rattle.command_words.specs.SeenCommands.{seen_names, seen_question, seen_sending};
ghost use Rattle.delivery_log.specs.LogText.{log_text};
ghost use Rattle.kumo_run.specs.StatusCode.{status_number};
ghost use Rattle.kumo_run.specs.RefusalLine.{refusal_line, status_of};
ghost use Rattle.kumo_run.specs.Outside.{DiskShown, outside, shown};
ghost use Rattle.kumo_run.specs.Spool.{LeavesDisk, WasOpened};
ghost use Rattle.kumo_run.specs.Ending.{WroteUnlessFailed};
ghost use Rattle.kumo_run.specs.Deeds.{all_sessions, asks_for_mail_alone, names_no_text, has_no_option};
ghost use Rattle.kumo_run.specs.Ends.{Ends, EndsCommand};
ghost use Rattle.kumo_run.specs.inside.Writing.{Writes, WritesLog, status_of_log, status_of_text};

use crate::policy_answers::{check_text, explain_text};
use crate::refusal::Refusal;
use crate::send::send_mail_text;
use crate::spool::spool_text;
use crate::status::Status;
use command_words::{Command, PolicyNames, Question, Sending, command_of};
use delivery_log::{LogWriteFault, write_log};
use history_core::History;
use kumo_base::{Failed, Text};
use kumo_disk::Disk;
use kumo_outside::{Search, Sink, Texts, put_all};
use scripted_peer::{PeerReplies, ScriptedLinker};
use std::alloc::Global;

/// What a call of the program leaves.
#[derive(Drop)]
pub struct Finished<D, C, S> {
    /// The exit status, the number of a `Status`.
    pub status: u8,
    /// The disk that was handed in.
    pub disk: D,
    /// The clock that was handed in.
    pub clock: C,
    /// The search engine that was handed in.
    pub search: S,
    /// The linkers, which tell the sessions: one where a link was opened.
    pub peers: Vec<ScriptedLinker>,
    /// The history, where the work was done.
    pub history: Option<History>,
}

/// Runs the program on its words: `check` writes which keys of policy texts have no effect, `explain` what applies to a queue's
/// name and a source, `spool` the messages that are pending on the disk, and `send` reads a mail text, sends its message and
/// writes the delivery log. The other commands and the other options of `send` are not built yet.
///
/// The search engine is asked about the patterns of a shaping text. `spool` opens the disk's spool, and hands the disk back; the
/// other commands do not use it yet. The clock is not used yet, and is handed back as it came.
pub fn perform<T: Texts, O: Sink, D: Disk + Drop, C, S: Search>(
    alloc: Global,
    words: &[Text],
    texts: &mut T,
    out: &mut O,
    disk: D,
    clock: C,
    mut search: S,
) -> Finished<D, C, S>
    ensures disk { LeavesDisk D.seen (command_of words.now) disk result.disk }
    ensures spool { (D.seen disk).faults ≤ (D.seen result.disk).faults }
    ensures clock { result.clock ≡ clock }
    ensures search { (S.seen search).faults ≤ (S.seen result.search).faults }
    ensures ends { Ends words.now
        (outside (T.seen texts.old) (O.seen out.old) (S.seen search) (shown (D.seen disk)))
        (outside (T.seen texts.new) (O.seen out.new) (S.seen result.search) (shown (D.seen result.disk)))
        result.status result.history (all_sessions result.peers.items) }
{
    let mut peers = Vec::new(alloc);
    let (ended, disk) = run(alloc, words, texts, out, disk, &mut search, &mut peers);
    Finished {
        status: ended.status.code(),
        disk,
        clock,
        search,
        peers,
        history: ended.history,
    }
}

/// How a command ended.
#[derive(Drop)]
struct Ended {
    status: Status,
    history: Option<History>,
}

/// Does what the words ask for, and hands the disk back. The linkers that were used are added to `peers`.
fn run<T: Texts, O: Sink, D: Disk + Drop, S: Search>(
    alloc: Global,
    words: &[Text],
    texts: &mut T,
    out: &mut O,
    disk: D,
    search: &mut S,
    peers: &mut Vec<ScriptedLinker>,
) -> (Ended, D)
    requires { peers.old.items ≡ [] }
    ensures ends { Ends words.now
        (outside (T.seen texts.old) (O.seen out.old) (S.seen search.old) (shown (D.seen disk)))
        (outside (T.seen texts.new) (O.seen out.new) (S.seen search.new) (shown (D.seen result.1)))
        (status_number result.0.status) result.0.history (all_sessions peers.new.items) }
    ensures disk { LeavesDisk D.seen (command_of words.now) disk result.1 }
    ensures spool { (D.seen disk).faults ≤ (D.seen result.1).faults }
    ensures search { (S.seen search.old).faults ≤ (S.seen search.new).faults }
{
    match command_of(words) {
        None => (refused(Refusal::Usage, out), disk),
        Some(Command::Check(names)) => (run_check(alloc, &names, texts, out, search), disk),
        Some(Command::Explain(asked)) => (run_explain(alloc, &asked, texts, out, search), disk),
        Some(Command::Spool(_)) => run_spool(alloc, disk, out),
        Some(Command::Send(sending)) => (run_send(alloc, &sending, texts, out, peers), disk),
        Some(Command::Crew(_, _)) => (refused(Refusal::NotYetWords, out), disk),
        Some(Command::Load(_, _)) => (refused(Refusal::NotYetWords, out), disk),
    }
}

/// Writes the messages that are pending in the spool of the disk, and hands the disk back.
fn run_spool<O: Sink, D: Disk + Drop>(alloc: Global, disk: D, out: &mut O) -> (Ended, D)
    ensures ends { (folder : Option (List ℕ)) (texts : TextsSeen) (search : SearchSeen) → EndsCommand (Some (spool folder))
        (outside texts (O.seen out.old) search (shown (D.seen disk))) (outside texts (O.seen out.new) search (shown (D.seen result.1)))
        (status_number result.0.status) result.0.history [] }
    ensures disk { WasOpened D.seen disk result.1 }
    ensures later { (D.seen disk).faults ≤ (D.seen result.1).faults }
{
    let (text, disk) = spool_text(alloc, disk);
    match text {
        Ok(text) => (printed(text.as_str(), out), disk),
        Err(why) => (refused(why, out), disk),
    }
}

/// Sends a mail text and writes the delivery log, where nothing else is asked for.
fn run_send<T: Texts, O: Sink>(
    alloc: Global,
    sending: &Sending<'_>,
    texts: &mut T,
    out: &mut O,
    peers: &mut Vec<ScriptedLinker>,
) -> Ended
    requires { peers.old.items ≡ [] }
    ensures { (search : SearchSeen) (disk : DiskShown) → EndsCommand (Some (send (seen_sending sending.now)))
        (outside (T.seen texts.old) (O.seen out.old) search disk) (outside (T.seen texts.new) (O.seen out.new) search disk)
        (status_number result.status) result.history (all_sessions peers.new.items) }
{
    if !asks_for_mail_alone(sending) {
        return refused(Refusal::NotYetWords, out);
    }
    match send_mail_text(alloc, sending.mail, texts, PeerReplies::new(), peers) {
        Ok(history) => logged(alloc, history, out),
        Err(why) => refused(why, out),
    }
}

/// Whether nothing is asked for but to send a mail text.
fn asks_for_mail_alone(sending: &Sending<'_>) -> bool
    ensures { result ≡ asks_for_mail_alone (seen_sending sending.now) }
{
    names_no_text(&sending.texts) && has_no_option(sending)
}

/// Whether no policy text is named.
fn names_no_text(names: &PolicyNames<'_>) -> bool
    ensures { result ≡ names_no_text (seen_names names.now) }
{
    names.sources.is_none()
        && names.queues.is_none()
        && names.shaping.is_none()
        && names.mx.is_none()
}

/// Whether none of the further options of sending is given.
fn has_no_option(sending: &Sending<'_>) -> bool
    ensures { result ≡ has_no_option (seen_sending sending.now) }
{
    sending.peers.is_none()
        && sending.orders.is_none()
        && sending.until.is_none()
        && sending.start.is_none()
        && sending.spool.is_none()
}

/// Checks policy texts and writes the report.
fn run_check<T: Texts, O: Sink, S: Search>(
    alloc: Global,
    names: &PolicyNames<'_>,
    texts: &mut T,
    out: &mut O,
    search: &mut S,
) -> Ended
    ensures ends { (disk : DiskShown) → EndsCommand (Some (check (seen_names names.now)))
        (outside (T.seen texts.old) (O.seen out.old) (S.seen search.old) disk)
        (outside (T.seen texts.new) (O.seen out.new) (S.seen search.new) disk) (status_number result.status) result.history [] }
    ensures search { (S.seen search.old).faults ≤ (S.seen search.new).faults }
{
    match check_text(alloc, texts, names, search) {
        Ok(text) => printed(text.as_str(), out),
        Err(why) => refused(why, out),
    }
}

/// Writes what applies to a queue's name and a source.
fn run_explain<T: Texts, O: Sink, S: Search>(
    alloc: Global,
    asked: &Question<'_>,
    texts: &mut T,
    out: &mut O,
    search: &mut S,
) -> Ended
    requires { IsTrue (is_name (seen_question asked.now).name) }
    ensures ends { (disk : DiskShown) → EndsCommand (Some (explain (seen_question asked.now)))
        (outside (T.seen texts.old) (O.seen out.old) (S.seen search.old) disk)
        (outside (T.seen texts.new) (O.seen out.new) (S.seen search.new) disk) (status_number result.status) result.history [] }
    ensures search { (S.seen search.old).faults ≤ (S.seen search.new).faults }
{
    match explain_text(alloc, texts, asked, search) {
        Ok(text) => printed(text.as_str(), out),
        Err(why) => refused(why, out),
    }
}

/// Writes a text on policies.
fn printed<O: Sink>(text: &str, out: &mut O) -> Ended
    ensures wrote { Writes result.status (O.seen out.old) (O.seen out.new) text.now }
    ensures history { result.history ≡ None }
{
    Ended {
        status: text_status(put_all(out, text.as_bytes())),
        history: None,
    }
}

/// Writes the log of a history, and hands the history out.
fn logged<O: Sink>(alloc: Global, history: History, out: &mut O) -> Ended
    ensures wrote { WritesLog result.status (O.seen out.old) (O.seen out.new) (log_text history) }
    ensures history { result.history ≡ Some history }
{
    Ended {
        status: log_status(write_log(alloc, &history, out)),
        history: Some(history),
    }
}

/// Prints why nothing was done.
fn refused<O: Sink>(why: Refusal, out: &mut O) -> Ended
    ensures status { result.status ≡ status_of why }
    ensures history { result.history ≡ None }
    ensures wrote { WroteUnlessFailed (O.seen out.old) (O.seen out.new) (refusal_line why) }
{
    why.print(out);
    Ended {
        status: why.status(),
        history: None,
    }
}

/// The status that the writing of a text leaves.
fn text_status(written: Result<(), Failed>) -> Status
    ensures { result ≡ status_of_text written }
{
    match written {
        Ok(()) => Status::Drained,
        Err(Failed) => Status::WriteFault,
    }
}

/// The status that the writing of the log leaves.
fn log_status(written: Result<(), LogWriteFault>) -> Status
    ensures { result ≡ status_of_log written }
{
    match written {
        Ok(()) => Status::Drained,
        Err(LogWriteFault::WriteFault) => Status::WriteFault,
        Err(LogWriteFault::Memory) => Status::Memory,
    }
}
