//! Why no work was done, and the one line that is printed of it.
//!
//! Every command that is refused ends as a `Refusal`, which `run.rt` prints once and whose status it hands out. The line is
//! put piece by piece, without memory, so that it can be printed when memory is what is missing. A sink that fails on it
//! changes nothing: the refusal stays what it is. A new reason needs its line and its status in `specs/RefusalLine.antt`, and
//! its cause in `specs/Causes.antt`.
ghost use Rattle.std.specs.Prelude.{◌≡◌, ◌≤◌, ◌++◌, OnOk, OnErr, codes, decimal};
ghost use Rattle.kumo_base.specs.Causes.{Rose, HasCause};
ghost use Rattle.kumo_outside.specs.Content.{told_with, TakesPrefix};
ghost use Rattle.kumo_run.specs.RefusalLine.{refusal_line, status_of, end_of_line, policy_start, policy_place, policy_end};

use crate::status::Status;
use itoa::Buffer;
use kumo_base::Failed;
use kumo_outside::{Sink, put_all};
use mail_input::MailWhy;
use policy_fault::PolicyPlace;

/// Why no work was done.
#[derive(Drop)]
pub enum Refusal {
    /// The words are no command.
    Usage,
    /// This place of a policy text is the first that is at fault.
    Policy(PolicyPlace),
    /// This line of the mail is the first refused one, for this reason.
    Mail { line: u64, why: MailWhy },
    /// A text could not be read.
    ReadFault,
    /// The search engine failed on a pattern of the shaping text.
    SearchFault,
    /// The text has more bytes than are read.
    TextLimit,
    /// The disk failed.
    SpoolFault,
    /// This area of the spool is damaged from this offset on, in bytes.
    SpoolDamaged { area: u8, at: u64 },
    /// What is pending in the spool may need more than an area may have.
    SpoolLimit,
    /// There was no memory.
    Memory,
    /// The command, or an option of it, is not built yet.
    NotYetWords,
    /// The mail holds more messages than are sent so far.
    NotYetMail,
    /// The receiver did not take the message, which is not followed up so far.
    NotYetReply,
}

impl Refusal {
    /// The status that the run ends with.
    pub fn status(&self) -> Status
        ensures { result ≡ status_of self.now }
    {
        match self {
            Refusal::Usage => Status::Usage,
            Refusal::Policy(_) => Status::Policy,
            Refusal::Mail { .. } => Status::Mail,
            Refusal::ReadFault => Status::ReadFault,
            Refusal::SearchFault => Status::SearchFault,
            Refusal::SpoolFault => Status::SpoolFault,
            Refusal::SpoolDamaged { .. } => Status::SpoolDamaged,
            Refusal::TextLimit | Refusal::SpoolLimit => Status::Limit,
            Refusal::Memory => Status::Memory,
            Refusal::NotYetWords | Refusal::NotYetMail | Refusal::NotYetReply => Status::NotYet,
        }
    }

    /// Prints the refusal's line. Where the sink fails a prefix of it was printed; a refusal stays what it is.
    pub fn print<O: Sink>(&self, out: &mut O)
        ensures prefix { TakesPrefix (O.seen out.old).told (O.seen out.new).told (refusal_line self.now) }
        ensures whole { (Rose (O.seen out.old).faults (O.seen out.new).faults → ⊥)
            → (O.seen out.new).told ≡ told_with (O.seen out.old).told (refusal_line self.now) }
        ensures later { (O.seen out.old).faults ≤ (O.seen out.new).faults }
    {
        match put_line(self, out) {
            Ok(()) => (),
            Err(Failed) => (),
        }
    }
}

/// Puts the refusal's line, without memory.
fn put_line<O: Sink>(refusal: &Refusal, out: &mut O) -> Result<(), Failed>
    ensures whole { OnOk result ((O.seen out.new).told ≡ told_with (O.seen out.old).told (refusal_line refusal.now)) }
    ensures part { OnErr result (TakesPrefix (O.seen out.old).told (O.seen out.new).told (refusal_line refusal.now)) }
    ensures cause { HasCause (O.seen out.old).faults (O.seen out.new).faults result }
{
    match refusal {
        Refusal::Usage => put_text(out, "error: usage\n"),
        Refusal::Policy(place) => put_policy_line(place, out),
        Refusal::Mail { line, why } => put_mail_line(*line, *why, out),
        Refusal::ReadFault => put_text(out, "error: read fault\n"),
        Refusal::SearchFault => put_text(out, "error: search fault\n"),
        Refusal::TextLimit => put_text(out, "error: limit text\n"),
        Refusal::SpoolFault => put_text(out, "error: spool fault\n"),
        Refusal::SpoolDamaged { area, at } => put_damaged_line(*area, *at, out),
        Refusal::SpoolLimit => put_text(out, "error: limit spool\n"),
        Refusal::Memory => put_text(out, "error: memory\n"),
        Refusal::NotYetWords => put_text(out, "error: not yet words\n"),
        Refusal::NotYetMail => put_text(out, "error: not yet mail\n"),
        Refusal::NotYetReply => put_text(out, "error: not yet reply\n"),
    }
}

/// Puts the line of a refused policy text.
fn put_policy_line<O: Sink>(place: &PolicyPlace, out: &mut O) -> Result<(), Failed>
    ensures whole { OnOk result ((O.seen out.new).told ≡ told_with (O.seen out.old).told
        (refusal_line (Refusal.Policy place.now))) }
    ensures part { OnErr result (TakesPrefix (O.seen out.old).told (O.seen out.new).told
        (refusal_line (Refusal.Policy place.now))) }
    ensures cause { HasCause (O.seen out.old).faults (O.seen out.new).faults result }
{
    put_three(out, "error: policy ", place.file.name(), " ")?;
    put_three(out, place.table.as_str(), " ", place.key.as_str())?;
    put_three(out, ": ", place.why.name(), "\n")?;
    Ok(())
}

/// Puts the line of a refused mail line.
fn put_mail_line<O: Sink>(line: u64, why: MailWhy, out: &mut O) -> Result<(), Failed>
    ensures whole { OnOk result ((O.seen out.new).told
        ≡ told_with (O.seen out.old).told (refusal_line (Refusal.Mail line why))) }
    ensures part { OnErr result (TakesPrefix (O.seen out.old).told (O.seen out.new).told (refusal_line (Refusal.Mail line why))) }
    ensures cause { HasCause (O.seen out.old).faults (O.seen out.new).faults result }
{
    let mut buffer = Buffer::new();
    put_three(
        out,
        "error: mail line ",
        buffer.format(line),
        end_of_line(why),
    )?;
    Ok(())
}

/// Puts the line of a damaged spool.
fn put_damaged_line<O: Sink>(area: u8, at: u64, out: &mut O) -> Result<(), Failed>
    ensures whole { OnOk result ((O.seen out.new).told
        ≡ told_with (O.seen out.old).told (refusal_line (Refusal.SpoolDamaged area at))) }
    ensures part { OnErr result (TakesPrefix (O.seen out.old).told (O.seen out.new).told
        (refusal_line (Refusal.SpoolDamaged area at))) }
    ensures cause { HasCause (O.seen out.old).faults (O.seen out.new).faults result }
{
    let mut buffer = Buffer::new();
    put_three(
        out,
        "error: spool damaged: area ",
        buffer.format(area),
        " at ",
    )?;
    put_text(out, buffer.format(at))?;
    put_text(out, "\n")?;
    Ok(())
}

/// What stands behind the number of a refused line: its word.
fn end_of_line(why: MailWhy) -> &'static str
    ensures { result.now ≡ end_of_line why }
{
    match why {
        MailWhy::TooMany => ": TooMany\n",
        MailWhy::NotJson => ": NotJson\n",
        MailWhy::Missing => ": Missing\n",
        MailWhy::BadId => ": BadId\n",
        MailWhy::BadMoment => ": BadMoment\n",
        MailWhy::BadAddress => ": BadAddress\n",
        MailWhy::BadName => ": BadName\n",
        MailWhy::TooLong => ": TooLong\n",
        MailWhy::Duplicate => ": Duplicate\n",
    }
}

/// Puts three texts, one behind the other.
fn put_three<O: Sink>(out: &mut O, first: &str, second: &str, third: &str) -> Result<(), Failed>
    ensures whole { OnOk result ((O.seen out.new).told
        ≡ told_with (O.seen out.old).told (first.now ++ (second.now ++ third.now))) }
    ensures part { OnErr result (TakesPrefix (O.seen out.old).told (O.seen out.new).told
        (first.now ++ (second.now ++ third.now))) }
    ensures cause { HasCause (O.seen out.old).faults (O.seen out.new).faults result }
{
    put_text(out, first)?;
    put_text(out, second)?;
    put_text(out, third)?;
    Ok(())
}

/// Puts a text.
fn put_text<O: Sink>(out: &mut O, text: &str) -> Result<(), Failed>
    ensures whole { OnOk result ((O.seen out.new).told ≡ told_with (O.seen out.old).told text.now) }
    ensures part { OnErr result (TakesPrefix (O.seen out.old).told (O.seen out.new).told text.now) }
    ensures cause { HasCause (O.seen out.old).faults (O.seen out.new).faults result }
{
    put_all(out, text.as_bytes())
}
