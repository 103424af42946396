//! The texts that `check` and `explain` print: they load the policy texts up to a whole policy, and then say what is in it.
//!
//! `run.rt` calls `check_text` and `explain_text` and prints what they give. Nothing is kept between two calls. They answer
//! the text, or the `Refusal` that the first fault of loading becomes, or that of memory.
ghost use Rattle.std.specs.Prelude.{◌≡◌, ◌≤◌, IfOk, IfErr, IsTrue, string_bytes};
ghost use Rattle.queue_name.specs.QueueName.{is_name};
ghost use Rattle.command_words.specs.SeenCommands.{seen_names, seen_question};
ghost use Rattle.policy_texts.specs.Report.{IsCheckReport};
ghost use Rattle.policy_texts.specs.Explained.{explanation};
ghost use Rattle.kumo_run.specs.PolicyAnswers.{IsCheckText, IsExplainText};
ghost use Rattle.kumo_run.specs.inside.PolicyCauses.{RefusesPolicy, refusal_of_load};

use crate::refusal::Refusal;
use command_words::{PolicyNames, Question};
use kumo_base::{Memory, Text};
use kumo_outside::{Search, Texts};
use policy_core::Policy;
use policy_fault::Ignored;
use policy_texts::{LoadFault, explain_queue, load_policy, report_keys};
use std::alloc::Global;

/// The report on the keys without effect of the texts of these names.
pub(crate) fn check_text<T: Texts, S: Search>(
    alloc: Global,
    texts: &mut T,
    names: &PolicyNames<'_>,
    search: &mut S,
) -> Result<String, Refusal>
    ensures ok { IfOk result (λ text. IsCheckText (T.seen texts.old).told (seen_names names.now) (string_bytes text)) }
    ensures err { IfErr result (λ why. RefusesPolicy (T.seen texts.old) (T.seen texts.new)
        (S.seen search.old) (S.seen search.new) (seen_names names.now) why) }
    ensures search { (S.seen search.old).faults ≤ (S.seen search.new).faults }
{
    match load_policy(alloc, texts, names, search) {
        Ok(loaded) => report_on(alloc, loaded.ignored.as_slice()),
        Err(fault) => Err(refusal_of_load(fault)),
    }
}

/// What the texts of these names say of the queue and the source that are asked about.
pub(crate) fn explain_text<T: Texts, S: Search>(
    alloc: Global,
    texts: &mut T,
    asked: &Question<'_>,
    search: &mut S,
) -> Result<Text, Refusal>
    requires { IsTrue (is_name (seen_question asked.now).name) }
    ensures ok { IfOk result (λ text. IsExplainText (T.seen texts.old).told (seen_question asked.now) text) }
    ensures err { IfErr result (λ why. RefusesPolicy (T.seen texts.old) (T.seen texts.new)
        (S.seen search.old) (S.seen search.new)
        (seen_names asked.now.texts) why) }
    ensures search { (S.seen search.old).faults ≤ (S.seen search.new).faults }
{
    match load_policy(alloc, texts, &asked.texts, search) {
        Ok(loaded) => answer(alloc, &loaded.policy, asked),
        Err(fault) => Err(refusal_of_load(fault)),
    }
}

/// The report on these keys.
fn report_on(alloc: Global, keys: &[Ignored]) -> Result<String, Refusal>
    ensures ok { IfOk result (λ text. IsCheckReport keys.now (string_bytes text)) }
    ensures err { IfErr result (λ why. why ≡ Refusal.Memory) }
{
    match report_keys(alloc, keys) {
        Ok(text) => Ok(text),
        Err(Memory) => Err(Refusal::Memory),
    }
}

/// What the policy says of the queue and the source that are asked about.
fn answer(alloc: Global, policy: &Policy, asked: &Question<'_>) -> Result<Text, Refusal>
    requires { IsTrue (is_name (seen_question asked.now).name) }
    ensures ok { IfOk result (λ text. text ≡ explanation policy.now (seen_question asked.now).name asked.now.source.now) }
    ensures err { IfErr result (λ why. why ≡ Refusal.Memory) }
{
    let Ok(name) = asked.name(alloc) else {
        return Err(Refusal::Memory);
    };
    match explain_queue(alloc, policy, &name, asked.source) {
        Ok(text) => Ok(text),
        Err(Memory) => Err(Refusal::Memory),
    }
}

/// The refusal that a fault of policy texts comes to.
fn refusal_of_load(fault: LoadFault) -> Refusal
    ensures { result ≡ refusal_of_load fault }
{
    match fault {
        LoadFault::Refused(place) => Refusal::Policy(place),
        LoadFault::Limit => Refusal::TextLimit,
        LoadFault::ReadFault => Refusal::ReadFault,
        LoadFault::SearchFault => Refusal::SearchFault,
        LoadFault::Memory => Refusal::Memory,
    }
}
