//! Answers to requests handed out.

ghost use Rattle.std.specs.Prelude.{◌≡◌, ◌∷◌, [], IfOk, IfSome, Some};
ghost use Rattle.std.specs.Option.{option_copied};
ghost use Rattle.gu_session.specs.AnswerRules.{answer_messages, asked_by, command_messages, entered, messages_to};
ghost use Rattle.gu_session.specs.Given.{messages_in};
ghost use Rattle.gu_session.specs.declared.input.Outcome.TheVariants.{Replied};

use crate::answer::Answer;
use crate::ask_ref::AskRef;
use crate::input::{Failure, Outcome};
use crate::logged_on::Waiting;
use gu_msgs::outbound::Body;
use gu_msgs::{Question, Rejection, positions_answer, report_ack};
use gu_terms::Reply;
use std::alloc::{AllocError, Global};

/// Returns the result of a command, given the reply to it.
fn replied(question: &Question, reply: Reply) -> Option<Option<Rejection>>
    ensures { result ≡ entered question.now (Replied reply) }
{
    match reply {
        Reply::Accepted(done) => {
            if question.is_done(done) {
                Some(None)
            } else {
                None
            }
        }
        Reply::Denied(refusal) => Some(Some(Rejection::Refused(refusal))),
    }
}

/// Returns the result of a command, given its outcome.
fn entered(question: &Question, outcome: &Outcome) -> Option<Option<Rejection>>
    ensures { result ≡ entered question.now outcome.now }
{
    match outcome {
        Outcome::Replied(reply) => replied(question, *reply),
        Outcome::Failed(Failure::Memory) => Some(Some(Rejection::Memory)),
        Outcome::Failed(Failure::Full) => Some(Some(Rejection::Full)),
        Outcome::Positions(_) => None,
    }
}

/// Returns the answer to the command in the message with this number.
fn command_answer(question: &Question, number: u64, outcome: &Outcome) -> Answer
    ensures { messages_in result ≡ command_messages question.now number outcome.now }
{
    let Some(why) = entered(question, outcome) else {
        return Answer::Nothing;
    };
    match question.answer(number, why) {
        Some(body) => Answer::One(body),
        None => Answer::Silence,
    }
}

/// Returns the answer to the request in the message with this number, if the outcome is of its kind.
fn answer_in(
    alloc: Global,
    question: &Question,
    number: u64,
    outcome: &Outcome,
) -> Result<Answer, AllocError>
    ensures { IfOk result (λ answer. messages_in answer ≡ answer_messages question.now number outcome.now) }
{
    let Question::Positions(request) = question else {
        return Ok(command_answer(question, number, outcome));
    };
    match outcome {
        Outcome::Positions(rows) => {
            Ok(Answer::Positions(positions_answer(alloc, request, rows)?))
        }
        _ => Ok(Answer::Nothing),
    }
}

/// Returns the waiting question with this reference.
fn asked_by(reference: AskRef, waiting: &[Waiting]) -> Option<&Waiting>
    ensures { option_copied result ≡ asked_by reference waiting.now }
{
    for one in waiting {
        if one.reference == reference {
            return Some(one);
        }
    }
    None
}

/// Returns the acknowledgement that answers the request with this reference, if that is a report and the outcome is of its kind.
#[inline(always)]
pub fn report_answer(waiting: &[Waiting], reference: AskRef, outcome: &Outcome) -> Option<Body>
    ensures { IfSome result (λ body. messages_to waiting.now reference outcome.now ≡ Some (body ∷ [])) }
{
    let Some(one) = asked_by(reference, waiting) else {
        return None;
    };
    let Question::Report { id, match_id } = &one.question else {
        return None;
    };
    let Some(why) = entered(&one.question, outcome) else {
        return None;
    };
    Some(report_ack(*id, *match_id, why))
}

/// Returns the messages that answer the request with this reference, given its outcome.
pub fn answer_to(
    alloc: Global,
    waiting: &[Waiting],
    reference: AskRef,
    outcome: &Outcome,
) -> Result<Answer, AllocError>
    ensures { IfOk result (λ answer. messages_in answer ≡ messages_to waiting.now reference outcome.now) }
{
    let Some(one) = asked_by(reference, waiting) else {
        return Ok(Answer::Nothing);
    };
    answer_in(alloc, &one.question, one.reference.get(), outcome)
}
