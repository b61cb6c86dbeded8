//! The judge of a life in which one device call, read or length call fails.

ghost use Rattle.std.specs.Prelude.{◌≡◌, ◌↔◌, true, false};
ghost use Rattle.im_tool_judge.specs.Disturbed.{IsDisturbed, AreDisturbed, IsNext, TellsSame, is_behind_failure, is_by_device};

use crate::same_replies::says_same;
use im_base_steps::Reply;
use im_base_types::Fault;
use im_tool_lines::{Opening, StoreAnswers, StoreReply};

/// Whether a life may answer so that answers as the first where no device call, read or length call fails. Where one failed in it, the opening's refusal or
/// a reply has to say so; where none did, it has to answer as the first.
pub fn is_disturbed(plain: &StoreAnswers, told: &StoreAnswers, fails: bool) -> bool
    ensures { result ≡ true ↔ IsDisturbed fails plain.now told.now }
{
    if told.opening == Opening::Refused(Fault::Device) {
        return fails && told.replies.is_empty();
    }
    told.opening == plain.opening && are_disturbed(&plain.replies, &told.replies, fails)
}

fn are_disturbed(plain: &[StoreReply], told: &[StoreReply], fails: bool) -> bool
    ensures { result ≡ true ↔ AreDisturbed fails false plain.now told.now }
{
    if plain.len() != told.len() {
        return false;
    }
    let mut failed = false;
    for i in 0..plain.len() {
        let expected = &plain[i];
        let reply = &told[i];
        if !is_next(failed, expected, reply) {
            return false;
        }
        let by_device = is_by_device(reply);
        failed = failed || by_device;
    }
    is_told(failed, fails)
}

// Whether a failure is told just where one comes.
fn is_told(failed: bool, fails: bool) -> bool
    ensures { result ≡ true ↔ failed ≡ fails }
{
    failed == fails
}

// Whether a line may have this reply that had the first one undisturbed, once a device call has failed or before.
fn is_next(failed: bool, plain: &StoreReply, told: &StoreReply) -> bool
    ensures { result ≡ true ↔ IsNext failed plain.now told.now }
{
    if failed {
        is_behind_failure(told) || tells_same(told, plain)
    } else {
        is_by_device(told) || says_same(told, plain)
    }
}

// After a device call that failed the engine has failed, and makes no more.
fn is_behind_failure(reply: &StoreReply) -> bool
    ensures { result ≡ is_behind_failure reply.now }
{
    matches!(
        reply,
        StoreReply::Calls(_)
            | StoreReply::Log(_)
            | StoreReply::Step(Reply::Refused(Fault::Failed))
            | StoreReply::Refused(Fault::Failed)
    )
}

// Whether both tell one report of an opening.
fn tells_same(told: &StoreReply, plain: &StoreReply) -> bool
    ensures { result ≡ true ↔ TellsSame told.now plain.now }
{
    match told {
        StoreReply::Redo(told) => match plain {
            StoreReply::Redo(plain) => told == plain,
            _ => false,
        },
        _ => false,
    }
}

// Whether a line was refused by the device.
fn is_by_device(reply: &StoreReply) -> bool
    ensures { result ≡ is_by_device reply.now }
{
    matches!(
        reply,
        StoreReply::Step(Reply::Refused(Fault::Device)) | StoreReply::Refused(Fault::Device)
    )
}
