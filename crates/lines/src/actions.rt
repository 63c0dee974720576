// An answer's actions as text.
#![tactic(auto, using(text::specs::PageLaws::typed_append))]

ghost use Rattle.text.specs.Lent.{Writes};
ghost use Rattle.record.specs.Answers.{first_actions};
ghost use Rattle.lines.specs.Lines.{context_text, link_text, action_text, actions_text};

use crate::values;
use record::{Action, Answer, Context};
use text::Page;

// Kind and id, and a requester's identity.
#[tactic(auto, using(text::specs::PageLaws::typed_append), unfolding(crate::specs::Lines::context_text))]
fn context(page: &mut Page, c: Context)
    ensures { Writes page.old (context_text c) page.new }
{
    match c {
        Context::Sync { id } => {
            page.copy(b"0:");
            page.decimal(u64::from(id));
        }
        Context::DelayReq { id } => {
            page.copy(b"1:");
            page.decimal(u64::from(id));
        }
        Context::PDelayReq { id } => {
            page.copy(b"2:");
            page.decimal(u64::from(id));
        }
        Context::PDelayResp { id, requester } => {
            page.copy(b"3:");
            page.decimal(u64::from(id));
            page.put(b':');
            values::identity(page, requester);
        }
    }
}

#[tactic(auto, unfolding(crate::specs::Lines::link_text))]
fn link(page: &mut Page, link_local: bool)
    ensures { Writes page.old (link_text link_local) page.new }
{
    if link_local {
        page.copy(b":link");
    }
}

#[tactic(auto, using(text::specs::PageLaws::typed_append), unfolding(crate::specs::Lines::action_text))]
fn action(page: &mut Page, action: Action)
    ensures { Writes page.old (action_text action) page.new }
{
    match action {
        Action::None => page.put(b'-'),
        Action::ResetSyncTimer { ns } => {
            page.copy(b"sync-timer:");
            page.decimal(ns);
        }
        Action::ResetDelayRequestTimer { ns } => {
            page.copy(b"delay-timer:");
            page.decimal(ns);
        }
        Action::ResetFilterUpdateTimer { ns } => {
            page.copy(b"filter-timer:");
            page.decimal(ns);
        }
        Action::SendEvent {
            context: c,
            link_local,
        } => {
            page.copy(b"event:");
            context(page, c);
            link(page, link_local);
        }
        Action::SendGeneral { link_local } => {
            page.copy(b"general");
            link(page, link_local);
        }
    }
}

// In their order, with a comma between.
pub(crate) fn actions(page: &mut Page, answer: Answer)
    ensures { Writes page.old (actions_text (first_actions answer.count answer.actions)) page.new }
{
    let [first, second] = answer.actions;
    match answer.count {
        0 => page.put(b'-'),
        1 => action(page, first.action),
        _ => {
            action(page, first.action);
            page.put(b',');
            action(page, second.action);
        }
    }
}
