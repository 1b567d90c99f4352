//! Posts with a buffer. While another worker has its turn, a worker buffers its outcomes and walks on, until its buffer
//! is full.

ghost use Rattle.std.specs.Prelude.{◌≡◌, ◌∷◌, [], ◌++◌, vec_capacity};
ghost use Rattle.tally_desk.specs.Passes.{view_of};
ghost use Rattle.tally_desk.specs.Unposted.{IsHolding};

use crate::desk::Desk;
use crate::pass::DeskPass;
use audit_io::keeper::Keeper;
use audit_model::outcome::Outcome;
use std::sync::Wait;

/// Posts the outcome of the last claim, and then buffered outcomes until another pass has its turn.
///
/// If another pass has its turn at the start, the outcome is buffered. If the buffer is full, the pass waits until it
/// can post the outcome.
pub fn hand_in<R: Wait, C: Keeper>(
    rt: &R,
    desk: &Desk<C>,
    pass: &mut DeskPass,
    buffered: &mut Vec<Outcome>,
    outcome: Outcome,
)
    requires { IsHolding desk.now pass.old (buffered.old.items ++ outcome ∷ []) }
    ensures holds { IsHolding desk.now pass.new buffered.new.items }
    ensures own { (view_of pass.new).own ≡ (view_of pass.old).own }
    ensures room { vec_capacity buffered.new ≡ vec_capacity buffered.old }
{
    if post_or_hold(rt, desk, pass, buffered, outcome) {
        post_while_free(rt, desk, pass, buffered);
    }
}

/// Posts all buffered outcomes. Waits as long as other passes have their turns.
pub fn post_all<R: Wait, C: Keeper>(
    rt: &R,
    desk: &Desk<C>,
    pass: &mut DeskPass,
    buffered: &mut Vec<Outcome>,
)
    requires { IsHolding desk.now pass.old buffered.old.items }
    ensures holds { IsHolding desk.now pass.new [] }
    ensures own { (view_of pass.new).own ≡ (view_of pass.old).own }
    ensures room { vec_capacity buffered.new ≡ vec_capacity buffered.old }
{
    while let Some(outcome) = buffered.pop() {
        desk.post(rt, pass, outcome);
    }
}

// Posts the outcome, and returns true. If another pass has its turn and the buffer is not full, buffers the outcome
// instead, and returns false.
fn post_or_hold<R: Wait, C: Keeper>(
    rt: &R,
    desk: &Desk<C>,
    pass: &mut DeskPass,
    buffered: &mut Vec<Outcome>,
    outcome: Outcome,
) -> bool
    requires { IsHolding desk.now pass.old (buffered.old.items ++ outcome ∷ []) }
    ensures holds { IsHolding desk.now pass.new buffered.new.items }
    ensures own { (view_of pass.new).own ≡ (view_of pass.old).own }
    ensures room { vec_capacity buffered.new ≡ vec_capacity buffered.old }
{
    if buffered.len() == buffered.capacity() {
        desk.post(rt, pass, outcome);
        return true;
    }
    if desk.try_post(rt, pass, outcome) {
        return true;
    }
    buffered.push_reserved(outcome);
    false
}

// Posts buffered outcomes until another pass has its turn.
fn post_while_free<R: Wait, C: Keeper>(
    rt: &R,
    desk: &Desk<C>,
    pass: &mut DeskPass,
    buffered: &mut Vec<Outcome>,
)
    requires { IsHolding desk.now pass.old buffered.old.items }
    ensures holds { IsHolding desk.now pass.new buffered.new.items }
    ensures own { (view_of pass.new).own ≡ (view_of pass.old).own }
    ensures room { vec_capacity buffered.new ≡ vec_capacity buffered.old }
{
    while let Some(outcome) = buffered.pop() {
        if !desk.try_post(rt, pass, outcome) {
            buffered.push_reserved(outcome);
            return;
        }
    }
}
