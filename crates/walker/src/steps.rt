//! Steps along a stream of draws.

ghost use Rattle.std.specs.Prelude.{◌≡◌, ◌+◌, ◌*◌, ◌%◌, ◌<◌, ◌≤◌, ◌^◌, ℕ, List, not, bytes_eq, length, slice_index};
ghost use Rattle.audit_statement.specs.Draw.{draw};
ghost use Rattle.audit_model.specs.Step.{next};
ghost use Rattle.audit_model.specs.Trajectory.{visit, moves};
ghost use Rattle.walker.specs.Asked.{each, visits_inside};
ghost use Rattle.walker.specs.Binned.{histogram_of_visits};
ghost use Rattle.walker.specs.Track.{IsOnTrack};
ghost use Rattle.walker.specs.Trail.{IsTrail};
ghost use Rattle.walker.specs.Walked.{IsWalked};

use crate::trail::Trail;
use audit_model::steps::Steps;
use chacha_draws::Draws;
use flip_guard::judge::Judge;
use flip_kernel::flip::{try_flip, try_flips};
use flip_kernel::state::State;
use plan_core::job::Job;
use scores::Room;
use std::sync::ledger::Ledger;

/// Takes `steps` steps with the first draws of a stream. Returns the number of moves.
pub fn walk<J: Judge, L: Ledger>(
    job: &Job,
    state: &mut State<J>,
    stream: u64,
    steps: u32,
    counter: &mut Steps<L>,
) -> u32
    requires made { state.old.job ≡ job.now }
    ensures plan { state.new ≡ record state.old { plan = visit job.now (draw job.now.setting.key stream) state.old.plan steps } }
    ensures moved { result ≡ moves job.now (draw job.now.setting.key stream) state.old.plan steps }
{
    let setting = job.setting();
    let mut draws = Draws::new(setting.key, stream);
    walk_on(job, state, &mut draws, steps, counter)
}

/// Takes `steps` more steps with the next draws of a stream. Returns the number of moves among
/// these steps.
///
/// Several calls have the effect of one call with the sum of their steps.
pub fn walk_on<J: Judge, L: Ledger>(
    job: &Job,
    state: &mut State<J>,
    draws: &mut Draws,
    steps: u32,
    counter: &mut Steps<L>,
) -> u32
    requires made { state.old.job ≡ job.now }
    requires few { draws.old.place + steps ≤ 2 ^ 32 }
    ensures made { state.new.job ≡ job.now }
    ensures few { result ≤ steps }
    ensures draws { draws.new ≡ record draws.old { place = draws.old.place + steps } }
    ensures walked { (key : List ℕ) (stream : ℕ) (plan : List ℕ) (place moved : ℕ) → IsWalked job.now key stream plan place state.old draws.old moved
        → IsWalked job.now key stream plan (place + steps) state.new draws.new (moved + result) }
{
    let mut moved = 0;
    for place in 0..steps {
        moved += u32::from(step(job, state, draws, counter));
    }
    moved
}

/// A walk from the start plan: its stream, its number of steps, and whether it needs a histogram
/// (`shift`).
#[derive(Clone, Copy)]
pub struct Course {
    pub stream: u64,
    pub steps: u32,
    pub shift: bool,
}

/// A walk in progress: its next draw and its results so far.
#[derive(Drop)]
struct Track {
    draws: Draws,
    trail: Trail,
}

/// Walks from the start plan, which must be the current plan.
///
/// Returns the number of moves, the number of visits in the tail of each ask, and the histogram if
/// `course` asks for one. The start plan is the first visit. Scores and seats are computed only at
/// the start and after each move. This saves time.
pub fn count_visits<J: Judge, L: Ledger>(
    job: &Job,
    state: &mut State<J>,
    course: Course,
    room: &mut Room,
    counter: &mut Steps<L>,
) -> Trail
    requires made { state.old.job ≡ job.now }
    requires start { state.old.plan ≡ job.now.start }
    requires few { course.steps ≤ 10 ^ 9 }
    ensures made { state.new.job ≡ job.now }
    ensures moved { result.moved ≡ moves job.now (draw job.now.setting.key course.stream) job.now.start course.steps }
    ensures counts { result.tally.counts ≡ each (visits_inside job.now (draw job.now.setting.key course.stream) (course.steps + 1)) job.now.setting.asks }
    ensures bins { result.bins.counts ≡ histogram_of_visits course.shift job.now (draw job.now.setting.key course.stream) (course.steps + 1) }
{
    let mut track = Track {
        draws: Draws::new(job.setting().key, course.stream),
        trail: Trail::new(job, state, course.shift, room),
    };
    let mut place = 0;
    'turns: while place < course.steps {
        place += visit_block(job, state, &mut track, course.steps - place, room, counter);
    }
    let mut trail = track.trail;
    trail.flush(course.steps + 1);
    trail
}

/// Takes one step. Returns true if the step was a move.
///
/// The function is inlined, because nine of ten steps end after a test of one bit. A call would
/// double the cost of these steps.
#[inline(always)]
fn step<J: Judge, L: Ledger>(
    job: &Job,
    state: &mut State<J>,
    draws: &mut Draws,
    counter: &mut Steps<L>,
) -> bool
    requires made { state.old.job ≡ job.now }
    requires place { draws.old.place < 2 ^ 32 }
    ensures plan { state.new ≡ record state.old { plan = next job.now state.old.plan (draw draws.old.key draws.old.stream draws.old.place) } }
    ensures moved { result ≡ not (bytes_eq state.old.plan state.new.plan) }
    ensures draws { draws.new ≡ record draws.old { place = draws.old.place + 1 } }
{
    let draw = draws.next();
    try_flip(job, state, draw, counter)
}

/// Takes steps with the draws that are in the buffer, but at most `left` steps. Returns the number
/// of steps.
#[inline(always)]
fn visit_block<J: Judge, L: Ledger>(
    job: &Job,
    state: &mut State<J>,
    track: &mut Track,
    left: u32,
    room: &mut Room,
    counter: &mut Steps<L>,
) -> u32
    requires made { state.old.job ≡ job.now }
    requires some { 0 < left }
    requires few { track.old.draws.place + left ≤ 10 ^ 9 }
    requires on { IsOnTrack job.now state.old.plan track.old.draws.place track.old }
    ensures made { state.new.job ≡ job.now }
    ensures some { 0 < result }
    ensures most { result ≤ left }
    ensures on { IsOnTrack job.now state.new.plan (track.old.draws.place + result) track.new }
    ensures draws { track.new.draws ≡ record track.old.draws { place = track.old.draws.place + result } }
    ensures asked { track.new.trail.bins.asked ≡ track.old.trail.bins.asked }
{
    let taken = visit_along(
        job,
        state,
        &track.draws,
        left,
        &mut track.trail,
        room,
        counter,
    );
    track.draws.skip(taken as usize);
    taken
}

/// Takes steps with the draws that are in the buffer, but at most `left` steps, and leaves the draws
/// as they are. Returns the number of steps.
#[inline(always)]
fn visit_along<J: Judge, L: Ledger>(
    job: &Job,
    state: &mut State<J>,
    draws: &Draws,
    left: u32,
    trail: &mut Trail,
    room: &mut Room,
    counter: &mut Steps<L>,
) -> u32
    requires made { state.old.job ≡ job.now }
    requires some { 0 < left }
    requires few { draws.now.place + left ≤ 10 ^ 9 }
    requires visited { state.old.plan ≡ visit job.now (draw draws.now.key draws.now.stream) job.now.start draws.now.place }
    requires trail { IsTrail job.now (draw draws.now.key draws.now.stream) draws.now.place trail.old }
    ensures made { state.new.job ≡ job.now }
    ensures some { 0 < result }
    ensures most { result ≤ left }
    ensures buffered { draws.now.place % 32 + result ≤ 32 }
    ensures visited { state.new.plan ≡ visit job.now (draw draws.now.key draws.now.stream) job.now.start (draws.now.place + result) }
    ensures trail { IsTrail job.now (draw draws.now.key draws.now.stream) (draws.now.place + result) trail.new }
    ensures asked { trail.new.bins.asked ≡ trail.old.bins.asked }
{
    let waiting = draws.waiting();
    let count = waiting.len().min(left as usize);
    let ready = &waiting[..count];
    let mut place = 0;
    'opens: while place < ready.len() {
        place = visit_next(job, state, draws, ready, place, trail, room, counter);
    }
    count as u32
}

/// Takes the steps of the ready draws, which are the next ones, from the index `place` up to a step
/// that may be a move. Returns the index after this step. After a move, counts the visits of the
/// plan before the move and scores the plan after it.
#[inline(always)]
fn visit_next<J: Judge, L: Ledger>(
    job: &Job,
    state: &mut State<J>,
    draws: &Draws,
    ready: &[u64],
    place: usize,
    trail: &mut Trail,
    room: &mut Room,
    counter: &mut Steps<L>,
) -> usize
    requires made { state.old.job ≡ job.now }
    requires ready { (k : ℕ) → k < length ready.now → slice_index ready.now k ≡ draw draws.now.key draws.now.stream (draws.now.place + k) }
    requires some { place < length ready.now }
    requires few { draws.now.place + length ready.now ≤ 10 ^ 9 }
    requires visited { state.old.plan ≡ visit job.now (draw draws.now.key draws.now.stream) job.now.start (draws.now.place + place) }
    requires trail { IsTrail job.now (draw draws.now.key draws.now.stream) (draws.now.place + place) trail.old }
    ensures made { state.new.job ≡ job.now }
    ensures some { place < result }
    ensures most { result ≤ length ready.now }
    ensures visited { state.new.plan ≡ visit job.now (draw draws.now.key draws.now.stream) job.now.start (draws.now.place + result) }
    ensures trail { IsTrail job.now (draw draws.now.key draws.now.stream) (draws.now.place + result) trail.new }
    ensures asked { trail.new.bins.asked ≡ trail.old.bins.asked }
{
    let (after, changed) = try_flips(job, state, ready, place, counter);
    if !changed {
        return after;
    }
    let visits = draws.place() as u32 + after as u32;
    trail.flush(visits);
    trail.update(job, state, room);
    after
}
