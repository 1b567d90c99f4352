//! The stopping place of one test, from the outcomes so far.

ghost use Rattle.std.specs.Prelude.{◌≡◌, ◌≢◌, ℕ, ◌+◌, ◌-◌, ◌<◌, ◌≤◌, length, pos, IfSome};
ghost use Rattle.std.specs.List.{slice_get, AllPairs};
ghost use Rattle.audit_model.specs.Job.{Job as JobValue};
ghost use Rattle.audit_model.specs.Stopping.{stop_of_known};
ghost use Rattle.audit_model.specs.Trajectory as trajectory;
ghost use Rattle.audit_model.specs.declared.setting.Ask.{Ask};
ghost use Rattle.sequential_test.specs.Ranks.{ends_below, tails_below};
ghost use Rattle.audit_model.specs.Limits.{most_trajectories};

use audit_model::outcome::{Outcome, Stop};
use audit_model::setting::Tail;
use outlier_tests::in_tail;
use plan_core::job::Job;

/// The number of endpoint trajectories of a job, and the number of outlier walks, whose ids come before theirs.
#[derive(Clone, Copy)]
struct EndpointIds {
    walks: u32,
    ends: u32,
    ghost few: { walks + ends ≤ most_trajectories },
}

/// The test of one ask: the number of outlier walks, the ask's index, the start plan's value, and the tail.
#[derive(Clone, Copy)]
struct EndTest {
    walks: u32,
    place: usize,
    start: i64,
    tail: Tail,
    ghost place_is: { place < 4 },
}

/// Returns the stopping place of Besag and Clifford's sequential test for an ask, and its p-value as a fraction. The
/// test needs `hits` endpoints in the tail. The outcomes may be in any order, and may include endpoints past the
/// stopping place.
///
/// The test takes the endpoints by rising id, up to the first missing one. If `hits` of them are in the tail, the place
/// is the least number of endpoints with `hits` in the tail. The fraction is then `hits` over the place. If fewer are
/// in the tail and none is missing, the place is the number of all endpoints. The fraction is then one more than the
/// number in the tail, over one more than the number of endpoints. Otherwise a missing endpoint may still decide the
/// place, and the result is `None`. Allocates nothing.
pub fn settle(job: &Job, ask: u32, hits: u32, posted: &[Outcome]) -> Option<Stop>
    requires ask { ask < length job.now.setting.asks }
    requires some { 1 ≤ hits }
    requires apart { AllPairs (λ a b. a.id ≡ b.id → ⊥) posted.now }
    ensures stop_of_known { IfSome (slice_get job.now.setting.asks ask) (λ asked. result ≡ stop_of_known job.now (ask, asked) hits posted.now) }
    ensures part { IfSome result (λ s. (s.place ≤ job.now.setting.ends) × (1 ≤ s.top) × (s.top ≤ s.of) × (s.of ≤ job.now.setting.ends + 1)) }
{
    let setting = job.setting();
    let place = ask as usize;
    let tail = setting.asks.as_slice()[place].tail;
    let span = EndpointIds {
        walks: setting.walks,
        ends: setting.ends,
    };
    find_stop(span, tail, job.start_value(ask), place, hits, posted)
}

/// Returns how many of the first `count` endpoints have an outcome in `posted`.
fn count_ends(walks: u32, posted: &[Outcome], count: u32) -> usize
    requires few { walks + count ≤ most_trajectories }
    ensures { result ≡ ends_below walks posted.now count }
{
    posted
        .iter()
        .filter(|o| walks <= o.id && o.id < walks + count)
        .count()
}

/// Returns how many of the first `n` endpoints have an outcome in `posted` that is in the tail.
fn count_tail(test: EndTest, posted: &[Outcome], n: u32) -> usize
    requires few { test.walks + n ≤ most_trajectories }
    ensures { result ≡ tails_below test.walks test.place test.tail test.start posted.now n }
{
    let mut count = 0;
    for o in posted {
        let inside = test.walks <= o.id && o.id < test.walks + n;
        if inside && in_tail(test.tail, o.values[test.place], test.start) {
            count += 1;
        }
    }
    count
}

/// Returns the number of endpoints before the first missing one, by rising id. The first `n` endpoints are complete if
/// `posted` has `n` of them, because no two outcomes have the same id.
fn known_ends(span: EndpointIds, posted: &[Outcome]) -> u32
    ensures within { result ≤ span.ends }
    ensures known { ends_below span.walks posted.now result ≡ result }
    ensures gap { result < span.ends → ends_below span.walks posted.now (result + 1) ≢ result + 1 }
{
    let walks = span.walks;
    let ends = span.ends;
    let mut known = 0;
    let mut short = ends + 1;
    while short - known > 1 {
        let middle = known + (short - known) / 2;
        if count_ends(walks, posted, middle) == middle as usize {
            known = middle;
        } else {
            short = middle;
        }
    }
    known
}

/// Returns the least number of endpoints of which `enough` are in the tail. It is at most `known`.
fn tail_place(test: EndTest, known: u32, enough: usize, posted: &[Outcome]) -> u32
    requires few { test.walks + known ≤ most_trajectories }
    requires some { 1 ≤ enough }
    requires reached { enough ≤ tails_below test.walks test.place test.tail test.start posted.now known }
    ensures within { (1 ≤ result) × (result ≤ known) }
    ensures reached { enough ≤ tails_below test.walks test.place test.tail test.start posted.now result }
    ensures before { tails_below test.walks test.place test.tail test.start posted.now (result - 1) < enough }
{
    let mut few = 0;
    let mut place = known;
    while place - few > 1 {
        let middle = few + (place - few) / 2;
        if count_tail(test, posted, middle) < enough {
            few = middle;
        } else {
            place = middle;
        }
    }
    place
}

/// Does the work of `settle` with numbers of the job. Two bisections find the first missing endpoint and the stopping
/// place. Each step of a bisection goes through the outcomes once.
fn find_stop(
    span: EndpointIds,
    tail: Tail,
    start: i64,
    place: usize,
    hits: u32,
    posted: &[Outcome],
) -> Option<Stop>
    requires place { place < 4 }
    requires some { 1 ≤ hits }
    requires apart { AllPairs (λ a b. a.id ≡ b.id → ⊥) posted.now }
    ensures stop_of_known { (job : JobValue) (ask : Ask) → job.setting.walks ≡ span.walks → job.setting.ends ≡ span.ends → ask.tail ≡ tail →
        trajectory.plan_value job job.start ask.score ≡ start → result ≡ stop_of_known job (place, ask) hits posted.now }
    ensures part { IfSome result (λ s. (s.place ≤ span.ends) × (1 ≤ s.top) × (s.top ≤ s.of) × (s.of ≤ span.ends + 1)) }
{
    let test = EndTest {
        walks: span.walks,
        place,
        start,
        tail,
    };
    let known = known_ends(span, posted);
    let inside = count_tail(test, posted, known);
    if inside >= hits as usize {
        let place = tail_place(test, known, hits as usize, posted);
        return Some(Stop {
            place,
            top: hits,
            of: place,
        });
    }
    if known < span.ends {
        return None;
    }
    Some(Stop {
        place: known,
        top: inside as u32 + 1,
        of: known + 1,
    })
}
