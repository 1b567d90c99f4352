//! Proposals of the largest draws, legal plans, a draw and its mirror, and walks whose searches are counted.

ghost use Rattle.std.specs.Prelude.{◌≡◌, ◌<◌, []};
ghost use Rattle.audit_model.specs.Job.{rules};
ghost use Rattle.flip_kernel.specs.Judged.{IsJudgeFor};

use audit_model::outcome::SumsView;
use audit_model::rules::Rules;
use audit_model::steps::Steps;
use case_format::begin_case;
use chacha_draws::Draws;
use dual_graph::marks::Marks;
use flip_guard::guard::Guard;
use flip_guard::judge::Judge;
use flip_kernel::flip::{mirror, try_flip};
use flip_kernel::proposal::propose;
use flip_kernel::state::State;
use plan_core::job::Job;
use std::io;
use std::marker::Brand;
use std::sync::ledger::{Blank, Ledger};

/// The number of steps of a walk.
const STEPS: u32 = 100_000;

// Prints the proposal of a draw, for three units and three districts.
fn show_proposal(rt: &HostRuntime, draw: u64) -> io::Result<()> {
    match propose(draw, 3, 3) {
        Some((unit, district)) => println!(rt; "draw {draw} unit {unit} district {district}"),
        None => println!(rt; "draw {draw} nothing"),
    }
}

/// Prints the proposals of the largest draws.
pub fn show_proposals(rt: &HostRuntime) -> io::Result<()> {
    begin_case(rt, "proposals_of_largest_draws")?;
    show_proposal(rt, u64::MAX)?;
    show_proposal(rt, u64::MAX - 6)?;
    show_proposal(rt, u64::MAX - 7)
}

// Makes the first steps of the job's first walk. Returns the number of steps that changed the plan, and the number that
// searched. Before each step, `asks_search` tells whether the step will search.
fn walk<J: Judge, L: Ledger>(job: &Job, state: &mut State<J>, steps: &mut Steps<L>) -> (u32, u32)
    requires made { state.old.job ≡ job.now }
{
    let mut draws = Draws::new(job.setting().key, 0);
    let mut moved = 0;
    let mut searched = 0;
    for _ in 0..STEPS {
        let draw = draws.next();
        searched += u32::from(state.asks_search(job, draw));
        moved += u32::from(try_flip(job, state, draw, steps));
    }
    (moved, searched)
}

// Prints the number of steps that changed the plan and the number that searched, and whether at most one in a thousand
// searched.
fn show_walk<J: Judge, L: Ledger>(
    rt: &HostRuntime,
    job: &Job,
    state: &mut State<J>,
    blank: Blank,
) -> io::Result<()>
    requires name { blank.name ≡ L.name }
    requires parts { blank.parts ≡ L.parts }
    requires some { 0 < L.parts }
    requires made { state.old.job ≡ job.now }
{
    let mut steps: Steps<L> = Steps::new(blank);
    let (moved, searched) = walk(job, state, &mut steps);
    let few = searched <= STEPS / 1000;
    println!(rt;
        "units {} steps {STEPS} moved {moved} searched {searched} few {few}",
        job.units()
    )
}

// Prints the draw that mirrors a fixed draw, which moves a unit on the path. Then prints the counts
// of a walk.
fn show_state<J: Judge>(rt: &HostRuntime, job: &Job, state: &mut State<J>) -> io::Result<()>
    requires made { state.old.job ≡ job.now }
{
    let mirrored = mirror(job, state, 0x8665eeb269b687c3);
    println!(rt; "mirrored {mirrored}")?;
    show_walk::<J, Brand>(rt, job, state, Blank::new(1))
}

fn show_judged<J: Judge>(rt: &HostRuntime, job: &Job, judge: J) -> io::Result<()>
    requires { IsJudgeFor job.now (J.judging judge) }
{
    match State::new(rt.alloc(), job, judge) {
        Ok(mut state) => {
            let observed = show_state(rt, job, &mut state);
            drop(state);
            observed
        }
        Err(_) => rt.println("memory"),
    }
}

fn show_guarded(rt: &HostRuntime, job: &Job, of_job: Rules) -> io::Result<()>
    requires same { of_job ≡ rules job.now }
    requires no_regions { of_job.regions ≡ [] }
    requires no_majority { of_job.group_districts ≡ 0 }
    requires no_frozen { of_job.frozen ≡ [] }
{
    let max_cut = of_job.max_cut;
    show_judged(
        rt,
        job,
        Guard::new(move |sums: &SumsView| sums.cut <= max_cut, of_job),
    )
}

/// Prints a mirrored draw and the counts of a walk of a job. Refuses regions, required majorities
/// and frozen units.
pub fn show_flips(rt: &HostRuntime, job: &Job) -> io::Result<()> {
    let rules = job.rules();
    if rules.regions.len() > 0 || rules.group_districts > 0 || rules.frozen.len() > 0 {
        return rt.println("rules that no closure knows");
    }
    match rules.copy() {
        Ok(rules) => show_guarded(rt, job, rules),
        Err(_) => rt.println("memory"),
    }
}

/// Prints whether the start plan of a job is legal.
pub fn show_legal(rt: &HostRuntime, job: &Job) -> io::Result<()> {
    match Marks::new(rt.alloc(), job.units()) {
        Ok(mut marks) => {
            let legal = job.legal(job.start().as_slice(), &mut marks);
            println!(rt; "legal {legal}")
        }
        Err(_) => rt.println("memory"),
    }
}
