//! The parts of a new board, at the start plan of a job.

ghost use Rattle.std.specs.Prelude.{◌≡◌, IfOk};
ghost use Rattle.contig.specs.Counts.{AreCounts};
ghost use Rattle.flip_kernel.specs.ChainState.{IsSummed};
ghost use Rattle.flip_kernel.specs.Nearby.{CountsNeighbors};
ghost use Rattle.flip_kernel.specs.OpenPairs.{MarksWithoutCounts};

use crate::nearby::NeighborCounts;
use crate::open_pairs::OpenPairs;
use audit_model::lists::UnitList;
use audit_model::memory::Memory;
use contig::counts::FaceCounts;
use contig::fillers::Fillers;
use contig::table::FaceTable;
use district_sums::sums::Sums;
use dual_graph::graph::Graph;
use dual_graph::marks::Marks;
use face_choice::{FaceChoice, candidates_of};
use plan_core::job::Job;
use std::alloc::Global;

/// Adds up the sums of a job's start plan.
fn sums_of(alloc: Global, job: &Job) -> Result<Sums, Memory>
    ensures { IfOk result (λ s. IsSummed job.now job.now.start s) }
{
    Sums::of(
        alloc,
        job.graph(),
        job.counts(),
        job.districts(),
        job.start().as_slice(),
    )
}

/// Copies the start plan of a job, and adds up its sums.
pub(crate) fn start_of(alloc: Global, job: &Job) -> Result<(UnitList, Sums), Memory>
    ensures plan { IfOk result (λ s. s.0 ≡ job.now.start) }
    ensures summed { IfOk result (λ s. IsSummed job.now job.now.start s.1) }
{
    let sums = sums_of(alloc, job)?;
    match job.start().copy() {
        Ok(plan) => Ok((plan, sums)),
        Err(_) => {
            drop(sums);
            Err(Memory)
        }
    }
}

/// Counts the neighbors of each unit by district.
fn neighbors_of(alloc: Global, job: &Job) -> Result<NeighborCounts, Memory>
    ensures { IfOk result (λ near. CountsNeighbors job.now.graph job.now.start job.now.districts near) }
{
    let districts = job.districts();
    let mut near = NeighborCounts::zeros(alloc, job.graph(), districts)?;
    near.refill(job.graph(), job.start().as_slice(), districts);
    Ok(near)
}

/// Finds the open pairs if the table of `near` is empty.
fn open_pairs_of(alloc: Global, job: &Job, near: &NeighborCounts) -> Result<OpenPairs, Memory>
    ensures { IfOk result (λ pairs. MarksWithoutCounts job.now.graph job.now.start job.now.districts near.now pairs) }
{
    let districts = job.districts();
    let mut open_pairs = OpenPairs::new(alloc, job.units(), districts, near)?;
    open_pairs.refill(job.graph(), job.start().as_slice(), districts, near);
    Ok(open_pairs)
}

fn pairs_of(alloc: Global, job: &Job) -> Result<(NeighborCounts, OpenPairs), Memory>
    ensures near { IfOk result (λ p. CountsNeighbors job.now.graph job.now.start job.now.districts p.0) }
    ensures opened { IfOk result (λ p. MarksWithoutCounts job.now.graph job.now.start job.now.districts p.0 p.1) }
{
    let near = neighbors_of(alloc, job)?;
    match open_pairs_of(alloc, job, &near) {
        Ok(open_pairs) => Ok((near, open_pairs)),
        Err(_) => {
            drop(near);
            Err(Memory)
        }
    }
}

/// Chooses candidates for the faces of a graph, and stores those that are faces.
fn find_faces(alloc: Global, graph: &Graph) -> Result<FaceTable, Memory>
    ensures { IfOk result (λ t. t.graph ≡ graph.now) }
{
    let FaceChoice { short, long } = candidates_of(alloc, graph)?;
    FaceTable::of(alloc, graph, short, &long)
}

/// Finds the faces of a job's graph, and counts those of its start plan.
fn faces_of(alloc: Global, job: &Job) -> Result<(FaceTable, FaceCounts), Memory>
    ensures made { IfOk result (λ f. f.0.graph ≡ job.now.graph) }
    ensures counts { IfOk result (λ f. AreCounts job.now.graph f.0.faces job.now.districts job.now.start f.1) }
{
    let graph = job.graph();
    let plan = job.start().as_slice();
    let faces = find_faces(alloc, graph)?;
    match FaceCounts::new(alloc, graph, &faces, job.districts(), plan) {
        Ok(counts) => Ok((faces, counts)),
        Err(_) => {
            drop(faces);
            Err(Memory)
        }
    }
}

/// Finds the faces of a job's graph, counts those of its start plan, and creates the lists of fillers.
fn contiguity_of(alloc: Global, job: &Job) -> Result<(FaceTable, FaceCounts, Fillers), Memory>
    ensures made { IfOk result (λ f. f.0.graph ≡ job.now.graph) }
    ensures counts { IfOk result (λ f. AreCounts job.now.graph f.0.faces job.now.districts job.now.start f.1) }
{
    let (faces, counts) = faces_of(alloc, job)?;
    match Fillers::new(alloc, job.graph(), &faces, job.districts()) {
        Ok(fillers) => Ok((faces, counts, fillers)),
        Err(_) => {
            drop(faces);
            drop(counts);
            Err(Memory)
        }
    }
}

// Allocates the marks of a search, and the tables of pairs.
fn marks_of(alloc: Global, job: &Job) -> Result<(Marks, NeighborCounts, OpenPairs), Memory>
    ensures marked { IfOk result (λ m. m.0.units ≡ job.now.graph.units) }
    ensures near { IfOk result (λ m. CountsNeighbors job.now.graph job.now.start job.now.districts m.1) }
    ensures opened { IfOk result (λ m. MarksWithoutCounts job.now.graph job.now.start job.now.districts m.1 m.2) }
{
    let marks = Marks::new(alloc, job.units())?;
    match pairs_of(alloc, job) {
        Ok((near, open_pairs)) => Ok((marks, near, open_pairs)),
        Err(_) => {
            drop(marks);
            Err(Memory)
        }
    }
}

/// Allocates the marks of a search, the tables of pairs, the faces with their counts, and the lists of fillers.
pub(crate) fn tables_of(
    alloc: Global,
    job: &Job,
) -> Result<
    (
        Marks,
        NeighborCounts,
        OpenPairs,
        FaceTable,
        FaceCounts,
        Fillers,
    ),
    Memory,
>
    ensures marked { IfOk result (λ t. t.0.units ≡ job.now.graph.units) }
    ensures near { IfOk result (λ t. CountsNeighbors job.now.graph job.now.start job.now.districts t.1) }
    ensures opened { IfOk result (λ t. MarksWithoutCounts job.now.graph job.now.start job.now.districts t.1 t.2) }
    ensures made { IfOk result (λ t. t.3.graph ≡ job.now.graph) }
    ensures counts { IfOk result (λ t. AreCounts job.now.graph t.3.faces job.now.districts job.now.start t.4) }
{
    let (marks, near, open_pairs) = marks_of(alloc, job)?;
    match contiguity_of(alloc, job) {
        Ok((faces, counts, fillers)) => Ok((marks, near, open_pairs, faces, counts, fillers)),
        Err(_) => {
            drop(marks);
            drop(near);
            drop(open_pairs);
            Err(Memory)
        }
    }
}
