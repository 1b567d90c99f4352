//! Faces of the graph of a job, units that may leave their districts, and units that may fill holes.

ghost use Rattle.std.specs.Prelude.{◌≡◌, ◌<◌, length};

use audit_model::memory::Memory;
use audit_model::steps::Steps;
use contig::face::{Candidate, Face};
use contig::fillers::Fillers;
use contig::leave::{local_holds, may_leave, search_holds};
use contig::list::{FaceList, list_faces};
use contig::long::{LongFaces, list_long};
use contig::table::FaceTable;
use dual_graph::graph::Graph;
use dual_graph::marks::Marks;
use dual_graph::member::Member;
use face_choice::{FaceChoice, candidates_of};
use plan_core::job::Job;
use std::alloc::Global;
use std::io;
use std::marker::Brand;
use std::sync::ledger::{Blank, Ledger};

fn show_count(rt: &HostRuntime, faces: &FaceList) -> io::Result<()> {
    println!(rt; "faces {}", faces.faces().len())
}

// Lists the faces that are kept of those that `face_choice` chooses.
fn find_faces(alloc: Global, graph: &Graph) -> Result<FaceList, Memory> {
    let FaceChoice { short, long } = candidates_of(alloc, graph)?;
    let long = list_long(alloc, graph, &long)?;
    list_faces(alloc, graph, short, &long)
}

/// Prints the numbers of units, edges, districts and faces of a job.
pub fn show_faces(rt: &HostRuntime, job: &Job) -> io::Result<()> {
    let graph = job.graph();
    print!(rt; "units {} edges {} ", graph.units(), graph.edges())?;
    print!(rt; "districts {} ", job.districts())?;
    match find_faces(rt.alloc(), graph) {
        Ok(faces) => show_count(rt, &faces),
        Err(_) => rt.println("memory"),
    }
}

// Lists the rings that are kept as faces without spares.
fn kept_faces(alloc: Global, graph: &Graph, rings: &[Face]) -> Result<FaceList, Memory> {
    let mut candidates = Vec::new(alloc);
    for ring in rings {
        candidates.push(Candidate {
            ring: *ring,
            spare: None,
        })?;
    }
    list_faces(alloc, graph, candidates, &LongFaces::none(alloc))
}

/// Prints how many of the listed faces are kept in a graph.
pub fn show_kept(rt: &HostRuntime, graph: &Graph, listed: &[Face]) -> io::Result<()> {
    match kept_faces(rt.alloc(), graph, listed) {
        Ok(faces) => show_count(rt, &faces),
        Err(_) => rt.println("memory"),
    }
}

// Prints the answers of the three tests: by the neighbors (`local`), by a search, and by both.
fn show_tests<L: Ledger>(
    rt: &HostRuntime,
    graph: &Graph,
    plan: &[u32],
    unit: u32,
    marks: &mut Marks,
    blank: Blank,
) -> io::Result<()>
    requires plan { length plan.now ≡ graph.now.units }
    requires unit { unit < graph.now.units }
    requires marks { marks.old.units ≡ graph.now.units }
    requires name { blank.name ≡ L.name }
    requires parts { blank.parts ≡ L.parts }
    requires some { 0 < L.parts }
{
    let mut steps: Steps<L> = Steps::new(blank);
    let local = local_holds(graph, plan, unit, marks);
    let search = search_holds(graph, plan, unit, marks, &mut steps);
    let leaves = may_leave(graph, plan, unit, marks, &mut steps);
    println!(rt; "unit {unit} local {local} search {search} leaves {leaves}")
}

/// Prints whether a unit may leave its district in this plan. Refuses a plan that does not fit the graph.
pub fn show_leaving(rt: &HostRuntime, graph: &Graph, plan: &[u32], unit: u32) -> io::Result<()> {
    let units = graph.units();
    if plan.len() != units as usize || unit >= units {
        return rt.println("no such unit");
    }
    match Marks::new(rt.alloc(), units) {
        Ok(mut marks) => { show_tests::<Brand>(rt, graph, plan, unit, &mut marks, Blank::new(1)) }
        Err(_) => rt.println("memory"),
    }
}

// Lists fillers after a unit has moved from district 1 to district 0 and a face went missing there.
fn fillers_of(alloc: Global, moved: Member) -> Result<Fillers, Memory> {
    let FaceChoice { short, long } = candidates_of(alloc, moved.graph)?;
    let table = FaceTable::of(alloc, moved.graph, short, &long)?;
    let mut fillers = Fillers::new(alloc, moved.graph, &table, 2)?;
    fillers.update(&table, moved, 1, (0, 1));
    Ok(fillers)
}

fn show_list(rt: &HostRuntime, fillers: &Fillers) -> io::Result<()> {
    print!(rt; "fillers")?;
    for unit in fillers.of(0) {
        print!(rt; " {unit}")?;
    }
    rt.println("")
}

/// Prints the fillers of district 0 after a unit has joined it, in a plan of two districts, and what is left of them
/// after all are removed. Refuses a plan that does not fit the graph.
pub fn show_fillers(rt: &HostRuntime, graph: &Graph, plan: &[u32], unit: u32) -> io::Result<()> {
    let units = graph.units();
    if plan.len() != units as usize || unit >= units {
        return rt.println("no such unit");
    }
    match fillers_of(rt.alloc(), graph.member(plan, unit)) {
        Ok(mut fillers) => {
            show_list(rt, &fillers)?;
            fillers.clear();
            show_list(rt, &fillers)
        }
        Err(_) => rt.println("memory"),
    }
}
