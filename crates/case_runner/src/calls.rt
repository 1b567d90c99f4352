//! Public calls on jobs.

use crate::flips::{show_flips, show_legal};
use crate::graphs::{show_faces, show_fillers, show_kept, show_leaving};
use audit_io::sure::SureSource;
use audit_start::prepare::prepare;
use case_format::{begin_case, bytes_of, words_of};
use contig::face::Face;
use plan_core::job::Job;
use std::test::Fail;
use std::{fs, io};

/// The fact to print about a job.
#[derive(Clone, Copy)]
enum Call {
    /// The numbers of its units, edges, districts and faces.
    Faces,
    /// The number of listed faces that are kept in its graph: `FACES` or `PENTAGONS`.
    KeptFaces,
    KeptPentagons,
    /// The answers of the tests that a unit may leave its district in a plan.
    Leaving(&'static [u32], u32),
    /// The units that may fill holes after a unit has joined district 0.
    Fillers(&'static [u32], u32),
    /// The legality of its start plan.
    Legal,
    /// A mirrored draw, and the counts of a walk.
    Flips,
}

/// A square and a triangle that share a side: the square twice, the triangle twice, and a ring that is no face. Each
/// face is kept once.
const FACES: [Face; 5] = [
    Face::Square(0, 1, 3, 2),
    Face::Square(0, 1, 3, 2),
    Face::Triangle(2, 3, 4),
    Face::Triangle(4, 2, 3),
    Face::Triangle(0, 1, 3),
];

/// In a ring of five units with a chord: a pentagon, which is kept once, whichever unit comes first; rings with a unit
/// twice or with a side that is no edge, which are not kept; and a triangle.
const PENTAGONS: [Face; 5] = [
    Face::Pentagon(0, 1, 2, 3, 4),
    Face::Pentagon(2, 3, 4, 0, 1),
    Face::Pentagon(0, 2, 1, 4, 3),
    Face::Pentagon(2, 0, 1, 2, 3),
    Face::Triangle(0, 2, 1),
];

/// The arguments of a job of a file.
const PLAIN: &str =
    "run --pop pop --first a --second b --district district --slack 5000 --key 0000000000000000000000000000000000000000000000000000000000000000 --ask gap:low";

/// The arguments of jobs of grids of 900 and 90,000 units in ten districts.
const GRID: &str =
    "make --size 3 --slack 5000 --key 0000000000000000000000000000000000000000000000000000000000000000 --ask gap:low";

const LARGEST_GRID: &str =
    "make --size 30 --key 0000000000000000000000000000000000000000000000000000000000000000 --ask gap:low";

fn show_call(rt: &HostRuntime, job: &Job, call: Call) -> io::Result<()> {
    match call {
        Call::Faces => show_faces(rt, job),
        Call::KeptFaces => show_kept(rt, job.graph(), &FACES),
        Call::KeptPentagons => show_kept(rt, job.graph(), &PENTAGONS),
        Call::Leaving(plan, unit) => show_leaving(rt, job.graph(), plan, unit),
        Call::Fillers(plan, unit) => show_fillers(rt, job.graph(), plan, unit),
        Call::Legal => show_legal(rt, job),
        Call::Flips => show_flips(rt, job),
    }
}

fn show_job(
    rt: &HostRuntime,
    words: &[String],
    source: &mut SureSource,
    call: Call,
) -> io::Result<()> {
    match prepare(rt.alloc(), words, source) {
        Ok(job) => {
            let shown = show_call(rt, &job, call);
            drop(job);
            shown
        }
        Err(ended) => {
            drop(ended);
            rt.println("no job")
        }
    }
}

fn show_by(rt: &HostRuntime, file: &str, words: &str, call: Call) -> Result<(), Fail> {
    let words = words_of(rt.alloc(), words.split_whitespace())?;
    let graph = fs::read(rt, file)?;
    let mut source = SureSource::new(bytes_of(rt.alloc(), graph.as_slice())?);
    show_job(rt, words.as_slice(), &mut source, call)?;
    Ok(())
}

// Makes a call on the job of a file.
fn show_case(rt: &HostRuntime, name: &str, file: &str, call: Call) -> Result<(), Fail> {
    begin_case(rt, name)?;
    show_by(rt, file, PLAIN, call)
}

// Makes a call on the job of a grid.
fn show_grid(rt: &HostRuntime, name: &str, words: &str, call: Call) -> Result<(), Fail> {
    begin_case(rt, name)?;
    show_by(rt, "path.json", words, call)
}

fn show_each_faces(rt: &HostRuntime) -> Result<(), Fail> {
    // A triangle that shares each side with a triangle of a smaller unit. The inner triangle is found too.
    show_case(rt, "faces_of_small_graphs", "amid_three.json", Call::Faces)?;
    // A unit with five others around it, of which the last and the first are not adjacent. The four triangles are found
    // although the unit has more than four neighbors.
    show_case(rt, "faces_of_a_fan", "fan.json", Call::Faces)?;
    show_case(
        rt,
        "faces_kept_of_a_list",
        "square_and_triangle.json",
        Call::KeptFaces,
    )?;
    show_grid(rt, "faces_of_largest_grid", LARGEST_GRID, Call::Faces)?;
    // An empty ring of five units: one pentagon.
    show_case(
        rt,
        "pentagons_of_small_graphs",
        "ring_of_five.json",
        Call::Faces,
    )?;
    // Five units around a sixth, to which one of the five is not adjacent: three triangles and a square, but not the
    // outer ring.
    show_case(rt, "pentagons_round_a_hub", "round_hub.json", Call::Faces)?;
    // A ring of five units with a triangle on one side.
    show_case(rt, "pentagons_of_a_house", "house.json", Call::Faces)?;
    show_case(
        rt,
        "pentagons_kept_of_a_list",
        "ring_with_chord.json",
        Call::KeptPentagons,
    )
}

fn show_each_leaving(rt: &HostRuntime) -> Result<(), Fail> {
    // A ring of six units, and a neighbor of unit 0 in another district. Then unit 0 is alone in its district.
    let ring = "ring_and_one.json";
    show_case(
        rt,
        "leaving_a_ring",
        ring,
        Call::Leaving(&[0, 0, 0, 0, 0, 0, 1], 0),
    )?;
    show_case(
        rt,
        "leaving_a_district_of_one",
        ring,
        Call::Leaving(&[0, 1, 1, 1, 1, 1, 1], 0),
    )?;
    show_case(
        rt,
        "leaving_a_row",
        "row.json",
        Call::Leaving(&[0, 0, 0], 1),
    )?;
    // Two rows of three. The neighbors of the last unit are not adjacent, so only the search decides.
    show_case(
        rt,
        "leaving_a_grid",
        "two_rows.json",
        Call::Leaving(&[1, 0, 0, 0, 0, 0], 5),
    )?;
    // A triangle with a neighbor of unit 0 in another district. The two other neighbors are adjacent, so no search is
    // needed.
    show_case(
        rt,
        "leaving_a_triangle",
        "triangle_and_one.json",
        Call::Leaving(&[0, 0, 0, 1], 0),
    )
}

fn show_each_fillers(rt: &HostRuntime) -> Result<(), Fail> {
    // Five units around a sixth, which alone is in another district. It fills the hole.
    show_case(
        rt,
        "fillers_of_a_hole",
        "round_hub.json",
        Call::Fillers(&[0, 0, 0, 0, 0, 1], 2),
    )?;
    // A row of three. The district of the first two units encloses the last one.
    show_case(
        rt,
        "fillers_at_an_end",
        "row.json",
        Call::Fillers(&[0, 0, 1], 1),
    )
}

/// Makes each call and prints its answer.
pub fn show_calls(rt: &HostRuntime) -> Result<(), Fail> {
    show_each_faces(rt)?;
    show_each_leaving(rt)?;
    show_each_fillers(rt)?;
    show_case(rt, "start_plan_is_legal", "four_in_a_row.json", Call::Legal)?;
    show_case(rt, "flips_on_a_path", "four_in_a_row.json", Call::Flips)?;
    // The district of the ring has a hole, so the kernel needs searches.
    show_case(rt, "flips_on_a_ring", "ring_and_one.json", Call::Flips)?;
    show_grid(rt, "flips_on_a_grid", GRID, Call::Flips)
}
