//! Contiguity, decided by filling holes of a district.

ghost use Rattle.std.specs.Prelude.{◌≡◌, ◌<◌, ◌↔◌, ⊤, length, slice_index, IsTrue, MatchOption};
ghost use Rattle.audit_model.specs.District.{in_district};
ghost use Rattle.audit_model.specs.Local.{MayLeave};
ghost use Rattle.audit_model.specs.Path.{IsConnected};
ghost use Rattle.contig.specs.Counts.{AreCounts};

use audit_model::lists::UnitList;
use contig::counts::FaceCounts;
use contig::fill::decide_by_filling;
use contig::fillers::Fillers;
use contig::table::FaceTable;
use dual_graph::graph::Graph;
use dual_graph::member::Member;

/// The number of trials after which filling is judged.
const ROUND: u32 = 256;

/// The number of moves for which filling rests if it decided less than a quarter of the trials.
const REST: u32 = 4096;

/// The fillers of the districts, and how often filling was tried and has decided.
///
/// With few and large districts, filling decides too seldom to be worth its price. It then rests: all
/// lists of fillers are empty until enough moves are made.
#[derive(Drop)]
pub(crate) struct TriedFillers {
    fillers: Fillers,
    tried: u32,
    decided: u32,
    /// The number of moves for which filling still rests.
    rest: u32,
}

impl TriedFillers {
    pub(crate) fn new(fillers: Fillers) -> TriedFillers {
        TriedFillers {
            fillers,
            tried: 0,
            decided: 0,
            rest: 0,
        }
    }

    /// Empties all lists.
    pub(crate) fn clear(&mut self) {
        self.fillers.clear();
    }

    /// Returns the fillers of a district.
    #[inline]
    pub(crate) fn of(&self, district: u32) -> &[u32] {
        self.fillers.of(district)
    }

    /// Updates the lists after a unit has moved from `home` to another district.
    #[inline(always)]
    pub(crate) fn follow(
        &mut self,
        faces: &FaceTable,
        moved: Member,
        home: u32,
        counts: &FaceCounts,
    )
        requires { faces.now.graph ≡ moved.graph.now }
    {
        if self.rest > 0 {
            self.rest -= 1;
            return;
        }
        self.fillers.follow(faces, moved, home, counts);
    }

    /// Counts a trial. After each round of trials, filling rests if it decided too few of them.
    pub(crate) fn note(&mut self, decides: bool) {
        self.tried = self.tried.wrapping_add(1);
        self.decided = self.decided.wrapping_add(u32::from(decides));
        if self.tried < ROUND {
            return;
        }
        if self.decided < ROUND / 4 {
            self.fillers.clear();
            self.rest = REST;
        }
        self.tried = 0;
        self.decided = 0;
    }
}

/// Decides by filling holes of the unit's district if the unit may leave it. Returns `None` if
/// filling does not decide.
///
/// It takes the fields of the board one by one, so that the proof sees which of them change.
pub(crate) fn fill_holes(
    graph: &Graph,
    plan: &mut UnitList,
    unit: u32,
    faces: &FaceTable,
    counts: &FaceCounts,
    fillers: &[u32],
) -> Option<bool>
    requires made { faces.now.graph ≡ graph.now }
    requires width { length plan.old ≡ graph.now.units }
    requires unit { unit < graph.now.units }
    requires counts { AreCounts graph.now faces.now.faces (length counts.now.edges) plan.old counts.now }
    requires district { slice_index plan.old unit < length counts.now.edges }
    requires connected { IsConnected graph.now (in_district plan.old (slice_index plan.old unit)) }
    ensures plan { plan.new ≡ plan.old }
    ensures observed { MatchOption result ⊤ (λ may. IsTrue may ↔ MayLeave graph.now plan.old unit) }
{
    decide_by_filling(graph, plan.as_mut_slice(), unit, faces, counts, fillers)
}
