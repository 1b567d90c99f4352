//! The search for two units that show that a district is not connected.

ghost use Rattle.std.specs.Prelude.{◌≡◌, length};
ghost use Rattle.audit_model.specs.District.{in_district};
ghost use Rattle.dual_graph.specs.DisconnectedPair.{disconnected_pair_of};

use dual_graph::graph::Graph;
use dual_graph::inside::Inside;
use dual_graph::marks::Marks;

/// The set of a district's units in a plan.
#[derive(Drop)]
struct District<'a> {
    plan: &'a [u32],
    district: u32,
}

impl Inside for District<'_> {
    ghost use Rattle.std.specs.Prelude.{length};
    ghost use Rattle.audit_model.specs.District.{in_district};

    ghost units = { λ d. length d.plan.now };

    ghost inside = { λ d. in_district d.plan.now d.district };

    #[inline]
    fn holds(&self, unit: u32) -> bool {
        self.plan[unit as usize] == self.district
    }
}

/// Returns two units of a district that no path within the district connects, or `None` if the
/// district is connected.
///
/// The first is the district's least unit, and the second the least unit that no such path connects
/// to the first. For an empty district, which does not count as connected, the result is `(0, 0)`.
pub fn find_disconnected_pair(
    graph: &Graph,
    plan: &[u32],
    district: u32,
    marks: &mut Marks,
) -> Option<(u32, u32)>
    requires plan { length plan.now ≡ graph.now.units }
    requires units { marks.old.units ≡ graph.now.units }
    ensures units { marks.new.units ≡ graph.now.units }
    ensures find_disconnected_pair { result ≡ disconnected_pair_of graph.now (in_district plan.now district) }
{
    dual_graph::search::find_disconnected_pair(graph, &District { plan, district }, marks)
}
