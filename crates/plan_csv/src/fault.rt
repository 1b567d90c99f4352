//! Conversions of the faults of graph, regions, table and plans to [`PlansFault`]. Their `Memory`
//! variants all become `PlansFault::Memory`.

ghost use Rattle.std.specs.Prelude.{◌≡◌};
ghost use Rattle.plan_csv.specs.Refusals.{graph_end, region_end, table_end, plan_end, named_end};

use audit_model::fault::{GraphFault, PlanFault, PlansFault, RegionFault, TableFault};
use audit_model::text::Text;

/// Converts a fault of the graph.
pub fn of_graph(fault: GraphFault) -> PlansFault
    ensures { result ≡ graph_end fault }
{
    match fault {
        GraphFault::Memory => PlansFault::Memory,
        fault => PlansFault::Graph(fault),
    }
}

/// Converts a fault of the regions.
pub fn of_regions(fault: RegionFault) -> PlansFault
    ensures { result ≡ region_end fault }
{
    match fault {
        RegionFault::Memory => PlansFault::Memory,
        fault => PlansFault::Regions(fault),
    }
}

/// Converts a fault of the table.
pub fn of_table(fault: TableFault) -> PlansFault
    ensures { result ≡ table_end fault }
{
    match fault {
        TableFault::Memory => PlansFault::Memory,
        fault => PlansFault::Table(fault),
    }
}

/// Converts a fault of the graph's own plan.
pub fn of_own(fault: PlanFault) -> PlansFault
    ensures { result ≡ plan_end fault }
{
    match fault {
        PlanFault::Memory => PlansFault::Memory,
        fault => PlansFault::Own(fault),
    }
}

/// Converts a fault of the plan with this name.
pub fn of_other(name: Text, fault: PlanFault) -> PlansFault
    ensures { result ≡ named_end name fault }
{
    match fault {
        PlanFault::Memory => PlansFault::Memory,
        fault => PlansFault::Other(name, fault),
    }
}
