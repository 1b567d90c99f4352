//! Laws of the definitions. Each law is the contract of a function with an empty body.

ghost use Rattle.audit_model.specs.Local.{IsSimple};
ghost use Rattle.audit_statement.specs.Reading.{Document, graph};

/// Shows that adjacency is symmetric, and that no unit is adjacent to itself.
pub fn graphs_are_simple()
    ensures { (d : Document) → IsSimple (graph d) }
{}
