//! The two parts of the input: graph and table.

ghost use Rattle.std.specs.Prelude.{◌≡◌, ◌==◌, position};
ghost use Rattle.audit_statement.specs.Table as table;

/// The bytes of the graph, and those of the table that follows it.
#[derive(Clone, Copy)]
pub struct Parts<'b> {
    pub graph: &'b [u8],
    pub table: &'b [u8],
}

fn line_feed(bytes: &[u8]) -> Option<usize>
    ensures { result ≡ position (λ c. c == 10) bytes.now }
{
    bytes.iter().position(|c| *c == b'\n')
}

/// Splits the bytes at the first line feed, which is in neither part. Without a line feed, all
/// bytes are the graph.
pub fn parts_of(bytes: &[u8]) -> Parts<'_>
    ensures graph { result.graph.now ≡ table.graph_part bytes.now }
    ensures table { result.table.now ≡ table.table_part bytes.now }
{
    match line_feed(bytes) {
        Some(place) => Parts {
            graph: &bytes[..place],
            table: &bytes[place + 1..],
        },
        None => Parts {
            graph: bytes,
            table: &[],
        },
    }
}
