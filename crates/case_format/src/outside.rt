//! The source, the sinks and the gate of a run.

use crate::gate::CaseGate;
use crate::setups::Setup;
use crate::slots::{bytes_of, failing};
use audit_io::mem_sink::MemSink;
use audit_io::mem_source::MemSource;
use audit_model::memory::Memory;
use std::alloc::Global;
use std::test::Fail;

/// The capacity of each sink.
const ROOM: usize = 9000;

/// The source of a run, the sinks of its output and its diagnostic, and its gate.
pub struct Outside {
    pub source: MemSource,
    pub out: MemSink,
    pub note: MemSink,
    pub gate: CaseGate,
}

// Written by hand, so that the proof of a function that drops it has one step for all fields.
impl Drop for Outside {
    fn drop(self) {
        let Outside {
            source: _source,
            out: _out,
            note: _note,
            gate: _gate,
        } = self;
    }
}

fn source_of(alloc: Global, setup: &Setup<'_>, graph: &[u8]) -> Result<MemSource, Memory> {
    let bytes = bytes_of(alloc, graph)?;
    let fails = failing(alloc, setup.failing_read)?;
    Ok(MemSource::new(bytes, setup.most.max(1) as usize, fails))
}

// Makes a sink whose write with this number fails, or none for 0.
fn sink_of(alloc: Global, most: u64, number: u64) -> Result<MemSink, Memory> {
    let fails = failing(alloc, number)?;
    MemSink::new(alloc, ROOM, most.max(1) as usize, fails)
}

/// Makes the outside of a run over this graph.
pub fn outside_of(rt: &HostRuntime, setup: &Setup<'_>, graph: &[u8]) -> Result<Outside, Fail> {
    let source = source_of(rt.alloc(), setup, graph)?;
    let out = sink_of(rt.alloc(), setup.most, setup.failing_write)?;
    let note = sink_of(rt.alloc(), setup.most, 0)?;
    let gate = CaseGate::new(rt, setup.held, setup.wanted)?;
    Ok(Outside {
        source,
        out,
        note,
        gate,
    })
}
