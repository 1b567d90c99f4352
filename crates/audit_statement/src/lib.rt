//! The definitions that the contract of the top call cites, beyond those of `audit_model`. This
//! crate has no code besides its laws.
//!
//! The modules of `specs/`:
//!
//! - What a call reads: `Words` (the arguments), `Reading` (a graph's JSON), `Regions`, `Table` and
//!   `Jobs` (several plans), `Origin`.
//! - What a call draws and writes: `Draw`, `Grid`, `Names`, `Report`, `Note` (the diagnostic),
//!   `Along` (the plans of each trajectory) and `Trace` (their text).
//! - What a run saves: `Checkpoint`, `Slots`, `InOrder` (the exact save attempts of a run), `Due`
//!   (the saves that a call may attempt at any moment), `Histories` (the slots after some save
//!   attempts).
//! - How a call ends: `World` (source, sinks and keeper), `Accepted` (the inputs that are not
//!   refused), `Status`, `Endings`, `Causes`, `Left` (what stays unchanged), `Headline` and `Early`
//!   (the output with status 0), `Visits`.
//! - The whole promise: `Promise` for one plan, `Several` for several plans, `Whole` for both,
//!   `Sure` if no call of the outside fails, `Rerun` and `Chain` for runs of one job one after the
//!   other.
//! - Plain runs, stated without the optional features: `Given` and `Valid` (a graph and its plans),
//!   `PlainArguments` (the arguments), `Plain` (the report), `Audited` and `PlainlyEnded` (the claim).
#![tactic(auto)]

pub mod laws;
