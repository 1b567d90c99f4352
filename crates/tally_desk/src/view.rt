//! A pass at a desk as proofs know it (`DeskView`), and the values that a desk was made with (`DeskArguments`).

use audit_model::lists::UnitList;
use audit_model::place::Place;
use outcome_book::book::Book;
use plan_core::job::Job;
use std::marker::Model;
use std::snapshot::Snapshot;

/// The claims, the posts and the turn of a pass, as proofs know them. No value is ever made at run time.
pub struct DeskView {
    nothing: (),
}

impl Model for DeskView {
    ghost use Rattle.tally_desk.specs.Views.{PassView, spent_view};

    ghost Value = { PassView };

    ghost view = { λ _. spent_view };
}

/// The arguments with which a desk was made, as proofs know them.
#[derive(Drop)]
pub struct DeskArguments<C> {
    pub(crate) job: Snapshot<Job>,
    pub(crate) book: Snapshot<Book>,
    pub(crate) todo: Snapshot<UnitList>,
    pub(crate) save_every: u32,
    pub(crate) seats: u32,
    pub(crate) place: Place,
    pub(crate) keeper: Snapshot<C>,
}
