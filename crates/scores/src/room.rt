//! Buffers to score one plan after another.

ghost use Rattle.std.specs.Prelude.{◌≡◌, ◌^◌, ◌<◌, false, length, pos};
ghost use Rattle.audit_model.specs.Score as definition;
ghost use Rattle.scores.specs.Known.{IsReady};
ghost use Rattle.scores.specs.Votes.{AreVotes};

use crate::last_plan::LastPlan;
use crate::{efficiency_gap, seats};
use audit_model::outcome::SumsView;
use audit_model::setting::Score;
use std::marker::Model;

/// Buffers for scoring. They keep the last plan's votes and scores, because one step of a trajectory
/// changes at most two districts.
///
/// `fresh` is true if the last plan is the current one. `keeps` becomes true with the first
/// mean-median score. A job that never asks for one counts seats and wasted votes anew for each
/// plan: that is cheaper than a search for the changed districts.
#[derive(Drop)]
pub struct Room {
    last: LastPlan,
    changed: [u8; 200],
    fresh: bool,
    keeps: bool,
}

impl Model for Room {
    ghost use Rattle.scores.specs.Known.{Remembered};

    ghost Value = { Remembered };

    ghost view = { λ r. record { fresh = r.fresh; votes = r.last } };
}

impl Room {
    /// Makes buffers that know no plan.
    pub fn new() -> Room
        ensures { result.fresh ≡ false }
    {
        Room {
            last: LastPlan::new(),
            changed: [0; 200],
            fresh: false,
            keeps: false,
        }
    }

    /// Returns the numerator of a plan's score, as [`crate::value`] does.
    pub fn value(&mut self, score: Score, sums: &SumsView) -> i64
        requires votes { AreVotes sums.now.first sums.now.second }
        requires short { sums.now.length < 2 ^ 63 }
        ensures { result ≡ definition.value score sums.now }
    {
        self.forget_plan();
        self.read_value(score, sums)
    }

    /// Forgets which plan is the current one. Call this before the first score of another plan.
    #[inline]
    pub fn forget_plan(&mut self)
        ensures { self.new.fresh ≡ false }
    {
        self.fresh = false;
    }

    /// Returns the numerator of the current plan's score, as [`Room::value`] does. All scores of one
    /// plan take one comparison with the last plan's votes.
    #[inline]
    pub fn read_value(&mut self, score: Score, sums: &SumsView) -> i64
        requires votes { AreVotes sums.now.first sums.now.second }
        requires short { sums.now.length < 2 ^ 63 }
        requires ready { IsReady self.old sums.now }
        ensures value { result ≡ definition.value score sums.now }
        ensures ready { IsReady self.new sums.now }
    {
        match score {
            Score::Seats => self.read_seats(sums),
            Score::MeanMedian => self.read_mean_median(sums),
            Score::Gap => self.read_gap(sums),
            Score::CutEdges => i64::from(sums.cut),
            Score::CutLength => sums.length as i64,
        }
    }

    // Makes the current plan the last one.
    #[inline]
    fn refresh(&mut self, sums: &SumsView)
        requires votes { AreVotes sums.now.first sums.now.second }
        requires ready { IsReady self.old sums.now }
        ensures first { self.new.votes.first ≡ sums.now.first }
        ensures second { self.new.votes.second ≡ sums.now.second }
    {
        if !self.fresh {
            self.last.update(sums, &mut self.changed);
            self.fresh = true;
        }
    }

    #[inline(never)]
    fn read_seats(&mut self, sums: &SumsView) -> i64
        requires votes { AreVotes sums.now.first sums.now.second }
        requires ready { IsReady self.old sums.now }
        ensures value { result ≡ pos (definition.seats sums.now) }
        ensures ready { IsReady self.new sums.now }
    {
        if !self.keeps {
            return i64::from(seats(sums));
        }
        self.refresh(sums);
        i64::from(self.last.seats())
    }

    #[inline(never)]
    fn read_gap(&mut self, sums: &SumsView) -> i64
        requires votes { AreVotes sums.now.first sums.now.second }
        requires ready { IsReady self.old sums.now }
        ensures value { result ≡ definition.efficiency_gap sums.now }
        ensures ready { IsReady self.new sums.now }
    {
        if !self.keeps {
            return efficiency_gap(sums);
        }
        self.refresh(sums);
        self.last.gap()
    }

    #[inline(never)]
    fn read_mean_median(&mut self, sums: &SumsView) -> i64
        requires votes { AreVotes sums.now.first sums.now.second }
        requires ready { IsReady self.old sums.now }
        ensures value { result ≡ definition.mean_median (definition.shares sums.now) }
        ensures ready { IsReady self.new sums.now }
    {
        self.keeps = true;
        self.refresh(sums);
        self.last.mean_median()
    }
}
