//! The digest of a job.
//!
//! The hashed bytes have one of six forms, each with its own name at the front. A later form was added with each group
//! of features, so that jobs without these features keep their digests.

ghost use Rattle.std.specs.Prelude.{◌≡◌, ◌<◌, ◌≤◌, flat_map, length, slice_index, true};
ghost use Rattle.std.specs.Int.{w32, w64, to_be_bytes};
ghost use Rattle.audit_model.specs.Below.{map_below};
ghost use Rattle.audit_model.specs.Graph.{IsGraph, count_edges};
ghost use Rattle.audit_model.specs.JobOf.{IsJob};
ghost use Rattle.audit_model.specs.Limits.{IsGroup};
ghost use Rattle.audit_statement.specs.Checkpoint as definition;
ghost use Rattle.audit_statement.specs.Checkpoint.{digest_name, edge_bytes, even_bytes, first_bytes, frozen_bytes, group_bytes, has_frozen, has_further_rules, has_group, has_lengths, has_newer_rules, has_rules, has_share, has_weight, length_bytes, limits_splits, member_bytes, region_bytes, rule_bytes, share_bytes, split_bytes, unit_bytes, score_code, tail_code, weight_bytes};
ghost use Rattle.ckpt_format.specs.Hashed.{Hashes, ask_bytes, counts_bytes, edges_from, setting_bytes};

use audit_model::lists::NumList;
use audit_model::rules::{Group, Rules};
use audit_model::setting::{Ask, Score, Setting, Tail};
use dual_graph::graph::Graph;
use plan_core::job::Job;
use sha2::{Digest, Sha256};

/// Returns the SHA-256 of everything that a job's outcomes depend on. Allocates nothing.
pub fn job_digest(job: &Job) -> [u8; 32]
    ensures { result ≡ definition.job_digest job.now }
{
    let mut hasher = Sha256::new();
    let rules = job.rules();
    let lengths = job.counts().lengths.as_slice();
    hash_first(&mut hasher, job.setting().cut_weight, lengths, rules);
    hash_counts(&mut hasher, job);
    hash_edges(&mut hasher, job.graph());
    hash_units(&mut hasher, job);
    hash_setting(&mut hasher, job.setting());
    hash_rules(&mut hasher, has_rules(rules), job.units(), rules);
    hash_lengths(&mut hasher, job.setting().max_length, lengths);
    hash_weight(&mut hasher, job.setting().cut_weight);
    hasher.finalize()
}

/// Hashes the name of the form: the sixth if cut edges have a weight, else the one that lengths and rules need.
fn hash_first(hasher: &mut Sha256, weight: u32, lengths: &[u32], rules: &Rules)
    ensures { Hashes hasher.old hasher.new (first_bytes (has_weight weight) (has_lengths lengths.now) rules.now) }
{
    if weight < 256 {
        hash_tag(hasher, "district-job 6");
    } else {
        hash_even(hasher, lengths, rules);
    }
}

/// Hashes the name of the form without a weight: the fifth if edges have lengths, else the one that the rules need.
fn hash_even(hasher: &mut Sha256, lengths: &[u32], rules: &Rules)
    ensures { Hashes hasher.old hasher.new (even_bytes (has_lengths lengths.now) rules.now) }
{
    if has_lengths(lengths) {
        hash_tag(hasher, "district-job 5");
        return;
    }
    let newer = has_newer_rules(rules);
    let name = name_of_form(has_rules(rules), has_further_rules(rules), newer);
    hash_tag(hasher, name);
}

/// Returns the name of the form that the rules need. The arguments are the results of `has_rules`, `has_further_rules`
/// and `has_newer_rules`.
fn name_of_form(limited: bool, further: bool, newer: bool) -> &'static str
    ensures { result.now ≡ digest_name limited further newer }
{
    if newer {
        return "district-job 4";
    }
    if further {
        return "district-job 3";
    }
    if limited {
        return "district-job 2";
    }
    "district-job 1"
}

/// Returns true if edges have lengths.
fn has_lengths(lengths: &[u32]) -> bool
    ensures { result ≡ has_lengths lengths.now }
{
    !lengths.is_empty()
}

/// Returns true if the rules limit the cut edges, or have regions, a group or frozen units. The digest then needs at
/// least its second form.
fn has_rules(rules: &Rules) -> bool
    ensures { result ≡ has_rules rules.now }
{
    rules.max_cut < 400_000 || rules.regions.len() != 0 || has_group(rules) || has_frozen(rules)
}

/// Returns true if the rules limit splits in all or split regions, or have a group. The digest then needs at least its
/// third form.
fn has_further_rules(rules: &Rules) -> bool
    ensures { result ≡ has_further_rules rules.now }
{
    limits_splits(rules) || has_group(rules)
}

/// Returns true if there are regions, and the splits in all or the split regions are limited.
fn limits_splits(rules: &Rules) -> bool
    ensures { result ≡ limits_splits rules.now }
{
    (rules.max_splits < 995_000 || rules.max_split_regions < 5_000) && rules.regions.len() != 0
}

fn has_group(rules: &Rules) -> bool
    ensures { result ≡ has_group rules.now }
{
    rules.group.members.len() != 0
}

/// Returns true if there is a group, and the share above which it has a majority is not one half.
fn has_share(rules: &Rules) -> bool
    ensures { result ≡ has_share rules.now }
{
    has_group(rules) && rules.group_share != 5_000
}

/// Returns true if the rules have a column of frozen units.
fn has_frozen(rules: &Rules) -> bool
    ensures { result ≡ has_frozen rules.now }
{
    rules.frozen.len() != 0
}

/// Returns true if the rules have a group with a share that is not one half, or a column of frozen units. The digest
/// then needs at least its fourth form.
fn has_newer_rules(rules: &Rules) -> bool
    ensures { result ≡ has_newer_rules rules.now }
{
    has_share(rules) || has_frozen(rules)
}

/// Hashes the numbers of units, edges and districts.
fn hash_counts(hasher: &mut Sha256, job: &Job)
    ensures bytes { Hashes hasher.old hasher.new (counts_bytes job.now.graph.units (count_edges job.now.graph (λ u v. true)) job.now.districts) }
    ensures sound { IsJob job.now }
{
    hash_u32(hasher, job.units());
    hash_u32(hasher, job.graph().edges());
    hash_u32(hasher, job.districts());
}

/// Hashes the two units of each edge, the smaller unit first.
fn hash_edges(hasher: &mut Sha256, graph: &Graph)
    ensures { Hashes hasher.old hasher.new (edge_bytes graph.now) }
{
    for unit in 0..graph.units() {
        hash_edges_from(hasher, graph, unit);
    }
}

/// Hashes the edges from a unit to its greater neighbors.
fn hash_edges_from(hasher: &mut Sha256, graph: &Graph, unit: u32)
    requires unit { unit < graph.now.units }
    requires sound { IsGraph graph.now }
    ensures { Hashes hasher.old hasher.new (edges_from graph.now unit) }
{
    for &near in graph.neighbours(unit) {
        if unit < near {
            hash_u32(hasher, unit);
            hash_u32(hasher, near);
        }
    }
}

/// Hashes the population, the votes and the start plan's district of each unit.
fn hash_units(hasher: &mut Sha256, job: &Job)
    ensures { Hashes hasher.old hasher.new (flat_map (unit_bytes job.now) (map_below job.now.graph.units (λ u. u))) }
{
    for unit in 0..job.units() {
        hash_unit(hasher, job, unit as usize);
    }
}

fn hash_unit(hasher: &mut Sha256, job: &Job, unit: usize)
    requires { unit < job.now.graph.units }
    ensures { Hashes hasher.old hasher.new (unit_bytes job.now unit) }
{
    let counts = job.counts();
    hash_number_at(hasher, &counts.population, unit);
    hash_number_at(hasher, &counts.first, unit);
    hash_number_at(hasher, &counts.second, unit);
    hash_u32(hasher, job.start().as_slice()[unit]);
}

/// Hashes the values of the setting on which outcomes depend.
fn hash_setting(hasher: &mut Sha256, setting: &Setting)
    requires { length setting.now.asks ≤ 4 }
    ensures { Hashes hasher.old hasher.new (setting_bytes setting.now) }
{
    hash_u32(hasher, setting.slack);
    hasher.update(setting.key);
    hash_u32(hasher, setting.walks);
    hash_u32(hasher, setting.steps);
    hash_u32(hasher, setting.ends);
    hash_u32(hasher, setting.hub_steps);
    hash_u32(hasher, setting.asks.len() as u32);
    hash_asks(hasher, setting.asks.as_slice());
}

/// Hashes the rules, if there are any beyond population and contiguity.
fn hash_rules(hasher: &mut Sha256, limited: bool, units: u32, rules: &Rules)
    requires group { IsGroup units rules.now.group }
    ensures { Hashes hasher.old hasher.new (rule_bytes limited units rules.now) }
{
    if limited {
        hash_u32(hasher, rules.max_cut);
        hash_regions(hasher, rules.max_split, rules.regions.as_slice());
        hash_splits(hasher, rules);
        hash_group(hasher, units, rules);
        hash_share(hasher, rules);
        hash_frozen(hasher, rules);
    }
}

/// Hashes the limit on the districts of one region, and the region of each unit, if there are regions.
fn hash_regions(hasher: &mut Sha256, max_split: u32, regions: &[u32])
    ensures { Hashes hasher.old hasher.new (region_bytes max_split regions.now) }
{
    if !regions.is_empty() {
        hash_u32(hasher, max_split);
        hash_numbers(hasher, regions);
    }
}

/// Hashes the limits on splits in all and on split regions, if one of them is set.
fn hash_splits(hasher: &mut Sha256, rules: &Rules)
    ensures { Hashes hasher.old hasher.new (split_bytes rules.now) }
{
    if limits_splits(rules) {
        hash_u32(hasher, rules.max_splits);
        hash_u32(hasher, rules.max_split_regions);
    }
}

/// Hashes the required number of districts with a majority, and the group, if there is a group.
fn hash_group(hasher: &mut Sha256, units: u32, rules: &Rules)
    requires { IsGroup units rules.now.group }
    ensures { Hashes hasher.old hasher.new (group_bytes units rules.now) }
{
    if has_group(rules) {
        hash_u32(hasher, rules.group_districts);
        hash_members(hasher, units, &rules.group);
    }
}

/// Hashes the group's size and its base population in each unit.
fn hash_members(hasher: &mut Sha256, units: u32, group: &Group)
    requires members { length group.now.members ≡ units }
    requires whole { length group.now.whole ≡ units }
    ensures { Hashes hasher.old hasher.new (flat_map (member_bytes group.now) (map_below units (λ u. u))) }
{
    for unit in 0..units {
        hash_number_at(hasher, &group.members, unit as usize);
        hash_number_at(hasher, &group.whole, unit as usize);
    }
}

/// Hashes a tag and the share above which the group has a majority, if there is a group and the share is
/// not one half.
fn hash_share(hasher: &mut Sha256, rules: &Rules)
    ensures { Hashes hasher.old hasher.new (share_bytes rules.now) }
{
    if has_share(rules) {
        hash_tag(hasher, "group-share");
        hash_u32(hasher, rules.group_share);
    }
}

/// Hashes the flag of each unit, if there is a column of frozen units.
fn hash_frozen(hasher: &mut Sha256, rules: &Rules)
    ensures { Hashes hasher.old hasher.new (frozen_bytes rules.now) }
{
    if has_frozen(rules) {
        hash_tag(hasher, "freeze");
        hash_numbers(hasher, rules.frozen.as_slice());
    }
}

/// Hashes the limit on the total length of cut edges, and the lengths, if edges have lengths.
fn hash_lengths(hasher: &mut Sha256, max_length: u64, lengths: &[u32])
    ensures { Hashes hasher.old hasher.new (length_bytes max_length lengths.now) }
{
    if has_lengths(lengths) {
        hash_tag(hasher, "length");
        hash_u64(hasher, max_length);
        hash_numbers(hasher, lengths);
    }
}

/// Hashes the weight on cut edges, if there is one.
fn hash_weight(hasher: &mut Sha256, weight: u32)
    ensures { Hashes hasher.old hasher.new (weight_bytes weight) }
{
    if weight < 256 {
        hash_u32(hasher, weight);
    }
}

/// Hashes the bytes of a text.
fn hash_tag(hasher: &mut Sha256, tag: &str)
    ensures { Hashes hasher.old hasher.new tag.now }
{
    hasher.update(tag);
}

/// Hashes numbers as four bytes each, big-endian.
fn hash_numbers(hasher: &mut Sha256, numbers: &[u32])
    ensures { Hashes hasher.old hasher.new (flat_map (to_be_bytes w32) numbers.now) }
{
    for number in numbers {
        hash_u32(hasher, *number);
    }
}

/// Hashes the number at an index as eight bytes, big-endian.
fn hash_number_at(hasher: &mut Sha256, numbers: &NumList, index: usize)
    requires { index < length numbers.now }
    ensures { Hashes hasher.old hasher.new (to_be_bytes w64 (slice_index numbers.now index)) }
{
    hash_u64(hasher, numbers.as_slice()[index]);
}

fn hash_asks(hasher: &mut Sha256, asks: &[Ask])
    ensures { Hashes hasher.old hasher.new (flat_map ask_bytes asks.now) }
{
    for ask in asks {
        hash_ask(hasher, *ask);
    }
}

fn hash_ask(hasher: &mut Sha256, ask: Ask)
    ensures { Hashes hasher.old hasher.new (ask_bytes ask) }
{
    hash_u32(hasher, score_code(ask.score));
    hash_u32(hasher, tail_code(ask.tail));
}

fn score_code(score: Score) -> u32
    ensures { result ≡ score_code score }
{
    match score {
        Score::Seats => 0,
        Score::MeanMedian => 1,
        Score::Gap => 2,
        Score::CutEdges => 3,
        Score::CutLength => 4,
    }
}

fn tail_code(tail: Tail) -> u32
    ensures { result ≡ tail_code tail }
{
    match tail {
        Tail::Low => 0,
        Tail::High => 1,
    }
}

fn hash_u32(hasher: &mut Sha256, number: u32)
    ensures { Hashes hasher.old hasher.new (to_be_bytes w32 number) }
{
    hasher.update(number.to_be_bytes());
}

fn hash_u64(hasher: &mut Sha256, number: u64)
    ensures { Hashes hasher.old hasher.new (to_be_bytes w64 number) }
{
    hasher.update(number.to_be_bytes());
}
