//! The line of each argument in the usage of a command.

ghost use Rattle.std.specs.Prelude.{◌≡◌};
ghost use Rattle.audit_words.specs.Arguments as definition;

use audit_model::fault::Name;

/// Returns the line of an argument, without its line feed: its name, values, default and purpose.
pub fn argument_text(name: Name) -> &'static str
    ensures { result.now ≡ definition.argument_text name }
{
    match name {
        Name::Pop => {
            "  --pop               COLUMN          required       the column of populations"
        }
        Name::First => {
            "  --first             COLUMN          required       the column of the first party's votes"
        }
        Name::Second => {
            "  --second            COLUMN          required       the column of the second party's votes"
        }
        Name::District => {
            "  --district          COLUMN          required       the column of districts: the plan"
        }
        Name::Size => {
            "  --size              1 to 30         required       the size of the grid"
        }
        Name::Slack => {
            "  --slack             0 to 10000      default 500    population slack, in hundredths of a percent"
        }
        Name::Key => { "  --key               64 hex digits   required       the key of all draws" }
        Name::Walks => {
            "  --walks             0 to 100000     default 1      outlier trajectories"
        }
        Name::Steps => {
            "  --steps             1 to 1000000000 default 1000   steps of an outlier trajectory"
        }
        Name::Ends => {
            "  --ends              0 to 100000     default 0      trajectories of the parallel test"
        }
        Name::HubSteps => {
            "  --hub-steps         1 to 1000000000 default 1000   steps to the hub, and from it to an end"
        }
        Name::Ask => {
            "  --ask               SCORE:TAIL,..   required       1 to 4 tests, joined by commas"
        }
        Name::Workers => {
            "  --workers           1 to 32         default 1      threads that walk"
        }
        Name::Budget => {
            "  --budget            0 to 100000     default 100000 most trajectories that this run walks"
        }
        Name::Save => {
            "  --save              0 to 100000     default 0      trajectories between checkpoints; 0: none"
        }
        Name::Resume => {
            "  --resume            yes or no       default no     go on from the newest checkpoint"
        }
        Name::MaxCut => {
            "  --max-cut           0 to 400000     default 400000 most cut edges of a plan"
        }
        Name::Shift => {
            "  --shift             yes or no       default no     report how the visited plans' seats differ"
        }
        Name::Stop => {
            "  --stop              0 to 100000     default 0      ends in the tail that stop a test; 0: never"
        }
        Name::Serial => {
            "  --serial            yes or no       default no     make the serial test too"
        }
        Name::Region => {
            "  --region            COLUMN          default none   the column of regions, as counties"
        }
        Name::MaxSplit => {
            "  --max-split         1 to 200        default 200    most districts of a region"
        }
        Name::Parts => {
            "  --parts             1 to 100000     default 1      parts into which trajectories are dealt"
        }
        Name::Part => {
            "  --part              0 to 100000     default 0      the part that this run walks"
        }
        Name::MaxSplits => {
            "  --max-splits        0 to 995000     default 995000 most splits of regions in all"
        }
        Name::MaxSplitRegions => {
            "  --max-split-regions 0 to 5000       default 5000   most regions in more than one district"
        }
        Name::Group => {
            "  --group             COLUMN          default none   the column of a group of people"
        }
        Name::GroupOf => {
            "  --group-of          COLUMN          default none   the column of the group's whole"
        }
        Name::GroupDistricts => {
            "  --group-districts   0 to 200        default 0      least districts where it is a majority"
        }
        Name::Source => {
            "  --source            yes or no       default no     report the SHA-256 of what was read"
        }
        Name::Ids => {
            "  --ids               ID or ID-ID     default 0      the trajectories that are shown"
        }
        Name::Thin => {
            "  --thin              1 to 1000000000 default 1000   steps between two plans that are shown"
        }
        Name::GroupShare => {
            "  --group-share       0 to 10000      default 5000   share above which it is, in 1/100 percent"
        }
        Name::Freeze => {
            "  --freeze            COLUMN          default none   the column of units that stay where they are"
        }
        Name::Length => {
            "  --length            COLUMN          default none   the column of the edges' lengths"
        }
        Name::MaxLength => {
            "  --max-length        0 to 1717986918000000 default 1717986918000000 most total length of cut edges"
        }
        Name::Pairs => {
            "  --pairs             yes or no       default no     report the test by pairs of walks too"
        }
        Name::CutWeight => {
            "  --cut-weight        1 to 64         default 64     weight of a cut edge, in 64ths by .25; 64: none"
        }
        Name::Blind => {
            "  --blind             yes or no       default no     report the moves of each walk, and no score"
        }
    }
}
