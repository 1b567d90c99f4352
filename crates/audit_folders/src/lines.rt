//! The lines about folders.

ghost use Rattle.std.specs.Prelude.{◌≡◌, ◌++◌, ◌∷◌, [], List, ℕ, codes, decimal, map, string_bytes};
ghost use Rattle.ckpt_store.specs.declared.finding.Finding.TheVariants as what;
ghost use Rattle.audit_statement.specs.Note.{as_line};
ghost use Rattle.audit_folders.specs.FolderLines.{beside_text, folder_texts, name_of, own_texts};
ghost use Rattle.report.specs.Pieces.{piece_text};
ghost use Rattle.report.specs.AddedText.{AddsText, LetsNext};

use audit_io::sink::Sink;
use ckpt_store::finding::Finding;
use report::note::add_line;
use report::piece::Piece;
use report::piece::Piece::{Number, Text};

// Returns the text after the number of outcomes. `beside` is true if the folder's other slot is damaged.
fn beside_of(beside: bool) -> &'static str
    ensures { result.now ≡ beside_text beside }
{
    if beside { ", one slot is damaged" } else { "" }
}

// Returns the name of the folder with this number. The working folder has number 0, the first of `names` number 1.
fn name_of(names: &[String], number: usize) -> &str
    ensures { result.now ≡ name_of (map string_bytes names.now) number }
{
    if number == 0 {
        return ".";
    }
    match names.get(number - 1) {
        Some(name) => name.as_str(),
        None => "",
    }
}

/// Writes the pieces `first` and the finding on the working folder as one line, if `going` is true. Returns true if no
/// write has failed.
pub(crate) fn add_own_line<N: Sink>(
    out: &mut N,
    going: bool,
    first: &[Piece],
    finding: &Finding,
) -> bool
    requires { LetsNext N.lets (N.state out.old) going (as_line (map piece_text first.now ++ own_texts finding.now)) }
    ensures { AddsText (N.state out.old) (N.state out.new) going (as_line (map piece_text first.now ++ own_texts finding.now)) result }
{
    match finding {
        Finding::Added { count, beside, .. } => {
            let count = Number(u64::from(*count));
            let beside = Text(beside_of(*beside));
            add_line(
                out,
                going,
                first,
                &[Text("working folder: "), count, Text(" outcomes"), beside],
            )
        }
        Finding::Nothing => add_line(out, going, first, &[Text("working folder: no checkpoint")]),
        Finding::OtherJob => add_line(
            out,
            going,
            first,
            &[Text("working folder: another job's checkpoint")],
        ),
        Finding::Damaged => add_line(
            out,
            going,
            first,
            &[Text("working folder: no slot is intact")],
        ),
        Finding::Differs { .. } => add_line(
            out,
            going,
            first,
            &[Text("working folder: an outcome differs")],
        ),
        Finding::Unread => add_line(
            out,
            going,
            first,
            &[Text("working folder: a slot cannot be read")],
        ),
        Finding::Taken => add_line(out, going, first, &[Text("working folder: a run holds it")]),
    }
}

// Returns the line of a folder whose outcomes were added.
fn added_pieces(name: &str, count: u32, new: u32, beside: bool) -> [Piece<'_>; 8]
    ensures { map piece_text result ≡ folder_texts [] name.now (what.Added count new beside) }
{
    [
        Text("folder "),
        Text(name),
        Text(": "),
        Number(u64::from(count)),
        Text(" outcomes, "),
        Number(u64::from(new)),
        Text(" new"),
        Text(beside_of(beside)),
    ]
}

// Returns the line of a folder that gives no outcomes: its name and these words.
fn named_pieces<'x>(name: &'x str, words: &'x str) -> [Piece<'x>; 3]
    ensures { map piece_text result ≡ codes "folder " ∷ name.now ∷ words.now ∷ [] }
{
    [Text("folder "), Text(name), Text(words)]
}

// Returns the line of an outcome that differs in two folders.
fn differing_pieces<'x>(id: u32, other: &'x str, name: &'x str) -> [Piece<'x>; 6]
    ensures { map piece_text result ≡ codes "outcome " ∷ decimal id ∷ codes " differs in " ∷ other.now ∷ codes " and " ∷ name.now ∷ [] }
{
    [
        Text("outcome "),
        Number(u64::from(id)),
        Text(" differs in "),
        Text(other),
        Text(" and "),
        Text(name),
    ]
}

/// Writes the pieces `first` and the finding on a folder as one line, if `going` is true. Returns true if no write has
/// failed.
pub(crate) fn add_folder_line<'x, N: Sink>(
    out: &mut N,
    going: bool,
    first: &[Piece],
    names: &'x [String],
    name: &'x str,
    finding: &Finding,
) -> bool
    requires { LetsNext N.lets (N.state out.old) going (as_line (map piece_text first.now ++ folder_texts (map string_bytes names.now) name.now finding.now)) }
    ensures { AddsText (N.state out.old) (N.state out.new) going (as_line (map piece_text first.now ++ folder_texts (map string_bytes names.now) name.now finding.now)) result }
{
    match finding {
        Finding::Added { count, new, beside } => {
            let line = added_pieces(name, *count, *new, *beside);
            add_line(out, going, first, &line)
        }
        Finding::Nothing => {
            let line = named_pieces(name, ": no checkpoint");
            add_line(out, going, first, &line)
        }
        Finding::OtherJob => {
            let line = named_pieces(name, ": another job's checkpoint");
            add_line(out, going, first, &line)
        }
        Finding::Damaged => {
            let line = named_pieces(name, ": no slot is intact");
            add_line(out, going, first, &line)
        }
        Finding::Differs { id, other } => {
            let line = differing_pieces(*id, name_of(names, *other), name);
            add_line(out, going, first, &line)
        }
        Finding::Unread => {
            let line = named_pieces(name, ": a slot cannot be read");
            add_line(out, going, first, &line)
        }
        Finding::Taken => {
            let line = named_pieces(name, ": a run holds it");
            add_line(out, going, first, &line)
        }
    }
}
