//! Writing a whole text to a sink.

ghost use Rattle.report.specs.AddedText.{WritesAllOf};
ghost use Rattle.audit_statement.specs.DueText.{LetsText};

use audit_io::sink::Sink;
use audit_io::source::Failed;

/// Writes all of the text, or the part that the sink takes before it fails.
pub fn write_all<K: Sink>(out: &mut K, text: &[u8]) -> Result<(), Failed>
    requires { LetsText K.lets (K.state out.old) text.now }
    ensures { WritesAllOf (K.state out.old) (K.state out.new) text.now result }
{
    let mut at = 0;
    'turns: while at < text.len() {
        match out.write(&text[at..]) {
            Ok(count) => at += count,
            Err(_) => return Err(Failed),
        }
    }
    Ok(())
}
